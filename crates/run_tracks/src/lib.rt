//! Passes of workers come home, and what each worker did through its ports is found in the whole history of each channel.
#![tactic(auto)]

mod bring;
mod close;
mod drain;
mod hands;
mod laws;
mod open;
mod stop;

pub use bring::{bring_home, end_ports};
pub use close::close_all;
pub use drain::{DrainedSink, drain_home};
pub use hands::{deal, draw};
pub use laws::{
    batch_is_in_tracks, drain_is_in_track, empty_run_found_none, every_number_is_home,
    listening_is_in_tracks, passes_are_dealt, rounds_are_in_track,
};
pub use open::open_ports;
pub use stop::{count_all, keep_all, mend_all};

//! A channel on a disk. In memory it keeps pointers to its events.
#![tactic(auto)]

mod channel;
mod checks;
mod keeping;
mod laws;
mod laying;
mod logged;
mod mending;
mod opening;
mod pruning;
mod reading;

pub use channel::{FileChannel, OpenRefused, open_channel};
pub use laws::an_event_stands_in_each_image;
pub use logged::LoggedPlaces;

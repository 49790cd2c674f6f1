//! Opens a channel's folder from its newest checkpoint: reads that, and replays the log after its place.
#![tactic(auto)]

mod laws;
mod opening;
mod refused;

pub use laws::{a_grown_folder_begins, begins_are_starts, recovers_to_once};
pub use opening::{NewestCheck, Opened, open_newest};
pub use refused::OpeningRefused;

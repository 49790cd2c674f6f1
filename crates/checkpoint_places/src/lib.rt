//! What a checkpoint of a channel's places says: it is right for the folder, and its start has what the channel's state has.
#![tactic(auto)]

mod laws;
mod least;

pub use laws::{a_state_has_a_start, places_are_right, places_are_said};
pub use least::least_named;

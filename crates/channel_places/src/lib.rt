//! What a channel keeps of its events in memory: where they stand, and which transaction has which.
#![tactic(auto)]

mod places;
mod settling;

pub use places::Held;

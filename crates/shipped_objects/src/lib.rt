//! The objects that the program hands in to an agent.
#![tactic(auto)]

mod sample;
mod tally;

pub use sample::Sample;
pub use tally::Tally;

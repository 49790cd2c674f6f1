//! The generator of `load`: it fills a shared channel with events that it makes, takes some of them out again, and tells what it did.
#![tactic(auto)]

mod counting;
mod events;
mod keeping;
mod puts;
mod refused;
mod running;
mod takes;
mod tally;

pub use refused::LoadRefused;
pub use running::generate;

//! A channel in memory.
#![tactic(auto)]

mod channel;

pub use channel::MemoryChannel;

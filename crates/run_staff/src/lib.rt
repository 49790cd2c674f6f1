//! The workers of a run by kind, what comes back of them, and whose number is whose.
#![tactic(auto)]

mod workers;

pub use workers::{LineEnded, Returned, Workers};

//! A sink that writes the bodies of events into files, and starts a new file after some time and after a fault.
#![tactic(auto)]

mod laws;
mod sink;
mod write;

pub use laws::delivered_batches_are_in_files;
pub use sink::{RollRefused, RollSink};

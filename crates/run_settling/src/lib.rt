//! What the caller does with the channels of a run after its workers: sinks empty them, and then they are kept, mended, counted and
//! closed.
#![tactic(auto)]

mod at_home;
mod draining;
mod settling;

pub use at_home::AtHome;
pub use draining::drain_sinks;
pub use settling::{Settled, settle};

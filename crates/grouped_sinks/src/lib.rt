//! What one worker of a run drives: a sink that stands in no group, or a group of sinks. Sinks that were opened in the order of their
//! plan are handed to the rows of a run, and come back in that order.
#![tactic(auto)]

mod frame;
mod grouping;
mod laws;
mod row;
mod runner;

pub use frame::{Frame, frames_of};
pub use grouping::{group_sinks, ungroup_sinks};
pub use laws::{rows_are_apart, runners_split};
pub use row::{SinkRow, rows_of};
pub use runner::Runner;

//! What ends a run of the agent: each sink empties its channel, the report is written, and the exit status is found.
#![tactic(auto)]

mod draining;
mod ends;
mod reporting;

pub use draining::{ChannelDrain, drain_channel};
pub use ends::{InputEnd, ReportRefused, RunEnds};
pub use reporting::write_report;

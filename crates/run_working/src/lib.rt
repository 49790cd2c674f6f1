//! The workers of a run: they get ports of their channels, run beside one another, and their passes come home.
#![tactic(auto)]

mod homes;
mod ports;
mod rooms;
mod rows;
mod running;

pub use homes::{end_lines, end_listeners, end_sinks};
pub use running::run_workers;

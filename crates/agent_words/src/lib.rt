//! The words of the command line, what is said on standard error, and the report.
#![tactic(auto)]

mod command;
mod error;
mod flag;
mod laws;
mod reporting;

pub use command::{Command, read_words};
pub use error::RunError;
pub use laws::one_asked;
pub use reporting::report;

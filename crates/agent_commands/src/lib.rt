//! The commands that run in one thread: `pipe`, `check` and `load`.
#![tactic(auto)]

mod check;
mod errors;
mod load;
mod pipe;
mod traced;

pub use check::{Planned, plan_agent, run_check};
pub use errors::say_error;
pub use load::{LoadCause, LoadEnded, run_load};
pub use pipe::{PassLines, PipeEnd, PipeEnded, run_pipe};
pub use traced::TracedChannel;

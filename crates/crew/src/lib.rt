//! Workers that run in threads of their own and come back as values: what a worker is, rows of them that run beside each
//! other, the stop that all of them look at, and pauses that end at it.
#![tactic(auto)]

mod draining;
mod pause;
mod row;
mod stop;
mod work;

pub use draining::{DrainEnd, DrainWorker, drain};
pub use pause::rest;
pub use row::{run_all, run_row, run_rows};
pub use stop::{Stop, Watch};
pub use work::Work;

//! The worker of lines: it serves one session on an input and an output, puts each line into its channels, mends these where a
//! line met a broken one, and sets the stop once the session has ended.
#![tactic(auto)]

mod answers;
mod begin;
mod lane;
mod serving;
mod worker;
mod working;

pub use worker::LineWorker;

//! The worker of a listener: it accepts one link after the other and serves the lines or the Avro calls of each until it is told
//! to stop, and mends its channels after each session.
#![tactic(auto)]

mod answers;
mod begin;
mod ends;
mod listens;
mod mending;
mod round;
mod service;
mod worker;
mod working;

pub use begin::chain_of;
pub use ends::{LinkEnd, SessionRules};
pub use mending::mend_all;
pub use worker::ListenWorker;

//! How a source puts a batch of events: they pass a chain of interceptors, a selector names the channels of each, and each
//! channel is given its own in one transaction.
#![tactic(auto)]

mod chain;
mod intake;
mod pick;
mod ports;
mod put;

pub use chain::{Chain, ChainLink, HostNames, Passed, Stopped};
pub use intake::{Intake, Verdict};
pub use put::Refusal;

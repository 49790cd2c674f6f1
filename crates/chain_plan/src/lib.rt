//! A chain of interceptors as a plan, which goes to the thread of a source's worker and is built there: a compiled pattern
//! cannot be handed to another thread, and its text can.
#![tactic(auto)]

mod build;
mod plan;

pub use build::build_chain;
pub use plan::LinkPlan;

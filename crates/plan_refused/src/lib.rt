//! Why an agent has no plan, in a crate of its own: who prints that reads no part of the planning.
#![tactic(auto)]

mod refused;

pub use refused::PlanRefused;

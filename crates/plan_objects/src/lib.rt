//! What is handed in to an agent, and what a plan asks for of it.
#![tactic(auto)]

mod claim;
mod handed;
mod named;
mod steps;

pub use claim::{ClaimRefused, Objects, claim_objects};
pub use handed::{HandedIn, MAX_PLUGINS, Plugins, PluginsRefused};
pub use named::Named;
pub use steps::asks_for_object;

//! Interceptors that set or remove headers of an event.
#![tactic(auto)]

mod step;

pub use step::{Step, apply};

//! Selectors: which channels of a source get an event, by its headers.
#![tactic(auto)]

mod choice;
mod selector;

pub use choice::is_among;
pub use selector::{Choice, Selector, select};

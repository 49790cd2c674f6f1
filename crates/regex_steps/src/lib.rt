//! Interceptors that look for a regular expression in an event's body: a filter, an extractor of headers, and search and
//! replace.
#![tactic(auto)]

mod civil;
mod date_pattern;
mod groups;
mod keys;
mod patterns;
mod step;

pub use date_pattern::DatePattern;
pub use keys::{BuildRefused, Group, RegexKeys};
pub use step::RegexStep;

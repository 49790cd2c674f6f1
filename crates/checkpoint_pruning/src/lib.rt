//! Removes the files of a channel's folder that its newest checkpoint does not need.
#![tactic(auto)]

mod laws;
mod pruning;

pub use laws::pruned_at_any_moment;
pub use pruning::prune;

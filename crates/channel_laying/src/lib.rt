//! Lays a checkpoint of a channel on the disk where its log is, and removes the files that it does not need.
#![tactic(auto)]

mod laying;
mod pruning;

pub use laying::lay_checkpoint;
pub use pruning::prune_log;

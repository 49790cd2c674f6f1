//! The worker of a channel on a disk: after each interval it lays a checkpoint and removes the files that the newest one does
//! not need, and mends the channel where it met a broken one, until it finds the stop set.
#![tactic(auto)]

mod answers;
mod keeping;
mod round;
mod worker;
mod working;

pub use keeping::{Upkeep, keep};
pub use worker::KeepWorker;

//! The worker of a sink: it takes events out of its channel and delivers them, one sink run after the other until it finds
//! the stop set, pauses by what a run came to, and mends the channel where it met a broken one.
#![tactic(auto)]

mod answers;
mod round;
mod worker;
mod working;

pub use worker::SinkWorker;

//! Shared channels of two kinds as one type: one port for sources, sinks and those who keep a channel, whether the channel is
//! on a disk or not.
#![tactic(auto)]

mod faces;
mod keeping;
mod mending;
mod port;
mod shared;
mod upkeep;

pub use port::EitherPort;
pub use shared::{EitherClosed, EitherShared};

//! Which channels a run of an agent wants, and what it has of each that was opened.
#![tactic(auto)]

mod opened;
mod parts;
mod refused;
mod wish;

pub use opened::OpenedChannel;
pub use parts::take_apart;
pub use refused::ChannelRefused;
pub use wish::{ChannelPlace, ChannelWish};

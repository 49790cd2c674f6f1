//! Agents that lose, repeat and restart, as a machine without threads or bytes: a world of nodes with channels, works, attempts
//! and packets, and each step that it can take.
#![tactic(auto)]

mod channel;
mod lists;
mod node;
mod packets;
mod plan;
mod puts;
mod refusals;
mod same;
mod selector;
mod work;
mod world;

pub use channel::NodeChannel;
pub use hop_attempt::{Attempt, Decision};
pub use node::Node;
pub use packets::{Body, Delivery, Packet, Tag};
pub use plan::{HopStep, WorldChannel, WorldNode, WorldPlan};
pub use work::{EntryName, OpenAttempt, Work};
pub use world::World;

//! The lists of a channel with transactions: what is left, open and staged.
#![tactic(auto)]

mod calls;
mod channel;
mod copied;
mod copies;
mod counted;
mod lists;
mod machine;
mod opened;
mod settle;

pub use calls::{Call, Reply, note};
pub use counted::CountedLists;
pub use lists::ChannelLists;
pub use machine::Machine;

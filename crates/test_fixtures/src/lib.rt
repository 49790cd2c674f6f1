//! What the crates of tests share: events, batches, puts of one event, channels in folders of the disk in memory, words of
//! command lines and a worked configuration.
#![tactic(auto)]

mod made;
mod opened;
mod putting;
mod words;

pub use made::{batch, event, event_with, headers_of, one};
pub use opened::{
    OpenAnswer, channel_on, disk_after_opening, disk_failing_at, disk_failing_in_flush, open,
    reopen,
};
pub use putting::put;
pub use words::{WORKED, owned};

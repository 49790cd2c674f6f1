//! Events with their headers, batches of events, and the entries of a channel's journal.
#![tactic(auto)]

mod event;
mod journal;
mod refused;

pub use event::{Event, HeaderPairs, Headers, MAX_EVENT_SIZE, MAX_KEPT_SIZE, put};
pub use journal::{Batch, Entry, MOST_OPEN, Numbers};
pub use refused::{EventRefused, NoMemory};

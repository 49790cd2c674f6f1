//! What the records of a log make of a ring of places and a table of what is open.
#![tactic(auto)]

mod folder;
mod indexing;
mod settling;

pub use folder::{Replayed, apply_rest, begin_file, replay, within};
pub use indexing::Indexing;

//! The open transactions of a log: which there are, and where the puts of each stand or what its takes are.
#![tactic(auto)]

mod table;

pub use table::{Ended, Item, OpenTable, TableRefused};

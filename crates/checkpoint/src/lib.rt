//! The checkpoint of a channel's folder: its text is laid after a closed commit byte, which is opened at last.
#![tactic(auto)]

mod check;
mod file;
mod place;
mod text;
mod writing;

pub use check::Check;
pub use file::{LayRefused, open_gate};
pub use place::{Next, Place};
pub use writing::lay;

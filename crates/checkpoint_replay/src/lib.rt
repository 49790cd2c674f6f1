//! Replays the log of a folder from a checkpoint's place on.
#![tactic(auto)]

mod folder;
mod laws;
mod reading;

pub use folder::replay;
pub use laws::checks_are_kept;
pub use reading::apply_log;

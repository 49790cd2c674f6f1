//! Each line that a source takes is answered `OK` where nothing failed, unless a limit was met. Its functions do nothing: each states a
//! law.
#![tactic(auto)]

mod laws;

pub use laws::{line_is_sound, lines_are_sound, links_are_sound};

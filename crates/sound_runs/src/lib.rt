//! Laws of what a run answers where nothing failed.
#![tactic(auto)]

mod sound;

pub use sound::{dialogues_are_sound, listeners_are_sound, nothing_failed, runs_are_sound};

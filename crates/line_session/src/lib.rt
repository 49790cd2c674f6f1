//! One session of lines: a source is cut into lines, a store takes each, and a sink is told what became of it.
#![tactic(auto)]

mod session;

pub use session::{LineStore, SessionEnd, serve_lines};

//! Properties text, as Flume's configuration files are written in it: the lines, the pairs, and the pairs that count.
#![tactic(auto)]

mod fault;
mod lines;
mod pairs;
mod table;
mod utf8;

pub use fault::PropRefused;
pub use pairs::trim;
pub use table::{Properties, read_properties};

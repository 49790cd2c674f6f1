//! Tests as texts: the reader of scenarios, parts of their lines as numbers and bytes, and log files spelled piece by piece.
#![tactic(auto)]

mod pieces;
mod reader;
mod texts;

pub use pieces::{long_file, spelled};
pub use reader::{Scene, Wrong, pass, wrong_in};
pub use texts::{
    add_text, are_numbers, is_text, number_of, numbers_of, owned, three_numbers, two_numbers,
    value_of, word_and_numbers, word_and_rest,
};

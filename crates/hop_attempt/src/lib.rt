//! What a sink does with its open take once the reply to its delivery is there.
#![tactic(auto)]

mod attempt;

pub use attempt::{Attempt, Decision};

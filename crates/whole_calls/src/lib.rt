//! What the whole calls of workers leave of their transactions in the histories of the channels: none is open. Its functions do
//! nothing: each states a law.
#![tactic(auto)]

mod laws;

pub use laws::{
    batches_are_over, drains_are_over, each_is_over, listens_are_over, none_is_open, puts_are_over,
    rounds_are_over, they_stay_over,
};

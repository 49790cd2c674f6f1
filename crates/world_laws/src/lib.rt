//! The delivery model of several agents: its steps, the accounting that each step keeps, and what follows from this. Its functions
//! do nothing: each states a law.
#![tactic(auto)]

mod laws;
mod marks;

pub use laws::{
    acknowledged_is_kept, acknowledged_is_kept_down, calls_of_the_worked_world,
    each_is_left_or_taken_once, each_step_keeps_the_accounting, every_run_keeps_the_accounting,
    new_is_held, no_delivery_is_named_twice, nothing_is_taken_back, reply_is_lost,
};
pub use marks::{
    batch_stores, calls_are_steps, reached_goes_on, spills_are_steps, takes_are_marked,
};

//! The agent's top call, and a run of an agent from its plan to what is given back.
#![tactic(auto)]

mod agent;
mod joined;
mod laws;
mod outcome;
mod rests;
mod run;
mod through;
mod told;

pub use laws::{
    keepers_stay_told, lines_are_answered, lines_stay_told, listeners_stay_told,
    own_numbers_are_kept, runs_are_told, silence_is_kept, sinks_are_whole, workers_ran,
};
pub use outcome::Outcome;
pub use run::run_agent;
pub use run_opening::{ChannelEnd, Worker};
pub use through::{RunOf, RunnerOf, Runs, Steps};
pub use told::{folders_are_apart, steps_are_told};

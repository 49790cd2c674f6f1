//! Groups of sinks: which member is handed a batch, and which are left alone for a time after they failed.
#![tactic(auto)]

mod laws;
mod ranking;
mod rules;
mod run;
mod schedule;
mod sink;
mod standing;

pub use laws::{
    each_batch_is_taken_once, each_batch_of_a_sink_is_taken_once, leaves_alone_after_a_failure,
    tries_all_that_are_due,
};
pub use rules::{GroupKind, GroupRefused, GroupRules};
pub use run::GroupRun;
pub use schedule::Schedule;
pub use sink::GroupSink;

//! The plan of an agent: its sources, channels, sinks and groups, and what plan the pairs of a properties text have, or what is
//! first at fault in them.
#![tactic(auto)]

mod laws;
mod plan;

pub use laws::{first_fault_is_first, least_missing_is_least};
pub use plan::{
    ChannelKind, ChannelPlan, GroupPlan, Plan, Processor, SinkKind, SinkPlan, SourceKind,
    SourcePlan, StepPlan,
};

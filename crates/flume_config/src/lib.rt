//! Planning an agent: its plan is read from the pairs of a properties text, or what is first at fault in them is named.
#![tactic(auto)]

mod agent;
mod patterns;
mod planning;
mod routing;
mod stepping;
mod values;

pub use agent::plan_of;
pub use agent_plan::{
    ChannelKind, ChannelPlan, GroupPlan, Plan, Processor, SinkKind, SinkPlan, SourceKind,
    SourcePlan, StepPlan, first_fault_is_first, least_missing_is_least,
};
pub use plan_refused::PlanRefused;

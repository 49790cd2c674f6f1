//! One sink over the kinds of a single sink that an agent may have: one that drops, rolled files, Avro, and one that was
//! handed in.
#![tactic(auto)]

mod sink;

pub use sink::AgentSink;

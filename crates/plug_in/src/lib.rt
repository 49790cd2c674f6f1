//! What is handed in to the agent: interceptors, which change events on their way into the channels, and sinks, which take
//! events out of them.
#![tactic(auto)]

mod sink;
mod step;

pub use sink::{EventSink, SinkRefused};
pub use step::{Intercepted, Interceptor};

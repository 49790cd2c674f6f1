//! One run of a sink: events are taken from a channel, delivered, and only then committed.
#![tactic(auto)]

mod laws;
mod null;
mod take;
mod turn;

pub use laws::commits_what_it_delivered;
pub use null::NullSink;
pub use take::MAX_TURN_SIZE;
pub use turn::{Turn, TurnCause, drain_turn};

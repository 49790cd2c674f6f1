//! One connection of Avro's handshake and calls, as a server answers it and as a client asks it.
#![tactic(auto)]

mod accepted;
mod ask;
mod call;
mod handshake;
mod hop;
mod laws;
mod look;
mod protocol;
mod reply;
mod respond;
mod types;

pub use accepted::accepts;
pub use ask::{add_asking, asked_for, asking_fits};
pub use hop::{Asked, Hop, HopRefused};
pub use laws::{
    answers_are_spelled, one_answer, one_dialogue, one_fault_at_a_place, one_reading,
    types_at_any_depth,
};
pub use protocol::protocol_text;
pub use reply::{one_reply, read_reply};
pub use respond::{Status, write_response};

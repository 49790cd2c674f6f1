//! Packs of the framing of Avro's Java Netty transport, in whatever pieces they come.
#![tactic(auto)]

mod packs;
mod pending;
mod write;

pub use packs::{Message, PackRefused, Packs, no_pack_within, one_cut, one_feed, one_pack};
pub use pending::{MAX_BUFFERS, MAX_BYTES};
pub use write::{begin_pack, end_pack, write_pack};

//! What a run of an agent prepares, opens and takes before its workers run, and how its streams and listeners go back.
#![tactic(auto)]

mod assemble;
mod channel_end;
mod labels;
mod lists;
mod opening;
mod outside;
mod preparing;
mod seats;
mod staff;
mod streams;
mod wishes;

pub use assemble::Crew;
pub use channel_end::{ChannelEnd, Worker};
pub use labels::{ChannelLabel, add_ends};
pub use lists::{ChannelLists, WorkerLists};
pub use opening::{Manned, Opening, Room, man, room_of};
pub use outside::{Grouped, Outside, give_listeners, group_outside, open_outside};
pub use preparing::{Prepared, name_error, prepare};
pub use seats::{KeepSeat, Seat};
pub use streams::{StreamsEnded, keep_streams, report_on};

//! The records of a channel's log, and their bytes.
#![tactic(auto)]

mod building;
mod fields;
mod laws;
mod outlines;
mod reading;
mod record;
mod writing;

pub use building::rec_of;
pub use laws::{cut_is_part, lengths, one_spelling, read_is_spelled, written_is_read};
pub use outlines::read_outline;
pub use reading::read_record;
pub use record::{MAX_PUT_SIZE, Outline, Pointer, Read, Rec};
pub use writing::{put_u32, put_u64, write_put, write_record};

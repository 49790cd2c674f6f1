//! Values in Avro's binary encoding: several spellings are read, and the shortest is written.
#![tactic(auto)]

mod event;
mod items;
mod laws;
mod number;
mod refused;
mod value;
mod write;

pub use event::{read_batch, read_event};
pub use items::read_meta;
pub use laws::{
    facts_of_batches, no_fault_in_a_value, one_fault_at_a_place, one_spelling_at_a_place,
    shortest_is_written, written_is_spelled,
};
pub use number::{read_int, read_long};
pub use refused::ValueRefused;
pub use value::{read_bool, read_bytes, read_fixed, read_text};
pub use write::{
    add_batch, write_batch, write_bool, write_bytes, write_event, write_fixed, write_int,
    write_long, write_text,
};

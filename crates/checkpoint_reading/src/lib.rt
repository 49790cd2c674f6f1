//! Reading the newest checkpoint of a channel's folder.
#![tactic(auto)]

mod draft;
mod head;
mod laws;
mod live;
mod logs;
mod number;
mod opens;
mod puts;
mod reader;
mod refused;
mod takes;
mod whole;

pub use laws::{fault_is_wrong, one_outcome, read_is_right, right_is_read};
pub use number::newest_number;
pub use reader::CheckReader;
pub use refused::CheckReadRefused;
pub use whole::newest;

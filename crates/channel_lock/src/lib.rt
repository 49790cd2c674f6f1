//! One value that threads share, one at a time, whose calls have one history.
#![tactic(auto)]

mod guarded;
mod lock;
mod named;
mod plays;
mod view;

pub use guarded::{Guarded, Named, Picked};
pub use lock::{ChannelLock, Gather, Place, Unshared};
pub use view::SeatView;

//! A channel that threads share: any channel behind one lock, many callers, one legal history.
#![tactic(auto)]

mod carries;
mod durable;
mod home;
mod keeper;
mod looks;
mod pass;
mod port;
mod reopening;
mod shared;

pub use carries::{Carries, Joins};
pub use looks::Look;
pub use pass::{Closed, Pass, Unshared};
pub use port::Port;
pub use shared::Shared;

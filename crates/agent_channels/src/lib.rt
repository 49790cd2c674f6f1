//! The channels of a run of an agent: each is opened, and shared among its workers.
#![tactic(auto)]

mod close;
mod laws;
mod one;
mod several;
mod sharing;
mod unused;

pub use close::close_channels;
pub use laws::closed_channels_fit;
pub use one::open_one;
pub use several::open_channels;
pub use unused::give_all_unused;

//! The outside in memory, whose contents contracts see, with chosen failures. A disk also shows what a crash might have
//! left of it at each moment.
#![tactic(auto)]

mod address;
mod ends;
mod flags;
mod given;
mod held_disk;
mod mem_clock;
mod mem_dialer;
mod mem_disk;
mod mem_halt;
mod mem_host;
mod mem_link;
mod mem_listener;
mod mem_roll;
mod named;
mod parts;
mod script;
mod stops;
mod store;
mod stream;

pub use address::{Address, Placed};
pub use flags::Flag;
pub use held_disk::{DiskCall, HeldDisk};
pub use mem_clock::{MemClock, MemRandom};
pub use mem_dialer::MemDialer;
pub use mem_disk::{DiskFault, MemDisk};
pub use mem_halt::MemHalt;
pub use mem_host::MemHost;
pub use mem_link::{LinkStep, MemLink};
pub use mem_listener::{MemListener, Offer};
pub use mem_roll::{MemRoll, RolledFile};
pub use named::Named;
pub use parts::{MemFile, Part};
pub use stops::Stood;
pub use stream::{MemSink, MemSource};

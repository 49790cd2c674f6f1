//! The outside of the agent as traits: a source and a sink of bytes, a disk that is one folder of files, a folder of
//! rolled files, links with peers, who accepts them and who dials them, time and chance, the wish to stop, and the host
//! that hands them out. Each object counts its faults, and may show its contents to the contracts.
#![tactic(auto)]

mod clock;
mod disk;
mod halt;
mod host;
mod link;
mod listener;
mod names;
mod roll;
mod steps;
mod stream;
mod write;

pub use clock::{Clock, Random};
pub use disk::Disk;
pub use halt::Halt;
pub use host::Host;
pub use link::{Link, LinkRead};
pub use listener::{Dialer, Listener};
pub use names::{FILE_LIMIT, Failed, FileName, FileRefused, NameRefused, NoMemory};
pub use roll::RollDir;
pub use steps::Steps;
pub use stream::{Sink, Source};
pub use write::{write_all, write_out};

//! The host that a program runs in: the standard streams, folders of the file system as disks and as rolled files, TCP
//! listeners, dialers and links, the system's clock and its random numbers. What these really hold no contract can say; what is proved is how failures count.
#![tactic(auto)]

mod dialer;
mod disk;
mod host;
mod link;
mod listener;
mod roll;
mod sockets;
mod times;

pub use dialer::RealDialer;
pub use disk::RealDisk;
pub use host::{RealHost, RealSink, RealSource};
pub use link::RealLink;
pub use listener::RealListener;
pub use roll::RealRoll;
pub use times::{RealClock, RealRandom};

//! What a test of the top call starts from and looks at: hosts in memory, and the words of its scenarios. A crate of tests hands the
//! call itself in.
#![tactic(auto)]

mod bytes;
mod crashes;
mod ended;
mod left;
mod logs;
mod looks;
mod made;
mod objects;
mod own_host;
mod packs;
mod reader;
mod runs;
mod scene;
mod texts;
mod words;

pub use ended::Ended;
pub use objects::{Notes, Passer, Scribe, passer_of, scribe_of};
pub use own_host::{Gate, GatedDisk, LongSource, OwnHost, SlowClock};
pub use reader::pass;
pub use runs::TopCall;

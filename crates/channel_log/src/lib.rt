//! The log files of a channel: a header, and frames of records after commit bytes.
#![tactic(auto)]

mod laws;
mod loading;
mod pointers;
mod reader;
mod scan;
mod window;
mod writer;

pub use laws::{
    a_pending_put_stands, a_piece_grows, a_put_is_read, a_put_stays, one_content, one_event_stands,
    some_content, stands_in_each_image,
};
pub use loading::FrameRefused;
pub use pointers::{ReadRefused, read_put};
pub use reader::{LogReader, birth_of, record_at};
pub use scan::{Scan, scan_frame};
pub use writer::{LAST_FILE, LogBeginRefused, LogFlushRefused, LogRollRefused, LogWriter};

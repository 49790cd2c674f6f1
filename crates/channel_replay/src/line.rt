// What stands in a log, in order.
use record_form::Rec;

/// A line of a log, whose files are read in the order of their numbers.
#[derive(Drop)]
pub enum Line {
    /// A file begins, by which all open transactions are dropped.
    Begins,
    /// A record of a committed frame, with its file and offset.
    Stands { file: u32, at: u64, rec: Rec },
    /// A fault of a file's form, with the offset.
    Faulty { file: u32, at: u64 },
}

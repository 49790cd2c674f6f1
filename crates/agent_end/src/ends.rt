// What the parts of a run came to, and the exit status.
ghost use Rattle.std.specs.Prelude.{◌≡◌, ◌==◌, ◌||◌};
ghost use Rattle.std.specs.List.{list_any};
ghost use Rattle.agent_end.specs.Statuses.{drain_status, input_of, input_status, mend_status, report_status, run_status};

use crate::draining::ChannelDrain;
use channel_face::OpenCause;
use crew::DrainEnd;
use sink_runner::Turn;

/// What ended the reading of standard input: that of the session on it, or, without one, that of its draining.
#[derive(Clone, Copy, Debug, PartialEq, Eq)]
pub enum InputEnd {
    /// It was read to its end.
    End,
    /// It failed, or the output that it is answered on did.
    Fault,
    /// There was no memory for a line, or for the session to begin.
    NoMemory,
    /// A line was too long.
    LongLine,
    /// 2^40 bytes were read.
    Full,
}

impl InputEnd {
    /// The end of an input that was drained.
    pub fn of_drain(end: DrainEnd) -> InputEnd
        ensures { result ≡ input_of end }
    {
        match end {
            DrainEnd::End => InputEnd::End,
            DrainEnd::Full => InputEnd::Full,
            DrainEnd::ReadFault => InputEnd::Fault,
        }
    }

    fn status(self) -> u8
        ensures { result ≡ input_status self }
    {
        match self {
            InputEnd::End => 0,
            InputEnd::Fault => 3,
            InputEnd::NoMemory => 5,
            InputEnd::LongLine => 7,
            InputEnd::Full => 6,
        }
    }
}

/// Why the report was not written whole.
#[derive(Clone, Copy, Debug, PartialEq, Eq)]
pub enum ReportRefused {
    /// The output failed.
    Fault,
    /// Out of memory. Nothing was written.
    NoMemory,
}

fn report_status(end: Result<(), ReportRefused>) -> u8
    ensures { result ≡ report_status end }
{
    match end {
        Ok(()) => 0,
        Err(ReportRefused::Fault) => 3,
        Err(ReportRefused::NoMemory) => 5,
    }
}

impl ChannelDrain {
    fn status(self) -> u8
        ensures { result ≡ drain_status self }
    {
        match self {
            ChannelDrain::Stopped(Turn::NoMemory) => 5,
            _ => 0,
        }
    }
}

fn mend_status(mended: Result<bool, OpenCause>) -> u8
    ensures { result ≡ mend_status mended }
{
    match mended {
        Ok(_) => 0,
        Err(OpenCause::DiskFault) => 3,
        Err(OpenCause::NoMemory) => 5,
        Err(_) => 4,
    }
}

fn has_drain(drains: &[ChannelDrain], status: u8) -> bool
    ensures { result ≡ list_any (λ end. drain_status end == status) drains.now }
{
    drains.iter().any(|end| end.status() == status)
}

fn has_mend(mends: &[Result<bool, OpenCause>], status: u8) -> bool
    ensures { result ≡ list_any (λ mended. mend_status mended == status) mends.now }
{
    mends.iter().any(|mended| mend_status(*mended) == status)
}

/// What the parts of a run came to that its exit status tells of.
#[derive(Drop)]
pub struct RunEnds {
    /// What ended the reading of standard input.
    pub input: InputEnd,
    /// How each sink's draining ended.
    pub drains: Vec<ChannelDrain>,
    /// What each channel's mending at the stop was answered.
    pub mends: Vec<Result<bool, OpenCause>>,
    /// How the report was written.
    pub report: Result<(), ReportRefused>,
}

impl RunEnds {
    // Whether a part has this status.
    fn has(&self, status: u8) -> bool
        ensures { result ≡ ((input_status self.now.input == status)
            || ((report_status self.now.report == status)
            || (list_any (λ end. drain_status end == status) self.now.drains.items
            || list_any (λ mended. mend_status mended == status) self.now.mends.items))) }
    {
        self.input.status() == status
            || report_status(self.report) == status
            || has_drain(&self.drains, status)
            || has_mend(&self.mends, status)
    }

    /// The exit status: the first of 4, 3, 5, 7 and 6 that a part has, or 0. A draining has 5 where it ended when out of memory;
    /// a channel that is still broken has 3, 4 or 5 by the cause of the refused reopening.
    pub fn status(&self) -> u8
        ensures { result ≡ run_status self.now }
    {
        if self.has(4) {
            4
        } else if self.has(3) {
            3
        } else if self.has(5) {
            5
        } else if self.has(7) {
            7
        } else if self.has(6) {
            6
        } else {
            0
        }
    }
}

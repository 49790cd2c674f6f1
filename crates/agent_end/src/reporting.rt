// The report is written.
ghost use Rattle.std.specs.Prelude.{◌≡◌};
ghost use Rattle.agent_end.specs.Writes.{IsWritten};
ghost use Rattle.agent_words.specs.Report.{report_text};

use crate::ends::ReportRefused;
use agent_words::report;
use channel_face::Counts;
use flume_host::{Sink, write_out};
use std::alloc::Global;

/// Writes the report of some channels, each by its name and its counts, and has it handed on.
pub fn write_report<K: Sink>(
    alloc: Global,
    channels: &[(String, Counts)],
    output: &mut K,
) -> Result<(), ReportRefused>
    ensures { IsWritten K.took K.handed K.faults output.old output.new
        (report_text channels.now) result }
{
    let Ok(text) = report(alloc, channels) else {
        return Err(ReportRefused::NoMemory);
    };
    let Ok(()) = write_out(output, text.as_bytes()) else {
        return Err(ReportRefused::Fault);
    };
    let Ok(()) = output.flush() else {
        return Err(ReportRefused::Fault);
    };
    Ok(())
}

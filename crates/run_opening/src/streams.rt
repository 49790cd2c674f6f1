// Standard input and output of a run.
ghost use Rattle.std.specs.Prelude.{◌≡◌, length, map};
ghost use Rattle.flume_host.specs.HostState.{HostState};
ghost use Rattle.agent_words.specs.Report.{report_text};
ghost use Rattle.run_opening.specs.Lists.{IsEmptyFor};
ghost use Rattle.run_opening.specs.Streams.{DrainKept, InTurn, IsButKept, IsButOutput, IsButTaken, IsReported, TalkKept, TalkTaken, drain_ended, end_of_draining, end_of_session, ended_of, last_or, output_failed, talk_ended};

use agent_end::{InputEnd, ReportRefused, write_report};
use channel_face::Counts;
use crew::{DrainEnd, DrainWorker};
use flume_host::Host;
use line_session::SessionEnd;
use run_staff::LineEnded;
use std::alloc::Global;

/// Takes standard input and output for so many workers of lines. The list has room for them.
pub(crate) fn take_talks<H: Host>(
    host: &mut H,
    many: usize,
    talks: &mut Vec<LineEnded<H::Source, H::Sink>>,
)
    requires room { IsEmptyFor many talks.old }
    ensures many { length talks.new.items ≡ many }
    ensures taken { InTurn
        (TalkTaken H.Source.left H.Source.faults H.Sink.took H.Sink.handed H.Sink.faults)
        talks.new.items (H.state host.old) (H.state host.new) }
    ensures rest { IsButTaken (H.state host.old) (H.state host.new) }
    ensures folders { H.folders host.new ≡ H.folders host.old }
{
    for _turn in 0..many {
        let input = host.take_input();
        let output = host.take_output();
        talks.push_reserved(LineEnded {
            input,
            output,
            end: None,
        });
    }
}

/// What ended the reading of standard input, and whether standard output has failed.
#[derive(Clone, Copy, Debug, PartialEq, Eq)]
pub struct StreamsEnded {
    /// What ended the reading.
    pub input: InputEnd,
    /// Whether standard output has failed.
    pub output_failed: bool,
}

// What ended the reading, by the end of a session. A session that didn't run had no memory to begin.
fn end_of_session(end: Option<SessionEnd>) -> InputEnd
    ensures { result ≡ end_of_session end }
{
    match end {
        Some(SessionEnd::End) => InputEnd::End,
        Some(SessionEnd::TooLongLine) => InputEnd::LongLine,
        Some(SessionEnd::Full) => InputEnd::Full,
        Some(SessionEnd::ReadFault | SessionEnd::WriteFault) => InputEnd::Fault,
        Some(SessionEnd::NoMemory | SessionEnd::Line(_)) | None => InputEnd::NoMemory,
    }
}

// Whether the output of a session failed.
fn output_failed(end: Option<SessionEnd>) -> bool
    ensures { result ≡ output_failed end }
{
    matches!(end, Some(SessionEnd::WriteFault))
}

// What ended the reading, by the end of a draining. One that didn't run had no memory to begin.
fn end_of_draining(end: Option<DrainEnd>) -> InputEnd
    ensures { result ≡ end_of_draining end }
{
    match end {
        Some(end) => InputEnd::of_drain(end),
        None => InputEnd::NoMemory,
    }
}

// Gives back what a worker of lines had.
fn keep_talk<H: Host>(host: &mut H, talk: LineEnded<H::Source, H::Sink>) -> StreamsEnded
    ensures ended { result ≡ talk_ended talk }
    ensures kept { TalkKept H.Source.left H.Source.faults H.Sink.took H.Sink.handed H.Sink.faults
        talk (H.state host.old) (H.state host.new) }
    ensures folders { H.folders host.new ≡ H.folders host.old }
{
    let LineEnded { input, output, end } = talk;
    host.keep_input(input);
    host.keep_output(output);
    StreamsEnded {
        input: end_of_session(end),
        output_failed: output_failed(end),
    }
}

// Gives back what was drained.
fn keep_drained<H: Host>(host: &mut H, worker: DrainWorker<H::Source>) -> StreamsEnded
    ensures ended { result ≡ drain_ended worker }
    ensures kept { DrainKept H.Source.left H.Source.faults
        worker (H.state host.old) (H.state host.new) }
    ensures folders { H.folders host.new ≡ H.folders host.old }
{
    let DrainWorker { input, end } = worker;
    host.keep_input(input);
    StreamsEnded {
        input: end_of_draining(end),
        output_failed: false,
    }
}

// Gives back what was drained, in order. The last of it says what ended the reading.
fn keep_drains<H: Host>(host: &mut H, drains: Vec<DrainWorker<H::Source>>, ended: &mut StreamsEnded)
    ensures ended { ended.new ≡ last_or ended.old (map drain_ended drains.items) }
    ensures kept { InTurn (DrainKept H.Source.left H.Source.faults) drains.items
        (H.state host.old) (H.state host.new) }
    ensures folders { H.folders host.new ≡ H.folders host.old }
{
    let mut others = drains;
    let Some(worker) = others.pop() else {
        return;
    };
    keep_drains(host, others, ended);
    *ended = keep_drained(host, worker);
}

// Gives back what workers of lines had, in order. The last of them says what ended the reading.
fn keep_talks<H: Host>(
    host: &mut H,
    lines: Vec<LineEnded<H::Source, H::Sink>>,
    ended: &mut StreamsEnded,
)
    ensures ended { ended.new ≡ last_or ended.old (map talk_ended lines.items) }
    ensures kept { InTurn
        (TalkKept H.Source.left H.Source.faults H.Sink.took H.Sink.handed H.Sink.faults)
        lines.items (H.state host.old) (H.state host.new) }
    ensures folders { H.folders host.new ≡ H.folders host.old }
{
    let mut others = lines;
    let Some(talk) = others.pop() else {
        return;
    };
    keep_talks(host, others, ended);
    *ended = keep_talk(host, talk);
}

/// Gives standard input and output back, and says what ended the reading: the end of the last worker of lines, or else that of
/// the draining.
pub fn keep_streams<H: Host>(
    host: &mut H,
    drains: Vec<DrainWorker<H::Source>>,
    lines: Vec<LineEnded<H::Source, H::Sink>>,
) -> StreamsEnded
    ensures ended { result ≡ ended_of drains.items lines.items }
    ensures kept { (between : HostState)
        × InTurn (DrainKept H.Source.left H.Source.faults) drains.items (H.state host.old) between
        × InTurn (TalkKept H.Source.left H.Source.faults H.Sink.took H.Sink.handed H.Sink.faults)
        lines.items between (H.state host.new) }
    ensures rest { IsButKept (H.state host.old) (H.state host.new) }
    ensures folders { H.folders host.new ≡ H.folders host.old }
{
    let mut ended = StreamsEnded {
        input: InputEnd::NoMemory,
        output_failed: false,
    };
    keep_drains(host, drains, &mut ended);
    keep_talks(host, lines, &mut ended);
    ended
}

/// Writes the report to standard output, unless that has failed before: then no text follows what was written.
pub fn report_on<H: Host>(
    alloc: Global,
    host: &mut H,
    failed: bool,
    report: &[(String, Counts)],
) -> Result<(), ReportRefused>
    ensures reported { IsReported failed (report_text report.now) result
        (H.state host.old) (H.state host.new) }
    ensures rest { IsButOutput (H.state host.old) (H.state host.new) }
    ensures folders { H.folders host.new ≡ H.folders host.old }
{
    if failed {
        return Err(ReportRefused::Fault);
    }
    let mut output = host.take_output();
    let written = write_report(alloc, report, &mut output);
    host.keep_output(output);
    written
}

// The workers of a run, and what comes back of them.
use crew::DrainWorker;
use keep_worker::KeepWorker;
use line_session::SessionEnd;
use line_worker::LineWorker;
use run_settling::AtHome;
use sink_worker::SinkWorker;
use source_worker::ListenWorker;

/// The workers of a run, by kind. `F` is what stands for their channels: passes before the run, ports in it.
#[derive(Drop)]
pub struct Workers<F, S, N, I, O, C, K> {
    /// Those that lay the checkpoints of channels on disks.
    pub keepers: Vec<KeepWorker<F, C>>,
    /// The sinks.
    pub sinks: Vec<SinkWorker<F, S, C>>,
    /// The session workers of the listening sources.
    pub listeners: Vec<ListenWorker<F, N, C, K>>,
    /// What drains standard input, where it is no source.
    pub drains: Vec<DrainWorker<I>>,
    /// What serves the lines of standard input, where it is a source.
    pub lines: Vec<LineWorker<F, I, O, C, K>>,
}

/// What comes back of the workers of a run, by kind and in their order.
#[derive(Drop)]
pub struct Returned<S, N, I, O, C> {
    /// The sinks, each with the number of its pass.
    pub sinks: Vec<SinkWorker<AtHome, S, C>>,
    /// The listeners.
    pub listeners: Vec<N>,
    /// What drained standard input.
    pub drains: Vec<DrainWorker<I>>,
    /// What served the lines of standard input.
    pub lines: Vec<LineEnded<I, O>>,
}

/// What comes back of a worker of lines.
#[derive(Drop)]
pub struct LineEnded<I, O> {
    /// Where the lines came from.
    pub input: I,
    /// Where their answers went.
    pub output: O,
    /// What ended the session, if it has run.
    pub end: Option<SessionEnd>,
}

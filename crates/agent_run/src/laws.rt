// Laws of passes at home, and of what a run's workers called in whole histories.
ghost use Rattle.sink_worker.specs.Rounds.{told};
ghost use Rattle.source_worker.specs.Workers.{heard_of};
ghost use Rattle.line_worker.specs.Workers.{talk_of};
ghost use Rattle.agent_run.specs.Dialogue.{EndsAtEnd, EndsWell, LinesAreAnswered, RanUnlessNoMemory};
ghost use Rattle.run_settling.specs.Draining.{FirstHasOwn, OwnIsKept};
ghost use Rattle.agent_run.specs.Finals.{RunsAreTold};
ghost use Rattle.run_working.specs.Runs.{runs};
ghost use Rattle.run_working.specs.Wholes.{CountsAreSilent, DrainsAreSilent, KeepersStayTold, KeepsAreSilent, LinesStayTold, ListenersStayTold, MendsAreSilent, OthersStay, SinksAreWhole};

use channel_face::{Channel, Durable};
use crew::{DrainWorker, Work};
use flume_host::{Clock, Listener, Sink, Source};
use keep_worker::KeepWorker;
use line_worker::LineWorker;
use plug_in::{EventSink, Interceptor};
use sink_worker::SinkWorker;
use source_worker::ListenWorker;
use std::sync::Wait;
use two_channels::EitherPort;

/// The first of a channel's new passes carries a number of its own, and so does a pass at home that took others in: as
/// [`settle`](run_settling::settle) asks it of the passes at home after a run.
pub fn own_numbers_are_kept()
    ensures first { FirstHasOwn }
    ensures kept { OwnIsKept }
{}

/// The rounds of each sink in a run and then its draining, in order, are all calls with the number of its pass in what the pass at
/// home of its channel has seen in the end, where no two sinks have one number in one channel, and no call with a sink's number came
/// after the drainings. Where no two had one number before the run, none have after it.
pub fn sinks_are_whole<A: Channel, B: Channel, S: EventSink, C: Clock>()
    ensures whole { SinksAreWhole A B (told S.delivers S.faults) C.moments }
    ensures others { OthersStay A B (told S.delivers S.faults) C.moments }
{}

/// The rounds of each worker of a channel on a disk are all calls with the number of its pass in what the passes at home have seen in
/// the end, where no call with that number came after the run.
pub fn keepers_stay_told<
    'a,
    R: Wait + 'a,
    A: Durable + Drop + Send + 'a,
    B: Channel + Drop + Send + 'a,
    S: EventSink + Send,
    N: Listener + Send + Drop,
    I: Source + Send + Drop,
    O: Sink + Send + Drop,
    C: Clock + Send + Drop,
    K: Interceptor + Send,
>()
    ensures { KeepersStayTold
        (runs ⟦<KeepWorker<EitherPort<'a, R, A, B>, C> as Work>⟧.ran
        ⟦<SinkWorker<EitherPort<'a, R, A, B>, S, C> as Work>⟧.ran
        ⟦<ListenWorker<EitherPort<'a, R, A, B>, N, C, K> as Work>⟧.ran
        ⟦<DrainWorker<I> as Work>⟧.ran
        ⟦<LineWorker<EitherPort<'a, R, A, B>, I, O, C, K> as Work>⟧.ran) }
{}

/// What is told of each listener after a run stays told in what the passes at home have seen in the end, where no call with a number
/// of its passes came after the run.
pub fn listeners_stay_told<
    'a,
    R: Wait + 'a,
    A: Durable + Drop + Send + 'a,
    B: Channel + Drop + Send + 'a,
    S: EventSink + Send,
    N: Listener + Send + Drop,
    I: Source + Send + Drop,
    O: Sink + Send + Drop,
    C: Clock + Send + Drop,
    K: Interceptor + Send,
>()
    ensures { ListenersStayTold
        (runs ⟦<KeepWorker<EitherPort<'a, R, A, B>, C> as Work>⟧.ran
        ⟦<SinkWorker<EitherPort<'a, R, A, B>, S, C> as Work>⟧.ran
        ⟦<ListenWorker<EitherPort<'a, R, A, B>, N, C, K> as Work>⟧.ran
        ⟦<DrainWorker<I> as Work>⟧.ran
        ⟦<LineWorker<EitherPort<'a, R, A, B>, I, O, C, K> as Work>⟧.ran)
        K.intercepts C.moments (heard_of N.told N.faults N.waits) }
{}

/// What is told of each worker of lines after a run, the calls of its session with what it read and wrote, stays told in what the
/// passes at home have seen in the end, where no call with a number of its passes came after the run.
pub fn lines_stay_told<
    'a,
    R: Wait + 'a,
    A: Durable + Drop + Send + 'a,
    B: Channel + Drop + Send + 'a,
    S: EventSink + Send,
    N: Listener + Send + Drop,
    I: Source + Send + Drop,
    O: Sink + Send + Drop,
    C: Clock + Send + Drop,
    K: Interceptor + Send,
>()
    ensures { LinesStayTold
        (runs ⟦<KeepWorker<EitherPort<'a, R, A, B>, C> as Work>⟧.ran
        ⟦<SinkWorker<EitherPort<'a, R, A, B>, S, C> as Work>⟧.ran
        ⟦<ListenWorker<EitherPort<'a, R, A, B>, N, C, K> as Work>⟧.ran
        ⟦<DrainWorker<I> as Work>⟧.ran
        ⟦<LineWorker<EitherPort<'a, R, A, B>, I, O, C, K> as Work>⟧.ran)
        K.intercepts C.moments (talk_of I.left I.faults O.took O.handed O.faults) }
{}

/// Where a run has one worker of lines, standard input and output have had its dialogue: what the host had of the input was read as
/// lines, the batch of each is in the histories, and the replies stand after what the output had taken. It is so in whatever histories
/// the worker is told of, in those after the run or in those at the end. Where the input was read to its end, so ended the session.
pub fn lines_are_answered<
    'a,
    R: Wait + 'a,
    A: Durable + Drop + Send + 'a,
    B: Channel + Drop + Send + 'a,
    S: EventSink + Send,
    N: Listener + Send + Drop,
    I: Source + Send + Drop,
    O: Sink + Send + Drop,
    C: Clock + Send + Drop,
    K: Interceptor + Send,
>()
    ensures answered { LinesAreAnswered
        (runs ⟦<KeepWorker<EitherPort<'a, R, A, B>, C> as Work>⟧.ran
        ⟦<SinkWorker<EitherPort<'a, R, A, B>, S, C> as Work>⟧.ran
        ⟦<ListenWorker<EitherPort<'a, R, A, B>, N, C, K> as Work>⟧.ran
        ⟦<DrainWorker<I> as Work>⟧.ran
        ⟦<LineWorker<EitherPort<'a, R, A, B>, I, O, C, K> as Work>⟧.ran)
        K.intercepts C.moments I.left I.faults O.took O.handed O.faults }
    ensures ends { EndsAtEnd }
{}

/// Where the reading of standard input did not end when out of memory, there was memory for the run, and the workers ran. So they did
/// where the run's status is 0; and a worker of lines then had its dialogue to the end of standard input.
pub fn workers_ran<
    'a,
    R: Wait + 'a,
    A: Durable + Drop + Send + 'a,
    B: Channel + Drop + Send + 'a,
    S: EventSink + Send,
    N: Listener + Send + Drop,
    I: Source + Send + Drop,
    O: Sink + Send + Drop,
    C: Clock + Send + Drop,
    K: Interceptor + Send,
>()
    ensures ran { RanUnlessNoMemory
        (runs ⟦<KeepWorker<EitherPort<'a, R, A, B>, C> as Work>⟧.ran
        ⟦<SinkWorker<EitherPort<'a, R, A, B>, S, C> as Work>⟧.ran
        ⟦<ListenWorker<EitherPort<'a, R, A, B>, N, C, K> as Work>⟧.ran
        ⟦<DrainWorker<I> as Work>⟧.ran
        ⟦<LineWorker<EitherPort<'a, R, A, B>, I, O, C, K> as Work>⟧.ran)
        (told S.delivers S.faults) K.intercepts C.moments (heard_of N.told N.faults N.waits)
        I.left I.faults O.took O.handed O.faults }
    ensures well { EndsWell
        (runs ⟦<KeepWorker<EitherPort<'a, R, A, B>, C> as Work>⟧.ran
        ⟦<SinkWorker<EitherPort<'a, R, A, B>, S, C> as Work>⟧.ran
        ⟦<ListenWorker<EitherPort<'a, R, A, B>, N, C, K> as Work>⟧.ran
        ⟦<DrainWorker<I> as Work>⟧.ran
        ⟦<LineWorker<EitherPort<'a, R, A, B>, I, O, C, K> as Work>⟧.ran)
        (told S.delivers S.faults) K.intercepts C.moments (heard_of N.told N.faults N.waits)
        I.left I.faults O.took O.handed O.faults }
{}

/// After a run a number of a worker's pass stays silent: while sinks that have not this number in this channel empty their channels,
/// while channels are kept and mended through passes at home that carry another number, and while they are counted.
pub fn silence_is_kept<A: Durable, B: Channel, S: EventSink, C: Clock>()
    ensures drains { DrainsAreSilent (told S.delivers S.faults) C.moments }
    ensures keeps { KeepsAreSilent A B A.stands A.tells A.moment A.is_laid A.is_pruned }
    ensures mends { MendsAreSilent A B A.stands A.tells A.moment }
    ensures counts { CountsAreSilent }
{}

/// What the workers of a run called is told of in all that the passes of its channels had seen when these were closed. The rounds of
/// each sink and then its draining, in order, are all calls with its worker's number, and what is told of each listener and of each
/// worker of lines are all calls with the numbers of its worker. So it is too where there was no memory for the run, and each worker
/// came back as it was.
pub fn runs_are_told<
    'a,
    R: Wait + 'a,
    A: Durable + Drop + Send + 'a,
    B: Channel + Drop + Send + 'a,
    S: EventSink + Send,
    N: Listener + Send + Drop,
    I: Source + Send + Drop,
    O: Sink + Send + Drop,
    C: Clock + Send + Drop,
    K: Interceptor + Send,
>()
    ensures { RunsAreTold
        (runs ⟦<KeepWorker<EitherPort<'a, R, A, B>, C> as Work>⟧.ran
        ⟦<SinkWorker<EitherPort<'a, R, A, B>, S, C> as Work>⟧.ran
        ⟦<ListenWorker<EitherPort<'a, R, A, B>, N, C, K> as Work>⟧.ran
        ⟦<DrainWorker<I> as Work>⟧.ran
        ⟦<LineWorker<EitherPort<'a, R, A, B>, I, O, C, K> as Work>⟧.ran)
        (told S.delivers S.faults) K.intercepts C.moments (heard_of N.told N.faults N.waits)
        (talk_of I.left I.faults O.took O.handed O.faults) A.stands A.tells A.moment
        A.is_laid A.is_pruned B.stands B.tells }
{
    keepers_stay_told::<'a, R, A, B, S, N, I, O, C, K>();
    listeners_stay_told::<'a, R, A, B, S, N, I, O, C, K>();
    lines_stay_told::<'a, R, A, B, S, N, I, O, C, K>();
}

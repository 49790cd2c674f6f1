// What a worker of lines does.
ghost use Rattle.source_put.specs.Tries.{Puts};
ghost use Rattle.netcat_source.specs.Into.{TakesLine};
ghost use Rattle.source_worker.specs.Rounds.{MendsInto, MendsPort};
ghost use Rattle.line_worker.specs.Turns.{TakesTurn};
ghost use Rattle.line_worker.specs.Workers.{CanServe, LineRan, talk_of};

use crate::begin::Begun;
use crate::lane::Lane;
use crate::worker::LineWorker;
use channel_face::{MendFace, PutFace};
use crew::{Stop, Watch, Work};
use flume_host::{Clock, Halt, Sink, Source};
use plug_in::Interceptor;
use std::sync::Wait;

// Builds the worker's chain, serves one session, and takes the ports back.
fn serve_once<
    F: PutFace + MendFace + Drop,
    I: Source,
    O: Sink,
    C: Clock + Drop,
    B: Interceptor,
    H: Halt + Drop,
>(worker: &mut LineWorker<F, I, O, C, B>, halt: H)
    requires { CanServe worker.old }
    ensures { LineRan
        (TakesTurn (TakesLine
        (Puts F.own F.saw F.seen F.kept)
        worker.old.selector B.intercepts worker.old.host)
        (MendsInto (MendsPort F.own F.saw F.seen F.kept F.on_disk)))
        C.moments (talk_of I.left I.faults O.took O.handed O.faults) worker.old worker.new }
{
    let Begun { intake, built } = worker.begin();
    let Some(clock) = worker.clock.take() else {
        unreachable!()
    };
    let mut lane = Lane {
        alloc: worker.alloc,
        intake,
        clock,
        halt,
        due: false,
    };
    let end = lane.session(built, &mut worker.input, &mut worker.output, &worker.rules);
    let Lane {
        alloc: _,
        intake,
        clock,
        halt: _,
        due: _,
    } = lane;
    worker.ports = intake.close();
    worker.clock = Some(clock);
    worker.end = Some(end);
}

/// It serves one session on its input and its output, as [`line_session::serve_lines`]: each line is put into its channels and
/// answered. Where a line met a broken channel or was left in doubt, it mends its channels after that line. Where a mend was
/// refused, it pauses 1,000 milliseconds before the next line, or until it finds the stop set, and mends them again. A line for
/// which there was no memory ends the session. Whatever ended it, it notes the end, and sets the stop.
impl<F: PutFace + MendFace + Drop, I: Source, O: Sink, C: Clock + Drop, B: Interceptor> Work
    for LineWorker<F, I, O, C, B> {
    ghost ready = { λ w. CanServe w };

    ghost ran = { λ old new. LineRan
        (TakesTurn (TakesLine
        (Puts F.own F.saw F.seen F.kept)
        old.selector B.intercepts old.host)
        (MendsInto (MendsPort F.own F.saw F.seen F.kept F.on_disk)))
        C.moments (talk_of I.left I.faults O.took O.handed O.faults) old new };

    fn work<R: Wait>(&mut self, _rt: &R, stop: &Stop) {
        serve_once(self, Watch::new(stop));
        stop.set();
    }
}

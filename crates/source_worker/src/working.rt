// What a listener's worker does.
ghost use Rattle.std.specs.Prelude.{◌≡◌};
ghost use Rattle.flume_host.specs.Causes.{Rose};
ghost use Rattle.flume_host.specs.Listens.{IsSettled};
ghost use Rattle.source_put.specs.Tries.{Puts};
ghost use Rattle.source_worker.specs.Rounds.{MendsInto, MendsPort, Session, WorksBy};
ghost use Rattle.source_worker.specs.Workers.{CanListen, HasLimit, ListenRan, heard_of, stood};

use crate::answers::{is_stopped, pause_after};
use crate::ends::SessionRules;
use crate::listens::Listens;
use crate::service::Service;
use crate::worker::ListenWorker;
use channel_face::{MendFace, PutFace};
use crew::{Stop, Watch, Work, rest};
use flume_host::{Clock, Halt, Link, Listener};
use plug_in::Interceptor;
use std::alloc::Global;
use std::sync::Wait;

impl<F: PutFace + MendFace + Drop, B: Interceptor> Service<F, B> {
    // Makes one round after the other until it is told to stop.
    fn serve_until<R: Wait, L: Link, N: Listens<L>, C: Clock, H: Halt>(
        &mut self,
        alloc: Global,
        rt: &R,
        listener: &mut N,
        rules: &SessionRules,
        clock: &mut C,
        halt: &mut H,
    )
        requires { HasLimit rules.now }
        ensures works { WorksBy
            (Session rules.now
            (Puts F.own F.saw F.seen F.kept)
            self.old.intake.selector B.intercepts self.old.intake.host)
            (MendsInto (MendsPort F.own F.saw F.seen F.kept F.on_disk))
            self.old.built
            (stood self.old.intake (C.moments clock.old)
            (heard_of N.told N.faults N.waits listener.old) self.old.due)
            (stood self.new.intake (C.moments clock.new)
            (heard_of N.told N.faults N.waits listener.new) self.new.due) }
        ensures settled { IsSettled (N.told listener.old) → IsSettled (N.told listener.new) }
        ensures endpoint { N.endpoint listener.new ≡ N.endpoint listener.old }
        ensures stop { Rose (H.yes halt.old) (H.yes halt.new) }
    {
        for _ in rt.forever() {
            let found = self.round(alloc, listener, rules, clock, halt);
            if is_stopped(&found) {
                return;
            }
            if halt.asked() {
                return;
            }
            if rest(clock, halt, pause_after(self.due, &found)) {
                return;
            }
        }
        unreachable!()
    }
}

// Builds the worker's chain and serves one link after the other until it is told to stop.
fn listen_until<
    R: Wait,
    L: Link,
    F: PutFace + MendFace + Drop,
    N: Listens<L>,
    C: Clock,
    B: Interceptor,
    H: Halt,
>(rt: &R, worker: &mut ListenWorker<F, N, C, B>, halt: &mut H)
    requires { CanListen worker.old }
    ensures ran { ListenRan
        (Session worker.old.rules
        (Puts F.own F.saw F.seen F.kept)
        worker.old.selector B.intercepts worker.old.host)
        (MendsInto (MendsPort F.own F.saw F.seen F.kept F.on_disk))
        C.moments (heard_of N.told N.faults N.waits) N.endpoint worker.old worker.new }
    ensures stop { Rose (H.yes halt.old) (H.yes halt.new) }
{
    let mut service = worker.begin();
    service.serve_until(
        worker.alloc,
        rt,
        &mut worker.listener,
        &worker.rules,
        &mut worker.clock,
        halt,
    );
    let Service {
        intake,
        built: _,
        due: _,
    } = service;
    worker.ports = intake.close();
}

impl<F: PutFace + MendFace + Drop, N: Listener, C: Clock, B: Interceptor> ListenWorker<F, N, C, B> {
    /// Builds its chain and serves one link after the other until it is told to stop: it asks after each round, and between the
    /// pieces of each pause, and ends for nothing else. So it accepts at least once. After each session it mends its channels.
    /// Where an accept failed or a mend was refused it pauses 1,000 milliseconds.
    pub fn work_until<R: Wait, H: Halt>(&mut self, rt: &R, halt: &mut H)
        requires { CanListen self.old }
        ensures ran { ListenRan
            (Session self.old.rules
            (Puts F.own F.saw F.seen F.kept)
            self.old.selector B.intercepts self.old.host)
            (MendsInto (MendsPort F.own F.saw F.seen F.kept F.on_disk))
            C.moments (heard_of N.told N.faults N.waits) N.endpoint self.old self.new }
        ensures stop { Rose (H.yes halt.old) (H.yes halt.new) }
    {
        listen_until(rt, self, halt);
    }
}

/// It works until it finds the stop set, as [`ListenWorker::work_until`].
impl<F: PutFace + MendFace + Drop, N: Listener, C: Clock, B: Interceptor> Work
    for ListenWorker<F, N, C, B> {
    ghost ready = { λ w. CanListen w };

    ghost ran = { λ old new. ListenRan
        (Session old.rules
        (Puts F.own F.saw F.seen F.kept)
        old.selector B.intercepts old.host)
        (MendsInto (MendsPort F.own F.saw F.seen F.kept F.on_disk))
        C.moments (heard_of N.told N.faults N.waits) N.endpoint old new };

    fn work<R: Wait>(&mut self, rt: &R, stop: &Stop) {
        let mut watch = Watch::new(stop);
        listen_until(rt, self, &mut watch);
    }
}

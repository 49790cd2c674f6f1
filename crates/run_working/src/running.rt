// A run of workers over shared channels.
ghost use Rattle.std.specs.Prelude.{◌≡◌, All, OnErr, OnOk};
ghost use Rattle.run_tracks.specs.Dealt.{AreDealt};
ghost use Rattle.run_tracks.specs.Homes.{AreHomes, EachTook};
ghost use Rattle.channel_lock.specs.Turns.{HasAll};
ghost use Rattle.two_channels.specs.Shares.{table_of};
ghost use Rattle.sink_worker.specs.Rounds.{told};
ghost use Rattle.run_tracks.specs.Places.{Zips};
ghost use Rattle.run_settling.specs.Draining.{IsSinkHome};
ghost use Rattle.run_working.specs.Histories.{IsLineTold, IsListenTold, IsSinkTold};
ghost use Rattle.source_worker.specs.Workers.{heard_of};
ghost use Rattle.line_worker.specs.Workers.{talk_of};
ghost use Rattle.run_staff.specs.Jobs.{AreNew, AreOnDisks, AreWorkers, CanRun, HaveRoom, owners_of};
ghost use Rattle.run_working.specs.Runs.{AreEnded, AreOpened, HaveRooms, HaveRun, runs};

use crate::homes::{end_keepers, end_lines, end_listeners, end_sinks};
use crate::ports::{open_keepers, open_lines, open_listeners, open_sinks};
use crate::rooms::{Rooms, rooms_of};
use crate::rows::run_lists;
use channel_face::{Channel, Durable};
use crew::{DrainWorker, Stop, Work};
use flume_host::{Clock, Listener, Sink, Source};
use keep_worker::KeepWorker;
use line_worker::LineWorker;
use plug_in::{EventSink, Interceptor};
use run_staff::{Returned, Workers};
use shared_channel::{Carries, Joins, Pass};
use sink_worker::SinkWorker;
use source_worker::ListenWorker;
use std::alloc::{AllocError, Global};
use std::sync::Wait;
use std::thread::Threads;
use two_channels::{EitherPort, EitherShared};

// Gives the workers of a run their ports.
fn open_workers<
    'a,
    R: Wait + 'a,
    A: Channel + 'a,
    B: Channel + 'a,
    S: Drop,
    N: Drop,
    I: Drop,
    O: Drop,
    C: Drop,
    K: Drop,
>(
    rt: &'a R,
    shares: &'a [EitherShared<A, B>],
    jobs: Workers<Pass, S, N, I, O, C, K>,
    rooms: Rooms<'a, R, A, B, S, N, I, O, C, K>,
) -> Workers<EitherPort<'a, R, A, B>, S, N, I, O, C, K>
    requires jobs { AreWorkers table_of shares.now (λ pass. pass) jobs }
    requires rooms { HaveRooms jobs rooms }
    ensures { AreOpened shares.now jobs result }
{
    let Workers {
        keepers,
        sinks,
        listeners,
        drains,
        lines,
    } = jobs;
    let Rooms {
        keepers: mut keep_workers,
        sinks: mut sink_workers,
        listeners: mut listen_workers,
        listener_ports,
        lines: mut line_workers,
        line_ports,
    } = rooms;
    open_keepers(rt, shares, keepers, &mut keep_workers);
    open_sinks(rt, shares, sinks, &mut sink_workers);
    open_listeners(rt, shares, listeners, listener_ports, &mut listen_workers);
    open_lines(rt, shares, lines, line_ports, &mut line_workers);
    Workers {
        keepers: keep_workers,
        sinks: sink_workers,
        listeners: listen_workers,
        drains,
        lines: line_workers,
    }
}

// The passes at home take in those of the workers, which come back in their order.
fn end_workers<Z: Joins, F: Carries + Drop, S: Drop, N: Drop, I: Drop, O: Drop, C: Drop, K: Drop>(
    shares: &[Z],
    homes: &mut [Pass],
    workers: Workers<F, S, N, I, O, C, K>,
    returned: &mut Returned<S, N, I, O, C>,
)
    requires homes { AreHomes Z.table shares.now homes.old }
    requires workers { AreWorkers Z.table shares.now F.pass workers }
    requires room { HaveRoom workers returned.old }
    ensures homes { AreHomes Z.table shares.now homes.new }
    ensures kept { EachTook homes.old homes.new }
    ensures ended { AreEnded F.pass homes.new workers returned.new }
{
    let Workers {
        keepers,
        sinks,
        listeners,
        drains,
        lines,
    } = workers;
    end_keepers(shares, homes, keepers);
    end_sinks(shares, homes, sinks, &mut returned.sinks);
    end_listeners(shares, homes, listeners, &mut returned.listeners);
    end_lines(shares, homes, lines, &mut returned.lines);
    returned.drains = drains;
}

// Gives the workers their ports, runs them, and takes their passes home.
fn run_in<
    'a,
    R: Threads + Wait + Sync + 'a,
    A: Durable + Drop + Send + 'a,
    B: Channel + Drop + Send + 'a,
    S: EventSink + Send,
    N: Listener + Send + Drop,
    I: Source + Send + Drop,
    O: Sink + Send + Drop,
    C: Clock + Send + Drop,
    K: Interceptor + Send,
>(
    rt: &'a R,
    shares: &'a [EitherShared<A, B>],
    homes: &mut [Pass],
    jobs: Workers<Pass, S, N, I, O, C, K>,
    rooms: Rooms<'a, R, A, B, S, N, I, O, C, K>,
    returned: &mut Returned<S, N, I, O, C>,
)
    requires homes { AreHomes table_of shares.now homes.old }
    requires jobs { AreWorkers table_of shares.now (λ pass. pass) jobs }
    requires fit { CanRun jobs }
    requires disks { AreOnDisks shares.now jobs }
    requires new { AreNew jobs }
    requires rooms { HaveRooms jobs rooms }
    requires room { HaveRoom jobs returned.old }
    ensures homes { AreHomes table_of shares.now homes.new }
    ensures kept { EachTook homes.old homes.new }
    ensures all { AreDealt homes.old (owners_of jobs) → All (λ p. HasAll p.view) homes.new }
    ensures ran { HaveRun
        (runs ⟦<KeepWorker<EitherPort<'a, R, A, B>, C> as Work>⟧.ran
        ⟦<SinkWorker<EitherPort<'a, R, A, B>, S, C> as Work>⟧.ran
        ⟦<ListenWorker<EitherPort<'a, R, A, B>, N, C, K> as Work>⟧.ran
        ⟦<DrainWorker<I> as Work>⟧.ran
        ⟦<LineWorker<EitherPort<'a, R, A, B>, I, O, C, K> as Work>⟧.ran)
        shares.now homes.new jobs returned.new }
    ensures sinks { Zips (IsSinkTold (told S.delivers S.faults) C.moments shares.now homes.new)
        jobs.sinks.items returned.new.sinks.items }
    ensures home { All (IsSinkHome homes.new) returned.new.sinks.items }
    ensures listeners { Zips (IsListenTold K.intercepts C.moments (heard_of N.told N.faults N.waits)
        shares.now homes.new) jobs.listeners.items returned.new.listeners.items }
    ensures lines { Zips (IsLineTold K.intercepts C.moments
        (talk_of I.left I.faults O.took O.handed O.faults)
        shares.now homes.new) jobs.lines.items returned.new.lines.items }
{
    let Workers {
        mut keepers,
        mut sinks,
        mut listeners,
        mut drains,
        mut lines,
    } = open_workers(rt, shares, jobs, rooms);
    let stop = Stop::new();
    run_lists(
        rt,
        &stop,
        &mut keepers,
        &mut sinks,
        &mut listeners,
        &mut drains,
        &mut lines,
    );
    let workers = Workers {
        keepers,
        sinks,
        listeners,
        drains,
        lines,
    };
    end_workers(shares, homes, workers, returned);
}

/// Runs workers over shared channels: each gets ports of its channels with the passes that it holds, all run beside one another,
/// and then their passes are taken in at home, and they come back in their order. With those at home, each number that was dealt
/// to a worker is at home again. The rounds of each sink are then, in order, all calls with the number of its pass in the history
/// that the pass at home has seen, and so are the lines and mends of each listener and of each worker of lines. Where there is no
/// memory for the ports, nothing runs, and all come back as they were. Each sink's channel then has a pass at home that has the number
/// of the sink's pass.
pub fn run_workers<
    'a,
    R: Threads + Wait + Sync + 'a,
    A: Durable + Drop + Send + 'a,
    B: Channel + Drop + Send + 'a,
    S: EventSink + Send,
    N: Listener + Send + Drop,
    I: Source + Send + Drop,
    O: Sink + Send + Drop,
    C: Clock + Send + Drop,
    K: Interceptor + Send,
>(
    rt: &'a R,
    alloc: Global,
    shares: &'a [EitherShared<A, B>],
    homes: &mut [Pass],
    jobs: Workers<Pass, S, N, I, O, C, K>,
    returned: &mut Returned<S, N, I, O, C>,
) -> Result<(), AllocError>
    requires homes { AreHomes table_of shares.now homes.old }
    requires jobs { AreWorkers table_of shares.now (λ pass. pass) jobs }
    requires fit { CanRun jobs }
    requires disks { AreOnDisks shares.now jobs }
    requires new { AreNew jobs }
    requires room { HaveRoom jobs returned.old }
    ensures homes { AreHomes table_of shares.now homes.new }
    ensures kept { EachTook homes.old homes.new }
    ensures all { AreDealt homes.old (owners_of jobs) → All (λ p. HasAll p.view) homes.new }
    ensures ran { OnOk result (HaveRun
        (runs ⟦<KeepWorker<EitherPort<'a, R, A, B>, C> as Work>⟧.ran
        ⟦<SinkWorker<EitherPort<'a, R, A, B>, S, C> as Work>⟧.ran
        ⟦<ListenWorker<EitherPort<'a, R, A, B>, N, C, K> as Work>⟧.ran
        ⟦<DrainWorker<I> as Work>⟧.ran
        ⟦<LineWorker<EitherPort<'a, R, A, B>, I, O, C, K> as Work>⟧.ran)
        shares.now homes.new jobs returned.new) }
    ensures sinks { OnOk result (Zips (IsSinkTold (told S.delivers S.faults) C.moments shares.now
        homes.new)
        jobs.sinks.items returned.new.sinks.items) }
    ensures listeners { OnOk result (Zips (IsListenTold K.intercepts C.moments
        (heard_of N.told N.faults N.waits)
        shares.now homes.new) jobs.listeners.items returned.new.listeners.items) }
    ensures lines { OnOk result (Zips (IsLineTold K.intercepts C.moments
        (talk_of I.left I.faults O.took O.handed O.faults)
        shares.now homes.new) jobs.lines.items returned.new.lines.items) }
    ensures home { All (IsSinkHome homes.new) returned.new.sinks.items }
    ensures idle { OnErr result (AreEnded (λ pass. pass) homes.new jobs returned.new) }
{
    match rooms_of(alloc, &jobs) {
        Ok(rooms) => {
            run_in(rt, shares, homes, jobs, rooms, returned);
            Ok(())
        }
        Err(AllocError) => {
            end_workers(shares, homes, jobs, returned);
            Err(AllocError)
        }
    }
}

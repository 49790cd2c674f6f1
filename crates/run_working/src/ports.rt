// Workers get the ports of their channels.
ghost use Rattle.std.specs.Prelude.{◌≡◌, ◌≤◌, [], All, length};
ghost use Rattle.std.specs.Vec.{vec_capacity};
ghost use Rattle.two_channels.specs.Shares.{table_of};
ghost use Rattle.run_tracks.specs.Places.{Zips};
ghost use Rattle.run_staff.specs.Ports.{AreLinePorts, AreListenPorts, IsKeepPort, IsSinkPort};
ghost use Rattle.run_working.specs.Opened.{IsKeepOpened, IsLineOpened, IsListenOpened, IsSinkOpened};
ghost use Rattle.run_settling.specs.Draining.{HasRoom};

use channel_face::Channel;
use keep_worker::KeepWorker;
use line_worker::LineWorker;
use run_tracks::open_ports;
use shared_channel::Pass;
use sink_worker::SinkWorker;
use source_worker::ListenWorker;
use std::marker::PhantomData;
use std::sync::Wait;
use two_channels::{EitherPort, EitherShared};

/// Gives each worker of a channel a port of it, with the pass that it holds, in order. The list has room for them: so it takes no
/// memory, and no pass is lost.
pub(crate) fn open_keepers<'a, R: Wait + 'a, A: Channel + 'a, B: Channel + 'a, C: Drop>(
    rt: &'a R,
    shares: &'a [EitherShared<A, B>],
    jobs: Vec<KeepWorker<Pass, C>>,
    workers: &mut Vec<KeepWorker<EitherPort<'a, R, A, B>, C>>,
)
    requires jobs { All (IsKeepPort table_of shares.now (λ pass. pass)) jobs.items }
    requires none { workers.old.items ≡ [] }
    requires room { length jobs.items ≤ vec_capacity workers.old }
    ensures opened { Zips (IsKeepOpened shares.now) jobs.items workers.new.items }
    ensures room { vec_capacity workers.old ≤ vec_capacity workers.new }
{
    let mut others = jobs;
    let Some(job) = others.pop() else {
        return;
    };
    open_keepers(rt, shares, others, workers);
    let KeepWorker {
        port,
        channel,
        interval,
        clock,
    } = job;
    let share = &shares[channel as usize];
    workers.push_reserved(KeepWorker {
        port: share.port(rt, port),
        channel,
        interval,
        clock,
    });
}

/// Gives each sink a port of its channel, with the pass that it holds, in order. The list has room for them: so it takes no
/// memory, and no pass is lost.
pub(crate) fn open_sinks<'a, R: Wait + 'a, A: Channel + 'a, B: Channel + 'a, S: Drop, C: Drop>(
    rt: &'a R,
    shares: &'a [EitherShared<A, B>],
    jobs: Vec<SinkWorker<Pass, S, C>>,
    workers: &mut Vec<SinkWorker<EitherPort<'a, R, A, B>, S, C>>,
)
    requires jobs { All (IsSinkPort table_of shares.now (λ pass. pass)) jobs.items }
    requires none { workers.old.items ≡ [] }
    requires room { length jobs.items ≤ vec_capacity workers.old }
    ensures opened { Zips (IsSinkOpened shares.now) jobs.items workers.new.items }
    ensures room { vec_capacity workers.old ≤ vec_capacity workers.new }
{
    let mut others = jobs;
    let Some(job) = others.pop() else {
        return;
    };
    open_sinks(rt, shares, others, workers);
    let SinkWorker {
        alloc,
        port,
        channel,
        sink,
        batch,
        clock,
    } = job;
    let share = &shares[channel as usize];
    workers.push_reserved(SinkWorker {
        alloc,
        port: share.port(rt, port),
        channel,
        sink,
        batch,
        clock,
    });
}

// Gives a listener the ports of its channels.
fn open_listener<'a, R: Wait + 'a, A: Channel + 'a, B: Channel + 'a, N: Drop, C: Drop, K: Drop>(
    rt: &'a R,
    shares: &'a [EitherShared<A, B>],
    job: ListenWorker<Pass, N, C, K>,
    room: Vec<EitherPort<'a, R, A, B>>,
) -> ListenWorker<EitherPort<'a, R, A, B>, N, C, K>
    requires job { AreListenPorts table_of shares.now (λ pass. pass) job }
    requires room { HasRoom job.ports.items room }
    ensures { IsListenOpened shares.now job result }
{
    let ListenWorker {
        alloc,
        ports,
        channels,
        plan,
        selector,
        host,
        rules,
        listener,
        clock,
        of: _,
    } = job;
    let mut room = room;
    open_ports(rt, shares, channels.as_slice(), ports, &mut room);
    ListenWorker {
        alloc,
        ports: room,
        channels,
        plan,
        selector,
        host,
        rules,
        listener,
        clock,
        of: PhantomData,
    }
}

/// Gives each listener the ports of its channels, with the passes that it holds, in order. There is room for all: so it takes no
/// memory, and no pass is lost.
pub(crate) fn open_listeners<
    'a,
    R: Wait + 'a,
    A: Channel + 'a,
    B: Channel + 'a,
    N: Drop,
    C: Drop,
    K: Drop,
>(
    rt: &'a R,
    shares: &'a [EitherShared<A, B>],
    jobs: Vec<ListenWorker<Pass, N, C, K>>,
    rooms: Vec<Vec<EitherPort<'a, R, A, B>>>,
    workers: &mut Vec<ListenWorker<EitherPort<'a, R, A, B>, N, C, K>>,
)
    requires jobs { All (AreListenPorts table_of shares.now (λ pass. pass)) jobs.items }
    requires rooms { Zips (λ job room. HasRoom job.ports.items room) jobs.items rooms.items }
    requires none { workers.old.items ≡ [] }
    requires room { length jobs.items ≤ vec_capacity workers.old }
    ensures opened { Zips (IsListenOpened shares.now) jobs.items workers.new.items }
    ensures room { vec_capacity workers.old ≤ vec_capacity workers.new }
{
    let mut others = jobs;
    let mut rest = rooms;
    let Some(job) = others.pop() else {
        return;
    };
    let Some(room) = rest.pop() else {
        return;
    };
    open_listeners(rt, shares, others, rest, workers);
    workers.push_reserved(open_listener(rt, shares, job, room));
}

// Gives a worker of lines the ports of its channels.
fn open_line<
    'a,
    R: Wait + 'a,
    A: Channel + 'a,
    B: Channel + 'a,
    I: Drop,
    O: Drop,
    C: Drop,
    K: Drop,
>(
    rt: &'a R,
    shares: &'a [EitherShared<A, B>],
    job: LineWorker<Pass, I, O, C, K>,
    room: Vec<EitherPort<'a, R, A, B>>,
) -> LineWorker<EitherPort<'a, R, A, B>, I, O, C, K>
    requires job { AreLinePorts table_of shares.now (λ pass. pass) job }
    requires room { HasRoom job.ports.items room }
    ensures { IsLineOpened shares.now job result }
{
    let LineWorker {
        alloc,
        ports,
        channels,
        plan,
        selector,
        host,
        rules,
        input,
        output,
        clock,
        end,
        of: _,
    } = job;
    let mut room = room;
    open_ports(rt, shares, channels.as_slice(), ports, &mut room);
    LineWorker {
        alloc,
        ports: room,
        channels,
        plan,
        selector,
        host,
        rules,
        input,
        output,
        clock,
        end,
        of: PhantomData,
    }
}

/// Gives each worker of lines the ports of its channels, with the passes that it holds, in order. There is room for all: so it
/// takes no memory, and no pass is lost.
pub(crate) fn open_lines<
    'a,
    R: Wait + 'a,
    A: Channel + 'a,
    B: Channel + 'a,
    I: Drop,
    O: Drop,
    C: Drop,
    K: Drop,
>(
    rt: &'a R,
    shares: &'a [EitherShared<A, B>],
    jobs: Vec<LineWorker<Pass, I, O, C, K>>,
    rooms: Vec<Vec<EitherPort<'a, R, A, B>>>,
    workers: &mut Vec<LineWorker<EitherPort<'a, R, A, B>, I, O, C, K>>,
)
    requires jobs { All (AreLinePorts table_of shares.now (λ pass. pass)) jobs.items }
    requires rooms { Zips (λ job room. HasRoom job.ports.items room) jobs.items rooms.items }
    requires none { workers.old.items ≡ [] }
    requires room { length jobs.items ≤ vec_capacity workers.old }
    ensures opened { Zips (IsLineOpened shares.now) jobs.items workers.new.items }
    ensures room { vec_capacity workers.old ≤ vec_capacity workers.new }
{
    let mut others = jobs;
    let mut rest = rooms;
    let Some(job) = others.pop() else {
        return;
    };
    let Some(room) = rest.pop() else {
        return;
    };
    open_lines(rt, shares, others, rest, workers);
    workers.push_reserved(open_line(rt, shares, job, room));
}

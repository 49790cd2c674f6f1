// Workers give the passes of their ports back.
ghost use Rattle.std.specs.Prelude.{◌≡◌, ◌≤◌, [], All, length};
ghost use Rattle.std.specs.Vec.{vec_capacity};
ghost use Rattle.run_tracks.specs.Homes.{AreHomes, EachTook};
ghost use Rattle.run_tracks.specs.Places.{Zips};
ghost use Rattle.run_staff.specs.Ports.{AreListenPorts, AreLinePorts, IsKeepPort, IsSinkPort};
ghost use Rattle.run_working.specs.Ends.{IsKeepEnded, IsLineEnded, IsListenEnded, IsSinkEnded};

use keep_worker::KeepWorker;
use line_worker::LineWorker;
use run_settling::AtHome;
use run_staff::LineEnded;
use run_tracks::{bring_home, end_ports};
use shared_channel::{Carries, Joins, Pass};
use sink_worker::SinkWorker;
use source_worker::ListenWorker;

/// The passes at home take in those of sinks, and the sinks come back in their order, each with the number of its pass. The list
/// has room for them: so it takes no memory, and no sink is lost.
pub fn end_sinks<Z: Joins, F: Carries + Drop, S: Drop, C: Drop>(
    shares: &[Z],
    homes: &mut [Pass],
    workers: Vec<SinkWorker<F, S, C>>,
    ended: &mut Vec<SinkWorker<AtHome, S, C>>,
)
    requires homes { AreHomes Z.table shares.now homes.old }
    requires workers { All (IsSinkPort Z.table shares.now F.pass) workers.items }
    requires none { ended.old.items ≡ [] }
    requires room { length workers.items ≤ vec_capacity ended.old }
    ensures homes { AreHomes Z.table shares.now homes.new }
    ensures kept { EachTook homes.old homes.new }
    ensures ended { Zips (IsSinkEnded F.pass homes.new) workers.items ended.new.items }
    ensures room { vec_capacity ended.old ≤ vec_capacity ended.new }
{
    let mut others = workers;
    let Some(worker) = others.pop() else {
        return;
    };
    end_sinks(shares, homes, others, ended);
    let SinkWorker {
        alloc,
        port,
        channel,
        sink,
        batch,
        clock,
    } = worker;
    let pass = port.into_pass();
    let number = pass.number();
    bring_home(shares, homes, channel as usize, pass);
    ended.push_reserved(SinkWorker {
        alloc,
        port: AtHome { number },
        channel,
        sink,
        batch,
        clock,
    });
}

/// The passes at home take in those of the workers of channels. It takes no memory.
pub fn end_keepers<Z: Joins, F: Carries + Drop, C: Drop>(
    shares: &[Z],
    homes: &mut [Pass],
    workers: Vec<KeepWorker<F, C>>,
)
    requires homes { AreHomes Z.table shares.now homes.old }
    requires workers { All (IsKeepPort Z.table shares.now F.pass) workers.items }
    ensures homes { AreHomes Z.table shares.now homes.new }
    ensures kept { EachTook homes.old homes.new }
    ensures ended { All (IsKeepEnded F.pass homes.new) workers.items }
{
    let mut others = workers;
    let Some(worker) = others.pop() else {
        return;
    };
    end_keepers(shares, homes, others);
    let KeepWorker { port, channel, .. } = worker;
    bring_home(shares, homes, channel as usize, port.into_pass());
}

/// The passes at home take in those of listeners, which come back in their order. The list has room for them: so it takes no
/// memory, and no listener is lost.
pub fn end_listeners<Z: Joins, F: Carries + Drop, N: Drop, C: Drop, K: Drop>(
    shares: &[Z],
    homes: &mut [Pass],
    workers: Vec<ListenWorker<F, N, C, K>>,
    listeners: &mut Vec<N>,
)
    requires homes { AreHomes Z.table shares.now homes.old }
    requires workers { All (AreListenPorts Z.table shares.now F.pass) workers.items }
    requires none { listeners.old.items ≡ [] }
    requires room { length workers.items ≤ vec_capacity listeners.old }
    ensures homes { AreHomes Z.table shares.now homes.new }
    ensures kept { EachTook homes.old homes.new }
    ensures ended { Zips (IsListenEnded F.pass homes.new) workers.items listeners.new.items }
    ensures room { vec_capacity listeners.old ≤ vec_capacity listeners.new }
{
    let mut others = workers;
    let Some(worker) = others.pop() else {
        return;
    };
    end_listeners(shares, homes, others, listeners);
    let ListenWorker {
        ports,
        channels,
        listener,
        ..
    } = worker;
    end_ports(shares, homes, channels, ports);
    listeners.push_reserved(listener);
}

/// The passes at home take in those of workers of lines, whose inputs and outputs come back in their order. The list has room for
/// them: so it takes no memory, and none is lost.
pub fn end_lines<Z: Joins, F: Carries + Drop, I: Drop, O: Drop, C: Drop, K: Drop>(
    shares: &[Z],
    homes: &mut [Pass],
    workers: Vec<LineWorker<F, I, O, C, K>>,
    ended: &mut Vec<LineEnded<I, O>>,
)
    requires homes { AreHomes Z.table shares.now homes.old }
    requires workers { All (AreLinePorts Z.table shares.now F.pass) workers.items }
    requires none { ended.old.items ≡ [] }
    requires room { length workers.items ≤ vec_capacity ended.old }
    ensures homes { AreHomes Z.table shares.now homes.new }
    ensures kept { EachTook homes.old homes.new }
    ensures ended { Zips (IsLineEnded F.pass homes.new) workers.items ended.new.items }
    ensures room { vec_capacity ended.old ≤ vec_capacity ended.new }
{
    let mut others = workers;
    let Some(worker) = others.pop() else {
        return;
    };
    end_lines(shares, homes, others, ended);
    let LineWorker {
        ports,
        channels,
        input,
        output,
        end,
        ..
    } = worker;
    end_ports(shares, homes, channels, ports);
    ended.push_reserved(LineEnded { input, output, end });
}

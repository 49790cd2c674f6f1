// What was opened is given back.
ghost use Rattle.std.specs.Prelude.{◌≡◌, [], ◌∷◌, length};
ghost use Rattle.flume_host.specs.HandedOut.{IsOut};
ghost use Rattle.flume_host.specs.Listens.{IsFrom};
ghost use Rattle.agent_outside.specs.Backs.{RollsBack};
ghost use Rattle.agent_outside.specs.Dials.{AreDialed, DialersBack, IsDialed, dial_back, dials_back};
ghost use Rattle.agent_outside.specs.Sinks.{AreOpened, IsOpened, back_of, backs_of};
ghost use Rattle.agent_outside.specs.Ends.{AreOfSources, AreOut, ListenersBack, Listens, ListensAt, comes_back, come_back, end_at, end_back, end_of, ends_of};

use crate::listener::SourceListener;
use agent_plan::{SinkKind, SinkPlan, SourceKind, SourcePlan};
use agent_sinks::AgentSink;
use avro_ends::{AvroSink, HasDialer};
use flume_host::Host;

// Gives the folder or the dialer of a sink back, if it has one by its plan.
pub(crate) fn give_back_sink<H: Host, B: Drop>(
    host: &mut H,
    plan: &SinkPlan,
    sink: AgentSink<H::Roll, AvroSink<H::Dialer>, B>,
)
    requires opened { IsOpened (H.folders host.old) plan.now.kind }
    requires dialed { IsDialed ⟦<AvroSink<H::Dialer> as HasDialer>⟧.dial plan.now.kind sink }
    requires out { AreOut (ends_of (dial_back ⟦<AvroSink<H::Dialer> as HasDialer>⟧.dial
        plan.now.kind sink)) (H.state host.old).dialers }
    ensures folders { RollsBack (back_of H.Roll.rolled plan.now.kind sink) (H.folders host.old)
        (H.folders host.new) }
    ensures dials { DialersBack (dial_back ⟦<AvroSink<H::Dialer> as HasDialer>⟧.dial plan.now.kind
        sink)
        (H.state host.old) (H.state host.new) }
{
    match sink {
        AgentSink::Roll(sink) => match &plan.kind {
            SinkKind::Roll {
                folder,
                interval: _,
            } => host.keep_roll(folder.as_str(), sink.close()),
            SinkKind::Null | SinkKind::Avro { .. } | SinkKind::Plugin { .. } => (),
        },
        AgentSink::Avro(sink) => match &plan.kind {
            SinkKind::Avro {
                host: address,
                port,
            } => host.keep_dialer(address.as_str(), *port, sink.close()),
            SinkKind::Null | SinkKind::Roll { .. } | SinkKind::Plugin { .. } => (),
        },
        AgentSink::Null(_) | AgentSink::Boxed(_) => (),
    }
}

/// Gives back the folders and the dialers of the sinks of the first of these plans, the last of them first, and drops the sinks. A sink that
/// isn't of the kind of its plan gives nothing back. It takes no memory and can't fail.
pub fn give_back_sinks<H: Host, B: Drop>(
    host: &mut H,
    plans: &[SinkPlan],
    sinks: Vec<AgentSink<H::Roll, AvroSink<H::Dialer>, B>>,
)
    requires opened { AreOpened (H.folders host.old) plans.now (length sinks.items) }
    requires dialed { AreDialed ⟦<AvroSink<H::Dialer> as HasDialer>⟧.dial plans.now sinks.items }
    requires out { AreOut (ends_of (dials_back ⟦<AvroSink<H::Dialer> as HasDialer>⟧.dial
        plans.now sinks.items)) (H.state host.old).dialers }
    ensures folders { RollsBack (backs_of H.Roll.rolled plans.now sinks.items) (H.folders host.old)
        (H.folders host.new) }
    ensures dials { DialersBack (dials_back ⟦<AvroSink<H::Dialer> as HasDialer>⟧.dial plans.now
        sinks.items)
        (H.state host.old) (H.state host.new) }
{
    let mut left = sinks;
    while let Some(sink) = left.pop() {
        give_back_sink(host, &plans[left.len()], sink);
    }
}

// Gives a listener back, for the address and port of a source of this kind.
pub(crate) fn give_back_end<H: Host>(host: &mut H, kind: &SourceKind, listener: H::Listener)
    requires listens { Listens kind.now }
    requires from { IsFrom (end_of kind.now).host (end_of kind.now).port
        (H.Listener.endpoint listener) }
    requires out { IsOut (end_of kind.now).host (end_of kind.now).port
        (H.state host.old).listeners }
    ensures back { ListenersBack
        (end_back H.Listener.told H.Listener.waits H.Listener.faults (end_of kind.now) listener ∷
        [])
        (H.state host.old) (H.state host.new) }
    ensures folders { H.folders host.new ≡ H.folders host.old }
{
    match kind {
        SourceKind::Netcat {
            bind,
            port,
            max_line: _,
            ack: _,
            threads: _,
        } => host.keep_listener(bind.as_str(), *port, listener),
        SourceKind::Avro {
            bind,
            port,
            threads: _,
        } => host.keep_listener(bind.as_str(), *port, listener),
        SourceKind::Stdin { .. } => unreachable!(),
    }
}

// Gives the listener of a source back.
fn give_back_listener<H: Host>(
    host: &mut H,
    sources: &[SourcePlan],
    listener: SourceListener<H::Listener>,
)
    requires listens { ListensAt sources.now listener.source }
    requires from { IsFrom (end_at sources.now listener.source).host
        (end_at sources.now listener.source).port (H.Listener.endpoint listener.listener) }
    requires out { AreOut (end_at sources.now listener.source ∷ []) (H.state host.old).listeners }
    ensures back { ListenersBack
        (comes_back H.Listener.told H.Listener.waits H.Listener.faults sources.now listener ∷ [])
        (H.state host.old) (H.state host.new) }
    ensures folders { H.folders host.new ≡ H.folders host.old }
{
    give_back_end(host, &sources[listener.source].kind, listener.listener);
}

/// Gives listeners back, each for the address and port of its source, the last of them first. It takes no memory and can't
/// fail.
pub fn give_back_listeners<H: Host>(
    host: &mut H,
    sources: &[SourcePlan],
    listeners: Vec<SourceListener<H::Listener>>,
)
    requires of { AreOfSources H.Listener.endpoint sources.now listeners.items }
    requires out { AreOut (ends_of (come_back H.Listener.told H.Listener.waits H.Listener.faults
        sources.now listeners.items)) (H.state host.old).listeners }
    ensures back { ListenersBack (come_back H.Listener.told H.Listener.waits H.Listener.faults
        sources.now listeners.items) (H.state host.old) (H.state host.new) }
    ensures folders { H.folders host.new ≡ H.folders host.old }
{
    let mut left = listeners;
    while let Some(listener) = left.pop() {
        give_back_listener(host, sources, listener);
    }
}

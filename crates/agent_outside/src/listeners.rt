// The listeners of an agent are opened.
ghost use Rattle.std.specs.Prelude.{◌≡◌, ℕ, [], ◌∷◌, All, IfOk, IfErr, OnErr, OnOk, map, take};
ghost use Rattle.agent_outside.specs.Ends.{Listens, ListensAt, end_at, end_of};
ghost use Rattle.agent_outside.specs.Listening.{IsFresh, ListenerAdded, ListenerUnopened, ListenersOpened, ListenersOut, ListensRefused};

use crate::give::{give_back_end, give_back_listeners};
use crate::listener::SourceListener;
use agent_plan::{SourceKind, SourcePlan};
use flume_host::{Host, NameRefused};
use std::alloc::Global;

// Opens a listener of a source of this kind.
fn open_end<H: Host>(host: &mut H, kind: &SourceKind) -> Result<H::Listener, NameRefused>
    requires { Listens kind.now }
    ensures fresh { IfOk result (IsFresh H.Listener.told H.Listener.endpoint H.Listener.waits
        H.Listener.faults (end_of kind.now) (H.state host.old).listeners) }
    ensures out { OnOk result (ListenersOut (end_of kind.now ∷ []) (H.state host.old)
        (H.state host.new)) }
    ensures refused { IfErr result (λ refused. ListensRefused refused [] (H.state host.old)
        (H.state host.new)) }
    ensures folders { H.folders host.new ≡ H.folders host.old }
{
    match kind {
        SourceKind::Netcat {
            bind,
            port,
            max_line: _,
            ack: _,
            threads: _,
        } => host.listen(bind.as_str(), *port),
        SourceKind::Avro {
            bind,
            port,
            threads: _,
        } => host.listen(bind.as_str(), *port),
        SourceKind::Stdin { .. } => unreachable!(),
    }
}

// Opens a listener of a source of this kind, and adds it to those that are open. Where there is no memory for that, it is
// given back.
fn add_end<H: Host>(
    host: &mut H,
    kind: &SourceKind,
    source: usize,
    listeners: &mut Vec<SourceListener<H::Listener>>,
) -> Result<(), NameRefused>
    requires { Listens kind.now }
    ensures added { OnOk result (ListenerAdded (IsFresh H.Listener.told H.Listener.endpoint
        H.Listener.waits H.Listener.faults) (end_of kind.now) source (H.state host.old)
        (H.state host.new) listeners.old.items listeners.new.items) }
    ensures same { OnErr result (listeners.new.items ≡ listeners.old.items) }
    ensures refused { IfErr result (λ refused. ListenerUnopened refused (end_of kind.now)
        (H.state host.old) (H.state host.new)) }
    ensures folders { H.folders host.new ≡ H.folders host.old }
{
    let listener = match open_end(host, kind) {
        Ok(listener) => listener,
        Err(refused) => return Err(refused),
    };
    match listeners.push(SourceListener { source, listener }) {
        Ok(()) => Ok(()),
        Err(refused) => {
            give_back_end(host, kind, refused.value.listener);
            Err(NameRefused::NoMemory)
        }
    }
}

// Opens a listener of the source at this place, and adds it.
fn add_listener<H: Host>(
    host: &mut H,
    sources: &[SourcePlan],
    place: usize,
    listeners: &mut Vec<SourceListener<H::Listener>>,
) -> Result<(), NameRefused>
    requires { ListensAt sources.now place }
    ensures added { OnOk result (ListenerAdded (IsFresh H.Listener.told H.Listener.endpoint
        H.Listener.waits H.Listener.faults) (end_at sources.now place) place (H.state host.old)
        (H.state host.new) listeners.old.items listeners.new.items) }
    ensures same { OnErr result (listeners.new.items ≡ listeners.old.items) }
    ensures refused { IfErr result (λ refused. ListenerUnopened refused (end_at sources.now place)
        (H.state host.old) (H.state host.new)) }
    ensures folders { H.folders host.new ≡ H.folders host.old }
{
    add_end(host, &sources[place].kind, place, listeners)
}

/// Opens a listener of the source at each of these places, in order. At a refusal all that was opened is given back, the last
/// first; `Failed` comes exactly where the host has counted a fault.
pub fn open_listeners<H: Host>(
    alloc: Global,
    host: &mut H,
    sources: &[SourcePlan],
    places: &[usize],
) -> Result<Vec<SourceListener<H::Listener>>, NameRefused>
    requires { All (ListensAt sources.now) places.now }
    ensures opened { IfOk result (λ listeners. ListenersOpened (IsFresh H.Listener.told
        H.Listener.endpoint H.Listener.waits H.Listener.faults) sources.now places.now
        (H.state host.old) (H.state host.new) listeners.items) }
    ensures refused { IfErr result (λ refused. (opened : ℕ) × ListensRefused refused
        (map (end_at sources.now) (take opened places.now)) (H.state host.old) (H.state host.new)) }
    ensures folders { H.folders host.new ≡ H.folders host.old }
{
    let mut listeners = Vec::new(alloc);
    for place in places {
        if let Err(refused) = add_listener(host, sources, *place, &mut listeners) {
            give_back_listeners(host, sources, listeners);
            return Err(refused);
        }
    }
    Ok(listeners)
}

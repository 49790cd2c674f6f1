// A sink that hands batches on to another agent.
ghost use Rattle.std.specs.Prelude.{◌≡◌, ◌+◌, ◌≤◌, ◌<◌, Some, None, Ok, Err, IsOkAnd, OnOk, MatchResult};
ghost use Rattle.flume_host.specs.Causes.{Rose};
ghost use Rattle.flume_host.specs.Listens.{IsOwed, IsSettled, gave_one, kept_in, refused_link};
ghost use Rattle.plug_in.specs.Sinks.{IsRefused};
ghost use Rattle.avro_ends.specs.Dialing.{closed_links};
ghost use Rattle.avro_ends.specs.Deliveries.{WentBack, Connects, Delivers, HasBack, IsOut, StaysOrWentBack, SinkLinks, OpenWentBack, Stands, Stands-prop, last_of, said, sink_answer, stays};

use crate::dialing::HasDialer;
use crate::dials::Dials;
use crate::exchange::{exchange, request_of};
use crate::open::Open;
use crate::refused::DeliverRefused;
use event_core::{Batch, NoMemory};
use flume_host::{Dialer, Failed, Link};
use plug_in::{EventSink, SinkRefused};
use std::alloc::Global;

// The serial of the last request on the open link.
fn last_of<L>(opened: &Option<Open<L>>) -> u32
    ensures { result ≡ last_of opened.now }
{
    match opened {
        Some(open) => open.serial,
        None => 0,
    }
}

// Gives the open link back.
#[tactic(auto, using(crate::proofs::Delivering::settled_back, crate::proofs::Delivering::settled_refused, crate::proofs::Delivering::dialled_out))]
fn shut<L: Link + Drop, D: Dials<L>>(dialer: &mut D, opened: &mut Option<Open<L>>)
    requires { Stands (D.told dialer.old) opened.old }
    ensures shuts { OpenWentBack D.told D.faults L.told L.faults dialer.old opened.old
        (record { dialer = dialer.new; opened = opened.new }) }
    ensures none { opened.new ≡ None }
    ensures back { HasBack (D.told dialer.old) opened.old → IsSettled (D.told dialer.new) }
    ensures endpoint { D.endpoint dialer.new ≡ D.endpoint dialer.old }
{
    if let Some(open) = opened.take() {
        dialer.take_back(open.link);
    }
}

// The open link, or a new one.
#[tactic(auto, using(crate::proofs::Delivering::settled_back, crate::proofs::Delivering::settled_refused, crate::proofs::Delivering::dialled_out))]
fn connect<L: Link + Drop, D: Dials<L>>(
    dialer: &mut D,
    opened: &mut Option<Open<L>>,
) -> Result<L, Failed>
    requires { Stands (D.told dialer.old) opened.old }
    ensures link { MatchResult result
        (λ link. Connects D.told D.faults L.told L.faults dialer.old opened.old link dialer.new)
        (λ _. (opened.old ≡ None) × (D.told dialer.new ≡ refused_link (D.told dialer.old))
        × Rose (D.faults dialer.old) (D.faults dialer.new)) }
    ensures owed { OnOk result (IsOwed (D.told dialer.new)) }
    ensures back { HasBack (D.told dialer.old) opened.old
        → MatchResult result (λ _. IsOut (D.told dialer.new)) (λ _. IsSettled (D.told dialer.new)) }
    ensures none { opened.new ≡ None }
    ensures endpoint { D.endpoint dialer.new ≡ D.endpoint dialer.old }
{
    match opened.take() {
        Some(open) => Ok(open.link),
        None => dialer.make(),
    }
}

// Whether the link stays open after this answer.
fn stays(answer: Result<bool, DeliverRefused>, serial: u32) -> bool
    ensures { result ≡ stays answer serial }
{
    match answer {
        Ok(more) => !more && serial < u32::MAX,
        Err(_) => false,
    }
}

// After a request: the link stays open, or goes back.
#[tactic(auto, using(crate::proofs::Delivering::settled_back, crate::proofs::Delivering::settled_refused, crate::proofs::Delivering::dialled_out))]
fn leave<L: Link + Drop, D: Dials<L>>(
    dialer: &mut D,
    opened: &mut Option<Open<L>>,
    link: L,
    serial: u32,
    answer: Result<bool, DeliverRefused>,
)
    requires owed { IsOwed (D.told dialer.old) }
    requires none { opened.old ≡ None }
    ensures leaves { StaysOrWentBack D.told D.faults L.told L.faults (stays answer serial) serial
        dialer.old
        link (record { dialer = dialer.new; opened = opened.new }) }
    ensures stands { Stands (D.told dialer.new) opened.new }
    ensures back { IsOut (D.told dialer.old) → HasBack (D.told dialer.new) opened.new }
    ensures endpoint { D.endpoint dialer.new ≡ D.endpoint dialer.old }
{
    if stays(answer, serial) {
        *opened = Some(Open { link, serial });
    } else {
        dialer.take_back(link);
    }
}

fn said(answer: Result<bool, DeliverRefused>) -> Result<(), DeliverRefused>
    ensures { result ≡ said answer }
{
    match answer {
        Ok(_) => Ok(()),
        Err(e) => Err(e),
    }
}

// Delivers a batch by the open link or a new one.
fn deliver_by<L: Link + Drop, D: Dials<L>>(
    alloc: Global,
    dialer: &mut D,
    opened: &mut Option<Open<L>>,
    batch: &Batch,
) -> Result<(), DeliverRefused>
    requires { Stands (D.told dialer.old) opened.old }
    ensures delivers { Delivers D.told D.faults L.told L.faults
        (record { dialer = dialer.old; opened = opened.old }) batch.now result
        (record { dialer = dialer.new; opened = opened.new }) }
    ensures stands { Stands (D.told dialer.new) opened.new }
    ensures back { HasBack (D.told dialer.old) opened.old → HasBack (D.told dialer.new) opened.new }
    ensures endpoint { D.endpoint dialer.new ≡ D.endpoint dialer.old }
{
    let serial = last_of(opened) + 1;
    let Ok(request) = request_of(alloc, serial, batch) else {
        shut(dialer, opened);
        return Err(DeliverRefused::NoMemory);
    };
    let Ok(mut link) = connect(dialer, opened) else {
        return Err(DeliverRefused::LinkFault);
    };
    let answer = exchange(alloc, &mut link, request.as_slice(), serial == 1, serial);
    leave(dialer, opened, link, serial, answer);
    said(answer)
}

// How often a sink has refused, after this answer.
fn counted(faults: u64, answer: Result<(), DeliverRefused>) -> u64
    ensures refused { IsRefused (sink_answer answer) → Rose faults result }
    ensures later { faults ≤ result }
{
    match answer {
        Ok(()) | Err(DeliverRefused::NoMemory) => faults,
        Err(_) => faults.saturating_add(1),
    }
}

fn sink_answer(answer: Result<(), DeliverRefused>) -> Result<(), SinkRefused>
    ensures { result ≡ sink_answer answer }
{
    match answer {
        Ok(()) => Ok(()),
        Err(DeliverRefused::NoMemory) => Err(SinkRefused::NoMemory),
        Err(_) => Err(SinkRefused::Refused),
    }
}

/// Hands batches on to another agent (Flume User Guide, "Avro Sink"): each is one `appendBatch`, on a link that stays open
/// from one batch to the next. A link goes back to its dialer after each refusal, after the serial 4,294,967,295, where
/// the peer sent more than its reply, and when the sink is closed.
#[derive(Drop)]
pub struct AvroSink<D: Dialer + Drop> {
    alloc: Global,
    dialer: D,
    opened: Option<Open<D::Link>>,
    faults: u64,
    ghost stands: { Stands (D.told dialer) opened } by { Stands-prop (D.told dialer) opened },
}

impl<D: Dialer + Drop> AvroSink<D> {
    /// A sink that has no link yet. It takes no memory.
    pub fn new(alloc: Global, dialer: D) -> Result<AvroSink<D>, NoMemory>
        ensures { IsOkAnd result
            (λ sink. (sink.dialer ≡ dialer) × (sink.opened ≡ None) × (sink.faults ≡ 0)) }
    {
        Ok(AvroSink {
            alloc,
            dialer,
            opened: None,
            faults: 0,
        })
    }

    /// Delivers a batch. It is Ok exactly where the reply to its own request tells the status OK under the request's serial.
    pub fn deliver(&mut self, batch: &Batch) -> Result<(), DeliverRefused>
        ensures delivers { Delivers D.told D.faults D.Link.told D.Link.faults
            (record { dialer = self.old.dialer; opened = self.old.opened }) batch.now result
            (record { dialer = self.new.dialer; opened = self.new.opened }) }
        ensures counted { IsRefused (sink_answer result) → Rose self.old.faults self.new.faults }
        ensures later { self.old.faults ≤ self.new.faults }
        ensures back { HasBack (D.told self.old.dialer) self.old.opened
            → HasBack (D.told self.new.dialer) self.new.opened }
        ensures endpoint { D.endpoint self.new.dialer ≡ D.endpoint self.old.dialer }
    {
        let answer = deliver_by(self.alloc, &mut self.dialer, &mut self.opened, batch);
        self.faults = counted(self.faults, answer);
        answer
    }

    /// Hands the dialer back, which has the open link back.
    #[tactic(auto, using(crate::proofs::Closing::closed_tells, crate::proofs::Closing::closed_counts))]
    pub fn close(self) -> D
        ensures shuts { OpenWentBack D.told D.faults D.Link.told D.Link.faults self.dialer
            self.opened
            (record { dialer = result; opened = None }) }
        ensures told { D.told result ≡ closed_links D.told D.Link.told self.dialer self.opened }
        ensures count { D.faults result ≡ D.faults self.dialer }
        ensures back { HasBack (D.told self.dialer) self.opened → IsSettled (D.told result) }
        ensures endpoint { D.endpoint result ≡ D.endpoint self.dialer }
    {
        let AvroSink {
            alloc: _,
            mut dialer,
            mut opened,
            faults: _,
        } = self;
        shut(&mut dialer, &mut opened);
        dialer
    }
}

impl<D: Dialer + Drop> HasDialer for AvroSink<D> {
    ghost use Rattle.std.specs.Prelude.{◌≡◌, None};
    ghost use Rattle.avro_ends.specs.Deliveries.{HasBack};
    ghost use Rattle.avro_ends.specs.Dialing.{closed_links};

    ghost dial = { record {
      endpoint = λ s. D.endpoint s.dialer;
      links = λ s. closed_links D.told D.Link.told s.dialer s.opened;
      faults = λ s. D.faults s.dialer;
      IsIdle = λ s. s.opened ≡ None;
      HasAllBack = λ s. HasBack (D.told s.dialer) s.opened;
    } };
}

impl<D: Dialer + Drop> EventSink for AvroSink<D> {
    ghost use Rattle.std.specs.Prelude.{◌≡◌, Result};
    ghost use Rattle.avro_ends.specs.Deliveries.{Delivers, HasBack, SinkLinks, sink_answer};
    ghost use Rattle.avro_ends.specs.declared.refused.DeliverRefused.{DeliverRefused};

    ghost delivers = { λ s batch moment result t. (answer : Result (Unit {0}) DeliverRefused)
        × (result ≡ sink_answer answer) × Delivers D.told D.faults D.Link.told D.Link.faults
        (record { dialer = s.dialer; opened = s.opened }) batch answer
        (record { dialer = t.dialer; opened = t.opened })
        × (D.endpoint t.dialer ≡ D.endpoint s.dialer)
        × (HasBack (D.told s.dialer) s.opened → HasBack (D.told t.dialer) t.opened) };

    ghost faults = { λ s. s.faults };

    fn deliver(&mut self, batch: &Batch, _moment: u64) -> Result<(), SinkRefused> {
        let answer = deliver_by(self.alloc, &mut self.dialer, &mut self.opened, batch);
        self.faults = counted(self.faults, answer);
        sink_answer(answer)
    }

    fn faults(&self) -> u64 {
        self.faults
    }
}

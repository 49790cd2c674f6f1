// One session of Avro messages on a link.
ghost use Rattle.std.specs.Prelude.{◌≡◌, ◌<◌, ◌≤◌, ◌*◌, ◌^◌, ◌++◌, ◌∷◌, [], List, ℕ, Bool, Option, None, Some, length, take, IfOk, OnOk, OnErr, IfErr, IsErrOf, Err, Ok, true, false, ◌⊎◌};
ghost use Rattle.flume_host.specs.Causes.{RisesWhere};
ghost use Rattle.flume_host.specs.Told.{Tells};
ghost use Rattle.flume_host.specs.Links.{Talks};
ghost use Rattle.source_put.specs.Tries.{Puts};
ghost use Rattle.avro_frame.specs.Pack.{IsPack, IsPart, max_bytes};
ghost use Rattle.avro_frame.specs.Feed.{Holds};
ghost use Rattle.avro_hop.specs.Dialogue.{Answers};
ghost use Rattle.avro_ends.specs.Exchanges.{TakesBatch, status_of};
ghost use Rattle.source_put.specs.Into.{into_of};
ghost use Rattle.avro_ends.specs.Messages.{ServesEvents, ServesMessage};
ghost use Rattle.avro_ends.specs.Sessions.{Breaks, Goes, Served, IsOpen, IsTurnsOf, held_in};

use crate::reply::{answered, packed, status_of};
use avro_frame::{Message, PackRefused, Packs, no_pack_within};
use avro_hop::{Asked, Hop, HopRefused, Status};
use channel_face::PutFace;
use event_core::Batch;
use flume_host::{Clock, Halt, Link, LinkRead, write_all};
use plug_in::Interceptor;
use source_put::Intake;
use std::alloc::Global;

/// What ended a session.
#[derive(Clone, Copy, Debug, PartialEq, Eq)]
pub enum AvroEnd {
    /// The peer sends no more.
    End,
    /// It was asked to stop.
    Stopped,
    /// The link failed.
    LinkFault,
    /// 2^40 turns were made.
    Turns,
    /// A pack has so many buffers.
    TooMany { n: u32 },
    /// A pack has so many bytes.
    TooLarge { n: u64 },
    /// A message has no spelling from this offset on.
    BadHandshake { at: u64 },
    /// A client's protocol is another one.
    OtherProtocol,
    /// There was no memory for a message.
    NoMemory,
}

// Puts the events of a message into the channels, and answers their verdict. Room for the reply is made before.
fn serve_events<L: Link, F: PutFace + Drop, B: Interceptor, C: Clock>(
    alloc: Global,
    link: &mut L,
    intake: &mut Intake<F, B>,
    clock: &mut C,
    serial: u32,
    front: &[u8],
    batch: Batch,
) -> Result<(), AvroEnd>
    requires few { length batch < 2 ^ 32 }
    requires front { length front.now ≤ 531 }
    ensures turn { ¬ IsErrOf result AvroEnd.Turns }
    ensures end { ¬ IsErrOf result AvroEnd.End }
    ensures stop { ¬ IsErrOf result AvroEnd.Stopped }
    ensures serves { ServesEvents
        (TakesBatch (Puts F.own F.saw F.seen F.kept) intake.old.selector B.intercepts
        intake.old.host)
        (into_of intake.old (C.moments clock.old)) (into_of intake.new (C.moments clock.new))
        (L.told link.old) (L.told link.new) serial front.now batch result }
    ensures fault { RisesWhere (IsErrOf result AvroEnd.LinkFault) (L.faults link.old)
        (L.faults link.new) }
    ensures same { (intake.new.selector ≡ intake.old.selector)
        × (intake.new.host ≡ intake.old.host) }
{
    let Ok(taken) = answered(alloc, serial, front, Status::Ok) else {
        return Err(AvroEnd::NoMemory);
    };
    let Ok(refused) = answered(alloc, serial, front, Status::Failed) else {
        return Err(AvroEnd::NoMemory);
    };
    let moment = clock.now();
    let verdict = intake.accept(batch, moment);
    let reply = match status_of(&verdict) {
        Some(Status::Ok) => taken.as_slice(),
        Some(_) => refused.as_slice(),
        None => return Err(AvroEnd::NoMemory),
    };
    match write_all(link, reply) {
        Ok(()) => Ok(()),
        Err(_) => Err(AvroEnd::LinkFault),
    }
}

// Answers a message.
fn serve_message<L: Link, F: PutFace + Drop, B: Interceptor, C: Clock>(
    alloc: Global,
    link: &mut L,
    intake: &mut Intake<F, B>,
    clock: &mut C,
    hop: &mut Hop,
    message: Message,
) -> Result<(), AvroEnd>
    requires { length message.payload.items ≤ max_bytes }
    ensures turn { ¬ IsErrOf result AvroEnd.Turns }
    ensures end { ¬ IsErrOf result AvroEnd.End }
    ensures stop { ¬ IsErrOf result AvroEnd.Stopped }
    ensures serves { ServesMessage
        (TakesBatch (Puts F.own F.saw F.seen F.kept) intake.old.selector B.intercepts
        intake.old.host)
        (into_of intake.old (C.moments clock.old)) (into_of intake.new (C.moments clock.new))
        (L.told link.old) (L.told link.new) hop.old hop.new message.serial message.payload.items
        result }
    ensures fault { RisesWhere (IsErrOf result AvroEnd.LinkFault) (L.faults link.old)
        (L.faults link.new) }
    ensures same { (intake.new.selector ≡ intake.old.selector)
        × (intake.new.host ≡ intake.old.host) }
{
    match hop.answer(message.payload.as_slice()) {
        Ok(Asked::Reply(payload)) => {
            let Ok(reply) = packed(alloc, message.serial, payload.as_slice()) else {
                return Err(AvroEnd::NoMemory);
            };
            match write_all(link, reply.as_slice()) {
                Ok(()) => Ok(()),
                Err(_) => Err(AvroEnd::LinkFault),
            }
        }
        Ok(Asked::Events { front, batch }) => {
            match serve_events(
                alloc,
                link,
                intake,
                clock,
                message.serial,
                front.as_slice(),
                batch,
            ) {
                Ok(()) => Ok(()),
                Err(end) => Err(end),
            }
        }
        Err(HopRefused::BadHandshake { at }) => Err(AvroEnd::BadHandshake { at }),
        Err(HopRefused::OtherProtocol) => Err(AvroEnd::OtherProtocol),
        Err(HopRefused::NoMemory) => Err(AvroEnd::NoMemory),
    }
}

// Cuts the front of what was read, up to the end of the present pack, and answers its message.
fn serve_next<L: Link, F: PutFace + Drop, B: Interceptor, C: Clock>(
    alloc: Global,
    link: &mut L,
    intake: &mut Intake<F, B>,
    clock: &mut C,
    packs: &mut Packs,
    hop: &mut Hop,
    rest: &[u8],
) -> Result<usize, AvroEnd>
    requires some { 0 < length rest.now }
    requires open { IsOpen packs.old.packing }
    ensures n { IfOk result (λ n. (1 ≤ n) × (n ≤ length rest.now)) }
    ensures open { OnOk result (IsOpen packs.new.packing) }
    ensures goes { IfOk result
        (λ n. Goes (TakesBatch (Puts F.own F.saw F.seen F.kept) intake.old.selector B.intercepts
        intake.old.host)
        (into_of intake.old (C.moments clock.old)) (into_of intake.new (C.moments clock.new))
        (L.told link.old) (L.told link.new) hop.old hop.new (held_in packs.old.packing)
        (take n rest.now) (held_in packs.new.packing) [] 0) }
    ensures breaks { IfErr result
        (Breaks (TakesBatch (Puts F.own F.saw F.seen F.kept) intake.old.selector B.intercepts
        intake.old.host)
        (into_of intake.old (C.moments clock.old)) (into_of intake.new (C.moments clock.new))
        (L.told link.old) (L.told link.new) hop.old (held_in packs.old.packing) rest.now [] 0) }
    ensures turn { ¬ IsErrOf result AvroEnd.Turns }
    ensures end { ¬ IsErrOf result AvroEnd.End }
    ensures stop { ¬ IsErrOf result AvroEnd.Stopped }
    ensures fault { RisesWhere (IsErrOf result AvroEnd.LinkFault) (L.faults link.old)
        (L.faults link.new) }
    ensures same { (intake.new.selector ≡ intake.old.selector)
        × (intake.new.host ≡ intake.old.host) }
{
    no_pack_within();
    match packs.feed(rest) {
        Ok((n, None)) => Ok(n),
        Ok((n, Some(message))) => {
            match serve_message(alloc, link, intake, clock, hop, message) {
                Ok(()) => Ok(n),
                Err(end) => Err(end),
            }
        }
        Err(PackRefused::TooMany { n }) => Err(AvroEnd::TooMany { n }),
        Err(PackRefused::TooLarge { n }) => Err(AvroEnd::TooLarge { n }),
        Err(PackRefused::NoMemory) => Err(AvroEnd::NoMemory),
    }
}

// Cuts what was read into packs, and answers each message. Before each it asks whether to stop.
fn serve_piece<L: Link, F: PutFace + Drop, B: Interceptor, C: Clock, H: Halt>(
    alloc: Global,
    link: &mut L,
    intake: &mut Intake<F, B>,
    clock: &mut C,
    halt: &mut H,
    packs: &mut Packs,
    hop: &mut Hop,
    piece: &[u8],
) -> Result<(), AvroEnd>
    requires { IsOpen packs.old.packing }
    ensures open { OnOk result (IsOpen packs.new.packing) }
    ensures goes { OnOk result
        (Goes (TakesBatch (Puts F.own F.saw F.seen F.kept) intake.old.selector B.intercepts
        intake.old.host)
        (into_of intake.old (C.moments clock.old)) (into_of intake.new (C.moments clock.new))
        (L.told link.old) (L.told link.new) hop.old hop.new (held_in packs.old.packing) piece.now
        (held_in packs.new.packing) [] 0) }
    ensures breaks { IfErr result
        (Breaks (TakesBatch (Puts F.own F.saw F.seen F.kept) intake.old.selector B.intercepts
        intake.old.host)
        (into_of intake.old (C.moments clock.old)) (into_of intake.new (C.moments clock.new))
        (L.told link.old) (L.told link.new) hop.old (held_in packs.old.packing) piece.now [] 0) }
    ensures turn { ¬ IsErrOf result AvroEnd.Turns }
    ensures end { ¬ IsErrOf result AvroEnd.End }
    ensures fault { RisesWhere (IsErrOf result AvroEnd.LinkFault) (L.faults link.old)
        (L.faults link.new) }
    ensures stop { RisesWhere (IsErrOf result AvroEnd.Stopped) (H.yes halt.old) (H.yes halt.new) }
    ensures same { (intake.new.selector ≡ intake.old.selector)
        × (intake.new.host ≡ intake.old.host) }
{
    let mut at = 0;
    while at < piece.len() {
        if halt.asked() {
            return Err(AvroEnd::Stopped);
        }
        at += match serve_next(alloc, link, intake, clock, packs, hop, &piece[at..]) {
            Ok(n) => n,
            Err(end) => return Err(end),
        };
    }
    Ok(())
}

// How many bytes are read at once.
const PIECE: usize = 4096;

// One turn of a session: a read, and what it brought.
fn serve_turn<L: Link, F: PutFace + Drop, B: Interceptor, C: Clock, H: Halt>(
    alloc: Global,
    link: &mut L,
    intake: &mut Intake<F, B>,
    clock: &mut C,
    halt: &mut H,
    packs: &mut Packs,
    hop: &mut Hop,
) -> Result<(), AvroEnd>
    requires { IsOpen packs.old.packing }
    ensures open { OnOk result (IsOpen packs.new.packing) }
    ensures goes { OnOk result
        ((bytes : List ℕ) × Goes
        (TakesBatch (Puts F.own F.saw F.seen F.kept) intake.old.selector B.intercepts
        intake.old.host)
        (into_of intake.old (C.moments clock.old)) (into_of intake.new (C.moments clock.new))
        (L.told link.old) (L.told link.new) hop.old hop.new (held_in packs.old.packing) bytes
        (held_in packs.new.packing) bytes 1) }
    ensures breaks { IfErr result
        (λ end. (bytes : List ℕ) × (turns : ℕ) × IsTurnsOf end turns
        × Breaks (TakesBatch (Puts F.own F.saw F.seen F.kept) intake.old.selector B.intercepts
        intake.old.host)
        (into_of intake.old (C.moments clock.old)) (into_of intake.new (C.moments clock.new))
        (L.told link.old) (L.told link.new) hop.old (held_in packs.old.packing) bytes bytes turns
        end) }
    ensures turn { ¬ IsErrOf result AvroEnd.Turns }
    ensures fault { RisesWhere (IsErrOf result AvroEnd.LinkFault) (L.faults link.old)
        (L.faults link.new) }
    ensures stop { RisesWhere (IsErrOf result AvroEnd.Stopped) (H.yes halt.old) (H.yes halt.new) }
    ensures same { (intake.new.selector ≡ intake.old.selector)
        × (intake.new.host ≡ intake.old.host) }
{
    if halt.asked() {
        return Err(AvroEnd::Stopped);
    }
    let mut buf = [0u8; PIECE];
    match link.read(&mut buf) {
        Ok(LinkRead::Got(n)) => {
            match serve_piece(alloc, link, intake, clock, halt, packs, hop, &buf[..n]) {
                Ok(()) => Ok(()),
                Err(end) => Err(end),
            }
        }
        Ok(LinkRead::Quiet) => Ok(()),
        Ok(LinkRead::End) => Err(AvroEnd::End),
        Err(_) => Err(AvroEnd::LinkFault),
    }
}

// The most turns of a session.
const TURNS: u64 = 1 << 40;

// Serves a new connection until the link ends or something ends the session.
fn serve_until<L: Link, F: PutFace + Drop, B: Interceptor, C: Clock, H: Halt>(
    alloc: Global,
    link: &mut L,
    intake: &mut Intake<F, B>,
    clock: &mut C,
    halt: &mut H,
    packs: &mut Packs,
    hop: &mut Hop,
) -> AvroEnd
    requires packs { packs.old.packing ≡ Holds [] }
    requires hop { hop.old ≡ false }
    ensures served { Served
        (TakesBatch (Puts F.own F.saw F.seen F.kept) intake.old.selector B.intercepts
        intake.old.host)
        (into_of intake.old (C.moments clock.old)) (into_of intake.new (C.moments clock.new))
        (L.told link.old) (L.told link.new) result }
    ensures fault { RisesWhere (result ≡ AvroEnd.LinkFault) (L.faults link.old)
        (L.faults link.new) }
    ensures stop { RisesWhere (result ≡ AvroEnd.Stopped) (H.yes halt.old) (H.yes halt.new) }
    ensures same { (intake.new.selector ≡ intake.old.selector)
        × (intake.new.host ≡ intake.old.host) }
{
    let mut turns = 0;
    while turns < TURNS {
        match serve_turn(alloc, link, intake, clock, halt, packs, hop) {
            Ok(()) => turns += 1,
            Err(end) => return end,
        }
    }
    AvroEnd::Turns
}

/// Serves the messages that a link gives, as one new connection: each is answered by the hop, its events are put into the
/// channels at the next moment of the clock and their verdict is answered, until the link ends or something else ends the
/// session. Before each message and each read it asks whether to stop.
pub fn serve_avro<L: Link, F: PutFace + Drop, B: Interceptor, C: Clock, H: Halt>(
    alloc: Global,
    link: &mut L,
    intake: &mut Intake<F, B>,
    clock: &mut C,
    halt: &mut H,
) -> AvroEnd
    ensures served { Served
        (TakesBatch (Puts F.own F.saw F.seen F.kept) intake.old.selector B.intercepts
        intake.old.host)
        (into_of intake.old (C.moments clock.old)) (into_of intake.new (C.moments clock.new))
        (L.told link.old) (L.told link.new) result
        ⊎ ((result ≡ AvroEnd.NoMemory) × (L.told link.new ≡ L.told link.old)
        × (intake.new ≡ intake.old) × (C.moments clock.new ≡ C.moments clock.old)) }
    ensures fault { RisesWhere (result ≡ AvroEnd.LinkFault) (L.faults link.old)
        (L.faults link.new) }
    ensures stop { RisesWhere (result ≡ AvroEnd.Stopped) (H.yes halt.old) (H.yes halt.new) }
    ensures same { (intake.new.selector ≡ intake.old.selector)
        × (intake.new.host ≡ intake.old.host) }
{
    let Ok(mut hop) = Hop::new(alloc) else {
        return AvroEnd::NoMemory;
    };
    let mut packs = Packs::new(alloc);
    serve_until(alloc, link, intake, clock, halt, &mut packs, &mut hop)
}

// One session of lines on a link.
ghost use Rattle.std.specs.Prelude.{◌≡◌, ◌⊎◌, ◌<◌, ◌≤◌, ◌^◌, [], List, ℕ, length, take, IfOk, OnOk, IfErr, IsErrOf};
ghost use Rattle.flume_host.specs.Causes.{RisesWhere};
ghost use Rattle.netcat_source.specs.Lines.{IsLine, IsLineLimit};
ghost use Rattle.netcat_source.specs.Into.{TakesLine, sides};
ghost use Rattle.source_put.specs.Into.{into_of};
ghost use Rattle.netcat_source.specs.Sessions.{Served};
ghost use Rattle.netcat_source.specs.Parts.{AnswerEnds, Answers, Breaks, Goes, IsTurnsOf, LongEnds, TakesOne, held_by};
ghost use Rattle.source_put.specs.Tries.{Puts};

use crate::lines::{Cut, LineVerdict, Lines, TOO_LONG_REPLY, reply_to, said_of, take_line};
use channel_face::PutFace;
use flume_host::{Clock, Halt, Link, LinkRead, write_all};
use plug_in::Interceptor;
use source_put::Intake;
use std::alloc::Global;

/// The rules of a session (Flume User Guide, "NetCat TCP Source").
#[derive(Clone, Copy, Debug, PartialEq, Eq)]
pub struct LineRules {
    /// `max-line-length`: a line of so many bytes without a newline is too long.
    pub max: u32,
    /// `ack-every-event`: a line that was accepted is answered too.
    pub ack: bool,
}

/// What ended a session.
#[derive(Clone, Copy, Debug, PartialEq, Eq)]
pub enum SessionEnd {
    /// The peer sends no more.
    End,
    /// It was told to stop.
    Stopped,
    /// A line was too long.
    TooLongLine,
    /// The link failed.
    LinkFault,
    /// 2^40 turns were made: reads that gave bytes or waited in vain.
    Turns,
    /// There was no memory for a line, or for the session to begin.
    NoMemory,
}

// Answers a line. The session goes on at `Ok`.
fn answer<L: Link>(link: &mut L, verdict: LineVerdict, ack: bool) -> Result<(), SessionEnd>
    ensures ok { OnOk result (Answers ack verdict (L.told link.old) (L.told link.new)) }
    ensures ends { IfErr result (AnswerEnds ack verdict (L.told link.old) (L.told link.new)) }
    ensures fault { RisesWhere (IsErrOf result SessionEnd.LinkFault) (L.faults link.old)
        (L.faults link.new) }
{
    match write_all(link, reply_to(verdict, ack)) {
        Ok(()) => match verdict {
            LineVerdict::NoMemory => Err(SessionEnd::NoMemory),
            _ => Ok(()),
        },
        Err(_) => Err(SessionEnd::LinkFault),
    }
}

// Puts a line into the channels, and answers it.
fn serve_line<L: Link, F: PutFace + Drop, B: Interceptor, C: Clock>(
    alloc: Global,
    link: &mut L,
    ack: bool,
    intake: &mut Intake<F, B>,
    clock: &mut C,
    line: &[u8],
) -> Result<(), SessionEnd>
    requires { length line.now < 1_048_568 }
    ensures goes { OnOk result (TakesOne (TakesLine (Puts F.own F.saw F.seen F.kept)
        intake.old.selector B.intercepts intake.old.host)
        (into_of intake.old (C.moments clock.old)) line.now
        (into_of intake.new (C.moments clock.new)) (λ said. Answers ack said (L.told link.old)
        (L.told link.new))) }
    ensures ends { IfErr result (λ end. TakesOne (TakesLine (Puts F.own F.saw F.seen F.kept)
        intake.old.selector B.intercepts intake.old.host)
        (into_of intake.old (C.moments clock.old)) line.now
        (into_of intake.new (C.moments clock.new)) (λ said. AnswerEnds ack said (L.told link.old)
        (L.told link.new) end)) }
    ensures fault { RisesWhere (IsErrOf result SessionEnd.LinkFault) (L.faults link.old)
        (L.faults link.new) }
    ensures same { (intake.new.selector ≡ intake.old.selector) ×
        (intake.new.host ≡ intake.old.host) }
{
    let verdict = take_line(alloc, intake, clock, line);
    answer(link, said_of(&verdict), ack)
}

// Says of a line that it is too long.
fn refuse_long<L: Link>(link: &mut L) -> SessionEnd
    ensures ends { LongEnds (L.told link.old) (L.told link.new) result }
    ensures fault { RisesWhere (result ≡ SessionEnd.LinkFault) (L.faults link.old)
        (L.faults link.new) }
{
    match write_all(link, TOO_LONG_REPLY) {
        Ok(()) => SessionEnd::TooLongLine,
        Err(_) => SessionEnd::LinkFault,
    }
}

// Cuts the front of what was read, up to the end of the present line, and serves it.
fn serve_front<L: Link, F: PutFace + Drop, B: Interceptor, C: Clock>(
    alloc: Global,
    link: &mut L,
    ack: bool,
    intake: &mut Intake<F, B>,
    clock: &mut C,
    lines: &mut Lines,
    rest: &[u8],
) -> Result<usize, SessionEnd>
    requires some { 0 < length rest.now }
    requires max { IsLineLimit lines.old.max }
    ensures max { lines.new.max ≡ lines.old.max }
    ensures n { IfOk result (λ n. (1 ≤ n) × (n ≤ length rest.now)) }
    ensures partial { OnOk result (IsLine lines.new.max (held_by lines.new)) }
    ensures goes { IfOk result (λ n. Goes lines.old.max ack
        (TakesLine (Puts F.own F.saw F.seen F.kept) intake.old.selector B.intercepts
        intake.old.host)
        (sides intake.old (C.moments clock.old) (L.told link.old))
        (sides intake.new (C.moments clock.new) (L.told link.new))
        (held_by lines.old) (take n rest.now) (held_by lines.new) [] 0) }
    ensures breaks { IfErr result (Breaks lines.old.max ack
        (TakesLine (Puts F.own F.saw F.seen F.kept) intake.old.selector B.intercepts
        intake.old.host)
        (sides intake.old (C.moments clock.old) (L.told link.old))
        (sides intake.new (C.moments clock.new) (L.told link.new)) (held_by lines.old) rest.now []
        0) }
    ensures turn { ¬ IsErrOf result SessionEnd.Turns }
    ensures end { ¬ IsErrOf result SessionEnd.End }
    ensures stop { ¬ IsErrOf result SessionEnd.Stopped }
    ensures fault { RisesWhere (IsErrOf result SessionEnd.LinkFault) (L.faults link.old)
        (L.faults link.new) }
    ensures same { (intake.new.selector ≡ intake.old.selector) ×
        (intake.new.host ≡ intake.old.host) }
{
    if let Some(line) = lines.whole(rest) {
        return match serve_line(alloc, link, ack, intake, clock, line) {
            Ok(()) => Ok(line.len() + 1),
            Err(end) => Err(end),
        };
    }
    let (n, cut) = lines.feed(rest);
    match cut {
        Cut::More => Ok(n),
        Cut::Line => match serve_line(alloc, link, ack, intake, clock, lines.line()) {
            Ok(()) => Ok(n),
            Err(end) => Err(end),
        },
        Cut::TooLong => Err(refuse_long(link)),
    }
}

// Cuts what was read into lines, and serves each. Before each it asks whether to stop.
fn serve_piece<L: Link, F: PutFace + Drop, B: Interceptor, C: Clock, H: Halt>(
    alloc: Global,
    link: &mut L,
    ack: bool,
    intake: &mut Intake<F, B>,
    clock: &mut C,
    halt: &mut H,
    lines: &mut Lines,
    piece: &[u8],
) -> Result<(), SessionEnd>
    requires max { IsLineLimit lines.old.max }
    requires partial { IsLine lines.old.max (held_by lines.old) }
    ensures max { lines.new.max ≡ lines.old.max }
    ensures partial { OnOk result (IsLine lines.new.max (held_by lines.new)) }
    ensures goes { OnOk result (Goes lines.old.max ack (TakesLine (Puts F.own F.saw F.seen F.kept)
        intake.old.selector B.intercepts intake.old.host)
        (sides intake.old (C.moments clock.old) (L.told link.old))
        (sides intake.new (C.moments clock.new) (L.told link.new))
        (held_by lines.old) piece.now (held_by lines.new) [] 0) }
    ensures breaks { IfErr result (Breaks lines.old.max ack
        (TakesLine (Puts F.own F.saw F.seen F.kept) intake.old.selector B.intercepts
        intake.old.host)
        (sides intake.old (C.moments clock.old) (L.told link.old))
        (sides intake.new (C.moments clock.new) (L.told link.new)) (held_by lines.old) piece.now []
        0) }
    ensures turn { ¬ IsErrOf result SessionEnd.Turns }
    ensures end { ¬ IsErrOf result SessionEnd.End }
    ensures fault { RisesWhere (IsErrOf result SessionEnd.LinkFault) (L.faults link.old)
        (L.faults link.new) }
    ensures stop { RisesWhere (IsErrOf result SessionEnd.Stopped) (H.yes halt.old)
        (H.yes halt.new) }
    ensures same { (intake.new.selector ≡ intake.old.selector) ×
        (intake.new.host ≡ intake.old.host) }
{
    let mut at = 0;
    while at < piece.len() {
        if halt.asked() {
            return Err(SessionEnd::Stopped);
        }
        at += match serve_front(alloc, link, ack, intake, clock, lines, &piece[at..]) {
            Ok(n) => n,
            Err(end) => return Err(end),
        };
    }
    Ok(())
}

// How many bytes are read at once, at most.
const PIECE: usize = 4096;

// One turn of a session: a read, and what it brought.
fn serve_turn<L: Link, F: PutFace + Drop, B: Interceptor, C: Clock, H: Halt>(
    alloc: Global,
    link: &mut L,
    ack: bool,
    intake: &mut Intake<F, B>,
    clock: &mut C,
    halt: &mut H,
    lines: &mut Lines,
) -> Result<(), SessionEnd>
    requires max { IsLineLimit lines.old.max }
    requires partial { IsLine lines.old.max (held_by lines.old) }
    ensures max { lines.new.max ≡ lines.old.max }
    ensures partial { OnOk result (IsLine lines.new.max (held_by lines.new)) }
    ensures goes { OnOk result ((bytes : List ℕ) × Goes lines.old.max ack
        (TakesLine (Puts F.own F.saw F.seen F.kept) intake.old.selector B.intercepts
        intake.old.host)
        (sides intake.old (C.moments clock.old) (L.told link.old))
        (sides intake.new (C.moments clock.new) (L.told link.new))
        (held_by lines.old) bytes (held_by lines.new) bytes 1) }
    ensures breaks { IfErr result (λ end. (bytes : List ℕ) × (turns : ℕ) × IsTurnsOf end turns ×
        Breaks lines.old.max ack
        (TakesLine (Puts F.own F.saw F.seen F.kept) intake.old.selector B.intercepts
        intake.old.host)
        (sides intake.old (C.moments clock.old) (L.told link.old))
        (sides intake.new (C.moments clock.new) (L.told link.new))
        (held_by lines.old) bytes bytes turns end) }
    ensures turn { ¬ IsErrOf result SessionEnd.Turns }
    ensures fault { RisesWhere (IsErrOf result SessionEnd.LinkFault) (L.faults link.old)
        (L.faults link.new) }
    ensures stop { RisesWhere (IsErrOf result SessionEnd.Stopped) (H.yes halt.old)
        (H.yes halt.new) }
    ensures same { (intake.new.selector ≡ intake.old.selector) ×
        (intake.new.host ≡ intake.old.host) }
{
    if halt.asked() {
        return Err(SessionEnd::Stopped);
    }
    let mut buf = [0u8; PIECE];
    match link.read(&mut buf) {
        Ok(LinkRead::Got(n)) => {
            match serve_piece(alloc, link, ack, intake, clock, halt, lines, &buf[..n]) {
                Ok(()) => Ok(()),
                Err(end) => Err(end),
            }
        }
        Ok(LinkRead::Quiet) => Ok(()),
        Ok(LinkRead::End) => Err(SessionEnd::End),
        Err(_) => Err(SessionEnd::LinkFault),
    }
}

// The most turns of a session.
const TURNS: u64 = 1 << 40;

// Serves lines until the link ends or something ends the session.
fn serve_until<L: Link, F: PutFace + Drop, B: Interceptor, C: Clock, H: Halt>(
    alloc: Global,
    link: &mut L,
    ack: bool,
    intake: &mut Intake<F, B>,
    clock: &mut C,
    halt: &mut H,
    lines: &mut Lines,
) -> SessionEnd
    requires max { IsLineLimit lines.old.max }
    requires held { held_by lines.old ≡ [] }
    ensures served { Served lines.old.max ack (TakesLine (Puts F.own F.saw F.seen F.kept)
        intake.old.selector B.intercepts intake.old.host)
        (sides intake.old (C.moments clock.old) (L.told link.old))
        (sides intake.new (C.moments clock.new) (L.told link.new)) result }
    ensures fault { RisesWhere (result ≡ SessionEnd.LinkFault) (L.faults link.old)
        (L.faults link.new) }
    ensures stop { RisesWhere (result ≡ SessionEnd.Stopped) (H.yes halt.old) (H.yes halt.new) }
    ensures same { (intake.new.selector ≡ intake.old.selector) ×
        (intake.new.host ≡ intake.old.host) }
{
    let mut turns = 0;
    while turns < TURNS {
        match serve_turn(alloc, link, ack, intake, clock, halt, lines) {
            Ok(()) => turns += 1,
            Err(end) => return end,
        }
    }
    SessionEnd::Turns
}

/// Serves the lines that a link gives: each is put into the channels as one event at the next moment of the clock, and
/// answered when the channels have it, until the link ends or something else ends the session. Before each line and each
/// read it asks whether to stop. After its start it takes no memory but for the events.
pub fn serve_netcat<L: Link, F: PutFace + Drop, B: Interceptor, C: Clock, H: Halt>(
    alloc: Global,
    link: &mut L,
    rules: &LineRules,
    intake: &mut Intake<F, B>,
    clock: &mut C,
    halt: &mut H,
) -> SessionEnd
    requires { IsLineLimit rules.now.max }
    ensures served { Served rules.now.max rules.now.ack
        (TakesLine (Puts F.own F.saw F.seen F.kept) intake.old.selector B.intercepts
        intake.old.host)
        (sides intake.old (C.moments clock.old) (L.told link.old))
        (sides intake.new (C.moments clock.new) (L.told link.new)) result
        ⊎ ((result ≡ SessionEnd.NoMemory) × (L.told link.new ≡ L.told link.old) ×
        (intake.new ≡ intake.old) × (C.moments clock.new ≡ C.moments clock.old)) }
    ensures fault { RisesWhere (result ≡ SessionEnd.LinkFault) (L.faults link.old)
        (L.faults link.new) }
    ensures stop { RisesWhere (result ≡ SessionEnd.Stopped) (H.yes halt.old) (H.yes halt.new) }
    ensures same { (intake.new.selector ≡ intake.old.selector) ×
        (intake.new.host ≡ intake.old.host) }
{
    let Ok(mut lines) = Lines::new(alloc, rules.max) else {
        return SessionEnd::NoMemory;
    };
    serve_until(alloc, link, rules.ack, intake, clock, halt, &mut lines)
}

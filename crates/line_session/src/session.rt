// One session of lines, and where its lines go.
ghost use Rattle.std.specs.Prelude.{◌≡◌, ◌≢◌, ◌<◌, ◌≤◌, [], List, ℕ, false, length, take, IfOk, OnOk, IfErr, IsErrOf, Bool};
ghost use Rattle.std.specs.Io.KnownBytes.{Appends};
ghost use Rattle.flume_host.specs.Causes.{RisesWhere};
ghost use Rattle.netcat_source.specs.Lines.{IsLine, IsLineLimit};
ghost use Rattle.netcat_source.specs.Parts.{held_by};
ghost use Rattle.netcat_source.specs.Replies.{reply};
ghost use Rattle.line_session.specs.Sessions.{HasCauseOf, Served, ends_of};
ghost use Rattle.line_session.specs.Parts.{AnswerEnds, Breaks, EndsByLine, EndsByRead, Goes, LongEnds, ReadEnds, Reads, TakesOne, sides};
ghost use Rattle.netcat_source.specs.declared.lines.LineVerdict.{LineVerdict};

use flume_host::{Sink, Source, write_out};
use netcat_source::{Cut, LineRules, LineVerdict, Lines, TOO_LONG_REPLY, reply_to};
use std::alloc::Global;

/// What ended a session.
#[derive(Clone, Copy, Debug, PartialEq, Eq)]
pub enum SessionEnd {
    /// The source was read to its end.
    End,
    /// A line was too long.
    TooLongLine,
    /// 2^40 bytes were read.
    Full,
    /// A line with this verdict, which is one that ends a session.
    Line(LineVerdict),
    /// There was no memory for the session to begin.
    NoMemory,
    /// The source failed.
    ReadFault,
    /// The sink failed.
    WriteFault,
}

// Hands a line to the store, and answers it.
fn serve_line<K: Sink, L: LineStore>(
    store: &mut L,
    sink: &mut K,
    ack: bool,
    line: &[u8],
) -> Result<(), SessionEnd>
    requires ready { L.ready store.old }
    requires short { length line.now < 1_048_568 }
    ensures goes { OnOk result (TakesOne L.takes store.old line.now store.new
        (λ said. (L.stops said ≡ false)
        × Appends (K.took sink.old) (K.took sink.new) (reply ack said))) }
    ensures ends { IfErr result (λ end. TakesOne L.takes store.old line.now store.new
        (λ said. AnswerEnds L.stops ack said (K.took sink.old) (K.took sink.new) end)) }
    ensures kind { IfErr result EndsByLine }
    ensures ready { OnOk result (L.ready store.new) }
    ensures fault { RisesWhere (IsErrOf result SessionEnd.WriteFault) (K.faults sink.old)
        (K.faults sink.new) }
{
    let verdict = store.take_line(line);
    if write_out(sink, reply_to(verdict, ack)).is_err() {
        return Err(SessionEnd::WriteFault);
    }
    if store.is_last(verdict) {
        return Err(SessionEnd::Line(verdict));
    }
    Ok(())
}

// Says of a line that it is too long.
fn refuse_long<K: Sink>(sink: &mut K) -> SessionEnd
    ensures ends { LongEnds (K.took sink.old) (K.took sink.new) result }
    ensures kind { EndsByLine result }
    ensures fault { RisesWhere (result ≡ SessionEnd.WriteFault) (K.faults sink.old)
        (K.faults sink.new) }
{
    match write_out(sink, TOO_LONG_REPLY) {
        Ok(()) => SessionEnd::TooLongLine,
        Err(_) => SessionEnd::WriteFault,
    }
}

// Cuts the front of what was read, up to the end of the present line, and serves it.
fn serve_front<K: Sink, L: LineStore>(
    store: &mut L,
    sink: &mut K,
    ack: bool,
    lines: &mut Lines,
    rest: &[u8],
) -> Result<usize, SessionEnd>
    requires some { 0 < length rest.now }
    requires max { IsLineLimit lines.old.max }
    requires ready { L.ready store.old }
    ensures max { lines.new.max ≡ lines.old.max }
    ensures n { IfOk result (λ n. (1 ≤ n) × (n ≤ length rest.now)) }
    ensures partial { OnOk result (IsLine lines.new.max (held_by lines.new)) }
    ensures goes { IfOk result (λ n. Goes lines.old.max ack L.stops L.takes
        (sides store.old (K.took sink.old)) (sides store.new (K.took sink.new))
        (held_by lines.old) (take n rest.now) (held_by lines.new)) }
    ensures breaks { IfErr result (Breaks lines.old.max ack L.stops L.takes
        (sides store.old (K.took sink.old)) (sides store.new (K.took sink.new))
        (held_by lines.old) rest.now) }
    ensures kind { IfErr result EndsByLine }
    ensures ready { OnOk result (L.ready store.new) }
    ensures fault { RisesWhere (IsErrOf result SessionEnd.WriteFault) (K.faults sink.old)
        (K.faults sink.new) }
{
    if let Some(line) = lines.whole(rest) {
        return match serve_line(store, sink, ack, line) {
            Ok(()) => Ok(line.len() + 1),
            Err(end) => Err(end),
        };
    }
    let (n, cut) = lines.feed(rest);
    match cut {
        Cut::More => Ok(n),
        Cut::Line => match serve_line(store, sink, ack, lines.line()) {
            Ok(()) => Ok(n),
            Err(end) => Err(end),
        },
        Cut::TooLong => Err(refuse_long(sink)),
    }
}

// Cuts what was read into lines, and serves each.
fn serve_piece<K: Sink, L: LineStore>(
    store: &mut L,
    sink: &mut K,
    ack: bool,
    lines: &mut Lines,
    piece: &[u8],
) -> Result<(), SessionEnd>
    requires max { IsLineLimit lines.old.max }
    requires partial { IsLine lines.old.max (held_by lines.old) }
    requires ready { L.ready store.old }
    ensures max { lines.new.max ≡ lines.old.max }
    ensures partial { OnOk result (IsLine lines.new.max (held_by lines.new)) }
    ensures goes { OnOk result (Goes lines.old.max ack L.stops L.takes
        (sides store.old (K.took sink.old)) (sides store.new (K.took sink.new))
        (held_by lines.old) piece.now (held_by lines.new)) }
    ensures breaks { IfErr result (Breaks lines.old.max ack L.stops L.takes
        (sides store.old (K.took sink.old)) (sides store.new (K.took sink.new))
        (held_by lines.old) piece.now) }
    ensures kind { IfErr result EndsByLine }
    ensures ready { OnOk result (L.ready store.new) }
    ensures fault { RisesWhere (IsErrOf result SessionEnd.WriteFault) (K.faults sink.old)
        (K.faults sink.new) }
{
    let mut at = 0;
    while at < piece.len() {
        at += match serve_front(store, sink, ack, lines, &piece[at..]) {
            Ok(n) => n,
            Err(end) => return Err(end),
        };
    }
    Ok(())
}

/// The most bytes that a session reads.
const LIMIT: u64 = 1 << 40;

/// How many bytes are read at once.
const PIECE: u64 = 4096;

// Hands on what was written, reads at most so many bytes, and serves their lines. It says how many came.
fn serve_read<S: Source, K: Sink, L: LineStore>(
    source: &mut S,
    store: &mut L,
    sink: &mut K,
    ack: bool,
    lines: &mut Lines,
    room: u64,
) -> Result<u64, SessionEnd>
    requires room { 0 < room }
    requires max { IsLineLimit lines.old.max }
    requires partial { IsLine lines.old.max (held_by lines.old) }
    requires ready { L.ready store.old }
    ensures max { lines.new.max ≡ lines.old.max }
    ensures partial { OnOk result (IsLine lines.new.max (held_by lines.new)) }
    ensures goes { IfOk result (λ n. (bytes : List ℕ)
        × Reads room (S.left source.old) (S.left source.new) bytes × (length bytes ≡ n) × (0 < n)
        × Goes lines.old.max ack L.stops L.takes (sides store.old (K.took sink.old))
        (sides store.new (K.took sink.new))
        (held_by lines.old) bytes (held_by lines.new)) }
    ensures breaks { IfErr result (λ end. (bytes : List ℕ)
        × Reads room (S.left source.old) (S.left source.new) bytes
        × ReadEnds end bytes (S.left source.new)
        × Breaks lines.old.max ack L.stops L.takes (sides store.old (K.took sink.old))
        (sides store.new (K.took sink.new))
        (held_by lines.old) bytes end) }
    ensures kind { IfErr result EndsByRead }
    ensures ready { OnOk result (L.ready store.new) }
    ensures well { OnOk result ((S.faults source.new ≡ S.faults source.old)
        × (K.faults sink.new ≡ K.faults sink.old)) }
    ensures cause { IfErr result (λ end. HasCauseOf end (S.faults source.old) (S.faults source.new)
        (K.faults sink.old) (K.faults sink.new)) }
{
    let mut buf = [0u8; PIECE as usize];
    if sink.flush().is_err() {
        return Err(SessionEnd::WriteFault);
    }
    let room = room.min(PIECE) as usize;
    let into = &mut buf[..room];
    match source.read(into) {
        Ok(0) => Err(SessionEnd::End),
        Ok(n) => match serve_piece(store, sink, ack, lines, &into[..n]) {
            Ok(()) => Ok(n as u64),
            Err(end) => Err(end),
        },
        Err(_) => Err(SessionEnd::ReadFault),
    }
}

// Serves lines until the source ends or something else ends the session.
fn serve_until<S: Source, K: Sink, L: LineStore>(
    source: &mut S,
    store: &mut L,
    sink: &mut K,
    ack: bool,
    lines: &mut Lines,
) -> SessionEnd
    requires max { IsLineLimit lines.old.max }
    requires held { held_by lines.old ≡ [] }
    requires ready { L.ready store.old }
    ensures served { Served lines.old.max ack L.stops L.takes
        (ends_of (S.left source.old) store.old (K.took sink.old))
        (ends_of (S.left source.new) store.new (K.took sink.new)) result }
    ensures cause { HasCauseOf result (S.faults source.old) (S.faults source.new)
        (K.faults sink.old) (K.faults sink.new) }
{
    let mut taken = 0;
    while taken < LIMIT {
        match serve_read(source, store, sink, ack, lines, LIMIT - taken) {
            Ok(n) => taken += n,
            Err(end) => return end,
        }
    }
    SessionEnd::Full
}

// Begins a session, and serves its lines.
fn serve_all<S: Source, K: Sink, L: LineStore>(
    alloc: Global,
    source: &mut S,
    store: &mut L,
    sink: &mut K,
    rules: &LineRules,
) -> SessionEnd
    requires max { IsLineLimit rules.now.max }
    requires ready { L.ready store.old }
    ensures served { Served rules.now.max rules.now.ack L.stops L.takes
        (ends_of (S.left source.old) store.old (K.took sink.old))
        (ends_of (S.left source.new) store.new (K.took sink.new)) result }
    ensures cause { HasCauseOf result (S.faults source.old) (S.faults source.new)
        (K.faults sink.old) (K.faults sink.new) }
{
    let Ok(mut lines) = Lines::new(alloc, rules.max) else {
        return SessionEnd::NoMemory;
    };
    serve_until(source, store, sink, rules.ack, &mut lines)
}

/// Serves the lines of a source until it ends or something else ends the session: the store takes each, and the sink is told
/// what became of it. What was written is handed on before each read and at the end. After its start it takes no memory but
/// for what the store takes.
pub fn serve_lines<S: Source, K: Sink, L: LineStore>(
    alloc: Global,
    source: &mut S,
    store: &mut L,
    sink: &mut K,
    rules: &LineRules,
) -> SessionEnd
    requires max { IsLineLimit rules.now.max }
    requires ready { L.ready store.old }
    ensures served { Served rules.now.max rules.now.ack L.stops L.takes
        (ends_of (S.left source.old) store.old (K.took sink.old))
        (ends_of (S.left source.new) store.new (K.took sink.new)) result }
    ensures cause { HasCauseOf result (S.faults source.old) (S.faults source.new)
        (K.faults sink.old) (K.faults sink.new) }
    ensures handed { result ≢ SessionEnd.WriteFault → K.handed sink.new ≡ K.took sink.new }
{
    let end = serve_all(alloc, source, store, sink, rules);
    match sink.flush() {
        Ok(()) => end,
        Err(_) => SessionEnd::WriteFault,
    }
}

/// Where the lines of a session go, one after another.
pub trait LineStore {
    /// It takes a line, and this becomes of it.
    ghost takes: { Self → List ℕ → LineVerdict → Self → Type 0 };

    /// A line can be handed to it.
    ghost ready: { Self → Type 0 };

    /// A session ends after a line with this verdict.
    ghost stops: { LineVerdict → Bool };

    /// Takes a line, and says what became of it.
    fn take_line(&mut self, line: &[u8]) -> LineVerdict
        requires ready { ready self.old }
        requires short { length line.now < 1_048_568 }
        ensures takes { takes self.old line.now result self.new }
        ensures ready { stops result ≡ false → ready self.new };

    /// Whether a session ends after a line with this verdict.
    fn is_last(&self, verdict: LineVerdict) -> bool
        ensures { result ≡ stops verdict };
}

// Lines: how they are cut, how one is put into the channels, and the replies to them.
ghost use Rattle.std.specs.Prelude.{◌≡◌, ◌<◌, ◌≤◌, ◌^◌, ◌+◌, ◌++◌, [], List, ℕ, length, take, IfOk, MatchOption, slice_index, vec_len, vec_capacity, ◌∷◌};
ghost use Rattle.netcat_source.specs.Lines.{IsUnbroken};
ghost use Rattle.netcat_source.specs.Feed.{LineState, StandsWhole, begun, Takes, Feeds, HoldsLine};
ghost use Rattle.netcat_source.specs.Replies.{reply};
ghost use Rattle.source_put.specs.Tries.{Puts};
ghost use Rattle.netcat_source.specs.Judged.{event_of, said_of};
ghost use Rattle.netcat_source.specs.Into.{TakesLine};
ghost use Rattle.source_put.specs.Into.{into_of};

use channel_face::{FaceRefused, PutFace};
use event_core::{Batch, Event, Headers, NoMemory, put};
use flume_host::Clock;
use plug_in::Interceptor;
use source_put::{Intake, Verdict};
use std::alloc::Global;
use std::marker::Model;

/// What a piece brought to the present line.
#[derive(Clone, Copy, Debug, PartialEq, Eq)]
pub enum Cut {
    /// The line goes on, and the whole piece was taken.
    More,
    /// The line is whole: its newline was taken.
    Line,
    /// The line's first `max` bytes are there and hold no newline. Nothing is taken from then on.
    TooLong,
}

/// Cuts a text into lines of fewer than `max` bytes. After `new` it takes no memory.
///
/// A line is the bytes before a newline; a carriage return stays (`max-line-length` of the Flume User Guide's NetCat TCP
/// Source). Contracts see the present line, and what the last piece brought.
#[derive(Drop)]
pub struct Lines {
    max: usize,
    line: Vec<u8>,
    at: Cut,
}

impl Model for Lines {
    ghost Value = { LineState };

    ghost view = { λ s. record { max = s.max; line = s.line.items; at = s.at } };

    ghost invariant = { λ s. HoldsLine s.max s.line.items s.at × (s.max ≤ vec_capacity s.line) };
}

// The place of the first newline.
fn newline_in(bytes: &[u8]) -> Option<usize>
    ensures { MatchOption result (IsUnbroken bytes.now)
        (λ i. (i < length bytes.now) × IsUnbroken (take i bytes.now) ×
        (slice_index bytes.now i ≡ 10)) }
{
    for (i, b) in bytes.iter().enumerate() {
        if *b == b'\n' {
            return Some(i);
        }
    }
    None
}

// Takes the front of a piece, up to the line's end.
fn take_piece(line: &mut Vec<u8>, max: usize, piece: &[u8]) -> (usize, Cut)
    requires room { max ≤ vec_capacity line.old }
    requires short { vec_len line.old ≤ max }
    requires unbroken { IsUnbroken line.old.items }
    ensures takes { Takes max line.old.items piece.now result.0 result.1 line.new.items }
    ensures holds { HoldsLine max line.new.items result.1 }
    ensures room { max ≤ vec_capacity line.new }
{
    let room = max - line.len();
    let window = &piece[..room.min(piece.len())];
    match newline_in(window) {
        Some(i) => {
            put(line, &window[..i]);
            (i + 1, Cut::Line)
        }
        None => {
            put(line, window);
            if line.len() == max {
                (window.len(), Cut::TooLong)
            } else {
                (window.len(), Cut::More)
            }
        }
    }
}

impl Lines {
    /// A cutter at the start of a text. A line of `max` bytes without a newline is too long.
    pub fn new(alloc: Global, max: u32) -> Result<Lines, NoMemory>
        requires { 0 < max }
        ensures { IfOk result (λ lines. lines ≡ record { max = max; line = []; at = Cut.More }) }
    {
        let max = max as usize;
        Ok(Lines {
            max,
            line: Vec::with_capacity(alloc, max)?,
            at: Cut::More,
        })
    }

    /// Takes that many bytes of the piece's front, and says what they brought. After a whole line the next one begins.
    pub fn feed(&mut self, piece: &[u8]) -> (usize, Cut)
        ensures { Feeds self.old piece.now result.0 result.1 self.new }
    {
        if self.at == Cut::Line {
            self.line.clear();
        }
        let (n, cut) = take_piece(&mut self.line, self.max, piece);
        self.at = cut;
        (n, cut)
    }

    /// The line at the front of a piece, where the piece holds it whole with its newline and no line was begun before. It is
    /// not taken: a caller that passes over it and its newline has no need to feed them, which saves a copy of the line.
    pub fn whole<'a>(&self, piece: &'a [u8]) -> Option<&'a [u8]>
        ensures { MatchOption result (Unit {0}) (λ line. StandsWhole self.now piece.now line.now) }
    {
        if self.at != Cut::Line && !self.line.is_empty() {
            return None;
        }
        let window = &piece[..self.max.min(piece.len())];
        match newline_in(window) {
            Some(i) => Some(&window[..i]),
            None => None,
        }
    }

    /// The present line, without its newline.
    pub fn line(&self) -> &[u8]
        ensures { result.now ≡ self.now.line }
    {
        &self.line
    }
}

/// What became of a line's event.
#[derive(Clone, Copy, Debug, PartialEq, Eq)]
pub enum LineVerdict {
    /// Every required channel has it for good.
    Accepted,
    /// A required channel refused it.
    Refused,
    /// A device failed in the commit: nobody knows whether the event will be there.
    InDoubt,
    /// There was no memory for it.
    NoMemory,
}

/// The reply to a line that is too long.
pub const TOO_LONG_REPLY: &[u8] = b"FAILED: line too long\n";

/// The reply to a line. Without `ack`, an accepted one has none (`ack-every-event` of the Flume User Guide's NetCat TCP
/// Source).
pub fn reply_to(verdict: LineVerdict, ack: bool) -> &'static [u8]
    ensures { result.now ≡ reply ack verdict }
{
    match verdict {
        LineVerdict::Accepted if ack => b"OK\n",
        LineVerdict::Accepted => b"",
        LineVerdict::Refused => b"FAILED: channel refused\n",
        LineVerdict::InDoubt => b"FAILED: channel in doubt\n",
        LineVerdict::NoMemory => b"FAILED: no memory\n",
    }
}

// The event of a line: no headers, and the line as its body.
fn event_of(alloc: Global, line: &[u8]) -> Result<Event, NoMemory>
    requires { length line.now < 1_048_568 }
    ensures { IfOk result (λ event. event ≡ event_of line.now) }
{
    let Ok(body) = line.to_vec(alloc) else {
        return Err(NoMemory);
    };
    match Event::new(Headers::new(alloc), body) {
        Ok(event) => Ok(event),
        // no line is too large for an event
        Err(_) => Err(NoMemory),
    }
}

/// A batch of the event of a line: one without headers, whose body is the line. Only memory can be missing.
pub fn batch_of(alloc: Global, line: &[u8]) -> Result<Batch, NoMemory>
    requires { length line.now < 1_048_568 }
    ensures { IfOk result (λ batch. batch ≡ event_of line.now ∷ []) }
{
    let event = event_of(alloc, line)?;
    let mut batch = Batch::new(alloc);
    match batch.push(event) {
        Ok(()) => Ok(batch),
        Err(_) => Err(NoMemory),
    }
}

/// Puts a line into the channels as one event without headers, whose body is the line, at the next moment of the clock. It answers
/// the verdict of the accepted batch, or out of memory.
pub fn take_line<F: PutFace + Drop, B: Interceptor, C: Clock>(
    alloc: Global,
    intake: &mut Intake<F, B>,
    clock: &mut C,
    line: &[u8],
) -> Verdict
    requires { length line.now < 1_048_568 }
    ensures takes { TakesLine (Puts F.own F.saw F.seen F.kept) intake.old.selector B.intercepts
        intake.old.host
        (into_of intake.old (C.moments clock.old)) line.now result
        (into_of intake.new (C.moments clock.new)) }
    ensures same { (intake.new.selector ≡ intake.old.selector) ×
        (intake.new.host ≡ intake.old.host) }
{
    let Ok(batch) = batch_of(alloc, line) else {
        return Verdict::NoMemory;
    };
    let moment = clock.now();
    intake.accept(batch, moment)
}

/// What is said of a verdict: in doubt is answered for that alone, each other refusal is one.
pub fn said_of(verdict: &Verdict) -> LineVerdict
    ensures { result ≡ said_of verdict.now }
{
    match verdict {
        Verdict::Taken => LineVerdict::Accepted,
        Verdict::Refused {
            channel: _,
            cause: FaceRefused::InDoubt,
        } => LineVerdict::InDoubt,
        Verdict::Refused { .. } | Verdict::TooLarge { .. } => LineVerdict::Refused,
        Verdict::NoMemory => LineVerdict::NoMemory,
    }
}

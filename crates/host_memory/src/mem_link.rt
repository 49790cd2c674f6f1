// A link in memory.
ghost use Rattle.std.specs.Prelude.{◌≡◌, ◌≤◌, ◌<◌, ◌+◌, ◌-◌, ◌^◌, [], ℕ, List, Some, None, length, take, drop, min, Contains, IsErr, IsOk, IfOk, OnOk, OnErr};
ghost use Rattle.std.specs.Io.{WritesAtMost};
ghost use Rattle.flume_host.specs.Causes.{HasCause};
ghost use Rattle.flume_host.specs.Links.{unused, broke, FitsIn, CountsWait, Hears, Sends};
ghost use Rattle.host_memory.specs.Stream.{piece_of};
ghost use Rattle.host_memory.specs.Links.{where_tells, link_told, link_record, link_steps, link_place, send_fails, send_calls, send_pieces, start_place, FollowsScript, IsUnread, MayFail, Reads, ReadsPiece};

use crate::Flag;
use crate::script::{Script, piece_at};
use flume_host::{Failed, Link, LinkRead};
use std::alloc::Global;

/// What a read of a link in memory does.
#[derive(Drop)]
pub enum LinkStep {
    /// Gives these bytes, over as many reads as it takes; where there are none, it waits in vain.
    Piece(Vec<u8>),
    /// Waits in vain.
    Quiet,
    /// Fails.
    Fail,
    /// Waits until this flag is set, and then has waited in vain. It looks at it 1,000,000,000 times at most, and then fails.
    Hold(Flag),
}

/// A link whose reads follow a script, after which its end is. A call that needs memory and has none fails too.
#[derive(Drop)]
pub struct MemLink {
    steps: Vec<LinkStep>,
    // how many steps were done, and how many bytes of the next one were given
    step: usize,
    at: usize,
    // the writes that fail, and the most that each takes
    script: Script,
    most: Vec<usize>,
    // is set at the first write
    flag: Option<Flag>,
    gave: Vec<u8>,
    took: Vec<u8>,
    pieces: u64,
    quiets: u64,
    ends: u64,
    failed: bool,
    waits: u64,
    faults: u64,
    tells: bool,
}

// What a read is to answer, and the place in the script then.
#[derive(Clone, Copy)]
struct Due {
    answer: Result<LinkRead, Failed>,
    step: usize,
    at: usize,
}

impl MemLink {
    /// A link that shows its contents, takes all that it is given, and of which nothing was asked.
    pub fn new(alloc: Global, steps: Vec<LinkStep>) -> MemLink
        ensures told { link_told result ≡ Some unused }
        ensures script { (link_steps result ≡ steps.items) × (link_place result ≡ start_place) }
        ensures sends { (send_fails result ≡ []) × (send_calls result ≡ 0) ×
            (send_pieces result ≡ []) }
    {
        MemLink {
            steps,
            step: 0,
            at: 0,
            script: Script::new(alloc),
            most: Vec::new(alloc),
            flag: None,
            gave: Vec::new(alloc),
            took: Vec::new(alloc),
            pieces: 0,
            quiets: 0,
            ends: 0,
            failed: false,
            waits: 0,
            faults: 0,
            tells: true,
        }
    }

    /// The writes of these numbers fail. The first write has the number 0.
    pub fn failing_at(mut self, calls: Vec<u64>) -> MemLink
        ensures told { link_told result ≡ link_told self }
        ensures script { (link_steps result ≡ link_steps self) ×
            (link_place result ≡ link_place self) }
        ensures sends { (send_fails result ≡ calls.items) × (send_calls result ≡ send_calls self) ×
            (send_pieces result ≡ send_pieces self) }
    {
        self.script.fails = calls;
        self
    }

    /// Write number n takes at most the n-th of these numbers. They go round, and a 0 counts as 1.
    pub fn in_pieces(mut self, most: Vec<usize>) -> MemLink
        ensures told { link_told result ≡ link_told self }
        ensures script { (link_steps result ≡ link_steps self) ×
            (link_place result ≡ link_place self) }
        ensures sends { (send_fails result ≡ send_fails self) ×
            (send_calls result ≡ send_calls self) × (send_pieces result ≡ most.items) }
    {
        self.most = most;
        self
    }

    /// Sets this flag at its first write.
    pub fn setting(mut self, flag: Flag) -> MemLink
        ensures told { link_told result ≡ link_told self }
        ensures script { (link_steps result ≡ link_steps self) ×
            (link_place result ≡ link_place self) }
        ensures sends { (send_fails result ≡ send_fails self) ×
            (send_calls result ≡ send_calls self) × (send_pieces result ≡ send_pieces self) }
    {
        self.flag = Some(flag);
        self
    }

    /// A link that shows nothing.
    pub fn silent(mut self) -> MemLink
        ensures told { link_told result ≡ None }
        ensures script { (link_steps result ≡ link_steps self) ×
            (link_place result ≡ link_place self) }
        ensures sends { (send_fails result ≡ send_fails self) ×
            (send_calls result ≡ send_calls self) × (send_pieces result ≡ send_pieces self) }
    {
        self.tells = false;
        self
    }

    /// Whether it shows its contents.
    pub(crate) fn does_tell(&self) -> bool
        ensures { result ≡ self.now.tells }
    {
        self.tells
    }

    /// The same script, of which nothing was asked yet.
    pub(crate) fn fresh(mut self, tells: bool) -> MemLink
        ensures told { link_told result ≡ where_tells tells unused }
        ensures script { (link_steps result ≡ link_steps self) × (link_place result ≡ start_place) }
        ensures sends { (send_fails result ≡ send_fails self) × (send_calls result ≡ 0) ×
            (send_pieces result ≡ send_pieces self) }
        ensures counts { (result.faults ≡ 0) × (result.waits ≡ 0) }
    {
        self.step = 0;
        self.at = 0;
        self.script.calls = 0;
        self.gave.clear();
        self.took.clear();
        self.pieces = 0;
        self.quiets = 0;
        self.ends = 0;
        self.failed = false;
        self.waits = 0;
        self.faults = 0;
        self.tells = tells;
        self
    }

    /// What its reads gave, also where it shows nothing.
    pub fn gave(&self) -> &[u8]
        ensures { result.now ≡ (link_record self.now).gave }
    {
        &self.gave
    }

    /// What its writes took, also where it shows nothing.
    pub fn took(&self) -> &[u8]
        ensures { result.now ≡ (link_record self.now).took }
    {
        &self.took
    }

    // A call that fails.
    fn fail<T>(&mut self) -> Result<T, Failed>
        ensures told { link_told self.new ≡ where_tells self.old.tells
            (broke (link_record self.old)) }
        ensures same { IsUnread self.old self.new × (self.new.waits ≡ self.old.waits) ×
            (send_calls self.new ≡ send_calls self.old) }
        ensures err { OnOk result (⊥) }
        ensures cause { HasCause self.old.faults self.new.faults result }
    {
        self.failed = true;
        self.faults = self.faults.saturating_add(1);
        Err(Failed)
    }
}

// The bytes of a piece from an offset on, as far as there is room, and how many these are.
fn copy_front(bytes: &[u8], at: usize, into: &mut [u8]) -> usize
    ensures count { result ≡ min (length into.old) (length bytes.now - at) }
    ensures front { take result into.new ≡ take result (drop at bytes.now) }
    ensures room { length into.new ≡ length into.old }
{
    let from = at.min(bytes.len());
    let n = into.len().min(bytes.len() - from);
    into[..n].copy_from_slice(&bytes[from..from + n]);
    n
}

// What a read of a piece is to answer, of which so many bytes were given.
fn due_of(bytes: &[u8], step: usize, at: usize, into: &mut [u8]) -> Due
    requires room { 0 < length into.old }
    requires step { step < 2 ^ 64 - 1 }
    ensures due { IfOk result.answer (ReadsPiece bytes.now (record { step = step; at = at })
        (record { step = result.step; at = result.at }) into.new) }
    ensures fits { IfOk result.answer (λ read. FitsIn read (length into.new)) }
    ensures ok { IsOk result.answer }
    ensures room { length into.new ≡ length into.old }
{
    let n = copy_front(bytes, at, into);
    if n == 0 {
        return Due {
            answer: Ok(LinkRead::Quiet),
            step: step + 1,
            at: 0,
        };
    }
    if bytes.len() - at == n {
        return Due {
            answer: Ok(LinkRead::Got(n)),
            step: step + 1,
            at: 0,
        };
    }
    Due {
        answer: Ok(LinkRead::Got(n)),
        step,
        at: at + n,
    }
}

impl MemLink {
    // What the next read is to answer. Its bytes are copied, and nothing is noted yet.
    fn due(&self, into: &mut [u8]) -> Due
        requires { 0 < length into.old }
        ensures due { Reads self.now.steps.items (link_place self.now)
            (record { step = result.step; at = result.at }) into.new result.answer }
        ensures fits { IfOk result.answer (λ read. FitsIn read (length into.new)) }
        ensures room { length into.new ≡ length into.old }
    {
        let step = self.step;
        if step >= self.steps.len() {
            return Due {
                answer: Ok(LinkRead::End),
                step,
                at: self.at,
            };
        }
        let answer = match &self.steps[step] {
            LinkStep::Piece(bytes) => return due_of(bytes, step, self.at, into),
            LinkStep::Quiet => Ok(LinkRead::Quiet),
            LinkStep::Fail => Err(Failed),
            LinkStep::Hold(flag) => {
                if flag.wait() {
                    Ok(LinkRead::Quiet)
                } else {
                    Err(Failed)
                }
            }
        };
        Due {
            answer,
            step: step + 1,
            at: 0,
        }
    }

    // Notes bytes that a read gives.
    fn give(&mut self, bytes: &[u8]) -> Result<LinkRead, Failed>
        ensures told { Hears result bytes.now (link_told self.old) (link_told self.new) }
        ensures ok { IfOk result (λ read. read ≡ LinkRead.Got (length bytes.now)) }
        ensures same { IsUnread self.old self.new × (self.new.waits ≡ self.old.waits) }
        ensures cause { HasCause self.old.faults self.new.faults result }
    {
        let Some(pieces) = self.pieces.checked_add(1) else {
            return self.fail();
        };
        if self.gave.extend_from_slice(bytes).is_err() {
            return self.fail();
        }
        self.pieces = pieces;
        self.failed = false;
        Ok(LinkRead::Got(bytes.len()))
    }

    // Notes a read that waits in vain.
    fn rest(&mut self) -> Result<LinkRead, Failed>
        ensures told { (into : List ℕ) → Hears result into (link_told self.old)
            (link_told self.new) }
        ensures ok { IfOk result (λ read. read ≡ LinkRead.Quiet) }
        ensures err { OnErr result (2 ^ 64 - 1 ≤ self.old.quiets) }
        ensures same { IsUnread self.old self.new }
        ensures waits { CountsWait result self.old.waits self.new.waits }
        ensures cause { HasCause self.old.faults self.new.faults result }
    {
        let Some(quiets) = self.quiets.checked_add(1) else {
            return self.fail();
        };
        self.quiets = quiets;
        self.waits = self.waits.saturating_add(1);
        self.failed = false;
        Ok(LinkRead::Quiet)
    }
}

impl MemLink {
    // Notes what a read brings, whose bytes are in front of these.
    fn note(&mut self, read: LinkRead, into: &[u8]) -> Result<LinkRead, Failed>
        requires { FitsIn read (length into.now) }
        ensures told { Hears result into.now (link_told self.old) (link_told self.new) }
        ensures ok { IfOk result (λ r. r ≡ read) }
        ensures err { OnErr result (MayFail read self.old.quiets self.old.ends) }
        ensures same { IsUnread self.old self.new }
        ensures waits { CountsWait result self.old.waits self.new.waits }
        ensures cause { HasCause self.old.faults self.new.faults result }
    {
        match read {
            LinkRead::Got(n) => self.give(&into[..n]),
            LinkRead::Quiet => self.rest(),
            LinkRead::End => {
                let Some(ends) = self.ends.checked_add(1) else {
                    return self.fail();
                };
                self.ends = ends;
                self.failed = false;
                Ok(LinkRead::End)
            }
        }
    }
}

impl Link for MemLink {
    ghost told = { link_told };

    ghost faults = { λ l. l.faults };

    ghost waits = { λ l. l.waits };

    fn read(&mut self, into: &mut [u8]) -> Result<LinkRead, Failed>
        requires { 0 < length into.old }
        ensures fits { IfOk result (λ read. FitsIn read (length into.new)) }
        ensures done { Hears result into.new (link_told self.old) (link_told self.new) }
        ensures waits { CountsWait result self.old.waits self.new.waits }
        ensures cause { HasCause self.old.faults self.new.faults result }
        ensures follows { FollowsScript self.old self.new into.new result }
        ensures script { self.new.steps ≡ self.old.steps }
    {
        let due = self.due(into);
        self.step = due.step;
        self.at = due.at;
        match due.answer {
            Ok(read) => self.note(read, into),
            Err(_) => self.fail(),
        }
    }

    fn write(&mut self, bytes: &[u8]) -> Result<usize, Failed>
        ensures bound { WritesAtMost result bytes.now }
        ensures some { IfOk result (λ n. 0 < length bytes.now → 0 < n) }
        ensures done { Sends result bytes.now (link_told self.old) (link_told self.new) }
        ensures waits { self.old.waits ≤ self.new.waits }
        ensures cause { HasCause self.old.faults self.new.faults result }
        ensures listed { Contains (send_fails self.old) (send_calls self.old) → IsErr result }
        ensures most { IfOk result (λ n. n ≡ min (length bytes.now)
            (piece_of (send_pieces self.old) (send_calls self.old))) }
        ensures counted { send_calls self.new ≡ min (send_calls self.old + 1) (2 ^ 64 - 1) }
    {
        if let Some(flag) = &self.flag {
            flag.set();
        }
        let n = bytes.len().min(piece_at(&self.most, self.script.calls));
        if self.script.next_fails() || self.took.extend_from_slice(&bytes[..n]).is_err() {
            return self.fail();
        }
        self.failed = false;
        Ok(n)
    }

    fn faults(&self) -> u64 {
        self.faults
    }

    fn waits(&self) -> u64 {
        self.waits
    }
}

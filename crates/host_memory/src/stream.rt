// A source and a sink in memory.
ghost use Rattle.std.specs.Prelude.{◌≡◌, ◌≤◌, ◌+◌, [], vec_len, take, Some, None, IfSome};
ghost use Rattle.host_memory.specs.Stream.{left_of, took_by};

use crate::flags::{Flag, Held, passes};
use crate::script::{Script, counted, piece_at};
use flume_host::{Failed, Sink, Source};
use std::alloc::Global;

/// Bytes that are read in pieces.
#[derive(Drop)]
pub struct MemSource {
    bytes: Vec<u8>,
    // how many bytes were read
    at: usize,
    pieces: Vec<usize>,
    script: Script,
    // the first read sets the one flag, and waits for the other
    held: Option<Held>,
    tells: bool,
    pub(crate) faults: u64,
    ghost in_range: { at ≤ vec_len bytes },
}

impl MemSource {
    ghost use Rattle.host_memory.specs.Words.{left_in, source_calls, source_fails, source_faults, source_pieces};

    /// A source that shows its contents, gives all that is asked for, and never fails.
    pub fn new(alloc: Global, bytes: Vec<u8>) -> Self
        ensures left { left_in result ≡ Some bytes.items }
        ensures script { (source_fails result ≡ []) × (source_calls result ≡ 0) ×
            (source_pieces result ≡ []) }
        ensures count { source_faults result ≡ 0 }
    {
        MemSource {
            bytes,
            at: 0,
            pieces: Vec::new(alloc),
            script: Script::new(alloc),
            held: None,
            tells: true,
            faults: 0,
        }
    }

    /// Its first read sets the flag `begun`, and waits for the flag `until`; where that isn't set in 1,000,000,000 looks,
    /// the read fails.
    pub fn held(mut self, begun: Flag, until: Flag) -> Self
        ensures left { left_in result ≡ left_in self }
        ensures script { (source_fails result ≡ source_fails self) ×
            (source_calls result ≡ source_calls self) ×
            (source_pieces result ≡ source_pieces self) }
        ensures count { source_faults result ≡ source_faults self }
    {
        self.held = Some(Held { begun, until });
        self
    }

    /// Read number n gives at most the n-th of these numbers. They go round, and a 0 counts as 1.
    pub fn in_pieces(mut self, pieces: Vec<usize>) -> Self
        ensures left { left_in result ≡ left_in self }
        ensures pieces { source_pieces result ≡ pieces.items }
        ensures script { (source_fails result ≡ source_fails self) ×
            (source_calls result ≡ source_calls self) }
        ensures count { source_faults result ≡ source_faults self }
    {
        self.pieces = pieces;
        self
    }

    /// The reads of these numbers fail. The first read has the number 0.
    pub fn failing_at(mut self, calls: Vec<u64>) -> Self
        ensures left { left_in result ≡ left_in self }
        ensures pieces { source_pieces result ≡ source_pieces self }
        ensures script { (source_fails result ≡ calls.items) ×
            (source_calls result ≡ source_calls self) }
        ensures count { source_faults result ≡ source_faults self }
    {
        self.script.fails = calls;
        self
    }

    /// A source that shows nothing.
    pub fn silent(mut self) -> Self
        ensures left { left_in result ≡ None }
        ensures script { (source_fails result ≡ source_fails self) ×
            (source_calls result ≡ source_calls self) ×
            (source_pieces result ≡ source_pieces self) }
        ensures count { source_faults result ≡ source_faults self }
    {
        self.tells = false;
        self
    }

    /// How many reads there were.
    pub fn calls(&self) -> u64
        ensures { result ≡ source_calls self.now }
    {
        self.script.calls
    }
}

impl Source for MemSource {
    ghost left = { λ s. left_of s.tells s.bytes.items s.at };

    ghost faults = { λ s. s.faults };

    fn read(&mut self, into: &mut [u8]) -> Result<usize, Failed> {
        let most = piece_at(&self.pieces, self.script.calls);
        let first = self.script.calls == 0;
        if self.script.next_fails() || first && !passes(&self.held) {
            return counted(&mut self.faults, Err(Failed));
        }
        let n = into.len().min(most).min(self.bytes.len() - self.at);
        into[..n].copy_from_slice(&self.bytes[self.at..self.at + n]);
        self.at += n;
        Ok(n)
    }

    fn faults(&self) -> u64 {
        self.faults
    }
}

/// Keeps what is written to it.
#[derive(Drop)]
pub struct MemSink {
    bytes: Vec<u8>,
    // how many of them were handed on
    handed: usize,
    pieces: Vec<usize>,
    script: Script,
    tells: bool,
    pub(crate) faults: u64,
}

impl MemSink {
    ghost use Rattle.host_memory.specs.Words.{took_in, handed_in, sink_calls, sink_fails, sink_faults, sink_pieces};

    /// An empty sink that shows its contents, takes all that it is given, and fails only when out of memory.
    pub fn new(alloc: Global) -> Self
        ensures took { (took_in result ≡ Some []) × (handed_in result ≡ Some []) }
        ensures script { (sink_fails result ≡ []) × (sink_calls result ≡ 0) ×
            (sink_pieces result ≡ []) }
        ensures count { sink_faults result ≡ 0 }
    {
        MemSink {
            bytes: Vec::new(alloc),
            handed: 0,
            pieces: Vec::new(alloc),
            script: Script::new(alloc),
            tells: true,
            faults: 0,
        }
    }

    /// A write that is call number n takes at most the n-th of these numbers. They go round, and a 0 counts as 1.
    pub fn in_pieces(mut self, pieces: Vec<usize>) -> Self
        ensures took { (took_in result ≡ took_in self) × (handed_in result ≡ handed_in self) }
        ensures pieces { sink_pieces result ≡ pieces.items }
        ensures script { (sink_fails result ≡ sink_fails self) ×
            (sink_calls result ≡ sink_calls self) }
        ensures count { sink_faults result ≡ sink_faults self }
    {
        self.pieces = pieces;
        self
    }

    /// The calls of these numbers fail, writes and flushes counted together. The first has the number 0.
    pub fn failing_at(mut self, calls: Vec<u64>) -> Self
        ensures took { (took_in result ≡ took_in self) × (handed_in result ≡ handed_in self) }
        ensures pieces { sink_pieces result ≡ sink_pieces self }
        ensures script { (sink_fails result ≡ calls.items) × (sink_calls result ≡ sink_calls self) }
        ensures count { sink_faults result ≡ sink_faults self }
    {
        self.script.fails = calls;
        self
    }

    /// A sink that shows nothing.
    pub fn silent(mut self) -> Self
        ensures took { (took_in result ≡ None) × (handed_in result ≡ None) }
        ensures script { (sink_fails result ≡ sink_fails self) ×
            (sink_calls result ≡ sink_calls self) × (sink_pieces result ≡ sink_pieces self) }
        ensures count { sink_faults result ≡ sink_faults self }
    {
        self.tells = false;
        self
    }

    /// What it took.
    pub fn bytes(&self) -> &[u8]
        ensures { IfSome (took_in self.now) (λ bytes. bytes ≡ result.now) }
    {
        &self.bytes
    }

    /// How many writes and flushes there were.
    pub fn calls(&self) -> u64
        ensures { result ≡ sink_calls self.now }
    {
        self.script.calls
    }
}

impl Sink for MemSink {
    ghost took = { λ s. took_by s.tells s.bytes.items };

    ghost handed = { λ s. took_by s.tells (take s.handed s.bytes.items) };

    ghost faults = { λ s. s.faults };

    fn write(&mut self, bytes: &[u8]) -> Result<usize, Failed> {
        let most = piece_at(&self.pieces, self.script.calls);
        let n = bytes.len().min(most);
        if self.script.next_fails() || self.bytes.extend_from_slice(&bytes[..n]).is_err() {
            return counted(&mut self.faults, Err(Failed));
        }
        Ok(n)
    }

    fn flush(&mut self) -> Result<(), Failed> {
        if self.script.next_fails() {
            return counted(&mut self.faults, Err(Failed));
        }
        self.handed = self.bytes.len();
        Ok(())
    }

    fn faults(&self) -> u64 {
        self.faults
    }
}

// A host of the tests' own over one in memory: its input may give many bytes first, the syncs of one disk may wait, and its clocks
// let others run in long pauses.

use flume_host::{Clock, Disk, Failed, FileName, FileRefused, Host, NameRefused, NoMemory, Source};
use host_memory::{
    Flag, MemClock, MemDialer, MemDisk, MemHost, MemListener, MemRandom, MemRoll, MemSink,
    MemSource,
};
use std::thread;

/// An input that gives so many bytes of any kind, which it does not write anywhere, and then those of one in memory.
#[derive(Drop)]
pub struct LongSource {
    /// How many bytes come before those of the one in memory.
    pub more: u64,
    /// The one in memory.
    pub source: MemSource,
    /// Is set once it has ended or failed.
    pub ended: Option<Flag>,
}

impl Source for LongSource {
    ghost use Rattle.std.specs.Prelude.{None};
    ghost use Rattle.host_memory.specs.Words.{source_faults};

    ghost left = { λ s. None };

    ghost faults = { λ s. source_faults s.source };

    fn read(&mut self, into: &mut [u8]) -> Result<usize, Failed> {
        let most = self.more.min(into.len() as u64);
        if most > 0 {
            self.more -= most;
            return Ok(most as usize);
        }
        let read = self.source.read(into);
        if let (Some(flag), Ok(0) | Err(_)) = (&self.ended, &read) {
            flag.set();
        }
        read
    }

    fn faults(&self) -> u64 {
        self.source.faults()
    }
}

/// Where the syncs of a disk wait.
#[derive(Drop)]
pub struct Gate {
    /// The first call that waits, where it is a sync. Those before it are of the opening.
    pub from: u64,
    /// Is set before a sync waits.
    pub begun: Flag,
    /// A sync waits until it is set.
    pub until: Flag,
    /// Is set where a sync has waited in vain, and went on.
    pub given_up: Flag,
}

/// A disk in memory, whose syncs may wait.
#[derive(Drop)]
pub struct GatedDisk {
    /// The disk in memory.
    pub disk: MemDisk,
    /// Where its syncs wait, if they do.
    pub gate: Option<Gate>,
}

impl GatedDisk {
    // Waits where the next call does.
    fn pass(&self) {
        if let Some(gate) = &self.gate
            && gate.from <= self.disk.calls()
        {
            gate.begun.set();
            if !gate.until.wait() {
                gate.given_up.set();
            }
        }
    }
}

impl Disk for GatedDisk {
    ghost use Rattle.host_memory.specs.Laws.{sound};
    ghost use Rattle.host_memory.specs.Words.{told_in, disk_faults};

    ghost told = { λ d. told_in d.disk };

    ghost faults = { λ d. disk_faults d.disk };

    ghost reads_are_left = { λ d t is. sound d.disk.tells d.disk.store.first.items
        d.disk.store.calls.items t is };

    fn faults(&self) -> u64 {
        self.disk.faults()
    }

    fn make(&mut self, name: FileName) -> Result<(), Failed> {
        self.disk.make(name)
    }

    fn len(&mut self, name: FileName) -> Result<u64, Failed> {
        self.disk.len(name)
    }

    fn read(&mut self, name: FileName, at: u64, into: &mut [u8]) -> Result<usize, Failed> {
        self.disk.read(name, at, into)
    }

    fn write_at(&mut self, name: FileName, at: u64, bytes: &[u8]) -> Result<(), Failed> {
        self.disk.write_at(name, at, bytes)
    }

    fn sync(&mut self, name: FileName) -> Result<(), Failed> {
        self.pass();
        self.disk.sync(name)
    }

    fn settle(&mut self) -> Result<(), Failed> {
        self.disk.settle()
    }

    fn remove(&mut self, name: FileName) -> Result<(), Failed> {
        self.disk.remove(name)
    }

    fn next_name(&mut self, after: Option<FileName>) -> Result<Option<FileName>, Failed> {
        self.disk.next_name(after)
    }
}

/// The longest pause that lets no other thread run, in milliseconds.
const SHORT: u64 = 1_000;

/// How often a piece of a longer pause lets other threads run, and how often at most before the input has ended. It is so often that a run
/// ends before the pause does.
const YIELDS: u32 = 200;

const MOST_YIELDS: u32 = 20_000;

fn is_set(flag: &Option<Flag>) -> bool {
    match flag {
        Some(flag) => flag.is_set(),
        None => false,
    }
}

// One more handle of a flag, if there is one.
fn handle_of(flag: &Option<Flag>) -> Option<Flag> {
    match flag {
        Some(flag) => flag.handle().ok(),
        None => None,
    }
}

/// A clock that was not asked for a moment for more than a second lets other threads run in its pauses. So a worker that asks for none
/// comes to the end of its first second at once, and goes on slowly.
#[derive(Drop)]
pub struct SlowClock {
    /// The clock in memory.
    pub clock: MemClock,
    /// The milliseconds of its pauses since it was asked for a moment.
    pub paused: u64,
    /// Is set in the first of the slow pauses.
    pub slow: Option<Flag>,
    /// Is set once the input has ended.
    pub ended: Option<Flag>,
}

impl SlowClock {
    // Lets other threads run.
    fn wait(&self) {
        for time in 0..MOST_YIELDS {
            if time >= YIELDS && is_set(&self.ended) {
                return;
            }
            thread::yield_now();
        }
    }
}

impl Clock for SlowClock {
    ghost moments = { λ c. ⟦<MemClock as Clock>⟧.moments c.clock };

    fn now(&mut self) -> u64 {
        self.paused = 0;
        self.clock.now()
    }

    fn pause(&mut self, ms: u32) {
        self.paused = self.paused.saturating_add(u64::from(ms));
        if self.paused > SHORT {
            if let Some(flag) = &self.slow {
                flag.set();
            }
            self.wait();
        }
    }
}

/// A host in memory, whose input gives so many bytes more, and of which the first disk that is opened may wait, and the clocks may be slow.
#[derive(Drop)]
pub struct OwnHost {
    /// What it does but for that.
    pub host: MemHost,
    /// How many bytes the input gives before its own.
    pub more: u64,
    /// Where the first disk waits, until it is opened.
    pub gate: Option<Gate>,
    /// Is set once a pause has lasted for more than a second.
    pub slow: Option<Flag>,
    /// Is set once the input has ended.
    pub ended: Option<Flag>,
}

impl Host for OwnHost {
    ghost use Rattle.std.specs.Prelude.{None};
    ghost use Rattle.host_memory.specs.HostWords.{folders_in, state_in};

    type Source = LongSource;

    type Sink = MemSink;

    type Disk = GatedDisk;

    type Roll = MemRoll;

    type Listener = MemListener;

    type Dialer = MemDialer;

    type Clock = SlowClock;

    type Random = MemRandom;

    ghost state = { λ h. record (state_in h.host) { input = None } };

    ghost folders = { λ h. folders_in h.host };

    fn take_input(&mut self) -> LongSource {
        LongSource {
            more: self.more,
            source: self.host.take_input(),
            ended: handle_of(&self.ended),
        }
    }

    fn keep_input(&mut self, input: LongSource) {
        self.host.keep_input(input.source);
    }

    fn take_output(&mut self) -> MemSink {
        self.host.take_output()
    }

    fn keep_output(&mut self, output: MemSink) {
        self.host.keep_output(output);
    }

    fn say(&mut self, line: &str) {
        self.host.say(line);
    }

    fn open_disk(&mut self, path: &str) -> Result<GatedDisk, NameRefused> {
        match self.host.open_disk(path) {
            Ok(disk) => Ok(GatedDisk {
                disk,
                gate: self.gate.take(),
            }),
            Err(refused) => Err(refused),
        }
    }

    fn keep_disk(&mut self, path: &str, disk: GatedDisk) {
        self.host.keep_disk(path, disk.disk);
    }

    fn read_file(&mut self, path: &str) -> Result<Vec<u8>, FileRefused> {
        self.host.read_file(path)
    }

    fn open_roll(&mut self, path: &str) -> Result<MemRoll, NameRefused> {
        self.host.open_roll(path)
    }

    fn keep_roll(&mut self, path: &str, roll: MemRoll) {
        self.host.keep_roll(path, roll);
    }

    fn listen(&mut self, bind: &str, port: u16) -> Result<MemListener, NameRefused> {
        self.host.listen(bind, port)
    }

    fn keep_listener(&mut self, bind: &str, port: u16, listener: MemListener) {
        self.host.keep_listener(bind, port, listener);
    }

    fn dialer(&mut self, host: &str, port: u16) -> Result<MemDialer, NoMemory> {
        self.host.dialer(host, port)
    }

    fn keep_dialer(&mut self, host: &str, port: u16, dialer: MemDialer) {
        self.host.keep_dialer(host, port, dialer);
    }

    fn host_name(&mut self, use_ip: bool) -> Result<String, NameRefused> {
        self.host.host_name(use_ip)
    }

    fn clock(&mut self) -> SlowClock {
        SlowClock {
            clock: self.host.clock(),
            paused: 0,
            slow: handle_of(&self.slow),
            ended: handle_of(&self.ended),
        }
    }

    fn random(&mut self) -> MemRandom {
        self.host.random()
    }

    fn faults(&self) -> u64 {
        self.host.faults()
    }

    fn disk_faults(&self) -> u64 {
        self.host.disk_faults()
    }
}

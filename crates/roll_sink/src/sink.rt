// A sink of rolled files.
ghost use Rattle.std.specs.Prelude.{◌≡◌, ◌≤◌, None, Some, MatchResult, true};
ghost use Rattle.flume_host.specs.Causes.{Rose, HasCause};
ghost use Rattle.flume_host.specs.Told.{Tells};
ghost use Rattle.roll_sink.specs.Rolls.{Rolls, RollsBy, Stopped, starts_file, number_after, roll_text};
ghost use Rattle.roll_sink.specs.States.{state_of, roll_answer, IsFault};
ghost use Rattle.roll_sink.specs.Parts.{NewFile, NoFile, HandedOn, begun_at, kept_at};

use crate::write::write_and_flush;
use event_core::Batch;
use flume_host::RollDir;
use plug_in::{EventSink, SinkRefused};
use std::alloc::Global;

/// Why a batch was not delivered.
#[derive(Clone, Copy, Debug, PartialEq, Eq)]
pub enum RollRefused {
    /// The folder failed, and has counted that. The next batch starts a new file.
    RollFault,
    /// There was no memory for the name of a file. Nothing was done.
    NoMemory,
}

/// Writes the body of each event and a newline into a file of a folder (Flume User Guide, "File Roll Sink"). Files are named
/// `START-NUMBER`: the moment of the sink's first delivery in milliseconds since 1970, and the files' numbers from 1 on.
#[derive(Drop)]
pub struct RollSink<R: RollDir + Drop> {
    alloc: Global,
    dir: R,
    // seconds, or 0
    interval: u32,
    start: Option<u64>,
    next: u64,
    begun: Option<u64>,
}

// Whether a batch at this moment starts a file.
fn is_due(interval: u32, begun: Option<u64>, moment: u64) -> bool
    ensures { result ≡ starts_file interval begun moment }
{
    match begun {
        None => true,
        Some(begun) => match begun.checked_add(1000 * interval as u64) {
            Some(end) => interval != 0 && end <= moment,
            None => false,
        },
    }
}

impl<R: RollDir + Drop> RollSink<R> {
    /// A sink into this folder, where a file takes no batch that comes `interval` seconds or later after its begin, and
    /// never grows too old with an interval of 0.
    pub fn new(alloc: Global, dir: R, interval: u32) -> Self
        ensures state { state_of result ≡ record {
          interval = interval;
          start = None;
          next = 1;
          begun = None;
        } }
        ensures dir { result.dir ≡ dir }
    {
        RollSink {
            alloc,
            dir,
            interval,
            start: None,
            next: 1,
            begun: None,
        }
    }

    /// Hands the folder back.
    pub fn close(self) -> R
        ensures { result ≡ self.dir }
    {
        self.dir
    }

    // Begins the file of this name.
    fn begin(&mut self, start: u64, moment: u64, name: &str) -> Result<(), RollRefused>
        ensures state { state_of self.new ≡ record {
          interval = self.old.interval;
          start = Some
              start;
          next = number_after true self.old.next;
          begun = begun_at result moment;
        } }
        ensures done { MatchResult result (λ _. Tells (R.rolled self.old.dir)
            (R.rolled self.new.dir) (NewFile name.now))
            (λ e. (e ≡ RollRefused.RollFault) × Tells (R.rolled self.old.dir)
            (R.rolled self.new.dir) NoFile) }
        ensures cause { HasCause (R.faults self.old.dir) (R.faults self.new.dir) result }
    {
        self.start = Some(start);
        self.next = self.next.saturating_add(1);
        self.begun = None;
        match self.dir.begin(name) {
            Ok(()) => {
                self.begun = Some(moment);
                Ok(())
            }
            Err(_) => Err(RollRefused::RollFault),
        }
    }

    /// Delivers a batch, at a moment in milliseconds since 1970. At Ok all of it was handed on by the folder. It takes no
    /// memory but for the name of a file.
    pub fn deliver(&mut self, batch: &Batch, moment: u64) -> Result<(), RollRefused>
        ensures rolls { Rolls (state_of self.old) batch.now moment result (state_of self.new)
            (R.rolled self.old.dir) (R.rolled self.new.dir) }
        ensures cause { IsFault result → Rose (R.faults self.old.dir) (R.faults self.new.dir) }
        ensures later { R.faults self.old.dir ≤ R.faults self.new.dir }
    {
        if is_due(self.interval, self.begun, moment) {
            self.deliver_to_new(batch, moment)
        } else {
            self.write(batch)
        }
    }

    // Begins a file, and writes a batch to it.
    fn deliver_to_new(&mut self, batch: &Batch, moment: u64) -> Result<(), RollRefused>
        ensures rolls { RollsBy true (state_of self.old) batch.now moment result (state_of self.new)
            (R.rolled self.old.dir) (R.rolled self.new.dir) }
        ensures cause { IsFault result → Rose (R.faults self.old.dir) (R.faults self.new.dir) }
        ensures later { R.faults self.old.dir ≤ R.faults self.new.dir }
    {
        let start = self.start.unwrap_or(moment);
        let number = self.next;
        let Ok(name) = format!(in self.alloc; "{start}-{number}") else {
            return Err(RollRefused::NoMemory);
        };
        match self.begin(start, moment, name.as_str()) {
            Ok(()) => self.write(batch),
            Err(refused) => Err(refused),
        }
    }

    // Writes a batch to the file that was begun, and has it handed on.
    fn write(&mut self, batch: &Batch) -> Result<(), RollRefused>
        ensures state { state_of self.new ≡ record (state_of self.old)
            { begun = kept_at result self.old.begun } }
        ensures done { MatchResult result (λ _. Tells (R.rolled self.old.dir)
            (R.rolled self.new.dir) (HandedOn (roll_text batch.now)))
            (λ e. (e ≡ RollRefused.RollFault) × Tells (R.rolled self.old.dir)
            (R.rolled self.new.dir) (Stopped (roll_text batch.now))) }
        ensures cause { HasCause (R.faults self.old.dir) (R.faults self.new.dir) result }
    {
        match write_and_flush(&mut self.dir, batch) {
            Ok(()) => Ok(()),
            Err(_) => {
                self.begun = None;
                Err(RollRefused::RollFault)
            }
        }
    }
}

impl<R: RollDir + Drop> EventSink for RollSink<R> {
    ghost delivers = { λ s batch moment result t. Rolls (state_of s) batch moment
        (roll_answer result) (state_of t) (R.rolled s.dir) (R.rolled t.dir) };

    ghost faults = { λ s. R.faults s.dir };

    fn deliver(&mut self, batch: &Batch, moment: u64) -> Result<(), SinkRefused> {
        match RollSink::deliver(self, batch, moment) {
            Ok(()) => Ok(()),
            Err(RollRefused::RollFault) => Err(SinkRefused::Refused),
            Err(RollRefused::NoMemory) => Err(SinkRefused::NoMemory),
        }
    }

    fn faults(&self) -> u64 {
        self.dir.faults()
    }
}

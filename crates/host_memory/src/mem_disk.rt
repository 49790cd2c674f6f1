// A disk in memory keeps its files, and each call that changed them.
ghost use Rattle.std.specs.Prelude.{◌≡◌};
ghost use Rattle.host_memory.specs.Faults as Faults;
ghost use Rattle.host_memory.specs.Parts.{answer_of, told_by};

use crate::parts::{MemFile, Outcome, Part, least_above, place_of, read_bytes};
use crate::script::counted;
use crate::stops::{Stood, image_at};
use crate::store::Store;
use flume_host::{Disk, Failed, FileName};
use std::alloc::{AllocError, Global};

/// A call that is to fail. The first call has the number 0, and each of the eight calls of a disk is counted.
#[derive(Clone, Copy, Debug, PartialEq, Eq)]
pub struct DiskFault {
    /// The number of the call.
    pub call: u64,
    /// What it has done before.
    pub part: Part,
}

/// The calls that are to fail, and the number of the next call.
#[derive(Drop)]
pub struct DiskScript {
    faults: Vec<DiskFault>,
    calls: u64,
}

// How much is done of a call that has done this before it fails.
fn cut_at(part: Part) -> Outcome
    ensures { result ≡ Faults.cut_at part }
{
    match part {
        Part::Nothing => Outcome::Nothing,
        Part::Front(n) => Outcome::Partly(n),
    }
}

// How much is to be done of the call of this number.
fn outcome_at(faults: &[DiskFault], call: u64) -> Outcome
    ensures { result ≡ Faults.outcome_at faults.now call }
{
    for i in 0..faults.len() {
        if call == faults[i].call {
            return cut_at(faults[i].part);
        }
    }
    Outcome::Whole
}

impl DiskScript {
    ghost use Rattle.std.specs.Prelude.{ℕ, ◌+◌, ◌-◌, ◌^◌, ◌↔◌, ◌≢◌, IsTrue, min};
    ghost use Rattle.host_memory.specs.Faults.{outcome_at};
    ghost use Rattle.host_memory.specs.declared.parts.Outcome.{Outcome};

    // Counts a call, and says how much of it is to be done.
    fn next_outcome(&mut self) -> Outcome
        ensures due { result ≡ outcome_at self.old.faults.items self.old.calls }
        ensures counted { self.new.calls ≡ min (self.old.calls + 1) (2 ^ 64 - 1) }
        ensures same { self.new.faults.items ≡ self.old.faults.items }
    {
        let outcome = outcome_at(&self.faults, self.calls);
        self.calls = self.calls.saturating_add(1);
        outcome
    }

    // Counts a call that only reads, and says whether it is to fail.
    fn next_fails(&mut self) -> bool
        ensures due { IsTrue result ↔ (outcome_at self.old.faults.items self.old.calls ≢
            Outcome.Whole) }
        ensures counted { self.new.calls ≡ min (self.old.calls + 1) (2 ^ 64 - 1) }
        ensures same { self.new.faults.items ≡ self.old.faults.items }
    {
        match self.next_outcome() {
            Outcome::Whole => false,
            Outcome::Partly(_) | Outcome::Nothing => true,
        }
    }
}

/// A disk in memory. A call that needs memory and has none fails too.
#[derive(Drop)]
pub struct MemDisk {
    store: Store,
    script: DiskScript,
    tells: bool,
    pub(crate) faults: u64,
}

impl MemDisk {
    ghost use Rattle.std.specs.Prelude.{[], List, None, Some, IfOk, MatchOption};
    ghost use Rattle.host_memory.specs.Parts.{files_of, start};
    ghost use Rattle.flume_host.specs.Told.{IsLeftAt, clock};
    ghost use Rattle.host_memory.specs.Stops.{chosen, image_chosen};
    ghost use Rattle.host_memory.specs.Words.{told_in, calls_made, disk_calls, disk_faults, disk_script, files_first, reads_in, record_in, syncs_in};

    /// An empty disk that shows its contents, no call of which is to fail.
    pub fn new(alloc: Global) -> Self
        ensures told { told_in result ≡ Some (start []) }
        ensures script { (disk_script result ≡ []) × (disk_calls result ≡ 0) }
        ensures count { disk_faults result ≡ 0 }
    {
        MemDisk {
            store: Store::new(alloc),
            script: DiskScript {
                faults: Vec::new(alloc),
                calls: 0,
            },
            tells: true,
            faults: 0,
        }
    }

    /// A disk that holds these files, all of them stable, and shows its contents; no call of it is to fail. Where a name stands twice, its first file counts.
    pub fn with_files(alloc: Global, files: Vec<MemFile>) -> Result<Self, AllocError>
        ensures told { IfOk result (λ disk. told_in disk ≡ Some (start files.items)) }
        ensures script { IfOk result (λ disk. (disk_script disk ≡ []) × (disk_calls disk ≡ 0)) }
        ensures count { IfOk result (λ disk. disk_faults disk ≡ 0) }
    {
        let mut disk = MemDisk::new(alloc);
        disk.store = Store::with_files(alloc, files)?;
        Ok(disk)
    }

    /// What the file of this name holds, if it is there, also where the disk shows nothing.
    pub fn file(&self, name: FileName) -> Option<&[u8]>
        ensures { MatchOption result (reads_in self.now name ≡ None)
            (λ bytes. reads_in self.now name ≡ Some bytes.now) }
    {
        match place_of(&self.store.files, name) {
            Some(index) => Some(&self.store.files[index].bytes),
            None => None,
        }
    }

    /// How many of the recorded calls were syncs of a file, whatever they answered.
    pub fn syncs(&self) -> u64
        ensures { result ≡ syncs_in self.now }
    {
        self.store.syncs()
    }

    /// A disk as a crash at a moment may have left this one, its files stable, no call of which is to fail: moment m is within the recorded call
    /// number m, or after the last. Each recorded call has a choice of what stands of it, and the choices go round.
    pub fn stopped_at(&self, moment: u64, choices: &[Stood]) -> Result<Self, AllocError>
        ensures left { IfOk result (λ disk. (files : List MemFile) ×
            (told_in disk ≡ Some (start files)) × IsLeftAt (record_in self.now) moment
            (files_of files)
            × (files_of files ≡ image_chosen (chosen choices.now) (files_first self.now)
            (calls_made self.now) moment)) }
        ensures script { IfOk result (λ disk. (disk_script disk ≡ []) × (disk_calls disk ≡ 0)) }
        ensures count { IfOk result (λ disk. disk_faults disk ≡ 0) }
    {
        let alloc = self.store.alloc;
        let files = image_at(alloc, &self.store.first, &self.store.calls, moment, choices)?;
        MemDisk::with_files(alloc, files)
    }

    /// How many calls were recorded: those that change the disk, but for those that out of memory kept from being so.
    pub fn moments(&self) -> u64
        ensures { result ≡ clock (record_in self.now) }
    {
        self.store.calls.len() as u64
    }

    /// These calls are to fail.
    pub fn failing_at(mut self, faults: Vec<DiskFault>) -> Self
        ensures told { told_in result ≡ told_in self }
        ensures script { (disk_script result ≡ faults.items) ×
            (disk_calls result ≡ disk_calls self) }
        ensures count { disk_faults result ≡ disk_faults self }
    {
        self.script.faults = faults;
        self
    }

    /// A disk that shows nothing.
    pub fn silent(mut self) -> Self
        ensures told { told_in result ≡ None }
        ensures script { (disk_script result ≡ disk_script self) ×
            (disk_calls result ≡ disk_calls self) }
        ensures count { disk_faults result ≡ disk_faults self }
    {
        self.tells = false;
        self
    }

    /// How many calls there were, of all eight.
    pub fn calls(&self) -> u64
        ensures { result ≡ disk_calls self.now }
    {
        self.script.calls
    }
}

// What a call answers, of which so much was to be done.
fn answered(outcome: Outcome, noted: Result<(), Failed>) -> Result<(), Failed>
    ensures { result ≡ answer_of outcome noted }
{
    match outcome {
        Outcome::Whole => noted,
        Outcome::Partly(_) | Outcome::Nothing => Err(Failed),
    }
}

impl Disk for MemDisk {
    ghost use Rattle.host_memory.specs.Laws.{sound};
    ghost use Rattle.std.specs.Prelude.{ℕ, List, ◌≢◌, ◌⊎◌, ◌↔◌, ◌<◌, ◌≤◌, ◌+◌, ◌-◌, ◌++◌, ◌^◌, IsErr, IfOk, IfSome, OnOk, None, Some, length, min, take, drop};
    ghost use Rattle.flume_host.specs.Causes.{HasCause};
    ghost use Rattle.flume_host.specs.Folder.{IsAbove, IsNext};
    ghost use Rattle.flume_host.specs.Told.{Does, On, Make, Write, Sync, Settle, Remove, WhereTold};
    ghost use Rattle.host_memory.specs.Faults.{Follows, IsCounted, next_outcome};
    ghost use Rattle.host_memory.specs.Words.{disk_faults, reads_in, record_in, told_in};
    ghost use Rattle.host_memory.specs.declared.parts.Outcome.{Outcome};

    ghost told = { λ d. told_by d.tells d.store.first.items d.store.calls.items };

    ghost faults = { λ d. d.faults };

    ghost reads_are_left = { λ d t is. sound d.tells d.store.first.items d.store.calls.items t is };

    fn faults(&self) -> u64 {
        self.faults
    }

    fn make(&mut self, name: FileName) -> Result<(), Failed>
        ensures done { Does (On name Make) result (told_in self.old) (told_in self.new) }
        ensures cause { HasCause (disk_faults self.old) (disk_faults self.new) result }
        ensures follows { Follows (next_outcome self.old) (On name Make) (record_in self.old)
            (record_in self.new) result }
        ensures counted { IsCounted self.old self.new }
    {
        let outcome = self.script.next_outcome();
        let noted = self.store.make(name, outcome);
        counted(&mut self.faults, answered(outcome, noted))
    }

    fn len(&mut self, name: FileName) -> Result<u64, Failed>
        ensures length { IfOk result (λ n. WhereTold (told_in self.old)
            (λ t. (bytes : List ℕ) × (t.reads name ≡ Some bytes) × (n ≡ length bytes))) }
        ensures bounded { IfOk result (λ n. n < 2 ^ 63) }
        ensures same { told_in self.new ≡ told_in self.old }
        ensures cause { HasCause (disk_faults self.old) (disk_faults self.new) result }
        ensures listed { IsErr result ↔ ((next_outcome self.old ≢ Outcome.Whole) ⊎
            (reads_in self.old name ≡ None)) }
        ensures counted { IsCounted self.old self.new }
    {
        if self.script.next_fails() {
            return counted(&mut self.faults, Err(Failed));
        }
        match place_of(&self.store.files, name) {
            Some(index) => Ok(self.store.files[index].bytes.len() as u64),
            None => counted(&mut self.faults, Err(Failed)),
        }
    }

    fn read(&mut self, name: FileName, at: u64, into: &mut [u8]) -> Result<usize, Failed>
        ensures bytes { IfOk result (λ n. WhereTold (told_in self.old)
            (λ t. (bytes : List ℕ) × (t.reads name ≡ Some bytes)
            × (n ≡ min (length into.old) (length bytes - at)) ×
            (into.new ≡ take n (drop at bytes) ++ drop n into.old))) }
        ensures filled { IfOk result (λ n. n ≤ length into.old) }
        ensures same { told_in self.new ≡ told_in self.old }
        ensures cause { HasCause (disk_faults self.old) (disk_faults self.new) result }
        ensures listed { IsErr result ↔ ((next_outcome self.old ≢ Outcome.Whole) ⊎
            (reads_in self.old name ≡ None)) }
        ensures counted { IsCounted self.old self.new }
    {
        if self.script.next_fails() {
            return counted(&mut self.faults, Err(Failed));
        }
        match place_of(&self.store.files, name) {
            Some(index) => Ok(read_bytes(&self.store.files[index].bytes, at as usize, into)),
            None => counted(&mut self.faults, Err(Failed)),
        }
    }

    fn write_at(&mut self, name: FileName, at: u64, bytes: &[u8]) -> Result<(), Failed>
        ensures done { Does (On name (Write at bytes.now)) result (told_in self.old)
            (told_in self.new) }
        ensures bounded { OnOk result (at + length bytes.now < 2 ^ 63) }
        ensures cause { HasCause (disk_faults self.old) (disk_faults self.new) result }
        ensures follows { Follows (next_outcome self.old) (On name (Write at bytes.now))
            (record_in self.old) (record_in self.new) result }
        ensures counted { IsCounted self.old self.new }
    {
        let outcome = self.script.next_outcome();
        let noted = self.store.write(name, at, bytes, outcome);
        counted(&mut self.faults, answered(outcome, noted))
    }

    fn sync(&mut self, name: FileName) -> Result<(), Failed>
        ensures done { Does (On name Sync) result (told_in self.old) (told_in self.new) }
        ensures cause { HasCause (disk_faults self.old) (disk_faults self.new) result }
        ensures follows { Follows (next_outcome self.old) (On name Sync) (record_in self.old)
            (record_in self.new) result }
        ensures counted { IsCounted self.old self.new }
    {
        let outcome = self.script.next_outcome();
        let noted = self.store.sync(name, outcome);
        counted(&mut self.faults, answered(outcome, noted))
    }

    fn settle(&mut self) -> Result<(), Failed>
        ensures done { Does Settle result (told_in self.old) (told_in self.new) }
        ensures cause { HasCause (disk_faults self.old) (disk_faults self.new) result }
        ensures follows { Follows (next_outcome self.old) Settle (record_in self.old)
            (record_in self.new) result }
        ensures counted { IsCounted self.old self.new }
    {
        let outcome = self.script.next_outcome();
        let noted = self.store.settle(outcome);
        counted(&mut self.faults, answered(outcome, noted))
    }

    fn remove(&mut self, name: FileName) -> Result<(), Failed>
        ensures done { Does (On name Remove) result (told_in self.old) (told_in self.new) }
        ensures cause { HasCause (disk_faults self.old) (disk_faults self.new) result }
        ensures follows { Follows (next_outcome self.old) (On name Remove) (record_in self.old)
            (record_in self.new) result }
        ensures counted { IsCounted self.old self.new }
    {
        let outcome = self.script.next_outcome();
        let noted = self.store.remove(name, outcome);
        counted(&mut self.faults, answered(outcome, noted))
    }

    fn next_name(&mut self, after: Option<FileName>) -> Result<Option<FileName>, Failed>
        ensures above { IfOk result (λ next. IfSome next (λ n. IsAbove after n)) }
        ensures next { IfOk result (λ next. WhereTold (told_in self.old)
            (λ t. IsNext t.reads after next)) }
        ensures same { told_in self.new ≡ told_in self.old }
        ensures cause { HasCause (disk_faults self.old) (disk_faults self.new) result }
        ensures listed { IsErr result ↔ (next_outcome self.old ≢ Outcome.Whole) }
        ensures counted { IsCounted self.old self.new }
    {
        if self.script.next_fails() {
            return counted(&mut self.faults, Err(Failed));
        }
        Ok(least_above(&self.store.files, after))
    }
}

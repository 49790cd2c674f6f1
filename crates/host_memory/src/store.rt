// The files of a disk in memory, and each call that changed them.
ghost use Rattle.std.specs.Prelude.{◌≡◌};
ghost use Rattle.host_memory.specs.Parts.{told_of, files_of};

use crate::parts::{MemCall, MemFile, Outcome, Recorded, copy_files, front, over_bytes, place_of};
use flume_host::{Failed, FileName};
use std::alloc::{AllocError, Global};

/// The files of a disk in memory, and each call that was made of it.
#[derive(Drop)]
pub struct Store {
    pub alloc: Global,
    // the files that were there first
    pub first: Vec<MemFile>,
    pub files: Vec<MemFile>,
    pub calls: Vec<MemCall>,
    ghost agrees: { files_of files.items ≡ (told_of first.items calls.items).reads },
}

impl Store {
    ghost use Rattle.std.specs.Prelude.{[], List, ℕ, OnOk, OnErr, ◌<◌, ◌≤◌, ◌+◌, ◌^◌, ◌≢◌, length, IfOk};
    ghost use Rattle.flume_host.specs.Told.{On, Make, Write, Sync, Settle, Remove};
    ghost use Rattle.host_memory.specs.Parts.{call_of, front_of, place, start, step_by};
    ghost use Rattle.host_memory.specs.Words.{replayed};

    /// A disk without files.
    pub fn new(alloc: Global) -> Self
        ensures { replayed result ≡ start [] }
    {
        Store {
            alloc,
            first: Vec::new(alloc),
            files: Vec::new(alloc),
            calls: Vec::new(alloc),
        }
    }

    /// A disk that has these files at first.
    pub fn with_files(alloc: Global, first: Vec<MemFile>) -> Result<Self, AllocError>
        ensures { IfOk result (λ store. replayed store ≡ start first.items) }
    {
        let files = copy_files(alloc, &first)?;
        Ok(Store {
            alloc,
            first,
            files,
            calls: Vec::new(alloc),
        })
    }

    /// How many of the calls were syncs.
    pub fn syncs(&self) -> u64
        ensures { result ≡ (replayed self.now).syncs }
    {
        let mut count = 0;
        for i in 0..self.calls.len() {
            if let Recorded::Synced(_) = &self.calls[i].change {
                count += 1;
            }
        }
        count
    }

    // Records a call that changes nothing that reads give.
    fn note(&mut self, change: Recorded, outcome: Outcome) -> Result<(), Failed>
        requires { (step_by outcome (call_of change) (replayed self.old)).reads ≡
            (replayed self.old).reads }
        ensures done { OnOk result (replayed self.new ≡ step_by outcome (call_of change)
            (replayed self.old)) }
        ensures same { OnErr result (replayed self.new ≡ replayed self.old) }
    {
        if self.calls.push(MemCall { change, outcome }).is_err() {
            return Err(Failed);
        }
        Ok(())
    }

    // Makes a file of a name that no file has.
    fn make_file(&mut self, name: FileName, outcome: Outcome) -> Result<(), AllocError>
        requires absent { place self.old.files.items name ≡ None }
        requires some { outcome ≢ Outcome.Nothing }
        ensures done { OnOk result (replayed self.new ≡ step_by outcome (On name Make)
            (replayed self.old)) }
        ensures same { OnErr result (replayed self.new ≡ replayed self.old) }
    {
        self.files.reserve(1)?;
        self.calls.push(MemCall {
            change: Recorded::Made(name),
            outcome,
        })?;
        self.files.push_reserved(MemFile {
            name,
            bytes: Vec::new(self.alloc),
        });
        Ok(())
    }

    /// Makes a file as far as the outcome says. It is done so far exactly where this answers Ok.
    pub fn make(&mut self, name: FileName, outcome: Outcome) -> Result<(), Failed>
        ensures done { OnOk result (replayed self.new ≡ step_by outcome (On name Make)
            (replayed self.old)) }
        ensures same { OnErr result (replayed self.new ≡ replayed self.old) }
    {
        if let Outcome::Nothing = outcome {
            return self.note(Recorded::Made(name), outcome);
        }
        if place_of(&self.files, name).is_some() {
            return Err(Failed);
        }
        match self.make_file(name, outcome) {
            Ok(()) => Ok(()),
            Err(_) => Err(Failed),
        }
    }

    // Writes to the file at this place.
    fn write_file(
        &mut self,
        index: usize,
        name: FileName,
        at: u64,
        bytes: &[u8],
        outcome: Outcome,
    ) -> Result<(), AllocError>
        requires placed { place self.old.files.items name ≡ Some index }
        requires within { (was : List ℕ) × (files_of self.old.files.items name ≡ Some was) ×
            (at ≤ length was) }
        ensures done { OnOk result (replayed self.new ≡ step_by outcome
            (On name (Write at bytes.now)) (replayed self.old)) }
        ensures same { OnErr result (replayed self.new ≡ replayed self.old) }
        ensures bounded { OnOk result (at + length (front_of outcome bytes.now) < 2 ^ 63) }
    {
        let next = over_bytes(
            self.alloc,
            &self.files[index].bytes,
            at as usize,
            front(outcome, bytes),
        )?;
        let change = Recorded::Wrote(name, at, bytes.to_vec(self.alloc)?);
        self.calls.push(MemCall { change, outcome })?;
        self.files[index].bytes = next;
        Ok(())
    }

    /// Writes as far as the outcome says. It is done so far exactly where this answers Ok.
    pub fn write(
        &mut self,
        name: FileName,
        at: u64,
        bytes: &[u8],
        outcome: Outcome,
    ) -> Result<(), Failed>
        ensures done { OnOk result (replayed self.new ≡ step_by outcome
            (On name (Write at bytes.now)) (replayed self.old)) }
        ensures same { OnErr result (replayed self.new ≡ replayed self.old) }
        ensures bounded { OnOk result (at + length (front_of outcome bytes.now) < 2 ^ 63) }
    {
        let Some(index) = place_of(&self.files, name) else {
            return Err(Failed);
        };
        if at > self.files[index].bytes.len() as u64 {
            return Err(Failed);
        }
        match self.write_file(index, name, at, bytes, outcome) {
            Ok(()) => Ok(()),
            Err(_) => Err(Failed),
        }
    }

    // Removes all files of this name.
    fn remove_file(&mut self, name: FileName, outcome: Outcome) -> Result<(), AllocError>
        requires some { outcome ≢ Outcome.Nothing }
        ensures done { OnOk result (replayed self.new ≡ step_by outcome (On name Remove)
            (replayed self.old)) }
        ensures same { OnErr result (replayed self.new ≡ replayed self.old) }
    {
        self.calls.push(MemCall {
            change: Recorded::Removed(name),
            outcome,
        })?;
        self.files.retain(|file| !name.is_same(file.name));
        Ok(())
    }

    /// Removes a file as far as the outcome says. It is done so far exactly where this answers Ok.
    pub fn remove(&mut self, name: FileName, outcome: Outcome) -> Result<(), Failed>
        ensures done { OnOk result (replayed self.new ≡ step_by outcome (On name Remove)
            (replayed self.old)) }
        ensures same { OnErr result (replayed self.new ≡ replayed self.old) }
    {
        if let Outcome::Nothing = outcome {
            return self.note(Recorded::Removed(name), outcome);
        }
        if place_of(&self.files, name).is_none() {
            return Err(Failed);
        }
        match self.remove_file(name, outcome) {
            Ok(()) => Ok(()),
            Err(_) => Err(Failed),
        }
    }

    /// Makes a file stable. It is done exactly where this answers Ok and the outcome is whole.
    pub fn sync(&mut self, name: FileName, outcome: Outcome) -> Result<(), Failed>
        ensures done { OnOk result (replayed self.new ≡ step_by outcome (On name Sync)
            (replayed self.old)) }
        ensures same { OnErr result (replayed self.new ≡ replayed self.old) }
    {
        if place_of(&self.files, name).is_none() {
            return Err(Failed);
        }
        self.note(Recorded::Synced(name), outcome)
    }

    /// Makes all stable. It is done exactly where this answers Ok and the outcome is whole.
    pub fn settle(&mut self, outcome: Outcome) -> Result<(), Failed>
        ensures done { OnOk result (replayed self.new ≡ step_by outcome Settle
            (replayed self.old)) }
        ensures same { OnErr result (replayed self.new ≡ replayed self.old) }
    {
        self.note(Recorded::Settled, outcome)
    }
}

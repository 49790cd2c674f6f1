// A folder of rolled files in memory.
ghost use Rattle.std.specs.Prelude.{◌≡◌, ◌++◌, ◌∷◌, [], Some, OnOk, OnErr, MatchResult, IsTrue, ◌↔◌};
ghost use Rattle.flume_host.specs.Rolled.{IsNewName, GrewBy};
ghost use Rattle.host_memory.specs.Rolls.{files_by, rolled_by};

use crate::Flag;
use crate::script::{Script, counted, piece_at};
use flume_host::{Failed, RollDir};
use std::alloc::{AllocError, Global};

/// A file of a folder of rolled files.
#[derive(Drop)]
pub struct RolledFile {
    /// Its name.
    pub name: String,
    /// What it took.
    pub bytes: Vec<u8>,
}

/// A folder of rolled files in memory. A call that needs memory and has none fails too.
#[derive(Drop)]
pub struct MemRoll {
    alloc: Global,
    files: Vec<RolledFile>,
    // the last file gets what is written
    pub(crate) begun: bool,
    // all that was taken was handed on
    flushed: bool,
    // the last call failed
    pub(crate) failed: bool,
    pieces: Vec<usize>,
    script: Script,
    // is set at the first flush that went well
    flag: Option<Flag>,
    tells: bool,
    pub(crate) faults: u64,
}

impl MemRoll {
    ghost use Rattle.std.specs.Prelude.{None};
    ghost use Rattle.host_memory.specs.Words.{rolled_in, no_files, roll_calls, roll_fails, roll_faults, roll_pieces};

    /// An empty folder that shows its contents, takes all that it is given, and fails only when out of memory and at a name that is
    /// there already.
    pub fn new(alloc: Global) -> Self
        ensures rolled { rolled_in result ≡ Some no_files }
        ensures script { (roll_fails result ≡ []) × (roll_calls result ≡ 0) ×
            (roll_pieces result ≡ []) }
        ensures count { roll_faults result ≡ 0 }
    {
        MemRoll {
            alloc,
            files: Vec::new(alloc),
            begun: false,
            flushed: true,
            failed: false,
            pieces: Vec::new(alloc),
            script: Script::new(alloc),
            flag: None,
            tells: true,
            faults: 0,
        }
    }

    /// Sets this flag at its first flush that goes well.
    pub fn setting(mut self, flag: Flag) -> Self
        ensures rolled { rolled_in result ≡ rolled_in self }
        ensures script { (roll_fails result ≡ roll_fails self) ×
            (roll_calls result ≡ roll_calls self) × (roll_pieces result ≡ roll_pieces self) }
        ensures count { roll_faults result ≡ roll_faults self }
    {
        self.flag = Some(flag);
        self
    }

    /// A write that is call number n takes at most the n-th of these numbers. They go round, and a 0 counts as 1.
    pub fn in_pieces(mut self, pieces: Vec<usize>) -> Self
        ensures rolled { rolled_in result ≡ rolled_in self }
        ensures pieces { roll_pieces result ≡ pieces.items }
        ensures script { (roll_fails result ≡ roll_fails self) ×
            (roll_calls result ≡ roll_calls self) }
        ensures count { roll_faults result ≡ roll_faults self }
    {
        self.pieces = pieces;
        self
    }

    /// The calls of these numbers fail, begins, writes and flushes counted together. The first has the number 0.
    pub fn failing_at(mut self, calls: Vec<u64>) -> Self
        ensures rolled { rolled_in result ≡ rolled_in self }
        ensures pieces { roll_pieces result ≡ roll_pieces self }
        ensures script { (roll_fails result ≡ calls.items) × (roll_calls result ≡ roll_calls self) }
        ensures count { roll_faults result ≡ roll_faults self }
    {
        self.script.fails = calls;
        self
    }

    /// A folder that shows nothing.
    pub fn silent(mut self) -> Self
        ensures rolled { rolled_in result ≡ None }
        ensures script { (roll_fails result ≡ roll_fails self) ×
            (roll_calls result ≡ roll_calls self) × (roll_pieces result ≡ roll_pieces self) }
        ensures count { roll_faults result ≡ roll_faults self }
    {
        self.tells = false;
        self
    }

    /// The files that were begun, in that order, also where the folder shows nothing.
    pub fn files(&self) -> &[RolledFile]
        ensures { files_by result.now ≡ files_by self.now.files.items }
    {
        &self.files
    }

    /// How many begins, writes and flushes there were.
    pub fn calls(&self) -> u64
        ensures { result ≡ roll_calls self.now }
    {
        self.script.calls
    }
}

// None of the files has this name.
fn is_new_name(files: &[RolledFile], name: &str) -> bool
    ensures { IsTrue result ↔ IsNewName (files_by files.now) name.now }
{
    for file in files {
        if file.name.as_str() == name {
            return false;
        }
    }
    true
}

// A new file, which stands last.
fn add_file(alloc: Global, files: &mut Vec<RolledFile>, name: &str) -> Result<(), AllocError>
    ensures added { OnOk result (files_by files.new.items ≡ files_by files.old.items ++
        record { name = name.now; bytes = [] } ∷ []) }
    ensures same { OnErr result (files_by files.new.items ≡ files_by files.old.items) }
{
    let name = String::from_str(alloc, name)?;
    files.push(RolledFile {
        name,
        bytes: Vec::new(alloc),
    })?;
    Ok(())
}

// Bytes for the last file, if there is one.
fn add_bytes(files: &mut Vec<RolledFile>, bytes: &[u8]) -> Result<(), Failed>
    ensures { MatchResult result (λ _. GrewBy bytes.now (files_by files.old.items)
        (files_by files.new.items)) (λ _. files_by files.new.items ≡ files_by files.old.items) }
{
    let Some(last) = files.len().checked_sub(1) else {
        return Err(Failed);
    };
    match files[last].bytes.extend_from_slice(bytes) {
        Ok(()) => Ok(()),
        Err(_) => Err(Failed),
    }
}

impl RollDir for MemRoll {
    ghost rolled = { λ r. rolled_by r.tells (record {
      files = files_by r.files.items;
      flushed =
          r.flushed;
      begun = r.begun;
      failed = r.failed;
    }) };

    ghost faults = { λ r. r.faults };

    fn begin(&mut self, name: &str) -> Result<(), Failed> {
        self.begun = false;
        if self.script.next_fails()
            || !is_new_name(&self.files, name)
            || add_file(self.alloc, &mut self.files, name).is_err()
        {
            self.failed = true;
            return counted(&mut self.faults, Err(Failed));
        }
        self.begun = true;
        self.flushed = false;
        self.failed = false;
        Ok(())
    }

    fn write(&mut self, bytes: &[u8]) -> Result<usize, Failed> {
        let most = piece_at(&self.pieces, self.script.calls);
        let n = bytes.len().min(most);
        if self.script.next_fails()
            || !self.begun
            || add_bytes(&mut self.files, &bytes[..n]).is_err()
        {
            self.failed = true;
            return counted(&mut self.faults, Err(Failed));
        }
        self.flushed = false;
        self.failed = false;
        Ok(n)
    }

    fn flush(&mut self) -> Result<(), Failed> {
        self.failed = self.script.next_fails();
        if self.failed {
            return counted(&mut self.faults, Err(Failed));
        }
        self.flushed = true;
        if let Some(flag) = &self.flag {
            flag.set();
        }
        Ok(())
    }

    fn faults(&self) -> u64 {
        self.faults
    }
}

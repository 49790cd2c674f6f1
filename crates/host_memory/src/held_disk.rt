// A disk in memory, one call of which waits for a flag.
ghost use Rattle.std.specs.Prelude.{◌≡◌};

use crate::MemDisk;
use crate::flags::{Flag, Held};
use crate::script::counted;
use flume_host::{Disk, Failed, FileName};

/// A call of a disk.
#[derive(Clone, Copy, Debug, PartialEq, Eq)]
pub enum DiskCall {
    /// `make`
    Make,
    /// `len`
    Len,
    /// `read`
    Read,
    /// `write_at`
    WriteAt,
    /// `sync`
    Sync,
    /// `settle`
    Settle,
    /// `remove`
    Remove,
    /// `next_name`
    NextName,
}

/// A disk in memory, each call of one name of which waits for a flag where that isn't set. It looks at the flag
/// 1,000,000,000 times at most, and then fails.
#[derive(Drop)]
pub struct HeldDisk {
    disk: MemDisk,
    call: DiskCall,
    held: Held,
}

impl HeldDisk {
    ghost use Rattle.host_memory.specs.Words.{disk_faults, told_in};
    ghost use Rattle.flume_host.specs.Causes.{HasCause};

    /// The calls of this name set the flag `begun` and wait, where the flag `until` isn't set.
    pub fn new(disk: MemDisk, call: DiskCall, begun: Flag, until: Flag) -> HeldDisk
        ensures { result.disk ≡ disk }
    {
        let held = Held { begun, until };
        HeldDisk { disk, call, held }
    }

    // Waits where the call is held, and counts a fault where the flag was not set in time.
    fn pass(&mut self, call: DiskCall) -> Result<(), Failed>
        ensures told { told_in self.new.disk ≡ told_in self.old.disk }
        ensures cause { HasCause (disk_faults self.old.disk) (disk_faults self.new.disk) result }
    {
        if self.call != call || self.held.until.is_set() {
            return Ok(());
        }
        self.held.begun.set();
        if self.held.until.wait() {
            return Ok(());
        }
        counted(&mut self.disk.faults, Err(Failed))
    }
}

impl Disk for HeldDisk {
    ghost use Rattle.host_memory.specs.Laws.{sound};
    ghost use Rattle.host_memory.specs.Words.{disk_faults, told_in};

    ghost told = { λ d. told_in d.disk };

    ghost faults = { λ d. disk_faults d.disk };

    ghost reads_are_left = { λ d t is. sound d.disk.tells d.disk.store.first.items
        d.disk.store.calls.items t is };

    fn faults(&self) -> u64 {
        self.disk.faults()
    }

    fn make(&mut self, name: FileName) -> Result<(), Failed> {
        self.pass(DiskCall::Make)?;
        self.disk.make(name)
    }

    fn len(&mut self, name: FileName) -> Result<u64, Failed> {
        self.pass(DiskCall::Len)?;
        self.disk.len(name)
    }

    fn read(&mut self, name: FileName, at: u64, into: &mut [u8]) -> Result<usize, Failed> {
        self.pass(DiskCall::Read)?;
        self.disk.read(name, at, into)
    }

    fn write_at(&mut self, name: FileName, at: u64, bytes: &[u8]) -> Result<(), Failed> {
        self.pass(DiskCall::WriteAt)?;
        self.disk.write_at(name, at, bytes)
    }

    fn sync(&mut self, name: FileName) -> Result<(), Failed> {
        self.pass(DiskCall::Sync)?;
        self.disk.sync(name)
    }

    fn settle(&mut self) -> Result<(), Failed> {
        self.pass(DiskCall::Settle)?;
        self.disk.settle()
    }

    fn remove(&mut self, name: FileName) -> Result<(), Failed> {
        self.pass(DiskCall::Remove)?;
        self.disk.remove(name)
    }

    fn next_name(&mut self, after: Option<FileName>) -> Result<Option<FileName>, Failed> {
        self.pass(DiskCall::NextName)?;
        self.disk.next_name(after)
    }
}

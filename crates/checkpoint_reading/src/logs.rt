// The PUT that a pointer names, in the log files of a folder.
ghost use Rattle.std.specs.Prelude.{◌≡◌, ◌≤◌, ◌-◌, ◌+◌, ◌↔◌, ℕ, List, Option, length, IfErr, IfOk, IfSome, IsSome, OnOk, Some, true};
ghost use Rattle.flume_host.specs.Causes.{HasCause};
ghost use Rattle.flume_host.specs.Told.{WhereTold};
ghost use Rattle.flume_host.specs.declared.names.FileName.TheVariants.{Log};
ghost use Rattle.record_form.specs.declared.record.Pointer as pointers;
ghost use Rattle.checkpoint_reading.specs.Logs.{HasPart, IsBefore, IsBlock, IsKnown, IsPutAt, IsPutIn, IsPutRec, IsSized, part_of};
ghost use Rattle.checkpoint_reading.specs.Reader.{IsHonest, IsPlain};

use crate::refused::CheckReadRefused;
use flume_host::{Disk, Failed, FileName};
use record_form::{MAX_PUT_SIZE, Pointer, Read, Rec, read_record, rec_of};
use std::alloc::Global;

// How many bytes of a log file are read at least, so that short PUTs that follow one another take one reading.
const BLOCK: usize = 65_536;

// How many bytes of a PUT stand before its event: its kind, its transaction, and the event's length.
const PUT_FRONT: usize = 13;

// The name before that of a log file.
fn before(file: u32) -> Option<FileName>
    ensures { IsBefore result file }
{
    if file == 0 {
        None
    } else {
        Some(FileName::Log(file - 1))
    }
}

// Whether there is a log file of this number.
fn is_there<D: Disk>(disk: &mut D, file: u32) -> Result<bool, Failed>
    ensures there { IfOk result (λ there. WhereTold (D.told disk.old)
        (λ t. (there ≡ true) ↔ IsSome (t.reads (Log file)))) }
    ensures same { D.told disk.new ≡ D.told disk.old }
    ensures cause { HasCause (D.faults disk.old) (D.faults disk.new) result }
{
    match disk.next_name(before(file))? {
        Some(FileName::Log(found)) => Ok(found == file),
        Some(FileName::Check(_)) => Ok(false),
        None => Ok(false),
    }
}

/// The log file that was found last, and the block of it that was read last.
#[derive(Drop)]
pub(crate) struct Logs {
    // the last file that was found there
    pub(crate) file: Option<u32>,
    // where in it the block begins
    pub(crate) start: u64,
    // how many bytes of the block are the file's
    pub(crate) filled: usize,
    pub(crate) block: Vec<u8>,
}

impl Logs {
    ghost use Rattle.flume_host.specs.Told.{Told};
    ghost use Rattle.checkpoint_reading.specs.Logs.{IsKnown};

    /// Nothing was read yet.
    pub(crate) fn new(alloc: Global) -> Logs
        ensures { (told : Option Told) → IsKnown told result }
    {
        Logs {
            file: None,
            start: 0,
            filled: 0,
            block: Vec::new(alloc),
        }
    }

    /// Whether there is a log file of this number. The last one that was there is known.
    pub(crate) fn has<D: Disk>(&mut self, disk: &mut D, file: u32) -> Result<bool, Failed>
        requires { IsKnown (D.told disk.old) self.old }
        ensures known { IsKnown (D.told disk.new) self.new }
        ensures there { IfOk result (λ there. WhereTold (D.told disk.old)
            (λ t. (there ≡ true) ↔ IsSome (t.reads (Log file)))) }
        ensures last { IfOk result (λ there. there ≡ true → self.new.file ≡ Some file) }
        ensures same { D.told disk.new ≡ D.told disk.old }
        ensures cause { HasCause (D.faults disk.old) (D.faults disk.new) result }
    {
        if self.file == Some(file) {
            return Ok(true);
        }
        let there = is_there(disk, file)?;
        if there {
            self.file = Some(file);
            self.filled = 0;
        }
        Ok(there)
    }

    // Whether the block has so many bytes from an offset of the file on.
    fn covers(&self, at: u64, size: usize) -> bool
        ensures { result ≡ true → (self.now.start ≤ at) ×
            (at - self.now.start + size ≤ self.now.filled) }
    {
        if at < self.start {
            return false;
        }
        let behind = at - self.start;
        let filled = self.filled as u64;
        behind <= filled && size as u64 <= filled - behind
    }

    // Makes the block so long, and keeps nothing of what was read.
    fn widen(&mut self, size: usize) -> Result<(), CheckReadRefused>
        ensures long { OnOk result (length self.new.block.items ≡ size) }
        ensures known { (told : Option Told) → IsKnown told self.old → IsKnown told self.new }
        ensures file { self.new.file ≡ self.old.file }
        ensures memory { IfErr result (λ e. e ≡ CheckReadRefused.NoMemory) }
    {
        self.filled = 0;
        if self.block.resize(size, 0).is_err() {
            return Err(CheckReadRefused::NoMemory);
        }
        Ok(())
    }

    // Fills the block from an offset of the file on, or as far as that goes.
    fn read<D: Disk>(&mut self, disk: &mut D, file: u32, at: u64) -> Result<(), CheckReadRefused>
        requires known { IsKnown (D.told disk.old) self.old }
        requires last { self.old.file ≡ Some file }
        ensures known { IsKnown (D.told disk.new) self.new }
        ensures block { OnOk result (IsBlock (D.told disk.old) file at self.new) }
        ensures rest { length self.new.block.items ≡ length self.old.block.items }
        ensures plain { IfErr result IsPlain }
        ensures same { D.told disk.new ≡ D.told disk.old }
        ensures cause { IsHonest (D.faults disk.old) (D.faults disk.new) result }
    {
        self.filled = 0;
        let Ok(filled) = disk.read(FileName::Log(file), at, &mut self.block) else {
            return Err(CheckReadRefused::DiskFault);
        };
        self.start = at;
        self.filled = filled;
        Ok(())
    }

    // Makes the block have so many bytes from an offset of the file on, or as far as there are.
    fn load<D: Disk>(
        &mut self,
        disk: &mut D,
        file: u32,
        at: u64,
        size: usize,
    ) -> Result<(), CheckReadRefused>
        requires known { IsKnown (D.told disk.old) self.old }
        requires last { self.old.file ≡ Some file }
        ensures known { IsKnown (D.told disk.new) self.new }
        ensures part { OnOk result (HasPart (D.told disk.old) file at size self.new) }
        ensures plain { IfErr result IsPlain }
        ensures same { D.told disk.new ≡ D.told disk.old }
        ensures cause { IsHonest (D.faults disk.old) (D.faults disk.new) result }
    {
        if self.covers(at, size) {
            return Ok(());
        }
        self.widen(size.max(BLOCK))?;
        self.read(disk, file, at)
    }

    // What the block has from an offset of the file on, at most so many bytes.
    fn part(&self, at: u64, size: usize) -> &[u8]
        requires from { self.now.start ≤ at }
        requires to { at - self.now.start ≤ self.now.filled }
        requires filled { self.now.filled ≤ length self.now.block.items }
        ensures { result.now ≡ part_of at size self.now }
    {
        let held = &self.block[..self.filled];
        let behind = &held[(at - self.start) as usize..];
        &behind[..size.min(behind.len())]
    }
}

// The transaction of a PUT of an event of this length.
fn txn_of(rec: Rec, length: u32) -> Option<u64>
    ensures { IsPutRec rec length result }
{
    match rec {
        Rec::Put { txn, event } if event.size() == length as u64 => Some(txn),
        _ => None,
    }
}

// The transaction of the PUT that a front of the bytes spells, if its event has this length.
fn txn_in(alloc: Global, bytes: &[u8], length: u32) -> Result<Option<u64>, CheckReadRefused>
    ensures put { IfOk result (λ txn. (p : pointers.Pointer) → p.at ≡ 0 → p.length ≡ length →
        IsPutAt bytes.now p txn) }
    ensures memory { IfErr result (λ e. e ≡ CheckReadRefused.NoMemory) }
{
    let Read::Whole { .. } = read_record(bytes) else {
        return Ok(None);
    };
    match rec_of(alloc, bytes) {
        Ok(rec) => Ok(txn_of(rec, length)),
        Err(_) => Err(CheckReadRefused::NoMemory),
    }
}

/// The transaction of the PUT that a pointer names: a whole one, spelled as records are, of an event of the pointer's
/// length, in a log file that is there. None where it names none.
pub(crate) fn put_txn<D: Disk>(
    alloc: Global,
    disk: &mut D,
    known: &mut Logs,
    p: Pointer,
) -> Result<Option<u64>, CheckReadRefused>
    requires { IsKnown (D.told disk.old) known.old }
    ensures known { IsKnown (D.told disk.new) known.new }
    ensures put { IfOk result (λ txn. WhereTold (D.told disk.old) (λ t. IsPutIn t.reads p txn)) }
    ensures sized { IfOk result (λ txn. IfSome txn (λ _. IsSized p)) }
    ensures plain { IfErr result IsPlain }
    ensures same { D.told disk.new ≡ D.told disk.old }
    ensures cause { IsHonest (D.faults disk.old) (D.faults disk.new) result }
{
    if p.length > MAX_PUT_SIZE {
        return Ok(None);
    }
    let Ok(there) = known.has(disk, p.file) else {
        return Err(CheckReadRefused::DiskFault);
    };
    if !there {
        return Ok(None);
    }
    let size = p.length as usize + PUT_FRONT;
    known.load(disk, p.file, p.at, size)?;
    let txn = txn_in(alloc, known.part(p.at, size), p.length)?;
    Ok(txn)
}

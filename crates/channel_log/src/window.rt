// A block of a log file that is kept between readings, so that taking is not one reading of the disk an event.
ghost use Rattle.std.specs.Prelude.{◌≡◌, ◌↔◌, ◌<◌, ◌≤◌, ◌+◌, ◌-◌, ◌^◌, ◌++◌, [], ℕ, List, length, take, drop, min, IfOk, OnOk, OnErr, IsTrue, Some, IsSome};
ghost use Rattle.flume_host.specs.Causes.{HasCause};
ghost use Rattle.flume_host.specs.Told.{WhereTold};
ghost use Rattle.flume_host.specs.declared.names.FileName.TheVariants.{Log};
ghost use Rattle.channel_log.specs.Pointers.{IsSeen};
ghost use Rattle.channel_log.specs.Window.{Covers, HasThere, IsBelow, IsPieceOf, most, nothing_kept};

use crate::pointers::{GREATEST_PUT, is_cut, put_length};
use event_core::NoMemory;
use flume_host::{Disk, Failed, FileName};
use record_form::Pointer;
use std::alloc::Global;
use std::marker::Model;

/// How many bytes are read at least.
pub(crate) const BLOCK: usize = 65_536;

// How many of so many bytes from an offset on stand below an end.
fn below(n: usize, at: u64, end: u64) -> usize
    ensures { result ≡ min n (end - at) }
{
    let rest = end.saturating_sub(at);
    if n as u64 <= rest { n } else { rest as usize }
}

// Reads so many bytes from an offset on, as far as there are.
fn read_front<D: Disk>(
    disk: &mut D,
    file: u32,
    at: u64,
    size: usize,
    block: &mut [u8],
) -> Result<usize, Failed>
    requires there { WhereTold (D.told disk.old) (λ t. IsSome (t.reads (Log file))) }
    requires room { size ≤ length block.old }
    ensures bytes { IfOk result (λ n. WhereTold (D.told disk.old)
        (λ t. (bytes : List ℕ) × (t.reads (Log file) ≡ Some bytes)
        × (n ≡ min size (length bytes - at)) × (block.new
        ≡ take n (drop at bytes) ++ drop n block.old))) }
    ensures filled { IfOk result (λ n. n ≤ size) }
    ensures same { D.told disk.new ≡ D.told disk.old }
    ensures cause { HasCause (D.faults disk.old) (D.faults disk.new) result }
{
    let n = disk.read(FileName::Log(file), at, &mut block[..size])?;
    Ok(n)
}

/// A block of a log file. Its room is taken when it is made.
#[derive(Drop)]
pub(crate) struct Window {
    file: u32,
    from: u64,
    filled: usize,
    block: Vec<u8>,
}

impl Model for Window {
    ghost use Rattle.channel_log.specs.Window.{Kept, IsWindow, kept_of};

    ghost Value = { Kept };

    ghost view = { λ w. kept_of w.file w.from w.filled w.block.items };

    ghost invariant = { λ w. IsWindow w.filled w.block.items };
}

impl Window {
    /// A window that keeps nothing.
    pub(crate) fn make(alloc: Global) -> Result<Window, NoMemory>
        ensures { IfOk result (λ w. w ≡ nothing_kept) }
    {
        let mut block = Vec::new(alloc);
        if block.resize(GREATEST_PUT, 0).is_err() {
            return Err(NoMemory);
        }
        Ok(Window {
            file: 0,
            from: 0,
            filled: 0,
            block,
        })
    }

    /// Keeps nothing any longer.
    pub(crate) fn forget(&mut self)
        ensures { self.new.bytes ≡ [] }
    {
        self.filled = 0;
    }

    // Whether it has all bytes of a range.
    fn has(&self, file: u32, at: u64, want: usize) -> bool
        ensures { IsTrue result ↔ Covers self.now file at want }
    {
        self.file == file
            && self.from <= at
            && want <= self.filled
            && at - self.from <= (self.filled - want) as u64
    }

    // Reads a block from an offset on. What stands at this end or after it is not kept.
    fn load<D: Disk>(
        &mut self,
        disk: &mut D,
        file: u32,
        at: u64,
        size: usize,
        end: u64,
    ) -> Result<(), Failed>
        requires there { WhereTold (D.told disk.old) (λ t. IsSome (t.reads (Log file))) }
        requires room { size ≤ most }
        ensures loaded { OnOk result (WhereTold (D.told disk.old)
            (λ t. (bytes : List ℕ) × (t.reads (Log file) ≡ Some bytes)
            × (self.new ≡ record {
              file = file;
              from = at;
              bytes = take (end - at) (take size (drop at bytes));
            }))) }
        ensures place { OnOk result ((self.new.file ≡ file) × (self.new.from ≡ at)) }
        ensures lost { OnErr result (self.new.bytes ≡ []) }
        ensures same { D.told disk.new ≡ D.told disk.old }
        ensures cause { HasCause (D.faults disk.old) (D.faults disk.new) result }
    {
        self.filled = 0;
        let n = read_front(disk, file, at, size, &mut self.block)?;
        self.file = file;
        self.from = at;
        self.filled = below(n, at, end);
        Ok(())
    }

    /// Has the bytes of a range, and tells where they are in what is kept. Only what stands below the end is kept.
    pub(crate) fn find<D: Disk>(
        &mut self,
        disk: &mut D,
        file: u32,
        at: u64,
        want: usize,
        end: u64,
    ) -> Result<usize, Failed>
        requires there { WhereTold (D.told disk.old) (λ t. IsSome (t.reads (Log file))) }
        requires room { want ≤ most }

        // What is kept is of the parts of the files that it was of, this file's up to the end.
        ensures found { IfOk result (λ place. WhereTold (D.told disk.old)
            (λ t. (part : ℕ → List ℕ) → IsPieceOf self.old part → IsBelow t file end (part file)
            → IsPieceOf self.new part × ((n : ℕ) → n ≤ want → at + n ≤ length (part file)
            → HasThere self.new place (part file) at n))) }
        ensures within { IfOk result (λ place. place ≤ length self.new.bytes) }
        ensures place { IfOk result (λ place. (self.new.file ≡ file)
            × (self.new.from + place ≡ at)) }
        ensures lost { OnErr result (self.new.bytes ≡ []) }
        ensures same { D.told disk.new ≡ D.told disk.old }
        ensures cause { HasCause (D.faults disk.old) (D.faults disk.new) result }
    {
        if self.has(file, at, want) {
            return Ok((at - self.from) as usize);
        }
        self.load(disk, file, at, want.max(BLOCK), end)?;
        Ok(0)
    }

    /// Has all of a PUT that stands at a pointer, of whichever length, and says where that is in what is kept. Only what stands
    /// below the end is kept.
    pub(crate) fn find_put<D: Disk>(
        &mut self,
        disk: &mut D,
        p: &Pointer,
        end: u64,
    ) -> Result<usize, Failed>
        requires there { WhereTold (D.told disk.old) (λ t. IsSome (t.reads (Log p.now.file))) }

        // What is kept is of the parts of the files that it was of, this file's up to the end.
        ensures found { IfOk result (λ place. WhereTold (D.told disk.old)
            (λ t. (part : ℕ → List ℕ) → IsPieceOf self.old part
            → IsBelow t p.now.file end (part p.now.file)
            → IsPieceOf self.new part × IsSeen (part p.now.file) p.now
            (drop place self.new.bytes))) }
        ensures within { IfOk result (λ place. place ≤ length self.new.bytes) }
        ensures place { IfOk result (λ place. (self.new.file ≡ p.now.file)
            × (self.new.from + place ≡ p.now.at)) }
        ensures lost { OnErr result (self.new.bytes ≡ []) }
        ensures same { D.told disk.new ≡ D.told disk.old }
        ensures cause { HasCause (D.faults disk.old) (D.faults disk.new) result }
    {
        let place = self.find(disk, p.file, p.at, put_length(p.length), end)?;
        if !is_cut(self.bytes_from(place)) {
            return Ok(place);
        }
        let whole = self.find(disk, p.file, p.at, GREATEST_PUT, end)?;
        Ok(whole)
    }

    /// What is kept, from a place on.
    pub(crate) fn bytes_from(&self, place: usize) -> &[u8]
        requires { place ≤ length self.now.bytes }
        ensures { result.now ≡ drop place self.now.bytes }
    {
        &self.block[place..self.filled]
    }
}

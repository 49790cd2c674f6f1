// Reads the file of a checkpoint in pieces.
ghost use Rattle.std.specs.Prelude.{◌≡◌, ◌≤◌, ◌<◌, ◌+◌, ◌++◌, ◌^◌, ℕ, List, length, min, drop, take, IfErr, IfOk, OnOk, IsSome, MatchOption, IfSome, IsTrue, ◌↔◌, true, false};
ghost use Rattle.flume_host.specs.Causes.{HasCause};
ghost use Rattle.flume_host.specs.Told.{WhereTold};
ghost use Rattle.flume_host.specs.declared.names.FileName.TheVariants.{Check};
ghost use Rattle.event_core.specs.Numbers.{u32_bytes, u64_bytes};
ghost use Rattle.checkpoint.specs.Text.{live_bytes, pointer_bytes};
ghost use Rattle.checkpoint_reading.specs.Fields.{FitsFields};
ghost use Rattle.checkpoint_reading.specs.Reader.{Holds, IfTrue, IsHonest, IsPlain, IsSameFile, IsShort, IsTaken, Takes, rest};

use crate::refused::CheckReadRefused;
use byteorder::{BigEndian, ByteOrder};
use flume_host::{Disk, Failed, FileName};
use record_form::Pointer;
use std::alloc::Global;
use std::marker::Model;

// How many bytes are read at a time.
const PIECE: usize = 65_536;

/// Reads the fields of a checkpoint's file, in pieces of 65,536 bytes. It takes no memory after it is made.
#[derive(Drop)]
pub struct CheckReader {
    number: u32,
    size: u64,
    // the offset of the next field
    at: u64,
    // what was read last, how much of it the file had, and where the next field is in it
    piece: Vec<u8>,
    filled: usize,
    place: usize,
}

impl Model for CheckReader {
    ghost use Rattle.std.specs.Prelude.{◌-◌, take, drop};
    ghost use Rattle.checkpoint_reading.specs.Reader.{Reader, IsReader};

    ghost Value = { Reader };

    ghost view = { λ r. record {
      number = r.number;
      size = r.size;
      at = r.at;
      held = take
          (r.filled - r.place) (drop r.place r.piece.items);
    } };

    ghost invariant = { λ r. IsReader r.size r.at r.place r.filled r.piece.items };
}

// So many, or all that there may be.
fn bounded(n: usize, most: u64) -> usize
    ensures { result ≡ min n most }
{
    if n as u64 <= most { n } else { most as usize }
}

// The number in front of bytes.
fn u32_in(bytes: &[u8]) -> u32
    requires { 4 ≤ length bytes.now }
    ensures { bytes.now ≡ u32_bytes result ++ drop 4 bytes.now }
{
    BigEndian::read_u32(bytes)
}

fn u64_in(bytes: &[u8]) -> u64
    requires { 8 ≤ length bytes.now }
    ensures { bytes.now ≡ u64_bytes result ++ drop 8 bytes.now }
{
    BigEndian::read_u64(bytes)
}

// Whether the text is in front of bytes.
fn begins(bytes: &[u8], text: &[u8; 8]) -> bool
    requires { 8 ≤ length bytes.now }
    ensures { IsTrue result ↔ (take 8 bytes.now ≡ text.now) }
{
    bytes[..8] == text[..]
}

impl CheckReader {
    /// Reads the file of this number, from after its commit byte.
    pub(crate) fn begin<D: Disk>(
        alloc: Global,
        disk: &mut D,
        number: u32,
    ) -> Result<CheckReader, CheckReadRefused>
        requires { WhereTold (D.told disk.old) (λ t. IsSome (t.reads (Check number))) }
        ensures held { IfOk result (λ r. Holds (D.told disk.new) r) }
        ensures number { IfOk result (λ r. r.number ≡ number) }
        ensures place { IfOk result (λ r. r.at ≡ min r.size 1) }
        ensures same { D.told disk.new ≡ D.told disk.old }
        ensures plain { IfErr result IsPlain }
        ensures cause { IsHonest (D.faults disk.old) (D.faults disk.new) result }
    {
        let mut piece = Vec::new(alloc);
        if piece.resize(PIECE, 0).is_err() {
            return Err(CheckReadRefused::NoMemory);
        }
        let Ok(size) = disk.len(FileName::Check(number)) else {
            return Err(CheckReadRefused::DiskFault);
        };
        Ok(CheckReader {
            number,
            size,
            at: size.min(1),
            piece,
            filled: 0,
            place: 0,
        })
    }

    /// Whether no field is left.
    pub(crate) fn is_at_end(&self) -> bool
        ensures { IsTrue result ↔ (self.now.at ≡ self.now.size) }
    {
        self.at == self.size
    }

    /// The number of the file.
    pub fn number(&self) -> u32
        ensures { result ≡ self.now.number }
    {
        self.number
    }

    /// The offset of the next field.
    pub fn at(&self) -> u64
        ensures at { result ≡ self.now.at }
        ensures within { result ≤ self.now.size }
    {
        self.at
    }

    // Reads on from the next field.
    fn fill<D: Disk>(&mut self, disk: &mut D) -> Result<(), Failed>
        requires { Holds (D.told disk.old) self.old }
        ensures held { OnOk result (Holds (D.told disk.new) self.new) }
        ensures place { self.new.at ≡ self.old.at }
        ensures file { IsSameFile self.old self.new }
        ensures much { OnOk result (WhereTold (D.told disk.old)
            (λ t. min 65_536 (length (rest t self.old)) ≤ length self.new.held)) }
        ensures same { D.told disk.new ≡ D.told disk.old }
        ensures cause { HasCause (D.faults disk.old) (D.faults disk.new) result }
    {
        let name = FileName::Check(self.number);
        let n = disk.read(name, self.at, &mut self.piece)?;
        self.filled = bounded(n, self.size - self.at);
        self.place = 0;
        Ok(())
    }

    // Has so many bytes of the file, unless it ends before.
    fn has<D: Disk>(&mut self, disk: &mut D, want: usize) -> Result<bool, CheckReadRefused>
        requires { Holds (D.told disk.old) self.old }
        ensures held { OnOk result (Holds (D.told disk.new) self.new) }
        ensures place { self.new.at ≡ self.old.at }
        ensures file { IsSameFile self.old self.new }
        ensures enough { IfOk result (λ has. has ≡ true → want ≤ length self.new.held) }
        ensures short { IfOk result (λ has. has ≡ false → want ≤ 65_536 → IsShort (D.told disk.old)
            self.old want) }
        ensures same { D.told disk.new ≡ D.told disk.old }
        ensures plain { IfErr result IsPlain }
        ensures cause { IsHonest (D.faults disk.old) (D.faults disk.new) result }
    {
        if want <= self.filled - self.place {
            return Ok(true);
        }
        let Ok(()) = self.fill(disk) else {
            return Err(CheckReadRefused::DiskFault);
        };
        Ok(want <= self.filled - self.place)
    }

    // The number of the next four bytes.
    fn take_u32(&mut self) -> u32
        requires { 4 ≤ length self.old.held }
        ensures taken { IsTaken self.old self.new (u32_bytes result) }
        ensures len { length self.old.held ≡ 4 + length self.new.held }
    {
        let number = u32_in(&self.piece[self.place..self.filled]);
        self.place += 4;
        self.at += 4;
        number
    }

    // The number of the next eight bytes.
    fn take_u64(&mut self) -> u64
        requires { 8 ≤ length self.old.held }
        ensures taken { IsTaken self.old self.new (u64_bytes result) }
        ensures len { length self.old.held ≡ 8 + length self.new.held }
    {
        let number = u64_in(&self.piece[self.place..self.filled]);
        self.place += 8;
        self.at += 8;
        number
    }

    // The pointer of the next sixteen bytes.
    fn take_pointer(&mut self) -> Pointer
        requires { 16 ≤ length self.old.held }
        ensures taken { IsTaken self.old self.new (pointer_bytes result) }
        ensures fits { FitsFields result }
    {
        let file = self.take_u32();
        let at = self.take_u64();
        let length = self.take_u32();
        Pointer { file, at, length }
    }

    // Passes over this text, if it comes next.
    fn take_text(&mut self, text: &[u8; 8]) -> bool
        requires { 8 ≤ length self.old.held }
        ensures taken { IfTrue result (IsTaken self.old self.new text.now) }
        ensures other { result ≡ false → (take 8 self.old.held ≡ text.now → ⊥) ×
            (self.new ≡ self.old) }
    {
        if !begins(&self.piece[self.place..self.filled], text) {
            return false;
        }
        self.place += 8;
        self.at += 8;
        true
    }

    /// The number of the next four bytes, unless the file ends before.
    pub(crate) fn next_u32<D: Disk>(
        &mut self,
        disk: &mut D,
    ) -> Result<Option<u32>, CheckReadRefused>
        requires { Holds (D.told disk.old) self.old }
        ensures held { OnOk result (Holds (D.told disk.new) self.new) }
        ensures taken { IfOk result (λ next. MatchOption next (IsShort (D.told disk.old) self.old 4)
            (λ n. Takes (D.told disk.old) self.old self.new (u32_bytes n))) }
        ensures file { IsSameFile self.old self.new }
        ensures same { D.told disk.new ≡ D.told disk.old }
        ensures plain { IfErr result IsPlain }
        ensures cause { IsHonest (D.faults disk.old) (D.faults disk.new) result }
    {
        if !self.has(disk, 4)? {
            return Ok(None);
        }
        let number = self.take_u32();
        Ok(Some(number))
    }

    /// The number of the next eight bytes, unless the file ends before.
    pub(crate) fn next_u64<D: Disk>(
        &mut self,
        disk: &mut D,
    ) -> Result<Option<u64>, CheckReadRefused>
        requires { Holds (D.told disk.old) self.old }
        ensures held { OnOk result (Holds (D.told disk.new) self.new) }
        ensures taken { IfOk result (λ next. MatchOption next (IsShort (D.told disk.old) self.old 8)
            (λ n. Takes (D.told disk.old) self.old self.new (u64_bytes n))) }
        ensures file { IsSameFile self.old self.new }
        ensures same { D.told disk.new ≡ D.told disk.old }
        ensures plain { IfErr result IsPlain }
        ensures cause { IsHonest (D.faults disk.old) (D.faults disk.new) result }
    {
        if !self.has(disk, 8)? {
            return Ok(None);
        }
        let number = self.take_u64();
        Ok(Some(number))
    }

    /// The pointer of the next sixteen bytes, unless the file ends before.
    pub(crate) fn next_pointer<D: Disk>(
        &mut self,
        disk: &mut D,
    ) -> Result<Option<Pointer>, CheckReadRefused>
        requires { Holds (D.told disk.old) self.old }
        ensures held { OnOk result (Holds (D.told disk.new) self.new) }
        ensures taken { IfOk result (λ next. MatchOption next
            (IsShort (D.told disk.old) self.old 16) (λ p. Takes (D.told disk.old) self.old self.new
            (pointer_bytes p))) }
        ensures fits { IfOk result (λ next. IfSome next FitsFields) }
        ensures file { IsSameFile self.old self.new }
        ensures same { D.told disk.new ≡ D.told disk.old }
        ensures plain { IfErr result IsPlain }
        ensures cause { IsHonest (D.faults disk.old) (D.faults disk.new) result }
    {
        if !self.has(disk, 16)? {
            return Ok(None);
        }
        let pointer = self.take_pointer();
        Ok(Some(pointer))
    }

    /// The number and the pointer of the next 24 bytes, unless the file ends before.
    pub(crate) fn next_live<D: Disk>(
        &mut self,
        disk: &mut D,
    ) -> Result<Option<(u64, Pointer)>, CheckReadRefused>
        requires { Holds (D.told disk.old) self.old }
        ensures held { OnOk result (Holds (D.told disk.new) self.new) }
        ensures taken { IfOk result (λ next. MatchOption next
            (IsShort (D.told disk.old) self.old 24) (λ l. Takes (D.told disk.old) self.old self.new
            (live_bytes l))) }
        ensures fits { IfOk result (λ next. IfSome next (λ l. (l.0 < 2 ^ 64) × FitsFields l.1)) }
        ensures file { IsSameFile self.old self.new }
        ensures same { D.told disk.new ≡ D.told disk.old }
        ensures plain { IfErr result IsPlain }
        ensures cause { IsHonest (D.faults disk.old) (D.faults disk.new) result }
    {
        if !self.has(disk, 24)? {
            return Ok(None);
        }
        let number = self.take_u64();
        let pointer = self.take_pointer();
        Ok(Some((number, pointer)))
    }

    /// The number and the count with which an open transaction begins, unless the file ends before.
    pub(crate) fn next_entry<D: Disk>(
        &mut self,
        disk: &mut D,
    ) -> Result<Option<(u64, u32)>, CheckReadRefused>
        requires { Holds (D.told disk.old) self.old }
        ensures held { OnOk result (Holds (D.told disk.new) self.new) }
        ensures taken { IfOk result (λ next. MatchOption next
            (IsShort (D.told disk.old) self.old 12) (λ e. Takes (D.told disk.old) self.old self.new
            (u64_bytes e.0 ++ u32_bytes e.1))) }
        ensures fits { IfOk result (λ next. IfSome next (λ e. (e.0 < 2 ^ 64) × (e.1 < 2 ^ 32))) }
        ensures file { IsSameFile self.old self.new }
        ensures same { D.told disk.new ≡ D.told disk.old }
        ensures plain { IfErr result IsPlain }
        ensures cause { IsHonest (D.faults disk.old) (D.faults disk.new) result }
    {
        if !self.has(disk, 12)? {
            return Ok(None);
        }
        let txn = self.take_u64();
        let count = self.take_u32();
        Ok(Some((txn, count)))
    }

    /// Passes over this text. Whether it came next.
    pub(crate) fn next_text<D: Disk>(
        &mut self,
        disk: &mut D,
        text: &[u8; 8],
    ) -> Result<bool, CheckReadRefused>
        requires { Holds (D.told disk.old) self.old }
        ensures held { OnOk result (Holds (D.told disk.new) self.new) }
        ensures taken { IfOk result (λ is. is ≡ true → Takes (D.told disk.old) self.old self.new
            text.now) }
        ensures other { IfOk result (λ is. is ≡ false → WhereTold (D.told disk.old)
            (λ t. (more : List ℕ) → rest t self.old ≡ text.now ++ more → ⊥)) }
        ensures file { IsSameFile self.old self.new }
        ensures same { D.told disk.new ≡ D.told disk.old }
        ensures plain { IfErr result IsPlain }
        ensures cause { IsHonest (D.faults disk.old) (D.faults disk.new) result }
    {
        if !self.has(disk, 8)? {
            return Ok(false);
        }
        Ok(self.take_text(text))
    }
}

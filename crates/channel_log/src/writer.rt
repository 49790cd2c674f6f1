// Writes the frames of a log file, and reads at pointers.
ghost use Rattle.std.specs.Prelude.{◌≡◌, ◌<◌, ◌≤◌, ◌+◌, ◌^◌, ◌++◌, [], ◌∷◌, ◌↔◌, ℕ, List, length, false, true, OnOk, OnErr, IfOk, IsErrOf, IsOk, IsTrue, IsSome, vec_len, vec_capacity};
ghost use Rattle.flume_host.specs.Causes.{HasCause, Rose};
ghost use Rattle.flume_host.specs.Told.{WhereTold, Tells, Changes};
ghost use Rattle.flume_host.specs.declared.names.FileName.TheVariants.{Log};
ghost use Rattle.event_core.specs.Content.{size};
ghost use Rattle.record_form.specs.Record.{IsWithinLimits, record_length, spelling};
ghost use Rattle.record_form.specs.declared.record.Rec.{Rec};
ghost use Rattle.record_form.specs.declared.record.Rec.TheVariants.{End, Put};
ghost use Rattle.channel_log.specs.Frames.{IsBirth, IsFrame, IsNoEnd, frame_bytes, header};
ghost use Rattle.channel_log.specs.Pointers.{FoundAt, IsOfLength, IsWaiting, end_of, in_frame};
ghost use Rattle.channel_log.specs.Window.{IsBelow, IsPieceOf, nothing_kept};
ghost use Rattle.channel_log.specs.Writer.{Appends, HasRoom, IsBlank, IsPending, IsReady, IsUnused, LacksOrHas, MustRoll};

use crate::pointers::{ReadRefused, event_in};
use crate::window::Window;
use event_core::{Event, NoMemory};
use flume_host::{Disk, Failed, FileName};
use record_form::{MAX_PUT_SIZE, Pointer, Rec, write_put, write_record};
use std::alloc::Global;
use std::marker::Model;

/// Why a log file could not be begun.
#[derive(Clone, Copy, Debug, PartialEq, Eq)]
pub enum LogBeginRefused {
    /// A fault of the disk.
    DiskFault,
    /// Out of memory.
    NoMemory,
}

/// Why the next file could not be begun.
#[derive(Clone, Copy, Debug, PartialEq, Eq)]
pub enum LogRollRefused {
    /// A fault of the disk.
    DiskFault,
    /// The file has the last number that there is.
    Spent,
}

/// Why a frame could not be flushed.
#[derive(Clone, Copy, Debug, PartialEq, Eq)]
pub enum LogFlushRefused {
    /// A fault of the disk.
    DiskFault,
}

// The header of a log file, and a closed commit byte.
pub(crate) fn header_of(birth: u16, number: u32) -> [u8; 17]
    ensures { result ≡ header birth number ++ 0 ∷ [] }
{
    let b = birth.to_be_bytes();
    let n = number.to_be_bytes();
    [
        b'F', b'L', b'U', b'M', b'E', b'L', b'O', b'G', 0, 1, b[0], b[1], n[0], n[1], n[2], n[3], 0,
    ]
}

// Makes a log file of its header and a closed commit byte.
fn make_file<D: Disk>(disk: &mut D, number: u32, text: &[u8]) -> Result<(), Failed>
    requires { IsUnused (D.told disk.old) number }

    // A crash at any moment of the call leaves no file, or one that counts as empty.
    ensures any_moment { (birth : ℕ) → text.now ≡ header birth number ++ 0 ∷ []
        → Tells (D.told disk.old) (D.told disk.new) (Changes (Log number) IsBlank 1) }

    // After Ok a crash leaves the header and no frame.
    ensures begun { OnOk result ((birth : ℕ) → text.now ≡ header birth number ++ 0 ∷ []
        → IsReady (D.told disk.new) birth number 16 []) }
    ensures cause { HasCause (D.faults disk.old) (D.faults disk.new) result }
{
    let name = FileName::Log(number);
    disk.make(name)?;
    disk.write_at(name, 0, text)?;
    disk.sync(name)?;
    Ok(())
}

// Writes a frame and a closed commit byte after the file's closed commit byte, and opens that one. Each step is made
// stable before the next.
fn write_frame<D: Disk>(disk: &mut D, number: u32, gate: u64, piece: &[u8]) -> Result<(), Failed>
    requires ready { (birth : ℕ) × (frames : List (List Rec)) × (frame : List Rec)
        × IsReady (D.told disk.old) birth number gate frames × IsFrame frame
        × (piece.now ≡ frame_bytes frame ++ 0 ∷ []) }
    requires room { gate < 2 ^ 63 }

    // A crash at any moment of the call leaves the frames from before it, or these and the new one.
    ensures any_moment { (birth : ℕ) (frames : List (List Rec)) (frame : List Rec)
        → IsReady (D.told disk.old) birth number gate frames → IsFrame frame
        → piece.now ≡ frame_bytes frame ++ 0 ∷ []
        → Tells (D.told disk.old) (D.told disk.new)
        (Changes (Log number) (LacksOrHas birth number frames frame) 2) }

    // After Ok a crash leaves them all.
    ensures flushed { OnOk result ((birth : ℕ) (frames : List (List Rec)) (frame : List Rec)
        → IsReady (D.told disk.old) birth number gate frames → IsFrame frame
        → piece.now ≡ frame_bytes frame ++ 0 ∷ []
        → IsReady (D.told disk.new) birth number (gate + length piece.now) (frames ++ frame ∷ [])) }
    ensures bounded { OnOk result (gate + length piece.now < 2 ^ 63) }
    ensures cause { HasCause (D.faults disk.old) (D.faults disk.new) result }
{
    let name = FileName::Log(number);
    disk.write_at(name, gate + 1, piece)?;
    disk.sync(name)?;
    disk.write_at(name, gate, &[1])?;
    disk.sync(name)?;
    Ok(())
}

/// The last number of a log file.
pub const LAST_FILE: u32 = u32::MAX;

// The birth of a file that follows a full one.
const ROLLED: u16 = 2;

// The offset of a file's first commit byte.
const FIRST_GATE: u64 = 16;

// The room of a frame: its records, END and a commit byte.
const FRAME_ROOM: usize = 2_097_152;

/// Writes the frames of one log file, and reads events at pointers. Records wait in a buffer until a flush.
#[derive(Drop)]
pub struct LogWriter {
    number: u32,
    // the offset of the closed commit byte
    gate: u64,
    max_file: u64,
    started: bool,
    frame: Vec<u8>,
    count: u32,
    window: Window,
}

impl Model for LogWriter {
    ghost use Rattle.channel_log.specs.Writer.{Writer, IsWithin};
    ghost use Rattle.std.specs.Prelude.{vec_capacity};

    ghost Value = { Writer };

    ghost view = { λ w. record {
      file = w.number;
      gate = w.gate;
      max_file = w.max_file;
      started = w.started;
      bytes = w.frame.items;
      count = w.count;
      kept = w.window;
    } };

    ghost invariant = { λ w. IsWithin w.gate w.count w.started w.frame.items
        (vec_capacity w.frame) };
}

// Adds END and a closed commit byte.
fn seal(frame: &mut Vec<u8>, count: u32)
    requires some { 1 ≤ count }
    requires room { vec_len frame.old + 6 ≤ vec_capacity frame.old }
    ensures items { frame.new.items ≡ (frame.old.items ++ spelling (End count)) ++ 0 ∷ [] }
    ensures room { vec_capacity frame.old ≤ vec_capacity frame.new }
{
    write_record(&Rec::End { count }, frame);
    if frame.push(0).is_err() {
        unreachable!();
    }
}

// The room of a frame, and that of a window.
fn buffers(alloc: Global) -> Result<(Vec<u8>, Window), NoMemory>
    ensures { IfOk result (λ pair. (pair.0.items ≡ []) × (2_097_152 ≤ vec_capacity pair.0)
        × (pair.1 ≡ nothing_kept)) }
{
    let frame = Vec::with_capacity(alloc, FRAME_ROOM)?;
    let window = Window::make(alloc)?;
    Ok((frame, window))
}

impl LogWriter {
    /// Makes a log file of this number and birth, and its writer. The birth must be 1 or 2, and the disk must have no log file
    /// of this number.
    pub fn begin<D: Disk>(
        alloc: Global,
        disk: &mut D,
        number: u32,
        birth: u16,
        max_file: u64,
    ) -> Result<LogWriter, LogBeginRefused>
        requires birth { IsBirth birth }
        requires unused { IsUnused (D.told disk.old) number }
        ensures writer { IfOk result (λ w. w ≡ record {
          file = number;
          gate = 16;
          max_file = max_file;
          started = false;
          bytes = [];
          count = 0;
          kept = nothing_kept;
        }) }
        ensures any_moment { Tells (D.told disk.old) (D.told disk.new)
            (Changes (Log number) IsBlank 1) }
        ensures begun { OnOk result (IsReady (D.told disk.new) birth number 16 []) }
        ensures no_memory { IsErrOf result LogBeginRefused.NoMemory
            → D.told disk.new ≡ D.told disk.old }
        ensures fault { IsErrOf result LogBeginRefused.DiskFault
            → Rose (D.faults disk.old) (D.faults disk.new) }
        ensures later { D.faults disk.old ≤ D.faults disk.new }
        ensures well { (IsErrOf result LogBeginRefused.DiskFault → ⊥)
            → D.faults disk.new ≡ D.faults disk.old }
    {
        let Ok((frame, window)) = buffers(alloc) else {
            return Err(LogBeginRefused::NoMemory);
        };
        match make_file(disk, number, &header_of(birth, number)) {
            Ok(()) => Ok(LogWriter {
                number,
                gate: 16,
                max_file,
                started: false,
                frame,
                count: 0,
                window,
            }),
            Err(_) => Err(LogBeginRefused::DiskFault),
        }
    }

    /// Adds a record to the frame that waits for a flush.
    pub fn append(&mut self, rec: &Rec)
        requires limits { IsWithinLimits rec.now }
        requires no_end { IsNoEnd rec.now }
        requires room { HasRoom self.old (record_length rec.now) }
        ensures { Appends self.old self.new rec.now }
    {
        write_record(rec, &mut self.frame);
        self.count += 1;
    }

    /// Adds the PUT of an event to the frame that waits for a flush.
    pub fn append_put(&mut self, txn: u64, event: &Event)
        requires limit { size event.now ≤ MAX_PUT_SIZE }
        requires room { HasRoom self.old (size event.now + 13) }
        ensures { Appends self.old self.new (Put txn event.now) }
    {
        write_put(txn, event, &mut self.frame);
        self.count += 1;
    }

    /// Makes the waiting records one committed frame more of the file, with two syncs. Without waiting records it touches
    /// no device.
    pub fn flush<D: Disk>(&mut self, disk: &mut D) -> Result<(), LogFlushRefused>
        requires { (birth : ℕ) × (frames : List (List Rec)) × (records : List Rec)
            × IsReady (D.told disk.old) birth self.old.file self.old.gate frames
            × IsPending self.old records }

        // A crash at any moment of the call leaves the frames from before it, or these and the new one.
        ensures any_moment { (birth : ℕ) (frames : List (List Rec)) (records : List Rec)
            → IsReady (D.told disk.old) birth self.old.file self.old.gate frames
            → IsPending self.old records → 1 ≤ length records
            → Tells (D.told disk.old) (D.told disk.new)
            (Changes (Log self.old.file) (LacksOrHas birth self.old.file frames records) 2) }

        // After Ok a crash leaves them all.
        ensures flushed { OnOk result ((birth : ℕ) (frames : List (List Rec)) (records : List Rec)
            → IsReady (D.told disk.old) birth self.old.file self.old.gate frames
            → IsPending self.old records → 1 ≤ length records
            → IsReady (D.told disk.new) birth self.old.file self.new.gate
            (frames ++ records ∷ [])) }
        ensures writer { OnOk result (1 ≤ self.old.count
            → self.new ≡ record self.old {
              gate = self.old.gate + length self.old.bytes + 6;
              started = true;
              bytes = [];
              count = 0;
            }) }
        ensures refused { OnErr result (self.new ≡ self.old) }

        // Nothing waits.
        ensures empty { self.old.count ≡ 0 → IsOk result × (self.new ≡ self.old)
            × (D.told disk.new ≡ D.told disk.old) }
        ensures cause { HasCause (D.faults disk.old) (D.faults disk.new) result }
    {
        if self.count == 0 {
            return Ok(());
        }
        let before = self.frame.len();
        seal(&mut self.frame, self.count);
        match write_frame(disk, self.number, self.gate, &self.frame) {
            Ok(()) => {
                self.gate += self.frame.len() as u64;
                self.frame.clear();
                self.count = 0;
                self.started = true;
                Ok(())
            }
            Err(_) => {
                self.frame.truncate(before);
                Err(LogFlushRefused::DiskFault)
            }
        }
    }

    /// Whether a flush of the waiting records begins a file first: there are some, this file has a frame, with theirs it would
    /// pass its greatest length, and its number isn't the last.
    pub fn must_roll(&self) -> bool
        ensures must { IsTrue result ↔ MustRoll self.now }
        ensures framed { IsTrue result → 16 < self.now.gate }
        ensures started { 16 < self.now.gate → self.now.started ≡ true }
    {
        self.count > 0
            && self.started
            && self.gate + 7 + self.frame.len() as u64 > self.max_file
            && self.number < LAST_FILE
    }

    /// Begins the next file, of birth 2, in which the waiting records go on. The disk must have no log file of the next number.
    pub fn roll<D: Disk>(&mut self, disk: &mut D) -> Result<(), LogRollRefused>
        requires { self.old.file < 4_294_967_295 → IsUnused (D.told disk.old) (self.old.file + 1) }
        ensures spent { IsErrOf result LogRollRefused.Spent ↔ (self.old.file ≡ 4_294_967_295) }
        ensures quiet { IsErrOf result LogRollRefused.Spent → D.told disk.new ≡ D.told disk.old }

        // A crash at any moment of the call leaves no next file, or one that counts as empty.
        ensures any_moment { self.old.file < 4_294_967_295
            → Tells (D.told disk.old) (D.told disk.new)
            (Changes (Log (self.old.file + 1)) IsBlank 1) }
        ensures begun { OnOk result (IsReady (D.told disk.new) 2 self.new.file 16 []) }
        ensures writer { OnOk result (self.new
            ≡ record self.old { file = self.old.file + 1; gate = 16; started = false }) }
        ensures refused { OnErr result (self.new ≡ self.old) }
        ensures fault { IsErrOf result LogRollRefused.DiskFault
            → Rose (D.faults disk.old) (D.faults disk.new) }
        ensures later { D.faults disk.old ≤ D.faults disk.new }
        ensures well { (IsErrOf result LogRollRefused.DiskFault → ⊥)
            → D.faults disk.new ≡ D.faults disk.old }
    {
        if self.number == LAST_FILE {
            return Err(LogRollRefused::Spent);
        }
        let next = self.number + 1;
        match make_file(disk, next, &header_of(ROLLED, next)) {
            Ok(()) => {
                self.number = next;
                self.gate = FIRST_GATE;
                self.started = false;
                Ok(())
            }
            Err(_) => Err(LogRollRefused::DiskFault),
        }
    }

    // Whether the pointer's place is in the frame that waits.
    fn waits_at(&self, p: &Pointer) -> bool
        ensures { IsTrue result ↔ IsWaiting self.now p.now }
    {
        p.file == self.number && p.at > self.gate
    }

    // Where the part of a file ends that no later call changes.
    fn end_for(&self, file: u32) -> u64
        ensures { result ≡ end_of self.now file }
    {
        if file == self.number {
            self.gate
        } else {
            u64::MAX
        }
    }

    // The event of the record that waits at a pointer.
    fn waiting(&self, alloc: Global, p: &Pointer) -> Result<Event, ReadRefused>
        requires { IsWaiting self.now p.now }
        ensures found { FoundAt self.now.bytes (in_frame self.now p.now) result }
        ensures length { IsOfLength p.now.length result }
        ensures read { IsErrOf result ReadRefused.ReadFault → ⊥ }
    {
        let place = p.at - (self.gate + 1);
        if place > self.frame.len() as u64 {
            return Err(ReadRefused::Damaged {
                kept: p.length,
                found: None,
            });
        }
        event_in(alloc, &self.frame[place as usize..], p.length)
    }

    /// The event at a pointer, read through what is kept of the last reading. A record that still waits is read from its
    /// frame. The pointer's file must be there.
    pub fn read_at<D: Disk>(
        &mut self,
        alloc: Global,
        disk: &mut D,
        p: &Pointer,
    ) -> Result<Event, ReadRefused>
        requires there { WhereTold (D.told disk.old) (λ t. IsSome (t.reads (Log p.now.file))) }
        ensures waiting { IsWaiting self.old p.now
            → FoundAt self.old.bytes (in_frame self.old p.now) result
            × (IsErrOf result ReadRefused.ReadFault → ⊥) }

        // `part` is what each file has that no later call changes: what is kept is of that.
        ensures found { WhereTold (D.told disk.old)
            (λ t. (part : ℕ → List ℕ) → IsPieceOf self.old.kept part
            → IsBelow t p.now.file (end_of self.old p.now.file) (part p.now.file)
            → (IsWaiting self.old p.now → ⊥) → FoundAt (part p.now.file) p.now result) }
        ensures kept { WhereTold (D.told disk.old)
            (λ t. (part : ℕ → List ℕ) → IsPieceOf self.old.kept part
            → IsBelow t p.now.file (end_of self.old p.now.file) (part p.now.file)
            → IsPieceOf self.new.kept part) }
        ensures length { IsOfLength p.now.length result }
        ensures writer { self.new ≡ record self.old { kept = self.new.kept } }
        ensures same { D.told disk.new ≡ D.told disk.old }
        ensures fault { IsErrOf result ReadRefused.ReadFault
            → Rose (D.faults disk.old) (D.faults disk.new) }
        ensures later { D.faults disk.old ≤ D.faults disk.new }
        ensures well { (IsErrOf result ReadRefused.ReadFault → ⊥)
            → D.faults disk.new ≡ D.faults disk.old }
    {
        if self.waits_at(p) {
            return self.waiting(alloc, p);
        }
        let end = self.end_for(p.file);
        let Ok(place) = self.window.find_put(disk, p, end) else {
            return Err(ReadRefused::ReadFault);
        };
        event_in(alloc, self.window.bytes_from(place), p.length)
    }

    /// Keeps nothing any longer of what was read.
    pub fn forget(&mut self)
        ensures writer { self.new ≡ record self.old { kept = self.new.kept } }
        ensures nothing { self.new.kept.bytes ≡ [] }
    {
        self.window.forget();
    }

    /// The number of the file.
    pub fn file(&self) -> u32
        ensures { result ≡ self.now.file }
    {
        self.number
    }

    /// The offset of the commit byte that the next flush opens. It is 16 at least, as the header stands before it.
    pub fn gate_at(&self) -> u64
        ensures gate { result ≡ self.now.gate }
        ensures range { (16 ≤ result) × (result < 2 ^ 63) }
    {
        self.gate
    }

    /// The offset at which the next record will stand, if the flush doesn't begin a file.
    pub fn next_at(&self) -> u64
        ensures { result ≡ self.now.gate + 1 + length self.now.bytes }
    {
        self.gate + 1 + self.frame.len() as u64
    }

    /// Whether a record of this length can be appended, and so many bytes besides.
    pub fn has_room(&self, size: u64, kept: u64) -> bool
        ensures { IsTrue result ↔ HasRoom self.now (size + kept) }
    {
        let used = self.frame.len() as u64 + 6;
        used <= FRAME_ROOM as u64
            && size <= FRAME_ROOM as u64 - used
            && kept <= FRAME_ROOM as u64 - used - size
    }
}

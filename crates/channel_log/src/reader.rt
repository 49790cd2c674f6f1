// Reads the records of a log file's frames.
ghost use Rattle.std.specs.Prelude.{◌≡◌, ◌≤◌, ◌<◌, ◌+◌, ◌^◌, [], ◌∷◌, ℕ, List, ◌↔◌, length, take, drop, true, false, Option, Some, IsTrue, MatchOption, IfOk, IfErr, IfSome, OnOk, OnErr, IsErrOf, IsSome, is_some, if◌then◌else◌};
ghost use Rattle.std.specs.List.{AllByRecursion};
ghost use Rattle.flume_host.specs.Causes.{Rose};
ghost use Rattle.record_form.specs.declared.record.Rec.{Rec};
ghost use Rattle.record_form.specs.Outlines.{IsSomeOutline, outline_of};
ghost use Rattle.channel_log.specs.Frames.{BadHeader, Content, Holds, IsBirth, IsFramed, fault_of, header};
ghost use Rattle.channel_log.specs.Reader.{AfterOpen, AreRecords, Gives, GivesOutline, HasFile, IfTrue, IsCount, IsEntered, IsGiven, IsLoaded, Goes, IsAhead, IsBegun, IsBirthOf, IsSameFile, IsThere, OpensNone, Remains, Stands, WhereBad, closing, content_items, frame_items, kept, step};

use crate::loading::{FrameRefused, load_frame};
use crate::window::BLOCK;
use crate::writer::header_of;
use event_core::NoMemory;
use flume_host::{Disk, FileName, Steps};
use record_form::{Outline, Rec, read_outline, rec_of};
use std::alloc::Global;
use std::marker::Model;
use std::sync::ledger::Ledger;

// The kind byte of END, and its length.
const END: u8 = 6;

const END_LENGTH: usize = 5;

// The outline of the record at the place of a frame, and the place of the next one, which after the last one is the frame's
// end.
fn outline_at(frame: &[u8], place: usize) -> (Outline, usize)
    requires within { place ≤ length frame.now }
    requires records { AreRecords (drop place frame.now) }
    ensures given { (first : Rec) (records : List Rec) (count : ℕ) → IsFramed first
        → AllByRecursion IsFramed records → IsCount count
        → drop place frame.now ≡ closing (first ∷ records) count
        → (result.0 ≡ outline_of first) × (result.1 ≡ place + step first records)
        × (drop result.1 frame.now ≡ kept records count) }
    ensures within { result.1 ≤ length frame.now }
    ensures above { place < result.1 }
{
    let (outline, length) = read_outline(&frame[place..]);
    let next = place + length;
    if frame[next] == END {
        (outline, next + END_LENGTH)
    } else {
        (outline, next)
    }
}

/// The record at the place of a frame, and the place of the next one, which after the last one is the frame's end.
pub fn record_at(alloc: Global, frame: &[u8], place: usize) -> Result<(Rec, usize), NoMemory>
    requires within { place ≤ length frame.now }
    requires records { AreRecords (drop place frame.now) }
    ensures given { IfOk result (λ r. (first : Rec) (records : List Rec) (count : ℕ)
        → IsFramed first → AllByRecursion IsFramed records → IsCount count
        → drop place frame.now ≡ closing (first ∷ records) count
        → (r.0 ≡ first) × (r.1 ≡ place + step first records)
        × (drop r.1 frame.now ≡ kept records count)) }
    ensures within { IfOk result (λ r. r.1 ≤ length frame.now) }
    ensures above { IfOk result (λ r. place < r.1) }
{
    let rec = rec_of(alloc, &frame[place..])?;
    let (_, next) = outline_at(frame, place);
    Ok((rec, next))
}

// The births of a file.
const BEGUN: u16 = 1;

const ROLLED: u16 = 2;

// The length of a header.
const HEADER_LENGTH: u64 = 16;

// A file that is no longer counts as empty.
const BLANK_LENGTH: u64 = 17;

// Whether this is the header of this birth and number.
fn is_header(birth: u16, number: u32, head: &[u8]) -> bool
    ensures { IsTrue result ↔ (head.now ≡ header birth number) }
{
    let header = header_of(birth, number);
    head == &header[..16]
}

/// The birth that the header of a log file of this number names, if it is one.
pub fn birth_of(number: u32, head: &[u8]) -> Option<u16>
    ensures { MatchOption result ((birth : ℕ) → IsBirth birth → head.now ≡ header birth number → ⊥)
        (λ birth. IsBirth birth × (head.now ≡ header birth number)) }
{
    if is_header(BEGUN, number, head) {
        Some(BEGUN)
    } else if is_header(ROLLED, number, head) {
        Some(ROLLED)
    } else {
        None
    }
}

// Reads the header of a file of this length, and tests it. Its birth, if the file doesn't count as empty.
fn read_birth<D: Disk>(disk: &mut D, number: u32, size: u64) -> Result<Option<u16>, FrameRefused>
    requires { IsThere (D.told disk.old) number }
    ensures birth { IfOk result (λ birth. (bytes : List ℕ) → HasFile (D.told disk.old) number bytes
        → length bytes ≡ size → IsBirthOf birth number bytes) }
    ensures bad { IfErr result (λ e. WhereBad e
        (λ f at. (f ≡ number) × (at ≡ 0) × ((bytes : List ℕ)
        → HasFile (D.told disk.old) number bytes → length bytes ≡ size
        → Holds number bytes BadHeader))) }
    ensures same { D.told disk.new ≡ D.told disk.old }
    ensures fault { IsErrOf result FrameRefused.DiskFault
        → Rose (D.faults disk.old) (D.faults disk.new) }
    ensures later { D.faults disk.old ≤ D.faults disk.new }
    ensures well { (IsErrOf result FrameRefused.DiskFault → ⊥)
        → D.faults disk.new ≡ D.faults disk.old }
{
    if size <= BLANK_LENGTH {
        return Ok(None);
    }
    let mut head = [0u8; 16];
    let Ok(_) = disk.read(FileName::Log(number), 0, &mut head) else {
        return Err(FrameRefused::DiskFault);
    };
    match birth_of(number, &head) {
        Some(birth) => Ok(Some(birth)),
        None => Err(FrameRefused::BadLog {
            file: number,
            at: 0,
        }),
    }
}

/// Gives the records of one log file's committed frames, each with its offset. It reads the file in pieces of 65,536
/// bytes, of which it asks for more at a time, up to a mebibyte, only while a frame that is longer has not ended. What it
/// read after a frame it keeps for the next one, so no byte is read twice, unless a call was refused: then it lets go of
/// what it read ahead. So it holds one frame, and at most a mebibyte and a piece after that, and takes memory only for
/// what was read.
#[derive(Drop)]
pub struct LogReader {
    alloc: Global,
    file: u32,
    size: u64,
    drops: bool,
    // the file counts as empty
    blank: bool,
    // the offset of the next record, or of the next commit byte
    at: u64,
    // what was read of the file: the present frame, and what stands after it
    read: Vec<u8>,
    // where what stands at the offset is in that
    place: usize,
    // where the present frame ends in that
    stop: usize,
    piece: Vec<u8>,
}

impl Model for LogReader {
    ghost use Rattle.std.specs.Prelude.{take, drop};
    ghost use Rattle.channel_log.specs.Reader.{Reader, IsReader};

    ghost Value = { Reader };

    ghost view = { λ r. record {
      file = r.file;
      size = r.size;
      drops = r.drops;
      blank = r.blank;
      at = r.at;
      held = drop r.place (take r.stop r.read.items);
      ahead = drop r.stop r.read.items;
    } };

    ghost invariant = { λ r. IsReader r.place r.stop r.at r.size r.read.items r.piece.items };
}

impl LogReader {
    /// The reader of a log file, whose records are given from the commit byte at this offset on: 16, where the first one
    /// stands. The header is tested where the file has more than 17 bytes.
    pub fn begin<D: Disk>(
        alloc: Global,
        disk: &mut D,
        number: u32,
        at: u64,
    ) -> Result<LogReader, FrameRefused>
        requires { IsThere (D.told disk.old) number }
        ensures remains { IfOk result (λ r. (bytes : List ℕ) (content : Content)
            → HasFile (D.told disk.old) number bytes → Holds number bytes content → at ≡ 16
            → Remains r bytes (content_items content) (fault_of content)) }
        ensures drops { IfOk result (λ r. (bytes : List ℕ) (content : Content)
            → HasFile (D.told disk.old) number bytes → Holds number bytes content → IsTrue r.drops
            ↔ ((at ≡ 16) × IsBegun content)) }
        ensures place { IfOk result (λ r. (bytes : List ℕ) (frames : List (List Rec))
            (fault : Option ℕ) → HasFile (D.told disk.old) number bytes → 17 < length bytes
            → Goes (drop at bytes) at frames fault
            → Remains r bytes (frame_items at frames) fault) }
        ensures file { IfOk result (λ r. r.file ≡ number) }
        ensures tested { OnOk result ((bytes : List ℕ) → HasFile (D.told disk.old) number bytes
            → Holds number bytes BadHeader → ⊥) }
        ensures bad { IfErr result (λ e. WhereBad e
            (λ f at. (f ≡ number) × (at ≡ 0) × ((bytes : List ℕ)
            → HasFile (D.told disk.old) number bytes → Holds number bytes BadHeader))) }
        ensures same { D.told disk.new ≡ D.told disk.old }
        ensures fault { IsErrOf result FrameRefused.DiskFault
            → Rose (D.faults disk.old) (D.faults disk.new) }
        ensures later { D.faults disk.old ≤ D.faults disk.new }
        ensures well { (IsErrOf result FrameRefused.DiskFault → ⊥)
            → D.faults disk.new ≡ D.faults disk.old }
    {
        let mut piece = Vec::new(alloc);
        if piece.resize(BLOCK, 0).is_err() {
            return Err(FrameRefused::NoMemory);
        }
        let Ok(size) = disk.len(FileName::Log(number)) else {
            return Err(FrameRefused::DiskFault);
        };
        let birth = read_birth(disk, number, size)?;
        let read = Vec::new(alloc);
        match birth {
            None => Ok(LogReader {
                alloc,
                file: number,
                size,
                drops: false,
                blank: true,
                at,
                read,
                place: 0,
                stop: 0,
                piece,
            }),
            Some(birth) => Ok(LogReader {
                alloc,
                file: number,
                size,
                drops: birth == BEGUN && at == HEADER_LENGTH,
                blank: false,
                at,
                read,
                place: 0,
                stop: 0,
                piece,
            }),
        }
    }

    // Gives the outline of the record that the reader stands before.
    fn give_outline(&mut self) -> (Outline, u64)
        requires { AreRecords self.old.held }
        ensures given { (first : Rec) (records : List Rec) (count : ℕ) → IsFramed first
            → AllByRecursion IsFramed records → IsCount count
            → self.old.held ≡ closing (first ∷ records) count
            → (result.0 ≡ outline_of first) × IsGiven self.old self.new
            (first, result.1) first records count }
        ensures file { IsSameFile self.old self.new }
        ensures rises { (self.old.at < self.new.at) × (self.new.at < 2 ^ 64) }
    {
        let (outline, next) = outline_at(&self.read[..self.stop], self.place);
        let at = self.at;
        self.at += (next - self.place) as u64;
        self.place = next;
        (outline, at)
    }

    // Gives the record that the reader stands before.
    fn give(&mut self) -> Result<(Rec, u64), NoMemory>
        requires { AreRecords self.old.held }
        ensures given { IfOk result (λ given. (first : Rec) (records : List Rec) (count : ℕ)
            → IsFramed first → AllByRecursion IsFramed records → IsCount count
            → self.old.held ≡ closing (first ∷ records) count
            → IsGiven self.old self.new given first records count) }
        ensures file { IsSameFile self.old self.new }
        ensures refused { OnErr result (self.new ≡ self.old) }
        ensures rises { OnOk result ((self.old.at < self.new.at) × (self.new.at < 2 ^ 64)) }
    {
        let rec = rec_of(self.alloc, &self.read[self.place..self.stop])?;
        let (_, at) = self.give_outline();
        Ok((rec, at))
    }

    // Loads the next frame. Whether there is one.
    fn load<D: Disk>(&mut self, disk: &mut D) -> Result<bool, FrameRefused>
        requires there { IsThere (D.told disk.old) self.old.file }
        requires between { self.old.held ≡ [] }
        ensures entered { IfOk result (λ found. IfTrue found (IsEntered self.old self.new)) }
        ensures stays { IfOk result (λ found. found ≡ false
            → self.new ≡ record self.old { ahead = self.new.ahead }) }
        ensures front { OnOk result ((bytes : List ℕ)
            → HasFile (D.told disk.old) self.old.file bytes → IsAhead self.old bytes
            → IsAhead self.new bytes) }
        ensures loaded { IfOk result (λ found. self.old.blank ≡ false → self.old.at < self.old.size
            → (bytes : List ℕ) → HasFile (D.told disk.old) self.old.file bytes
            → IsAhead self.old bytes → IsLoaded found (drop self.old.at bytes) self.new.held) }
        ensures over { IfOk result (λ found. self.old.blank ≡ true → found ≡ false) }
        ensures rises { OnOk result (self.old.at ≤ self.new.at) }
        ensures bad { IfErr result (λ e. WhereBad e
            (λ f at. (f ≡ self.old.file) × (at ≡ self.old.at) × (self.old.blank ≡ false)
            × ((bytes : List ℕ) → HasFile (D.told disk.old) self.old.file bytes
            → length bytes ≡ self.old.size → IsAhead self.old bytes
            → AfterOpen (drop self.old.at bytes) OpensNone))) }
        ensures refused { OnErr result (self.new ≡ record self.old { ahead = [] }) }
        ensures same { D.told disk.new ≡ D.told disk.old }
        ensures fault { IsErrOf result FrameRefused.DiskFault
            → Rose (D.faults disk.old) (D.faults disk.new) }
        ensures later { D.faults disk.old ≤ D.faults disk.new }
        ensures well { (IsErrOf result FrameRefused.DiskFault → ⊥)
            → D.faults disk.new ≡ D.faults disk.old }
    {
        if self.blank || self.at >= self.size {
            return Ok(false);
        }
        match load_frame(
            disk,
            self.file,
            self.size,
            self.at,
            &mut self.piece,
            &mut self.place,
            &mut self.read,
        ) {
            Ok(Some(length)) => {
                self.at += 1;
                self.place += 1;
                self.stop = self.place + length;
                Ok(true)
            }
            Ok(None) => {
                self.stop = self.place;
                Ok(false)
            }
            Err(refused) => {
                self.read.clear();
                self.place = 0;
                self.stop = 0;
                Err(refused)
            }
        }
    }

    // Comes to stand before a record, or before the end of the file's frames. Whether before a record.
    fn enter<D: Disk>(&mut self, disk: &mut D) -> Result<bool, FrameRefused>
        requires { IsThere (D.told disk.old) self.old.file }
        ensures held { IfOk result (λ found. IfTrue found (AreRecords self.new.held)) }
        ensures rises { OnOk result (self.old.at ≤ self.new.at) }
        ensures stands { IfOk result (λ found. (bytes : List ℕ) (items : List (Rec × ℕ))
            (fault : Option ℕ) → HasFile (D.told disk.old) self.old.file bytes
            → Remains self.old bytes items fault → Stands found self.new bytes items fault) }
        ensures bad { IfErr result (λ e. WhereBad e
            (λ f at. (f ≡ self.old.file) × ((bytes : List ℕ) (items : List (Rec × ℕ))
            (fault : Option ℕ) → HasFile (D.told disk.old) self.old.file bytes
            → Remains self.old bytes items fault → (items ≡ []) × (fault ≡ Some at)))) }
        ensures refused { OnErr result (self.new ≡ record self.old { ahead = [] }) }
        ensures file { IsSameFile self.old self.new }
        ensures same { D.told disk.new ≡ D.told disk.old }
        ensures fault { IsErrOf result FrameRefused.DiskFault
            → Rose (D.faults disk.old) (D.faults disk.new) }
        ensures later { D.faults disk.old ≤ D.faults disk.new }
        ensures well { (IsErrOf result FrameRefused.DiskFault → ⊥)
            → D.faults disk.new ≡ D.faults disk.old }
    {
        if self.place < self.stop {
            return Ok(true);
        }
        self.load(disk)
    }

    /// Whether the file first drops all open transactions: its birth is 1, it has more than 17 bytes, and it is read from
    /// offset 16 on.
    pub fn drops(&self) -> bool
        ensures { result ≡ self.now.drops }
    {
        self.drops
    }

    /// The next record other than END of the file's committed frames, with its offset, for which one step is counted. None
    /// at the end of the frames. A frame is whole in the file, its END's count included, and has a next commit byte, before
    /// its first record is given. After a refusal the same record is still to come.
    pub fn next<D: Disk, L: Ledger>(
        &mut self,
        disk: &mut D,
        steps: &mut Steps<L>,
    ) -> Result<Option<(Rec, u64)>, FrameRefused>
        requires { IsThere (D.told disk.old) self.old.file }
        ensures given { IfOk result (λ given. (bytes : List ℕ) (items : List (Rec × ℕ))
            (fault : Option ℕ) → HasFile (D.told disk.old) self.old.file bytes
            → Remains self.old bytes items fault → Gives given self.new bytes items fault) }
        ensures bad { IfErr result (λ e. WhereBad e
            (λ f at. (f ≡ self.old.file) × ((bytes : List ℕ) (items : List (Rec × ℕ))
            (fault : Option ℕ) → HasFile (D.told disk.old) self.old.file bytes
            → Remains self.old bytes items fault → (items ≡ []) × (fault ≡ Some at)))) }
        ensures refused { OnErr result ((bytes : List ℕ) (items : List (Rec × ℕ)) (fault : Option ℕ)
            → HasFile (D.told disk.old) self.old.file bytes → Remains self.old bytes items fault
            → Remains self.new bytes items fault) }
        ensures file { IsSameFile self.old self.new }
        ensures rises { IfOk result (λ given. IsSome given → (self.old.at < self.new.at)
            × (self.new.at < 2 ^ 64)) }
        ensures ticks { IfOk result (λ given. steps.new
            ≡ steps.old + (if is_some given then 1 else 0)) }
        ensures no_ticks { OnErr result (steps.new ≡ steps.old) }
        ensures same { D.told disk.new ≡ D.told disk.old }
        ensures fault { IsErrOf result FrameRefused.DiskFault
            → Rose (D.faults disk.old) (D.faults disk.new) }
        ensures later { D.faults disk.old ≤ D.faults disk.new }
        ensures well { (IsErrOf result FrameRefused.DiskFault → ⊥)
            → D.faults disk.new ≡ D.faults disk.old }
    {
        if !self.enter(disk)? {
            return Ok(None);
        }
        match self.give() {
            Ok(given) => {
                steps.tick();
                Ok(Some(given))
            }
            Err(_) => Err(FrameRefused::NoMemory),
        }
    }

    /// As `next`, but of a record's event it gives the length alone: it copies no body, and takes memory only to read on. What
    /// it gives is always the outline of a record.
    pub fn next_outline<D: Disk, L: Ledger>(
        &mut self,
        disk: &mut D,
        steps: &mut Steps<L>,
    ) -> Result<Option<(Outline, u64)>, FrameRefused>
        requires { IsThere (D.told disk.old) self.old.file }
        ensures given { IfOk result (λ given. (bytes : List ℕ) (items : List (Rec × ℕ))
            (fault : Option ℕ) → HasFile (D.told disk.old) self.old.file bytes
            → Remains self.old bytes items fault → GivesOutline given self.new bytes items fault) }
        ensures outlined { IfOk result (λ found. IfSome found (λ given. IsSomeOutline given.0)) }
        ensures bad { IfErr result (λ e. WhereBad e
            (λ f at. (f ≡ self.old.file) × ((bytes : List ℕ) (items : List (Rec × ℕ))
            (fault : Option ℕ) → HasFile (D.told disk.old) self.old.file bytes
            → Remains self.old bytes items fault → (items ≡ []) × (fault ≡ Some at)))) }
        ensures refused { OnErr result ((bytes : List ℕ) (items : List (Rec × ℕ)) (fault : Option ℕ)
            → HasFile (D.told disk.old) self.old.file bytes → Remains self.old bytes items fault
            → Remains self.new bytes items fault) }
        ensures file { IsSameFile self.old self.new }
        ensures rises { IfOk result (λ given. IsSome given → (self.old.at < self.new.at)
            × (self.new.at < 2 ^ 64)) }
        ensures ticks { IfOk result (λ given. steps.new
            ≡ steps.old + (if is_some given then 1 else 0)) }
        ensures no_ticks { OnErr result (steps.new ≡ steps.old) }
        ensures same { D.told disk.new ≡ D.told disk.old }
        ensures fault { IsErrOf result FrameRefused.DiskFault
            → Rose (D.faults disk.old) (D.faults disk.new) }
        ensures later { D.faults disk.old ≤ D.faults disk.new }
        ensures well { (IsErrOf result FrameRefused.DiskFault → ⊥)
            → D.faults disk.new ≡ D.faults disk.old }
    {
        if !self.enter(disk)? {
            return Ok(None);
        }
        steps.tick();
        Ok(Some(self.give_outline()))
    }
}

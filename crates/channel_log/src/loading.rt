// Loads a frame of a log file.
ghost use Rattle.std.specs.Prelude.{◌≡◌, ◌<◌, ◌≤◌, ◌+◌, ◌-◌, ◌^◌, ◌++◌, [], ℕ, List, length, take, drop, slice_index, OnOk, OnErr, IfOk, IfErr, IsErrOf, vec_len};
ghost use Rattle.flume_host.specs.Causes.{Rose};
ghost use Rattle.channel_log.specs.Reader.{AfterOpen, HasFile, IsFound, IsFront, IsSought, IsThere, OpensNone, WhereBad};

use crate::scan::{Scan, scan_frame};
use crate::window::BLOCK;
use flume_host::{Disk, FileName};

/// Why a record of a log file could not be given.
#[derive(Clone, Copy, Debug, PartialEq, Eq)]
pub enum FrameRefused {
    /// A fault of the disk.
    DiskFault,
    /// The file has a fault of its form at this offset: its header, or the commit byte of a frame.
    BadLog { file: u32, at: u64 },
    /// Out of memory.
    NoMemory,
}

// The commit byte of a frame that counts.
const OPEN: u8 = 1;

// How many bytes are asked for at most before a frame is looked for again.
const GREATEST_STEP: usize = 1_048_576;

// Adds what the file has from this offset on, up to the length of the piece, which is overwritten.
fn add_piece<D: Disk>(
    disk: &mut D,
    file: u32,
    at: u64,
    piece: &mut [u8],
    into: &mut Vec<u8>,
) -> Result<usize, FrameRefused>
    requires { IsThere (D.told disk.old) file }
    ensures items { OnOk result ((bytes : List ℕ) → HasFile (D.told disk.old) file bytes
        → into.new.items ≡ into.old.items ++ take (length piece.old) (drop at bytes)) }
    ensures len { IfOk result (λ n. vec_len into.new ≡ vec_len into.old + n) }
    ensures good { IfErr result (λ e. WhereBad e (λ file at. ⊥)) }
    ensures same { D.told disk.new ≡ D.told disk.old }
    ensures fault { IsErrOf result FrameRefused.DiskFault
        → Rose (D.faults disk.old) (D.faults disk.new) }
    ensures later { D.faults disk.old ≤ D.faults disk.new }
    ensures well { (IsErrOf result FrameRefused.DiskFault → ⊥)
        → D.faults disk.new ≡ D.faults disk.old }
{
    let Ok(n) = disk.read(FileName::Log(file), at, piece) else {
        return Err(FrameRefused::DiskFault);
    };
    if into.extend_from_slice(&piece[..n]).is_err() {
        return Err(FrameRefused::NoMemory);
    }
    Ok(n)
}

// Reads on until so many bytes from this offset on are there, or the file ends.
fn fill<D: Disk>(
    disk: &mut D,
    file: u32,
    from: u64,
    target: usize,
    piece: &mut [u8],
    into: &mut Vec<u8>,
) -> Result<(), FrameRefused>
    requires there { IsThere (D.told disk.old) file }
    requires low { from + target < 2 ^ 63 }
    requires some { 1 ≤ length piece.old }
    ensures items { OnOk result ((bytes : List ℕ) → HasFile (D.told disk.old) file bytes
        → IsFront into.old.items from bytes → IsFront into.new.items from bytes) }
    ensures filled { OnOk result ((bytes : List ℕ) → HasFile (D.told disk.old) file bytes
        → from + target ≤ length bytes → target ≤ vec_len into.new) }
    ensures good { IfErr result (λ e. WhereBad e (λ file at. ⊥)) }
    ensures same { D.told disk.new ≡ D.told disk.old }
    ensures fault { IsErrOf result FrameRefused.DiskFault
        → Rose (D.faults disk.old) (D.faults disk.new) }
    ensures later { D.faults disk.old ≤ D.faults disk.new }
    ensures well { (IsErrOf result FrameRefused.DiskFault → ⊥)
        → D.faults disk.new ≡ D.faults disk.old }
{
    while into.len() < target {
        let at = from + into.len() as u64;
        let added = add_piece(disk, file, at, piece, into)?;
        if added == 0 {
            return Ok(());
        }
    }
    Ok(())
}

// What stands from a commit byte on.
pub(crate) enum Sought {
    // An open commit byte, a frame of so many bytes, and a byte after it.
    Found { length: usize },
    // A commit byte that isn't open.
    Closed,
    // An open commit byte, and no frame with a byte after it, whatever follows.
    None,
    // None of these yet, as far as the bytes go.
    Unknown,
}

// What stands in what was read, which is from a commit byte on.
fn seek(read: &[u8]) -> Sought
    ensures { IsSought result read.now }
{
    if read.is_empty() {
        return Sought::Unknown;
    }
    if read[0] != OPEN {
        return Sought::Closed;
    }
    let behind = &read[1..];
    match scan_frame(behind) {
        Scan::Frame { length, .. } => {
            if length < behind.len() {
                Sought::Found { length }
            } else {
                Sought::Unknown
            }
        }
        Scan::Part => Sought::Unknown,
        Scan::Bad => Sought::None,
    }
}

// How far to read on, of so many bytes: as much again as was read, so that looking for a frame again takes linear time,
// but a piece at least, and a mebibyte at most, so that not much more than a frame is held.
fn next_target(read: usize, rest: usize) -> usize
    ensures within { result ≤ rest }
    ensures above { result < rest → read < result }
{
    let more = read.clamp(BLOCK, GREATEST_STEP);
    if rest.saturating_sub(read) > more {
        read + more
    } else {
        rest
    }
}

// Lets go of so many bytes in front.
fn drop_front(read: &mut Vec<u8>, n: usize)
    requires { n ≤ vec_len read.old }
    ensures { read.new.items ≡ drop n read.old.items }
{
    let rest = read.len() - n;
    read.copy_within(n.., 0);
    read.truncate(rest);
}

// Reads on in a file that has so many bytes from the commit byte at this offset on, of which some were read. Where there
// are no more, the frame of the commit byte is cut short.
fn read_on<D: Disk>(
    disk: &mut D,
    file: u32,
    gate: u64,
    rest: usize,
    piece: &mut [u8],
    read: &mut Vec<u8>,
) -> Result<(), FrameRefused>
    requires there { IsThere (D.told disk.old) file }
    requires low { gate + rest < 2 ^ 63 }
    requires some { 1 ≤ length piece.old }
    ensures front { OnOk result ((bytes : List ℕ) → HasFile (D.told disk.old) file bytes
        → IsFront read.old.items gate bytes → IsFront read.new.items gate bytes) }
    ensures more { OnOk result (vec_len read.old < vec_len read.new) }
    ensures left { OnOk result (vec_len read.old < rest) }
    ensures bad { IfErr result (λ e. WhereBad e
        (λ f at. (f ≡ file) × (at ≡ gate) × ((bytes : List ℕ) → HasFile (D.told disk.old) file bytes
        → length bytes ≡ gate + rest → rest ≤ vec_len read.old))) }
    ensures same { D.told disk.new ≡ D.told disk.old }
    ensures fault { IsErrOf result FrameRefused.DiskFault
        → Rose (D.faults disk.old) (D.faults disk.new) }
    ensures later { D.faults disk.old ≤ D.faults disk.new }
    ensures well { (IsErrOf result FrameRefused.DiskFault → ⊥)
        → D.faults disk.new ≡ D.faults disk.old }
{
    let before = read.len();
    if before >= rest {
        return Err(FrameRefused::BadLog { file, at: gate });
    }
    let target = next_target(before, rest);
    fill(disk, file, gate, target, piece, read)?;
    if read.len() > before {
        Ok(())
    } else {
        Err(FrameRefused::BadLog { file, at: gate })
    }
}

// Finds the frame of the commit byte at this offset of a file of this length, of which the bytes from this place on were
// read before; the file is read on where they don't tell. How long the frame is, if the byte is open.
pub(crate) fn load_frame<D: Disk>(
    disk: &mut D,
    file: u32,
    size: u64,
    gate: u64,
    piece: &mut [u8],
    place: &mut usize,
    read: &mut Vec<u8>,
) -> Result<Option<usize>, FrameRefused>
    requires there { IsThere (D.told disk.old) file }
    requires low { size < 2 ^ 63 }
    requires within { gate < size }
    requires some { 1 ≤ length piece.old }
    requires place { place.old ≤ vec_len read.old }
    ensures place { OnOk result (place.new ≤ vec_len read.new) }
    ensures front { OnOk result ((bytes : List ℕ) → HasFile (D.told disk.old) file bytes
        → IsFront (drop place.old read.old.items) gate bytes
        → IsFront (drop place.new read.new.items) gate bytes) }
    ensures found { IfOk result (λ found. IsFound found (drop place.new read.new.items)) }
    ensures bad { IfErr result (λ e. WhereBad e
        (λ f at. (f ≡ file) × (at ≡ gate) × ((bytes : List ℕ) → HasFile (D.told disk.old) file bytes
        → length bytes ≡ size → IsFront (drop place.old read.old.items) gate bytes
        → AfterOpen (drop gate bytes) OpensNone))) }
    ensures same { D.told disk.new ≡ D.told disk.old }
    ensures fault { IsErrOf result FrameRefused.DiskFault
        → Rose (D.faults disk.old) (D.faults disk.new) }
    ensures later { D.faults disk.old ≤ D.faults disk.new }
    ensures well { (IsErrOf result FrameRefused.DiskFault → ⊥)
        → D.faults disk.new ≡ D.faults disk.old }
{
    let rest = (size - gate) as usize;
    loop {
        match seek(&read[*place..]) {
            Sought::Found { length } => return Ok(Some(length)),
            Sought::Closed => return Ok(None),
            Sought::None => return Err(FrameRefused::BadLog { file, at: gate }),
            Sought::Unknown => {
                drop_front(read, *place);
                *place = 0;
                read_on(disk, file, gate, rest, piece, read)?;
            }
        }
    }
}

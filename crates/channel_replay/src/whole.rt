// Reads what stands in a log file whose bytes are all there.
ghost use Rattle.std.specs.Prelude.{◌≡◌, ◌<◌, ◌≤◌, ◌+◌, ◌^◌, ◌++◌, ◌∷◌, [], ℕ, List, length, take, drop, OnOk, IfSome, IfNone, if◌then◌else◌, ◌==◌};
ghost use Rattle.channel_log.specs.Reader.{IsFrameBytes, OpensNone};
ghost use Rattle.channel_replay.specs.Plain.{AddsFile, AddsFrame, AddsFrames, EndsAt};

use crate::line::Line;
use channel_log::{Scan, birth_of, record_at, scan_frame};
use event_core::NoMemory;
use std::alloc::Global;
use std::collections::VecDeque;

// A file that is no longer counts as empty.
const BLANK_LENGTH: usize = 17;

// The length of a header.
const HEADER_LENGTH: usize = 16;

// The birth of a file that drops open transactions.
const BEGUN: u16 = 1;

fn add(lines: &mut VecDeque<Line>, line: Line) -> Result<(), NoMemory>
    ensures { OnOk result (lines.new.items ≡ lines.old.items ++ line ∷ []) }
{
    if lines.push_back(line).is_err() {
        return Err(NoMemory);
    }
    Ok(())
}

// The commit byte after the frame of an open commit byte, if there are both.
fn frame_end(bytes: &[u8], gate: usize) -> Option<usize>
    requires { gate < length bytes.now }
    ensures found { IfSome result (λ next. (next < length bytes.now) × EndsAt bytes.now gate next) }
    ensures none { IfNone result (OpensNone (drop (gate + 1) bytes.now)) }
{
    let rest = &bytes[gate + 1..];
    match scan_frame(rest) {
        Scan::Frame { length, .. } => {
            if length < rest.len() {
                Some(gate + 1 + length)
            } else {
                None
            }
        }
        Scan::Part => None,
        Scan::Bad => None,
    }
}

// Adds the records of a frame, whose first one stands at this offset.
fn add_frame(
    alloc: Global,
    frame: &[u8],
    file: u32,
    from: u64,
    lines: &mut VecDeque<Line>,
) -> Result<(), NoMemory>
    requires frame { IsFrameBytes frame.now }
    requires low { from + length frame.now < 2 ^ 64 }
    ensures { OnOk result (AddsFrame frame.now file from lines.old.items lines.new.items) }
{
    let mut place = 0;
    while place < frame.len() {
        let (rec, next) = record_at(alloc, frame, place)?;
        let at = from + place as u64;
        add(lines, Line::Stands { file, at, rec })?;
        place = next;
    }
    Ok(())
}

// Adds the records of the committed frames, and the fault after them, if there is one.
fn add_frames(
    alloc: Global,
    bytes: &[u8],
    file: u32,
    lines: &mut VecDeque<Line>,
) -> Result<(), NoMemory>
    requires { 17 < length bytes.now }
    ensures { OnOk result (AddsFrames bytes.now file lines.old.items lines.new.items) }
{
    let mut gate = HEADER_LENGTH;
    while bytes[gate] == 1 {
        let Some(next) = frame_end(bytes, gate) else {
            let at = gate as u64;
            return add(lines, Line::Faulty { file, at });
        };
        add_frame(alloc, &bytes[gate + 1..next], file, gate as u64 + 1, lines)?;
        gate = next;
    }
    Ok(())
}

// Adds the begin of a file of this birth, if it drops open transactions.
fn add_begin(birth: u16, lines: &mut VecDeque<Line>) -> Result<(), NoMemory>
    ensures { OnOk result (lines.new.items ≡ lines.old.items ++
        (if birth == 1 then Line.Begins ∷ [] else [])) }
{
    if birth == BEGUN {
        return add(lines, Line::Begins);
    }
    Ok(())
}

/// Adds the lines of a file.
pub fn add_file(
    alloc: Global,
    bytes: &[u8],
    file: u32,
    lines: &mut VecDeque<Line>,
) -> Result<(), NoMemory>
    ensures { OnOk result (AddsFile bytes.now file lines.old.items lines.new.items) }
{
    if bytes.len() <= BLANK_LENGTH {
        return Ok(());
    }
    match birth_of(file, &bytes[..HEADER_LENGTH]) {
        Some(birth) => {
            add_begin(birth, lines)?;
            add_frames(alloc, bytes, file, lines)
        }
        None => add(lines, Line::Faulty { file, at: 0 }),
    }
}

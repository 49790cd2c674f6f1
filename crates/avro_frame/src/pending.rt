// The walk over the numbers of one pack, as they come.
ghost use Rattle.std.specs.Prelude.{◌≡◌, ℕ, ◌+◌, ◌≤◌, ◌<◌, ◌^◌, ◌++◌, [], List, length, take, drop, IfSome, IsSomeAnd, OnErr, OnOk, vec_len, vec_capacity};
ghost use Rattle.std.specs.List.{flat_map};
ghost use Rattle.avro_frame.specs.Pack.{u32_bytes, buffer, joined, room_kept};
ghost use Rattle.avro_frame.specs.Pending.{IsAt, IsBehind, InBuffers, Steps, Fills};

use crate::packs::PackRefused;
use std::alloc::AllocError;

/// The most buffers of a pack.
pub const MAX_BUFFERS: u32 = 65_536;

/// The most bytes in all buffers of a pack.
pub const MAX_BYTES: u64 = 67_108_864;

// The most bytes of room that are kept between packs.
const ROOM_KEPT: usize = 65_536;

/// What stands at the end of the bytes that the next step needs.
#[derive(Clone, Copy)]
pub enum Due {
    // the serial and the number of buffers
    Head,
    // a buffer's length; `left` lengths are still to come with this one
    Length { left: u32 },
    // the last buffer's bytes
    End,
}

/// How far a pack was read: what is due next, and the lengths so far.
#[derive(Clone, Copy)]
pub struct Cursor {
    // how many bytes are held when the next step is due
    pub need: usize,
    // the sum of the lengths so far
    pub sum: u64,
    pub due: Due,
}

/// Whether a pack goes on, ends here, or is refused.
#[derive(Clone, Copy)]
pub enum Step {
    More,
    Ends,
    Passes(PackRefused),
}

/// The cursor before the first byte of a pack.
pub fn at_start() -> Cursor
    ensures { (bytes : List ℕ) → length bytes < 8 → IsAt bytes result
        × IsBehind bytes result.need result.due }
{
    Cursor {
        need: 8,
        sum: 0,
        due: Due::Head,
    }
}

/// The number in the four bytes at `at`.
pub fn number_at(bytes: &[u8], at: usize) -> u32
    requires { at + 4 ≤ length bytes.now }
    ensures { u32_bytes result ≡ take 4 (drop at bytes.now) }
{
    let (_, rest) = bytes.split_at(at);
    let (front, _) = rest.split_at(4);
    u32::from_be_bytes([front[0], front[1], front[2], front[3]])
}

fn step_at_head(cursor: &mut Cursor, held: &[u8]) -> Step
    requires here { length held.now ≡ 8 }
    requires start { cursor.old.sum ≡ 0 }
    ensures { Steps held.now Due.Head result cursor.new }
{
    let count = number_at(held, 4);
    if count > MAX_BUFFERS {
        return Step::Passes(PackRefused::TooMany { n: count });
    }
    if count == 0 {
        cursor.due = Due::End;
        cursor.need = 8;
    } else {
        cursor.due = Due::Length { left: count };
        cursor.need = 12;
    }
    Step::More
}

fn step_at_length(cursor: &mut Cursor, held: &[u8], left: u32) -> Step
    requires here { InBuffers held.now cursor.old.need cursor.old.sum left 4 }
    requires some { 0 < left }
    requires due { length held.now ≡ cursor.old.need }
    ensures { Steps held.now (Due.Length left) result cursor.new }
{
    let len = number_at(held, cursor.need - 4);
    let sum = cursor.sum + u64::from(len);
    if sum > MAX_BYTES {
        return Step::Passes(PackRefused::TooLarge { n: sum });
    }
    cursor.sum = sum;
    if left == 1 {
        cursor.due = Due::End;
        cursor.need += len as usize;
    } else {
        cursor.due = Due::Length { left: left - 1 };
        cursor.need += len as usize + 4;
    }
    Step::More
}

// Reads the number that the bytes end with.
fn read_number(cursor: &mut Cursor, held: &[u8]) -> Step
    requires here { IsAt held.now cursor.old }
    requires due { length held.now ≡ cursor.old.need }
    ensures { Steps held.now cursor.old.due result cursor.new }
{
    match cursor.due {
        Due::Head => step_at_head(cursor, held),
        Due::Length { left } => step_at_length(cursor, held, left),
        Due::End => Step::Ends,
    }
}

/// Adds bytes for which room is there.
pub fn put(held: &mut Vec<u8>, bytes: &[u8])
    requires { vec_len held.old + length bytes.now ≤ vec_capacity held.old }
    ensures items { held.new.items ≡ held.old.items ++ bytes.now }
    ensures len { vec_len held.new ≡ vec_len held.old + length bytes.now }
    ensures room { vec_capacity held.old ≤ vec_capacity held.new }
{
    if held.extend_from_slice(bytes).is_err() {
        unreachable!();
    }
}

/// Takes the front of a piece, up to the pack's end.
pub fn fill(held: &mut Vec<u8>, cursor: &mut Cursor, piece: &[u8]) -> (usize, Step)
    requires here { IsAt held.old.items cursor.old }
    requires behind { IsBehind held.old.items cursor.old.need cursor.old.due }
    requires room { vec_len held.old + length piece.now ≤ vec_capacity held.old }
    ensures within { result.0 ≤ length piece.now }
    ensures items { held.new.items ≡ held.old.items ++ take result.0 piece.now }
    ensures found { Fills held.old.items piece.now result.0 result.1 held.new.items cursor.new }
{
    let mut taken = 0;
    'steps: loop {
        let room = cursor.need - held.len();
        let rest = &piece[taken..];
        if rest.len() < room {
            put(held, rest);
            return (piece.len(), Step::More);
        }
        put(held, &rest[..room]);
        taken += room;
        match read_number(cursor, held) {
            Step::More => {}
            found => return (taken, found),
        }
    }
}

// The buffer at the front of the bytes, and what is after it.
fn first_buffer(bytes: &[u8]) -> Option<(&[u8], &[u8])>
    ensures found { (first : List ℕ) (rest : List ℕ) → length first < 2 ^ 32
        → bytes.now ≡ buffer first ++ rest → IsSomeAnd result
        (λ found. (found.0.now ≡ first) × (found.1.now ≡ rest)) }
    ensures shorter { IfSome result (λ found. length found.0.now + length found.1.now
        < length bytes.now) }
{
    if bytes.len() < 4 {
        return None;
    }
    let len = number_at(bytes, 0) as usize;
    let (_, rest) = bytes.split_at(4);
    if rest.len() < len {
        return None;
    }
    Some(rest.split_at(len))
}

/// Adds the bytes of all buffers, one after another, for which room is there.
pub fn join(bytes: &[u8], payload: &mut Vec<u8>)
    requires none { payload.old.items ≡ [] }
    requires room { length bytes.now ≤ vec_capacity payload.old }
    ensures { (buffers : List (List ℕ)) → length (joined buffers) < 2 ^ 32
        → bytes.now ≡ flat_map buffer buffers → payload.new.items ≡ joined buffers }
{
    let mut rest = bytes;
    'buffers: while let Some((first, others)) = first_buffer(rest) {
        put(payload, first);
        rest = others;
    }
}

/// Makes room for so many bytes more, where there is memory.
pub fn make_room(bytes: &mut Vec<u8>, more: usize) -> Result<(), AllocError>
    ensures same { bytes.new.items ≡ bytes.old.items }
    ensures kept { vec_capacity bytes.old ≤ vec_capacity bytes.new }
    ensures room { OnOk result (vec_len bytes.new + more ≤ vec_capacity bytes.new) }
    ensures there { OnErr result (vec_capacity bytes.old < vec_len bytes.old + more) }
{
    if bytes.capacity() - bytes.len() >= more {
        return Ok(());
    }
    bytes.reserve(more)
}

/// Lets go of all bytes, and of the room if it is larger than what is kept.
pub fn give_back(bytes: &mut Vec<u8>)
    ensures none { bytes.new.items ≡ [] }
    ensures small { vec_capacity bytes.new ≤ room_kept }
{
    bytes.clear();
    if bytes.capacity() > ROOM_KEPT {
        *bytes = Vec::new(*bytes.allocator());
    }
}

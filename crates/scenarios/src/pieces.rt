// The bytes of log files, piece by piece, as in `header 1 1 1, gate 1, put 1 a`.
use crate::texts::{value_of, word_and_rest};
use std::alloc::Global;

// Adds a number of so many bytes.
fn add_number(bytes: &mut Vec<u8>, width: usize, number: u64) -> bool {
    let all = number.to_be_bytes();
    match all.get(8usize.saturating_sub(width)..) {
        Some(last) => bytes.extend_from_slice(last).is_ok(),
        None => false,
    }
}

// Adds a front, and numbers of these widths.
fn add_fields(bytes: &mut Vec<u8>, front: &[u8], widths: &[usize], words: &str) -> bool {
    if bytes.extend_from_slice(front).is_err() {
        return false;
    }
    let mut rest = words;
    for width in widths {
        let (word, others) = word_and_rest(rest);
        if word.is_empty() || !add_number(bytes, *width, value_of(word)) {
            return false;
        }
        rest = others;
    }
    rest.is_empty()
}

// Adds the PUT of a transaction, of an event of this one byte.
fn add_put(bytes: &mut Vec<u8>, words: &str) -> bool {
    let (txn, byte) = word_and_rest(words);
    add_fields(bytes, &[1], &[8], txn)
        && add_fields(bytes, b"\0\0\0\x09\0\0\0\0\0\0\0\x01", &[1], byte)
}

// Adds so many bytes ff.
fn add_garbage(bytes: &mut Vec<u8>, count: &str) -> bool {
    for _ in 0..value_of(count) {
        if bytes.push(255).is_err() {
            return false;
        }
    }
    true
}

// Adds a piece.
fn add_piece(bytes: &mut Vec<u8>, piece: &str) -> bool {
    let (word, words) = word_and_rest(piece);
    match word {
        "header" => add_fields(bytes, b"FLUMELOG", &[2, 2, 4], words),
        "gate" => add_fields(bytes, b"", &[1], words),
        "put" => add_put(bytes, words),
        "take" => add_fields(bytes, &[2], &[8, 8], words),
        "rollback" => add_fields(bytes, &[3], &[8], words),
        "commit-put" => add_fields(bytes, &[4], &[8, 8, 4], words),
        "commit-take" => add_fields(bytes, &[5], &[8, 4], words),
        "end" => add_fields(bytes, &[6], &[4], words),
        "garbage" => add_garbage(bytes, words),
        _ => false,
    }
}

/// The bytes of some pieces, with a comma between each two. A piece is a header of a form, a birth and a number; a commit byte; a PUT
/// of a transaction and a byte; a TAKE of a transaction and an event's number; the ROLLBACK of a transaction; a COMMIT_PUT of a
/// transaction, the first event's number and the count; a COMMIT_TAKE of a transaction and the count; the END of a count; so many
/// bytes ff.
pub fn spelled(alloc: Global, pieces: &str) -> Option<Vec<u8>> {
    let mut bytes = Vec::new(alloc);
    for piece in pieces.split(", ") {
        if !add_piece(&mut bytes, piece) {
            return None;
        }
    }
    Some(bytes)
}

// Adds some bytes after one another.
fn add_all(bytes: &mut Vec<u8>, parts: &[&[u8]]) -> bool {
    for part in parts {
        if bytes.extend_from_slice(part).is_err() {
            return false;
        }
    }
    true
}

// Adds a frame of so many PUTs of a transaction, of an event of one byte each, and its COMMIT_PUT.
fn add_frame(bytes: &mut Vec<u8>, txn: u64, first: u64, puts: u32) -> bool {
    let txn = txn.to_be_bytes();
    let (first, count) = (first.to_be_bytes(), puts.to_be_bytes());
    let records = puts.saturating_add(1).to_be_bytes();
    if !add_all(bytes, &[&[1]]) {
        return false;
    }
    for _ in 0..puts {
        if !add_all(bytes, &[&[1], &txn, b"\0\0\0\x09\0\0\0\0\0\0\0\x01a"]) {
            return false;
        }
    }
    add_all(bytes, &[&[4], &txn, &first, &count, &[6], &records])
}

/// The bytes of log file 1 of so many frames of so many PUTs, of an event of one byte each.
pub fn long_file(alloc: Global, frames: u64, puts: u32) -> Option<Vec<u8>> {
    let mut bytes = spelled(alloc, "header 1 1 1")?;
    for frame in 0..frames {
        let first = frame.saturating_mul(u64::from(puts));
        if !add_frame(&mut bytes, frame.saturating_add(1), first, puts) {
            return None;
        }
    }
    if add_all(&mut bytes, &[&[0]]) {
        Some(bytes)
    } else {
        None
    }
}

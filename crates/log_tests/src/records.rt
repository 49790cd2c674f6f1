// The bytes of records.
ghost use Rattle.std.specs.Prelude.{◌≤◌, IsTrue};
ghost use Rattle.record_form.specs.Record.{IsWithinLimits, record_length};

use event_core::Event;
use record_form::{Read, Rec, read_record, rec_of, write_record};
use scenarios::{Scene, add_text, pass, three_numbers, value_of, word_and_rest};
use std::alloc::Global;
use std::test::Fail;
use test_fixtures::event;

// Kinds, lengths, records and their bytes.
const SPELLED: &str = r#"Records are spelled.
record 1 22 put 1 a = \x01\0\0\0\0\0\0\0\x01\0\0\0\x09\0\0\0\0\0\0\0\x01a
record 2 17 take 2 258 = \x02\0\0\0\0\0\0\0\x02\0\0\0\0\0\0\x01\x02
record 3 9 rollback 3 = \x03\0\0\0\0\0\0\0\x03
record 4 21 commit-put 1 0 1 = \x04\0\0\0\0\0\0\0\x01\0\0\0\0\0\0\0\0\0\0\0\x01
record 5 13 commit-take 1 7 = \x05\0\0\0\0\0\0\0\x01\0\0\0\x07
record 6 5 end 2 = \x06\0\0\0\x02"#;

// A PUT of transaction 1 whose event has the headers a=1 and b=2 and an empty body.
const PUT: [u8; 41] =
    *b"\x01\0\0\0\0\0\0\0\x01\0\0\0\x1c\0\0\0\x02\0\0\0\x01a\0\0\0\x011\0\0\0\x01b\0\0\0\x012\0\0\0\0";

// A place in that PUT, the byte that is put there, and where the first fault then is.
const FAULTS: &str = "The first fault of a PUT is told.
changed 0 0 0
changed 0 7 0
changed 9 1 9
changed 12 29 37
changed 16 1 27
changed 16 3 41
changed 20 21 17
changed 21 255 21
changed 21 99 31
changed 31 97 31
changed 36 255 36
changed 40 1 37";

// Where the count stands of records that count nothing.
const NO_COUNT: &str = r#"A count is at least one.
bad 17 \x04\0\0\0\0\0\0\0\x01\0\0\0\0\0\0\0\0\0\0\0\0
bad 9 \x05\0\0\0\0\0\0\0\x01\0\0\0\0
bad 1 \x06\0\0\0\0"#;

// An event of this one byte.
fn event_of(alloc: Global, byte: u64) -> Option<Event> {
    event(alloc, &[u8::try_from(byte).ok()?]).ok()
}

// A record, as `put 1 a`, whose words are those of a log file's pieces.
fn rec_named(alloc: Global, piece: &str) -> Option<Rec> {
    let (word, words) = word_and_rest(piece);
    let (first, rest) = word_and_rest(words);
    let (second, third) = word_and_rest(rest);
    let (txn, number) = (value_of(first), value_of(second));
    match word {
        "put" => Some(Rec::Put {
            txn,
            event: event_of(alloc, number)?,
        }),
        "take" => Some(Rec::Take { txn, number }),
        "rollback" => Some(Rec::Rollback { txn }),
        "commit-put" => Some(Rec::CommitPut {
            txn,
            first: number,
            count: third.parse::<u32>().ok()?,
        }),
        "commit-take" => Some(Rec::CommitTake {
            txn,
            count: second.parse::<u32>().ok()?,
        }),
        "end" => Some(Rec::End {
            count: first.parse::<u32>().ok()?,
        }),
        _ => None,
    }
}

// Whether it can be written, as 64 bytes at most.
fn is_short(rec: &Rec) -> bool
    ensures { IsTrue result → IsWithinLimits rec.now × (record_length rec.now ≤ 64) }
{
    match rec {
        Rec::Put { txn: _, event } => event.size() <= 51,
        Rec::Take { .. } | Rec::Rollback { .. } => true,
        Rec::CommitPut { count, .. } | Rec::CommitTake { count, .. } | Rec::End { count } => {
            *count >= 1
        }
    }
}

// Whether a record is written as these bytes.
fn is_written(alloc: Global, rec: &Rec, bytes: &[u8]) -> bool
    requires { IsWithinLimits rec.now × (record_length rec.now ≤ 64) }
{
    let Ok(mut written) = Vec::with_capacity(alloc, 64) else {
        return false;
    };
    write_record(rec, &mut written);
    written.as_slice() == bytes
}

fn is_written_so(alloc: Global, piece: &str, bytes: &[u8]) -> bool {
    match rec_named(alloc, piece) {
        Some(rec) => is_short(&rec) && is_written(alloc, &rec, bytes),
        None => false,
    }
}

// Whether each cut of these bytes is the front of a record.
fn cuts_are_parts(bytes: &[u8]) -> bool {
    for end in 0..bytes.len() {
        if read_record(&bytes[..end]) != Read::Part {
            return false;
        }
    }
    true
}

// Whether a record of this kind and length is read from these bytes.
fn is_read_as(bytes: &[u8], kind: u64, length: u64) -> bool {
    match read_record(bytes) {
        Read::Whole {
            kind: found,
            length: many,
        } => u64::from(found) == kind && u64::from(many) == length,
        _ => false,
    }
}

// Whether a record is written as its bytes and read from them, and each cut of them is a part, as `6 5 end 2 = BYTES`.
fn is_spelled(alloc: Global, row: &str) -> bool {
    let Some((said, text)) = row.split_once(" = ") else {
        return false;
    };
    let (kind, rest) = word_and_rest(said);
    let (length, piece) = word_and_rest(rest);
    let mut bytes = Vec::new(alloc);
    add_text(&mut bytes, text)
        && is_written_so(alloc, piece, &bytes)
        && is_read_as(&bytes, value_of(kind), value_of(length))
        && cuts_are_parts(&bytes)
}

// Whether reading these bytes finds its first fault here.
fn is_bad(bytes: &[u8], at: u64) -> bool {
    match read_record(bytes) {
        Read::Bad { at: found } => u64::from(found) == at,
        _ => false,
    }
}

// Whether the PUT with one byte changed is at fault there, as `9 1 9`.
fn is_bad_changed(row: &str) -> bool {
    let Some((place, value, at)) = three_numbers(row) else {
        return false;
    };
    let mut bytes = PUT;
    if let Some(byte) = bytes.get_mut(place as usize) {
        *byte = (value % 256) as u8;
    }
    is_bad(&bytes, at)
}

// Whether these bytes are at fault there, as `1 BYTES`.
fn is_bad_so(alloc: Global, row: &str) -> bool {
    let (at, text) = word_and_rest(row);
    let mut bytes = Vec::new(alloc);
    add_text(&mut bytes, text) && is_bad(&bytes, value_of(at))
}

/// Rows of records.
#[derive(Drop)]
struct Records {
    alloc: Global,
    has_tried: bool,
}

impl Scene for Records {
    fn begin(alloc: Global) -> Records {
        Records {
            alloc,
            has_tried: false,
        }
    }

    fn holds(&mut self, word: &str, rest: &str) -> bool {
        self.has_tried = true;
        match word {
            "record" => is_spelled(self.alloc, rest),
            "changed" => is_bad_changed(rest),
            "bad" => is_bad_so(self.alloc, rest),
            _ => false,
        }
    }

    fn has_tried(&self) -> bool {
        self.has_tried
    }
}

#[test]
fn records_are_spelled(rt: HostRuntime) -> Result<(), Fail> {
    pass::<Records>(rt.alloc(), SPELLED)
}

#[test]
fn the_first_fault_is_told(rt: HostRuntime) -> Result<(), Fail> {
    pass::<Records>(rt.alloc(), FAULTS)
}

#[test]
fn a_count_is_at_least_one(rt: HostRuntime) -> Result<(), Fail> {
    pass::<Records>(rt.alloc(), NO_COUNT)
}

fn is_put(rec: &Rec) -> bool {
    match rec {
        Rec::Put { txn, event } => {
            *txn == 1 && event.size() == 28 && event.headers().get("b") == Some("2")
        }
        _ => false,
    }
}

fn is_made_again(alloc: Global, bytes: &[u8]) -> bool {
    match read_record(bytes) {
        Read::Whole { .. } => rec_of(alloc, bytes).is_ok_and(|rec| is_put(&rec)),
        _ => false,
    }
}

#[test]
fn a_put_is_made_again(rt: HostRuntime) {
    assert!(rt; is_made_again(rt.alloc(), &PUT));
}

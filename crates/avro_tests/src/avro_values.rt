// Values in the bytes that the Avro specification gives, and others worked out by its rules.
ghost use Rattle.std.specs.Prelude.{◌≤◌, length};

use avro_binary::{
    ValueRefused, facts_of_batches, no_fault_in_a_value, one_fault_at_a_place,
    one_spelling_at_a_place, read_batch, read_bool, read_bytes, read_event, read_fixed, read_int,
    read_long, read_meta, read_text, shortest_is_written, write_batch, write_bool, write_bytes,
    write_event, write_fixed, write_int, write_long, write_text, written_is_spelled,
};
use event_core::{Batch, Event, NoMemory};
use std::alloc::Global;
use std::test::Fail;

#[derive(Clone, Copy)]
enum Number {
    Bool,
    Int,
    Long,
}

// A number of a type at a place of the bytes, and where it ends.
type NumberCase = (
    Number,
    &'static [u8],
    usize,
    Result<(i64, usize), ValueRefused>,
);

const NUMBERS: [NumberCase; 20] = [
    (Number::Bool, &[1, 0], 0, Ok((1, 1))),
    (Number::Bool, &[1, 0], 1, Ok((0, 2))),
    (Number::Bool, &[2], 0, Err(ValueRefused::Bad { at: 0 })),
    (
        Number::Bool,
        &[2],
        1,
        Err(ValueRefused::Short { at: 1, need: 2 }),
    ),
    (
        Number::Int,
        &[0xfe, 0xff, 0xff, 0xff, 0x0f],
        0,
        Ok((i32::MAX as i64, 5)),
    ),
    (
        Number::Int,
        &[0xff, 0xff, 0xff, 0xff, 0x0f],
        0,
        Ok((i32::MIN as i64, 5)),
    ),
    // longer than it need be, and still read
    (Number::Int, &[0x82, 0x80, 0x80, 0x80, 0x00], 0, Ok((1, 5))),
    (Number::Int, &[0x82, 0x00, 0x07], 0, Ok((1, 2))),
    // too long, or too wide
    (
        Number::Int,
        &[0x82, 0x80, 0x80, 0x80, 0x80, 0x00],
        0,
        Err(ValueRefused::Bad { at: 0 }),
    ),
    (
        Number::Int,
        &[0xff, 0xff, 0xff, 0xff, 0x1f],
        0,
        Err(ValueRefused::Bad { at: 0 }),
    ),
    (
        Number::Int,
        &[0xff, 0xff, 0xff, 0xff, 0xff],
        0,
        Err(ValueRefused::Bad { at: 0 }),
    ),
    (
        Number::Int,
        &[],
        0,
        Err(ValueRefused::Short { at: 0, need: 1 }),
    ),
    (
        Number::Int,
        &[0x80, 0x80],
        0,
        Err(ValueRefused::Short { at: 0, need: 3 }),
    ),
    // 1 in two bytes and in ten
    (Number::Long, &[0x82, 0x00], 0, Ok((1, 2))),
    (
        Number::Long,
        &[0x82, 0x80, 0x80, 0x80, 0x80, 0x80, 0x80, 0x80, 0x80, 0x00],
        0,
        Ok((1, 10)),
    ),
    // in eleven
    (
        Number::Long,
        &[
            0x82, 0x80, 0x80, 0x80, 0x80, 0x80, 0x80, 0x80, 0x80, 0x80, 0x00,
        ],
        0,
        Err(ValueRefused::Bad { at: 0 }),
    ),
    // more than 64 bits
    (
        Number::Long,
        &[0x80, 0x80, 0x80, 0x80, 0x80, 0x80, 0x80, 0x80, 0x80, 0x02],
        0,
        Err(ValueRefused::Bad { at: 0 }),
    ),
    // -1 in ten bytes, and one byte more
    (
        Number::Long,
        &[
            0x81, 0x80, 0x80, 0x80, 0x80, 0x80, 0x80, 0x80, 0x80, 0x00, 0x00,
        ],
        0,
        Ok((-1, 10)),
    ),
    (
        Number::Long,
        &[0xff, 0xff, 0xff, 0xff, 0xff, 0xff, 0xff, 0xff, 0xff],
        0,
        Err(ValueRefused::Short { at: 0, need: 10 }),
    ),
    (
        Number::Long,
        &[],
        0,
        Err(ValueRefused::Short { at: 0, need: 1 }),
    ),
];

// What is written of a long, and read again.
const LONGS: [(i64, &[u8]); 11] = [
    (0, &[0x00]),
    (-1, &[0x01]),
    (1, &[0x02]),
    (-2, &[0x03]),
    (2, &[0x04]),
    (-64, &[0x7f]),
    (64, &[0x80, 0x01]),
    (8192, &[0x80, 0x80, 0x01]),
    (-8193, &[0x81, 0x80, 0x01]),
    (
        i64::MAX,
        &[0xfe, 0xff, 0xff, 0xff, 0xff, 0xff, 0xff, 0xff, 0xff, 0x01],
    ),
    (
        i64::MIN,
        &[0xff, 0xff, 0xff, 0xff, 0xff, 0xff, 0xff, 0xff, 0xff, 0x01],
    ),
];

#[derive(Clone, Copy)]
enum Place {
    Text,
    Bytes,
    Fixed,
}

// The int 27, the text foo, true, the bytes 7, and sixteen bytes 9.
const WRITTEN: [u8; 24] = [
    0x36, 0x06, 0x66, 0x6f, 0x6f, 1, 2, 7, 9, 9, 9, 9, 9, 9, 9, 9, 9, 9, 9, 9, 9, 9, 9, 9,
];

// Where the bytes of a value begin and end.
type PlaceCase = (
    Place,
    &'static [u8],
    usize,
    Result<(usize, usize), ValueRefused>,
);

const PLACES: [PlaceCase; 6] = [
    (Place::Text, &[0x36, 0x06, 0x66, 0x6f, 0x6f], 1, Ok((2, 5))),
    (
        Place::Bytes,
        &[0x06, 0x66],
        0,
        Err(ValueRefused::Short { at: 1, need: 4 }),
    ),
    (
        Place::Bytes,
        &[0x07, 0x01],
        1,
        Err(ValueRefused::Bad { at: 1 }),
    ),
    (
        Place::Text,
        &[0x02, 0xff],
        0,
        Err(ValueRefused::Bad { at: 1 }),
    ),
    (
        Place::Fixed,
        &[0; 8],
        1,
        Err(ValueRefused::Short { at: 1, need: 17 }),
    ),
    (Place::Fixed, &WRITTEN, 8, Ok((8, 24))),
];

// Where a map of bytes ends.
const METAS: [(&[u8], Result<usize, ValueRefused>); 6] = [
    (&[0x00, 0x05], Ok(1)),
    // one block of one entry, and the same with its size
    (&[0x02, 0x02, 0x68, 0x02, 0xff, 0x00], Ok(6)),
    (&[0x01, 0x08, 0x02, 0x68, 0x02, 0xff, 0x00], Ok(7)),
    // a key is text
    (
        &[0x02, 0x02, 0xff, 0x02, 0x68, 0x00],
        Err(ValueRefused::Bad { at: 2 }),
    ),
    // 2^31 entries in ten bytes
    (
        &[0x80, 0x80, 0x80, 0x80, 0x10, 0x00, 0x00, 0x00, 0x00, 0x02],
        Err(ValueRefused::Short { at: 10, need: 11 }),
    ),
    // a count of -2^63 with its size
    (
        &[
            0xff, 0xff, 0xff, 0xff, 0xff, 0xff, 0xff, 0xff, 0xff, 0x01, 0x00,
        ],
        Err(ValueRefused::Short { at: 11, need: 12 }),
    ),
];

// The event of the body a whose header h is v.
const EVENT: &[u8] = &[0x02, 0x02, 0x68, 0x02, 0x76, 0x00, 0x02, 0x61];

struct EventCase {
    bytes: &'static [u8],
    // the text of the header h
    value: &'static str,
    end: usize,
    // what is written of it
    shortest: &'static [u8],
}

// Events of the body a.
const EVENTS: [EventCase; 3] = [
    EventCase {
        bytes: EVENT,
        value: "v",
        end: 8,
        shortest: EVENT,
    },
    // a block with its size
    EventCase {
        bytes: &[0x01, 0x08, 0x02, 0x68, 0x02, 0x76, 0x00, 0x02, 0x61],
        value: "v",
        end: 9,
        shortest: EVENT,
    },
    // the later of two equal keys, in two blocks
    EventCase {
        bytes: &[
            0x02, 0x02, 0x68, 0x02, 0x76, 0x02, 0x02, 0x68, 0x02, 0x77, 0x00, 0x02, 0x61,
        ],
        value: "w",
        end: 13,
        shortest: &[0x02, 0x02, 0x68, 0x02, 0x77, 0x00, 0x02, 0x61],
    },
];

// Batches of the bodies x and y: in one block, in two, and in one with its size.
const BATCHES: [&[u8]; 3] = [
    &[0x04, 0x00, 0x02, 0x78, 0x00, 0x02, 0x79, 0x00],
    &[0x02, 0x00, 0x02, 0x78, 0x02, 0x00, 0x02, 0x79, 0x00],
    &[0x03, 0x0c, 0x00, 0x02, 0x78, 0x00, 0x02, 0x79, 0x00],
];

fn read_number(kind: Number, bytes: &[u8], at: usize) -> Result<(i64, usize), ValueRefused>
    requires { at ≤ length bytes.now }
{
    match kind {
        Number::Bool => read_bool(bytes, at).map(|(value, end)| (i64::from(value), end)),
        Number::Int => read_int(bytes, at).map(|(value, end)| (i64::from(value), end)),
        Number::Long => read_long(bytes, at),
    }
}

#[test]
fn numbers_are_read(rt: HostRuntime) {
    for (row, case) in NUMBERS.iter().enumerate() {
        let (kind, bytes, at, want) = *case;
        assert!(rt; at <= bytes.len(), "row {row}");
        assert!(rt; read_number(kind, bytes, at) == want, "row {row}");
    }
}

fn is_long(alloc: Global, value: i64, bytes: &[u8]) -> Result<bool, NoMemory> {
    let mut out = Vec::new(alloc);
    write_long(value, &mut out)?;
    Ok(out.as_slice() == bytes && read_long(bytes, 0) == Ok((value, bytes.len())))
}

#[test]
fn longs_are_written_and_read_again(rt: HostRuntime) {
    for case in &LONGS {
        let (value, bytes) = *case;
        assert!(rt; is_long(rt.alloc(), value, bytes) == Ok(true), "{value}");
    }
}

fn read_place(kind: Place, bytes: &[u8], at: usize) -> Result<(usize, usize), ValueRefused>
    requires { at ≤ length bytes.now }
{
    match kind {
        Place::Text => read_text(bytes, at),
        Place::Bytes => read_bytes(bytes, at),
        Place::Fixed => read_fixed(bytes, at),
    }
}

#[test]
fn texts_and_bytes_are_read(rt: HostRuntime) {
    for (row, case) in PLACES.iter().enumerate() {
        let (kind, bytes, at, want) = *case;
        assert!(rt; at <= bytes.len(), "row {row}");
        assert!(rt; read_place(kind, bytes, at) == want, "row {row}");
    }
}

#[test]
fn maps_are_read(rt: HostRuntime) {
    for case in &METAS {
        let (bytes, want) = *case;
        assert!(rt; read_meta(bytes, 0) == want, "{bytes:?}");
    }
}

// One value of each type.
fn written(alloc: Global) -> Result<Vec<u8>, NoMemory> {
    let mut out = Vec::new(alloc);
    write_int(27, &mut out)?;
    write_text("foo", &mut out)?;
    write_bool(true, &mut out)?;
    write_bytes(&[7], &mut out)?;
    write_fixed(&[9; 16], &mut out)?;
    Ok(out)
}

#[test]
fn values_are_written(rt: HostRuntime) -> Result<(), Fail> {
    assert!(rt; written(rt.alloc())?.as_slice() == WRITTEN.as_slice());
    one_spelling_at_a_place();
    no_fault_in_a_value();
    one_fault_at_a_place();
    written_is_spelled();
    shortest_is_written();
    facts_of_batches();
    Ok(())
}

// Whether this is the event of the body a whose only header h has this text.
fn is_the_event(event: &Event, value: &str) -> bool {
    let headers = event.headers();
    headers.len() == 1 && headers.get("h") == Some(value) && event.body() == b"a".as_slice()
}

fn is_written_so(alloc: Global, event: &Event, shortest: &[u8]) -> Result<bool, NoMemory> {
    let mut out = Vec::new(alloc);
    write_event(event, &mut out)?;
    Ok(out.as_slice() == shortest)
}

// Whether an event is read and written as the case says.
fn is_event(alloc: Global, case: &EventCase) -> Result<bool, Fail> {
    let (event, end) = read_event(alloc, case.bytes, 0)?;
    let is_read = end == case.end && is_the_event(&event, case.value);
    Ok(is_read && is_written_so(alloc, &event, case.shortest)?)
}

#[test]
fn events_are_read_and_written(rt: HostRuntime) -> Result<(), Fail> {
    for (row, case) in EVENTS.iter().enumerate() {
        assert!(rt; is_event(rt.alloc(), case)?, "row {row}");
    }
    Ok(())
}

// Whether these are two events, whose second has the body y.
fn are_the_two(batch: &Batch) -> bool {
    batch.len() == 2 && batch.get(1).body() == b"y".as_slice()
}

fn are_written_so(alloc: Global, batch: &Batch, bytes: &[u8]) -> Result<bool, NoMemory> {
    let mut out = Vec::new(alloc);
    write_batch(batch, &mut out)?;
    Ok(out.as_slice() == bytes)
}

// Whether the batch of the two events is read of all the bytes, and is written in one block.
fn is_batch(alloc: Global, bytes: &[u8]) -> Result<bool, Fail> {
    let (batch, end) = read_batch(alloc, bytes, 0)?;
    let is_read = end == bytes.len() && are_the_two(&batch);
    Ok(is_read && are_written_so(alloc, &batch, BATCHES[0])?)
}

#[test]
fn an_empty_batch_is_written(rt: HostRuntime) {
    assert!(rt; are_written_so(rt.alloc(), &Batch::new(rt.alloc()), &[0]) == Ok(true));
}

#[test]
fn batches_are_read_and_written(rt: HostRuntime) -> Result<(), Fail> {
    for bytes in &BATCHES {
        let bytes = *bytes;
        assert!(rt; is_batch(rt.alloc(), bytes)?, "{bytes:?}");
    }
    Ok(())
}

// Why no batch stands at the front of the bytes, if none does.
fn refused_batch(alloc: Global, bytes: &[u8]) -> Option<ValueRefused> {
    match read_batch(alloc, bytes, 0) {
        Ok(_) => None,
        Err(refused) => Some(refused),
    }
}

// Why no event stands there, if none does.
fn refused_event(alloc: Global, bytes: &[u8], at: usize) -> Option<ValueRefused>
    requires { at ≤ length bytes.now }
{
    match read_event(alloc, bytes, at) {
        Ok(_) => None,
        Err(refused) => Some(refused),
    }
}

#[test]
fn faults_of_events_and_batches(rt: HostRuntime) {
    // no headers, and a body of -1 bytes
    assert!(rt; refused_event(rt.alloc(), &[0x00, 0x01], 0) == Some(ValueRefused::Bad { at: 1 }));
    // 2^31 events in ten bytes
    let many = [0x80, 0x80, 0x80, 0x80, 0x10, 0x00, 0x00, 0x00, 0x00, 0x00];
    assert!(rt; refused_batch(rt.alloc(), &many) == Some(ValueRefused::Short { at: 10, need: 11 }));
}

// One event without headers whose body has 33,554,425 bytes, and with its length 33,554,433.
fn too_large(alloc: Global) -> Result<Vec<u8>, Fail> {
    let mut bytes = Vec::new(alloc);
    write_long(1, &mut bytes)?;
    bytes.push(0)?;
    write_long(33_554_425, &mut bytes)?;
    let body = vec![in alloc; 0u8; 33_554_425]?;
    bytes.extend_from_slice(&body)?;
    Ok(bytes)
}

#[test]
fn an_event_that_is_too_large(rt: HostRuntime) -> Result<(), Fail> {
    let alloc = rt.alloc();
    let mut bytes = too_large(alloc)?;
    let end = 33_554_432;
    let (at, need) = (33_554_431, end);
    assert!(rt; refused_batch(alloc, &bytes) == Some(ValueRefused::Short { at, need }));
    bytes.push(0)?;
    let size = 33_554_433;
    assert!(rt; refused_batch(alloc, &bytes) == Some(ValueRefused::TooLarge { size, end }));
    let end = 33_554_431;
    assert!(rt; 1 <= bytes.len());
    assert!(rt; refused_event(alloc, &bytes, 1) == Some(ValueRefused::TooLarge { size, end }));
    Ok(())
}

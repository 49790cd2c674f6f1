// Handshakes and calls of an Avro connection, in bytes worked out by the Avro specification's rules.
ghost use Rattle.std.specs.Prelude.{◌≤◌, length, IfOk};

use crate::protocol_texts::OWN_ORDER;
use avro_binary::{write_bytes, write_long, write_text};
use avro_hop::{
    Asked, Hop, HopRefused, Status, answers_are_spelled, one_answer, one_dialogue,
    one_fault_at_a_place, one_reading, protocol_text, types_at_any_depth, write_response,
};
use event_core::NoMemory;
use std::alloc::{AllocError, Global};
use std::test::Fail;

/// RFC 1321 of this agent's text, by another program.
pub const HASH: [u8; 16] = [
    0x30, 0xda, 0x54, 0x05, 0x9d, 0xf7, 0x2d, 0x95, 0x84, 0xb8, 0x67, 0xd5, 0x20, 0x2e, 0x20, 0x69,
];

// append of the body a with the header h=v: as one block, and as a block with its size
const APPEND: [u8; 16] = [
    0x00, 0x0c, 0x61, 0x70, 0x70, 0x65, 0x6e, 0x64, 0x02, 0x02, 0x68, 0x02, 0x76, 0x00, 0x02, 0x61,
];

const SIZED: [u8; 17] = [
    0x00, 0x0c, 0x61, 0x70, 0x70, 0x65, 0x6e, 0x64, 0x01, 0x08, 0x02, 0x68, 0x02, 0x76, 0x00, 0x02,
    0x61,
];

// appendBatch of the bodies x and y, in two blocks
const BATCH: [u8; 22] = [
    0x00, 0x16, 0x61, 0x70, 0x70, 0x65, 0x6e, 0x64, 0x42, 0x61, 0x74, 0x63, 0x68, 0x02, 0x00, 0x02,
    0x78, 0x02, 0x00, 0x02, 0x79, 0x00,
];

// append of the body a, with metadata k = ff ff
const WITH_METADATA: [u8; 17] = [
    0x02, 0x02, 0x6b, 0x04, 0xff, 0xff, 0x00, 0x0c, 0x61, 0x70, 0x70, 0x65, 0x6e, 0x64, 0x00, 0x02,
    0x61,
];

// append of the body a: no headers in two bytes, and the length 1 in ten
const LONGEST: [u8; 21] = [
    0x00, 0x0c, 0x61, 0x70, 0x70, 0x65, 0x6e, 0x64, 0x80, 0x00, 0x82, 0x80, 0x80, 0x80, 0x80, 0x80,
    0x80, 0x80, 0x80, 0x00, 0x61,
];

// append of the body a with the header h=v, in a block whose size is told as 63, and as -2
const OTHER_SIZE: [u8; 17] = [
    0x00, 0x0c, 0x61, 0x70, 0x70, 0x65, 0x6e, 0x64, 0x01, 0x7e, 0x02, 0x68, 0x02, 0x76, 0x00, 0x02,
    0x61,
];

const NEGATIVE_SIZE: [u8; 17] = [
    0x00, 0x0c, 0x61, 0x70, 0x70, 0x65, 0x6e, 0x64, 0x01, 0x03, 0x02, 0x68, 0x02, 0x76, 0x00, 0x02,
    0x61,
];

// appendBatch of the bodies x and y, in a block of the count -2 with its size
const NEGATIVE_COUNT: [u8; 22] = [
    0x00, 0x16, 0x61, 0x70, 0x70, 0x65, 0x6e, 0x64, 0x42, 0x61, 0x74, 0x63, 0x68, 0x03, 0x0c, 0x00,
    0x02, 0x78, 0x00, 0x02, 0x79, 0x00,
];

// Calls, and how many events each has.
const CALLS: [(&[u8], usize); 8] = [
    (&NEGATIVE_COUNT, 2),
    (&APPEND, 1),
    (&SIZED, 1),
    (&BATCH, 2),
    (&WITH_METADATA, 1),
    (&LONGEST, 1),
    (&OTHER_SIZE, 1),
    (&NEGATIVE_SIZE, 1),
];

// What is no call, and where it is at fault.
const REFUSED_CALLS: [(&[u8], u64); 13] = [
    (&[], 0),
    // a body of -1 bytes
    (
        &[0x00, 0x0c, 0x61, 0x70, 0x70, 0x65, 0x6e, 0x64, 0x00, 0x01],
        9,
    ),
    // a byte after the event
    (
        &[
            0x00, 0x0c, 0x61, 0x70, 0x70, 0x65, 0x6e, 0x64, 0x00, 0x00, 0x00,
        ],
        10,
    ),
    // no body
    (&[0x00, 0x0c, 0x61, 0x70, 0x70, 0x65, 0x6e, 0x64, 0x00], 9),
    // a body whose bytes are cut
    (
        &[
            0x00, 0x0c, 0x61, 0x70, 0x70, 0x65, 0x6e, 0x64, 0x00, 0x04, 0x61,
        ],
        10,
    ),
    // no end of the batch
    (
        &[
            0x00, 0x16, 0x61, 0x70, 0x70, 0x65, 0x6e, 0x64, 0x42, 0x61, 0x74, 0x63, 0x68, 0x02,
            0x00, 0x00,
        ],
        16,
    ),
    // a byte after the batch
    (
        &[
            0x00, 0x16, 0x61, 0x70, 0x70, 0x65, 0x6e, 0x64, 0x42, 0x61, 0x74, 0x63, 0x68, 0x00,
            0x07,
        ],
        14,
    ),
    // a length in eleven bytes, and one of more than 64 bits
    (
        &[
            0x00, 0x0c, 0x61, 0x70, 0x70, 0x65, 0x6e, 0x64, 0x00, 0x82, 0x80, 0x80, 0x80, 0x80,
            0x80, 0x80, 0x80, 0x80, 0x80, 0x00, 0x61,
        ],
        9,
    ),
    (
        &[
            0x00, 0x0c, 0x61, 0x70, 0x70, 0x65, 0x6e, 0x64, 0x00, 0x80, 0x80, 0x80, 0x80, 0x80,
            0x80, 0x80, 0x80, 0x80, 0x02,
        ],
        9,
    ),
    // 2^31 events in ten bytes
    (
        &[
            0x00, 0x16, 0x61, 0x70, 0x70, 0x65, 0x6e, 0x64, 0x42, 0x61, 0x74, 0x63, 0x68, 0x80,
            0x80, 0x80, 0x80, 0x10, 0x00, 0x00, 0x00, 0x00, 0x00,
        ],
        23,
    ),
    // a metadata key and a name that are no text, and a name that is cut
    (&[0x02, 0x02, 0xff, 0x00, 0x00, 0x00], 2),
    (&[0x00, 0x02, 0xff], 2),
    (&[0x00, 0x0c, 0x61, 0x70], 2),
];

// What stands after a hash in place of a text, and where it is at fault: an index that is neither 0 nor 1, one of six
// bytes, a text that is none, and one of -1 bytes.
const REFUSED_TEXTS: [(&[u8], u64); 4] = [
    (&[0x04, 0x00], 16),
    (&[0x80, 0x80, 0x80, 0x80, 0x80, 0x00], 16),
    (&[0x02, 0x02, 0xff], 18),
    (&[0x02, 0x01], 17),
];

// A message and its answer. The bytes of a call may stand after a handshake.
struct Step {
    handshake: Option<Handshake>,
    call: &'static [u8],
    answer: Answer,
}

// A handshake without metadata: the client's hash, its text, and the hash that it takes for the server's.
struct Handshake {
    hash: &'static [u8],
    text: Option<&'static str>,
    server: &'static [u8],
}

enum Answer {
    // the payload, and how many events wait for a verdict, which is OK, if any do
    Payload(&'static [u8], Option<usize>),
    // the same after this agent's text and hash, as CLIENT (02) or NONE (04) tells them
    Greeting(u8, &'static [u8], Option<usize>),
    Refused(HopRefused),
}

const STRANGER: &[u8] = &[7; 16];

const KNOWN: Handshake = Handshake {
    hash: &HASH,
    text: None,
    server: &HASH,
};

// BOTH, of no call and of one
const GREETED: Step = Step {
    handshake: Some(KNOWN),
    call: &[0x00, 0x00],
    answer: Answer::Payload(&[0, 0, 0, 0], None),
};

const GREETED_BY_A_CALL: Step = Step {
    handshake: Some(KNOWN),
    call: &APPEND,
    answer: Answer::Payload(&[0, 0, 0, 0, 0, 0, 0], Some(1)),
};

const ONE_CALL: Step = Step {
    handshake: None,
    call: &APPEND,
    answer: Answer::Payload(&[0, 0, 0], Some(1)),
};

// The messages of connections, in order.
const CONNECTIONS: &[&[Step]] = &[
    // a stranger is told this agent's text, and the call after the handshake is left aside; then it sends its text
    &[
        Step {
            handshake: Some(Handshake {
                hash: STRANGER,
                text: None,
                server: &[1; 16],
            }),
            call: &BATCH,
            answer: Answer::Greeting(0x04, &[], None),
        },
        Step {
            handshake: Some(Handshake {
                hash: STRANGER,
                text: Some(OWN_ORDER),
                server: &HASH,
            }),
            call: &BATCH,
            answer: Answer::Payload(&[0, 0, 0, 0, 0, 0, 0], Some(2)),
        },
        // no more handshakes: the same message again is a call whose metadata has a key of -4 bytes
        Step {
            handshake: Some(Handshake {
                hash: STRANGER,
                text: Some(OWN_ORDER),
                server: &HASH,
            }),
            call: &BATCH,
            answer: Answer::Refused(HopRefused::BadHandshake { at: 2 }),
        },
    ],
    // an old hash of the server: a known hash needs no text, and a text is not tested then
    &[Step {
        handshake: Some(Handshake {
            hash: &HASH,
            text: Some("no JSON"),
            server: &[1; 16],
        }),
        call: &APPEND,
        answer: Answer::Greeting(0x02, &[0, 0, 0], Some(1)),
    }],
    // an unknown one needs a text that is accepted
    &[Step {
        handshake: Some(Handshake {
            hash: STRANGER,
            text: Some(OWN_ORDER),
            server: &[1; 16],
        }),
        call: &APPEND,
        answer: Answer::Greeting(0x02, &[0, 0, 0], Some(1)),
    }],
    // an unknown name in the first message; the handshake was made all the same
    &[
        Step {
            handshake: Some(KNOWN),
            call: &[0x00, 0x02, 0x78, 0xff],
            answer: Answer::Payload(b"\x00\x00\x00\x00\x00\x01\x00\x1eunknown message", None),
        },
        ONE_CALL,
    ],
    // a union index in five bytes, and metadata, which is left aside
    &[Step {
        handshake: None,
        call: &[
            0x30, 0xda, 0x54, 0x05, 0x9d, 0xf7, 0x2d, 0x95, 0x84, 0xb8, 0x67, 0xd5, 0x20, 0x2e,
            0x20, 0x69, 0x80, 0x80, 0x80, 0x80, 0x00, 0x30, 0xda, 0x54, 0x05, 0x9d, 0xf7, 0x2d,
            0x95, 0x84, 0xb8, 0x67, 0xd5, 0x20, 0x2e, 0x20, 0x69, 0x02, 0x02, 0x02, 0x6b, 0x02,
            0xff, 0x00, 0x00, 0x0c, 0x61, 0x70, 0x70, 0x65, 0x6e, 0x64, 0x02, 0x02, 0x68, 0x02,
            0x76, 0x00, 0x02, 0x61,
        ],
        answer: Answer::Payload(&[0, 0, 0, 0, 0, 0, 0], Some(1)),
    }],
    // a text that is not accepted leaves the connection as it was
    &[
        Step {
            handshake: Some(Handshake {
                hash: STRANGER,
                text: Some("{}"),
                server: &HASH,
            }),
            call: &APPEND,
            answer: Answer::Refused(HopRefused::OtherProtocol),
        },
        GREETED_BY_A_CALL,
    ],
    // an unknown name, after which all is left aside, and an empty one
    &[
        GREETED,
        Step {
            handshake: None,
            call: &[0x00, 0x02, 0x78, 0xff],
            answer: Answer::Payload(b"\x00\x01\x00\x1eunknown message", None),
        },
        Step {
            handshake: None,
            call: &[0x00, 0x00, 0xff],
            answer: Answer::Payload(&[], None),
        },
    ],
];

// The bytes of a message.
fn message_of(
    alloc: Global,
    handshake: &Option<Handshake>,
    call: &[u8],
) -> Result<Vec<u8>, NoMemory> {
    let mut bytes = Vec::new(alloc);
    if let Some(Handshake { hash, text, server }) = handshake {
        bytes.extend_from_slice(hash)?;
        add_text(text, &mut bytes)?;
        bytes.extend_from_slice(server)?;
        bytes.push(0)?;
    }
    bytes.extend_from_slice(call)?;
    Ok(bytes)
}

fn add_text(text: &Option<&str>, bytes: &mut Vec<u8>) -> Result<(), NoMemory> {
    match text {
        None => Ok(bytes.push(0)?),
        Some(text) => {
            bytes.push(2)?;
            write_text(text, bytes)
        }
    }
}

// The text and the hash of this agent, as `found` tells them, and what stands after it.
fn greeting(alloc: Global, found: u8, rest: &[u8]) -> Result<Vec<u8>, NoMemory> {
    let mut text = Vec::new(alloc);
    write_text(protocol_text(), &mut text)?;
    let parts: [&[u8]; 6] = [&[found, 0x02], &text, &[0x02], &HASH, &[0x00], rest];
    Ok(parts.concat(alloc)?)
}

/// What a message is answered with, and how many events waited for this verdict, if any did.
pub fn answered(
    hop: &mut Hop,
    message: &[u8],
    verdict: Status,
) -> Result<(Vec<u8>, Option<usize>), HopRefused>
    ensures { IfOk result (λ found. length found.0.items ≤ 1_000) }
{
    match hop.answer(message)? {
        Asked::Reply(payload) => Ok((payload, None)),
        Asked::Events { front, batch } => {
            let mut payload = front;
            write_response(verdict, &mut payload)?;
            Ok((payload, Some(batch.len())))
        }
    }
}

type Answered = Result<(Vec<u8>, Option<usize>), HopRefused>;

fn is_payload(found: &Answered, payload: &[u8], count: Option<usize>) -> bool {
    match found {
        Ok((told, events)) => told.as_slice() == payload && *events == count,
        Err(_) => false,
    }
}

fn is_answer(alloc: Global, answer: &Answer, found: &Answered) -> Result<bool, NoMemory> {
    match answer {
        Answer::Payload(payload, count) => Ok(is_payload(found, payload, *count)),
        Answer::Greeting(how, rest, count) => {
            Ok(is_payload(found, &greeting(alloc, *how, rest)?, *count))
        }
        Answer::Refused(cause) => Ok(matches!(found, Err(refused) if refused == cause)),
    }
}

// Whether a message is answered so.
fn is_answered_so(alloc: Global, hop: &mut Hop, step: &Step) -> Result<bool, NoMemory> {
    let message = message_of(alloc, &step.handshake, step.call)?;
    is_answer(alloc, &step.answer, &answered(hop, &message, Status::Ok))
}

// The place of the first message of a new connection that is answered otherwise.
fn first_other(alloc: Global, connection: &[Step]) -> Result<Option<usize>, NoMemory> {
    let mut hop = Hop::new(alloc)?;
    for (place, step) in connection.iter().enumerate() {
        if !is_answered_so(alloc, &mut hop, step)? {
            return Ok(Some(place));
        }
    }
    Ok(None)
}

#[test]
fn messages_of_connections(rt: HostRuntime) {
    for (row, connection) in CONNECTIONS.iter().enumerate() {
        let other = first_other(rt.alloc(), connection);
        assert!(rt; other == Ok(None), "connection {row}, message {other:?}");
    }
}

fn greeted(alloc: Global) -> Result<Hop, Fail> {
    let mut hop = Hop::new(alloc)?;
    // BOTH with three nulls, and nothing after an empty name
    if !is_answered_so(alloc, &mut hop, &GREETED)? {
        return Err(Fail::from("not BOTH"));
    }
    Ok(hop)
}

// Whether a call is answered OK, and has so many events.
fn is_taken(hop: &mut Hop, call: &[u8], count: usize) -> bool {
    match answered(hop, call, Status::Ok) {
        Ok((payload, events)) => {
            payload.as_slice() == [0u8, 0, 0].as_slice() && events == Some(count)
        }
        Err(_) => false,
    }
}

#[test]
fn calls_after_a_handshake(rt: HostRuntime) -> Result<(), Fail> {
    let mut hop = greeted(rt.alloc())?;
    for case in &CALLS {
        let (call, count) = *case;
        assert!(rt; is_taken(&mut hop, call, count), "{call:?}");
    }
    Ok(())
}

// Where a message is at fault, if it is.
fn fault_of(hop: &mut Hop, message: &[u8]) -> Option<u64> {
    match answered(hop, message, Status::Ok) {
        Err(HopRefused::BadHandshake { at }) => Some(at),
        _ => None,
    }
}

#[test]
fn calls_that_are_refused(rt: HostRuntime) -> Result<(), Fail> {
    let mut hop = greeted(rt.alloc())?;
    for case in &REFUSED_CALLS {
        let (call, at) = *case;
        assert!(rt; fault_of(&mut hop, call) == Some(at), "{call:?}");
    }
    assert!(rt; is_answered_so(rt.alloc(), &mut hop, &ONE_CALL)?);
    Ok(())
}

#[test]
fn a_verdict_of_failure(rt: HostRuntime) -> Result<(), Fail> {
    let mut failed = Vec::new(rt.alloc());
    write_response(Status::Failed, &mut failed)?;
    assert!(rt; failed.as_slice() == [0u8, 0, 2].as_slice());
    one_reading();
    one_fault_at_a_place();
    one_answer();
    one_dialogue();
    answers_are_spelled();
    types_at_any_depth();
    Ok(())
}

// Whether a call has just the event of the body a with the header h = v.
fn is_the_event(hop: &mut Hop, call: &[u8]) -> bool {
    match hop.answer(call) {
        Ok(Asked::Events { front, batch }) => {
            if !front.is_empty() || batch.len() != 1 {
                return false;
            }
            let event = batch.get(0);
            event.headers().get("h") == Some("v") && event.body() == b"a".as_slice()
        }
        _ => false,
    }
}

// The row's event, in both spellings.
#[test]
fn an_event_of_a_call(rt: HostRuntime) -> Result<(), Fail> {
    let mut hop = greeted(rt.alloc())?;
    for call in [APPEND.as_slice(), SIZED.as_slice()] {
        assert!(rt; is_the_event(&mut hop, call), "{call:?}");
    }
    Ok(())
}

// Where a handshake is at fault that is cut after so many bytes.
fn fault_of_cut(len: usize) -> u64 {
    match len {
        0..16 => 0,
        16 => 16,
        17..33 => 17,
        33 => 33,
        _ => 34,
    }
}

// Whether the front of so many bytes is at fault there.
fn is_cut_so(hop: &mut Hop, message: &[u8], len: usize) -> bool {
    match message.get(..len) {
        Some(front) => fault_of(hop, front) == Some(fault_of_cut(len)),
        None => false,
    }
}

// Cut at each byte, and with no call after it; then the connection is as it was.
#[test]
fn handshakes_that_are_cut(rt: HostRuntime) -> Result<(), Fail> {
    let mut hop = Hop::new(rt.alloc())?;
    let message = message_of(rt.alloc(), &Some(KNOWN), &[])?;
    for len in 0..35 {
        assert!(rt; is_cut_so(&mut hop, &message, len), "{len}");
    }
    assert!(rt; is_answered_so(rt.alloc(), &mut hop, &GREETED_BY_A_CALL)?);
    Ok(())
}

// Where a handshake is at fault with these bytes after the hash, if it is.
fn fault_after_hash(alloc: Global, hop: &mut Hop, rest: &[u8]) -> Result<Option<u64>, AllocError> {
    let mut told = Vec::from_slice(alloc, &HASH)?;
    told.extend_from_slice(rest)?;
    Ok(fault_of(hop, &told))
}

#[test]
fn handshakes_with_no_text(rt: HostRuntime) -> Result<(), Fail> {
    let mut hop = Hop::new(rt.alloc())?;
    for case in &REFUSED_TEXTS {
        let (rest, at) = *case;
        let found = fault_after_hash(rt.alloc(), &mut hop, rest)?;
        assert!(rt; found == Some(at), "{rest:?}");
    }
    assert!(rt; is_answered_so(rt.alloc(), &mut hop, &GREETED_BY_A_CALL)?);
    Ok(())
}

// A body with which an event without headers has one byte too many.
fn large_body(alloc: Global) -> Result<Vec<u8>, AllocError> {
    vec![in alloc; 0u8; 33_554_425]
}

// append of an event of that body
fn large_append(alloc: Global) -> Result<Vec<u8>, NoMemory> {
    let mut call = Vec::from_slice(
        alloc,
        &[0x00, 0x0c, 0x61, 0x70, 0x70, 0x65, 0x6e, 0x64, 0x00],
    )?;
    write_long(33_554_425, &mut call)?;
    call.extend_from_slice(&large_body(alloc)?)?;
    Ok(call)
}

// appendBatch of the body x and of that one
fn large_batch(alloc: Global) -> Result<Vec<u8>, NoMemory> {
    let mut call = Vec::from_slice(
        alloc,
        &[
            0x00, 0x16, 0x61, 0x70, 0x70, 0x65, 0x6e, 0x64, 0x42, 0x61, 0x74, 0x63, 0x68, 0x04,
            0x00, 0x02, 0x78, 0x00,
        ],
    )?;
    write_bytes(&large_body(alloc)?, &mut call)?;
    call.push(0)?;
    Ok(call)
}

// Whether a call is answered FAILED, and no events wait for a verdict.
fn is_failed(hop: &mut Hop, call: &[u8]) -> bool {
    match answered(hop, call, Status::Ok) {
        Ok((payload, events)) => payload.as_slice() == [0u8, 0, 2].as_slice() && events.is_none(),
        Err(_) => false,
    }
}

#[test]
fn an_event_of_a_call_that_is_too_large(rt: HostRuntime) -> Result<(), Fail> {
    let mut hop = greeted(rt.alloc())?;
    let mut call = large_append(rt.alloc())?;
    assert!(rt; is_failed(&mut hop, &call));
    call.push(0)?;
    assert!(rt; fault_of(&mut hop, &call) == Some(33_554_438));
    Ok(())
}

#[test]
fn a_batch_with_an_event_that_is_too_large(rt: HostRuntime) -> Result<(), Fail> {
    let mut hop = greeted(rt.alloc())?;
    let call = large_batch(rt.alloc())?;
    assert!(rt; is_failed(&mut hop, &call));
    Ok(())
}

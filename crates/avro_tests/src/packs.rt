// Packs in the layout of Avro's Java Netty transport.
use avro_frame::{
    Message, PackRefused, Packs, no_pack_within, one_cut, one_feed, one_pack, write_pack,
};
use std::alloc::Global;
use std::test::Fail;

// Serial 7, one buffer of 16 bytes.
const APPEND: [u8; 28] = [
    0, 0, 0, 7, 0, 0, 0, 1, 0, 0, 0, 16, 0x00, 0x0c, 0x61, 0x70, 0x70, 0x65, 0x6e, 0x64, 0x02,
    0x02, 0x68, 0x02, 0x76, 0x00, 0x02, 0x61,
];

// Serial 8, three buffers: two bytes, none, one byte. Serial 9, no buffers.
const THREE_AND_NONE: [u8; 31] = [
    0, 0, 0, 8, 0, 0, 0, 3, 0, 0, 0, 2, 0x41, 0x42, 0, 0, 0, 0, 0, 0, 0, 1, 0x43, 0, 0, 0, 9, 0, 0,
    0, 0,
];

// The serials and payloads of the three.
const MESSAGES: [(u32, &[u8]); 3] = [
    (
        7,
        &[
            0x00, 0x0c, 0x61, 0x70, 0x70, 0x65, 0x6e, 0x64, 0x02, 0x02, 0x68, 0x02, 0x76, 0x00,
            0x02, 0x61,
        ],
    ),
    (8, b"ABC"),
    (9, &[]),
];

// Fronts of packs that pass a limit.
const TOO_GREAT: [(&[u8], PackRefused); 4] = [
    // 65,537 buffers
    (
        &[0, 0, 0, 1, 0, 1, 0, 1],
        PackRefused::TooMany { n: 65_537 },
    ),
    (
        &[0, 0, 0, 1, 255, 255, 255, 255, 0],
        PackRefused::TooMany { n: 4_294_967_295 },
    ),
    // a buffer of 67,108,865 bytes
    (
        &[0, 0, 0, 1, 0, 0, 0, 1, 4, 0, 0, 1],
        PackRefused::TooLarge { n: 67_108_865 },
    ),
    // a buffer of one byte and one of 67,108,864
    (
        &[0, 0, 0, 1, 0, 0, 0, 2, 0, 0, 0, 1, 7, 4, 0, 0, 0],
        PackRefused::TooLarge { n: 67_108_865 },
    ),
];

// Gives a piece, adds the message that it ends, if it ends one, and says how many of its bytes are taken.
fn add_message(packs: &mut Packs, piece: &[u8], out: &mut Vec<Message>) -> Result<usize, Fail> {
    let (taken, found) = packs.feed(piece)?;
    if let Some(message) = found {
        out.push(message)?;
    }
    Ok(taken)
}

// The messages of a stream that comes in pieces of this length.
fn messages(alloc: Global, stream: &[u8], len: usize) -> Result<Vec<Message>, Fail> {
    let mut packs = Packs::new(alloc);
    let mut out = Vec::new(alloc);
    let mut from = 0usize;
    for _ in 0..stream.len() {
        let to = from.saturating_add(len).min(stream.len());
        let piece = stream.get(from..to).unwrap_or(&[]);
        from = from.saturating_add(add_message(&mut packs, piece, &mut out)?);
    }
    Ok(out)
}

// Whether a message has this serial and payload.
fn is_message(message: &Message, serial: u32, payload: &[u8]) -> bool {
    message.serial == serial && message.payload.as_slice() == payload
}

fn are_the_messages(found: &[Message]) -> bool {
    for (message, (serial, payload)) in found.iter().zip(&MESSAGES) {
        if !is_message(message, *serial, payload) {
            return false;
        }
    }
    found.len() == MESSAGES.len()
}

#[test]
fn a_stream_in_pieces(rt: HostRuntime) -> Result<(), Fail> {
    let stream = [APPEND.as_slice(), &THREE_AND_NONE].concat(rt.alloc())?;
    for len in [1usize, 3, 12, 100] {
        assert!(rt;
            are_the_messages(&messages(rt.alloc(), &stream, len)?),
            "{len}"
        );
    }
    Ok(())
}

// Whether a pack that is cut here is read by two pieces, and is waited for after the first.
fn is_read_by_two(alloc: Global, cut: usize) -> Result<bool, Fail> {
    let (front, back) = APPEND.get(..cut).zip(APPEND.get(cut..)).ok_or("no cut")?;
    let mut packs = Packs::new(alloc);
    let is_waited_for = matches!(packs.feed(front)?, (taken, None) if taken == cut);
    match packs.feed(back)? {
        (taken, Some(message)) => {
            let is_whole = is_message(&message, 7, MESSAGES[0].1);
            Ok(is_waited_for && is_whole && taken == back.len())
        }
        (_, None) => Ok(false),
    }
}

#[test]
fn cut_at_each_byte(rt: HostRuntime) -> Result<(), Fail> {
    for cut in 0..28 {
        assert!(rt; is_read_by_two(rt.alloc(), cut)?, "{cut}");
    }
    Ok(())
}

// Whether this piece, and then a pack, are refused for this cause.
fn is_refused_for_good(alloc: Global, piece: &[u8], want: PackRefused) -> bool {
    let mut packs = Packs::new(alloc);
    let first = packs.feed(piece).err();
    first == Some(want) && packs.feed(&APPEND).err() == Some(want)
}

#[test]
fn what_passes_a_limit_is_refused_for_good(rt: HostRuntime) {
    for case in &TOO_GREAT {
        let (piece, want) = *case;
        assert!(rt; is_refused_for_good(rt.alloc(), piece, want), "{piece:?}");
    }
}

// How many bytes are taken, and how long the payload of the message is that they end, if they end one.
type Fed = Result<(usize, Option<usize>), PackRefused>;

fn fed(packs: &mut Packs, bytes: &[u8]) -> Fed {
    match packs.feed(bytes)? {
        (taken, None) => Ok((taken, None)),
        (taken, Some(message)) => Ok((taken, Some(message.payload.len()))),
    }
}

// What comes of 65,536 buffers of length 0, and of a buffer of 67,108,864 bytes.
fn greatest_fed(alloc: Global, zeros: &[u8]) -> [Fed; 3] {
    let mut packs = Packs::new(alloc);
    [
        fed(&mut packs, &[0, 0, 0, 1, 0, 1, 0, 0]),
        fed(&mut packs, zeros),
        fed(&mut packs, &[0, 0, 0, 1, 0, 0, 0, 1, 4, 0, 0, 0, 0]),
    ]
}

// The message of no bytes is whole, and the large one is waited for.
const GREATEST: [Fed; 3] = [Ok((8, None)), Ok((4 * 65_536, Some(0))), Ok((13, None))];

#[test]
fn the_greatest_counts_are_taken(rt: HostRuntime) -> Result<(), Fail> {
    let zeros = vec![in rt.alloc(); 0u8; 4 * 65_536]?;
    assert!(rt; greatest_fed(rt.alloc(), &zeros) == GREATEST);
    Ok(())
}

#[test]
fn a_reply_is_written(rt: HostRuntime) -> Result<(), Fail> {
    let mut reply = Vec::new(rt.alloc());
    write_pack(7, &[0, 0, 0], &mut reply)?;
    let want = [0u8, 0, 0, 7, 0, 0, 0, 1, 0, 0, 0, 3, 0, 0, 0];
    assert!(rt; reply.as_slice() == want.as_slice());
    one_pack();
    no_pack_within();
    one_feed();
    one_cut();
    Ok(())
}

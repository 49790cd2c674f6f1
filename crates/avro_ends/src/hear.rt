// The reply that a link gives.
ghost use Rattle.std.specs.Prelude.{◌≡◌, ◌≤◌, ◌<◌, ◌++◌, [], length, OnOk, IfErr, IsErrOf, IfOk};
ghost use Rattle.flume_host.specs.Causes.{HasCause, Rose};
ghost use Rattle.avro_frame.specs.Feed.{Holds};
ghost use Rattle.avro_ends.specs.Sessions.{IsOpen, held_in};
ghost use Rattle.avro_ends.specs.Hearing.{CutsPiece, HearsTurn, HearsReply};

use crate::refused::DeliverRefused;
use avro_frame::{Message, PackRefused, Packs, no_pack_within};
use flume_host::{Link, LinkRead};
use std::alloc::Global;

/// What one read brought.
#[derive(Drop)]
pub enum Piece {
    // The last bytes of the reply, and whether more stand after it.
    Whole { message: Message, more: bool },
    // Bytes of the reply.
    Part,
    // Nothing came for a while.
    Quiet,
}

// Puts what was read after what came of the reply before.
#[tactic(auto, using(crate::proofs::Listening::opened_is))]
fn cut_piece(packs: &mut Packs, piece: &[u8]) -> Result<Piece, DeliverRefused>
    requires some { 0 < length piece.now }
    requires opened { IsOpen packs.old.packing }
    requires room { length piece.now ≤ packs.old.room }
    ensures { CutsPiece (held_in packs.old.packing ++ piece.now) result packs.new.packing }
{
    no_pack_within();
    match packs.feed(piece) {
        Ok((n, Some(message))) => Ok(Piece::Whole {
            message,
            more: n < piece.len(),
        }),
        Ok((_, None)) => Ok(Piece::Part),
        Err(PackRefused::TooMany { .. }) => Err(DeliverRefused::BadReply { at: 0 }),
        Err(PackRefused::TooLarge { .. }) => Err(DeliverRefused::BadReply { at: 0 }),
        // room was made for the piece
        Err(PackRefused::NoMemory) => unreachable!(),
    }
}

// How many bytes are read at once.
const PIECE: usize = 4096;

// Reads once. Room for what comes is made before, so that no reply is heard for which there is no memory.
fn hear_turn<L: Link>(link: &mut L, packs: &mut Packs) -> Result<Piece, DeliverRefused>
    requires { IsOpen packs.old.packing }
    ensures hears { HearsTurn (held_in packs.old.packing) result packs.new.packing
        (L.told link.old) (L.told link.new) }
    ensures fault { IsErrOf result DeliverRefused.LinkFault → Rose (L.faults link.old)
        (L.faults link.new) }
    ensures well { OnOk result (L.faults link.new ≡ L.faults link.old) }
{
    let Ok(()) = packs.make_room(PIECE) else {
        return Err(DeliverRefused::NoMemory);
    };
    let mut buf = [0u8; PIECE];
    match link.read(&mut buf) {
        Ok(LinkRead::Got(n)) => match cut_piece(packs, &buf[..n]) {
            Ok(piece) => Ok(piece),
            Err(e) => Err(e),
        },
        Ok(LinkRead::Quiet) => Ok(Piece::Quiet),
        Ok(LinkRead::End) => Err(DeliverRefused::Ended),
        Err(_) => Err(DeliverRefused::LinkFault),
    }
}

// The most turns of a delivery.
const TURNS: u64 = 1 << 40;

// The most quiet reads of a delivery.
const QUIETS: u32 = 100;

/// Reads a whole pack, and tells whether bytes stand after it.
pub fn hear<L: Link>(alloc: Global, link: &mut L) -> Result<(Message, bool), DeliverRefused>
    ensures hears { HearsReply result (L.told link.old) (L.told link.new) }
    ensures fault { IsErrOf result DeliverRefused.LinkFault → Rose (L.faults link.old)
        (L.faults link.new) }
{
    let mut packs = Packs::new(alloc);
    let mut turns = 0;
    let mut quiets = 0;
    while turns < TURNS {
        match hear_turn(link, &mut packs) {
            Ok(Piece::Whole { message, more }) => return Ok((message, more)),
            Ok(Piece::Part) => turns += 1,
            Ok(Piece::Quiet) => {
                quiets += 1;
                turns += 1;
                if quiets == QUIETS {
                    return Err(DeliverRefused::Silent);
                }
            }
            Err(e) => return Err(e),
        }
    }
    Err(DeliverRefused::Turns)
}

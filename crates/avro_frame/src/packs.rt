// Cuts a stream of packs into messages.
ghost use Rattle.std.specs.Prelude.{◌≡◌, ◌+◌, ◌≤◌, ◌<◌, [], List, ℕ, min, length, IfOk, IsErrOf, OnErr, OnOk, vec_len, vec_capacity};
ghost use Rattle.avro_frame.specs.Pack.{IsPack, OnePack, NoPackInPart, NoPackInLarge};
ghost use Rattle.avro_frame.specs.Feed.{Holds, packing, Feeds, FeedsBytes, GivesBack, OneFeed};
ghost use Rattle.avro_frame.specs.Pending.{IsAt, IsBehind, IsEnded};
ghost use Rattle.avro_frame.specs.Stream.{FeedingCuts, OneCut, WrittenIsPack};

use crate::pending::{Cursor, Step, at_start, fill, give_back, join, make_room, number_at};
use std::alloc::{AllocError, Global};
use std::marker::Model;
use std::mem;

/// A pack's serial, and the bytes of its buffers joined.
#[derive(Debug, PartialEq, Eq, Drop)]
pub struct Message {
    pub serial: u32,
    pub payload: Vec<u8>,
}

/// Why a pack is not taken.
#[derive(Clone, Copy, Debug, PartialEq, Eq)]
pub enum PackRefused {
    /// It has `n` buffers, more than 65,536.
    TooMany { n: u32 },
    /// Its buffers up to and with the one that passes 67,108,864 bytes have `n` bytes.
    TooLarge { n: u64 },
    /// Memory ran out. Nothing has changed.
    NoMemory,
}

/// A stream of packs, in whatever pieces it comes.
#[derive(Drop)]
pub struct Packs {
    held: Vec<u8>,
    // room for the next message
    spare: Vec<u8>,
    cursor: Cursor,
    refused: Option<PackRefused>,
}

impl Model for Packs {
    ghost use Rattle.std.specs.Prelude.{◌≡◌, ◌+◌, ◌-◌, [], min, vec_capacity, vec_len};
    ghost use Rattle.avro_frame.specs.Feed.{PackState, packing};
    ghost use Rattle.avro_frame.specs.Pending.{IsAt, IsBehind};

    ghost Value = { PackState };

    ghost view = { λ p. record {
      packing = packing p.refused p.held.items;
      room = min (vec_capacity p.held) (vec_capacity p.spare) - vec_len p.held;
      kept = vec_capacity p.held + vec_capacity p.spare;
    } };

    ghost invariant = { λ p. IsAt p.held.items p.cursor
        × IsBehind p.held.items p.cursor.need p.cursor.due × (p.spare.items ≡ []) };
}

// The message of a whole pack, where there is memory for it. It takes the room, and leaves none.
fn message_of(held: &[u8], spare: &mut Vec<u8>) -> Result<Message, AllocError>
    requires ended { IsEnded held.now }
    requires none { spare.old.items ≡ [] }
    ensures pack { IfOk result (λ m. IsPack held.now m.serial m.payload.items) }
    ensures there { OnErr result (vec_capacity spare.old < length held.now) }
    ensures none { spare.new.items ≡ [] }
    ensures given { OnOk result (vec_capacity spare.new ≡ 0) }
{
    make_room(spare, held.len())?;
    let (_, bytes) = held.split_at(8);
    let alloc = *spare.allocator();
    let mut payload = mem::replace(spare, Vec::new(alloc));
    join(bytes, &mut payload);
    Ok(Message {
        serial: number_at(held, 0),
        payload,
    })
}

fn feed_pending(
    held: &mut Vec<u8>,
    spare: &mut Vec<u8>,
    cursor: &mut Cursor,
    refused: &mut Option<PackRefused>,
    piece: &[u8],
) -> Result<(usize, Option<Message>), PackRefused>
    requires here { IsAt held.old.items cursor.old }
    requires behind { IsBehind held.old.items cursor.old.need cursor.old.due }
    requires none { spare.old.items ≡ [] }
    requires open { refused.old ≡ None }
    ensures feeds { FeedsBytes held.old.items piece.now result
        (packing refused.new held.new.items) }
    ensures room { vec_len held.old + length piece.now
        ≤ min (vec_capacity held.old) (vec_capacity spare.old)
        → ¬ IsErrOf result PackRefused.NoMemory }
    ensures here { IsAt held.new.items cursor.new }
    ensures behind { IsBehind held.new.items cursor.new.need cursor.new.due }
    ensures none { spare.new.items ≡ [] }
    ensures back { GivesBack result (vec_capacity held.new + vec_capacity spare.new) }
{
    if make_room(held, piece.len()).is_err() {
        return Err(PackRefused::NoMemory);
    }
    let before = held.len();
    let saved = *cursor;
    let (taken, found) = fill(held, cursor, piece);
    match found {
        Step::More => Ok((taken, None)),
        Step::Ends => match message_of(held, spare) {
            Ok(message) => {
                give_back(held);
                *cursor = at_start();
                Ok((taken, Some(message)))
            }
            Err(_) => {
                held.truncate(before);
                *cursor = saved;
                Err(PackRefused::NoMemory)
            }
        },
        Step::Passes(e) => {
            give_back(held);
            *spare = Vec::new(*held.allocator());
            *cursor = at_start();
            *refused = Some(e);
            Err(e)
        }
    }
}

impl Packs {
    /// At the start of a pack.
    pub fn new(alloc: Global) -> Packs
        ensures start { result.packing ≡ Holds [] }
        ensures none { result.kept ≡ 0 }
    {
        Packs {
            held: Vec::new(alloc),
            spare: Vec::new(alloc),
            cursor: at_start(),
            refused: None,
        }
    }

    /// Makes room for a piece of so many bytes, so that feeding it wants no memory.
    pub fn make_room(&mut self, more: usize) -> Result<(), AllocError>
        ensures same { self.new.packing ≡ self.old.packing }
        ensures room { OnOk result (more ≤ self.new.room) }
    {
        make_room(&mut self.held, more)?;
        make_room(&mut self.spare, self.held.len() + more)
    }

    /// Takes that many bytes of the piece's front: those up to the end of the present pack where it ends in the
    /// piece, whose message is then given, and otherwise the whole piece. After `TooMany` or `TooLarge` every later
    /// call answers the same. A piece for which room was made wants no memory. Where a message is given, or a limit is
    /// passed, the room is given back but for 65,536 bytes.
    pub fn feed(&mut self, piece: &[u8]) -> Result<(usize, Option<Message>), PackRefused>
        ensures feeds { Feeds self.old.packing piece.now result self.new.packing }
        ensures room { (bytes : List ℕ) → self.old.packing ≡ Holds bytes → 0 < length piece.now
            → length piece.now ≤ self.old.room → ¬ IsErrOf result PackRefused.NoMemory }
        ensures back { (bytes : List ℕ) → self.old.packing ≡ Holds bytes
            → GivesBack result self.new.kept }
    {
        if let Some(e) = self.refused {
            return Err(e);
        }
        feed_pending(
            &mut self.held,
            &mut self.spare,
            &mut self.cursor,
            &mut self.refused,
            piece,
        )
    }
}

/// No pack begins another, so a stream is cut in one way.
pub fn one_pack()
    ensures { OnePack }
{}

/// What is less than a pack has none at its front, nor has what passes a limit.
pub fn no_pack_within()
    ensures part { NoPackInPart }
    ensures large { NoPackInLarge }
{}

/// A piece has one outcome, except when out of memory: `Packs::feed` leaves nothing open.
pub fn one_feed()
    ensures { OneFeed }
{}

/// A whole stream is cut in one way, and `Packs::feed` gives just its packs, in whatever pieces the stream comes. What
/// `write_pack` adds is one.
pub fn one_cut()
    ensures pieces { FeedingCuts }
    ensures one { OneCut }
    ensures written { WrittenIsPack }
{}

// A connection, before and after its handshake.
ghost use Rattle.std.specs.Prelude.{◌≡◌, IfOk, IsOkAnd, false};
ghost use Rattle.avro_hop.specs.Handshake.{own_hash};
ghost use Rattle.avro_hop.specs.Dialogue.{Answers, AnswersFirstOf};
ghost use Rattle.avro_hop.specs.Bounds.{IsBounded};

use crate::call::call_at;
use crate::handshake::{Match, add_greeting, match_of, place_of, request_at};
use crate::protocol::{hash_of, protocol_text};
use event_core::{Batch, NoMemory};
use std::alloc::{AllocError, Global};
use std::marker::Model;

/// What a message asks for.
#[derive(Drop)]
pub enum Asked {
    /// The whole payload to send.
    Reply(Vec<u8>),
    /// The verdict on these events. The payload to send is `front`, followed by the response of that verdict.
    Events { front: Vec<u8>, batch: Batch },
}

/// Why a message ends its connection.
#[derive(Clone, Copy, Debug, PartialEq, Eq)]
pub enum HopRefused {
    /// The handshake or call has no spelling from this offset of the payload on.
    BadHandshake { at: u64 },
    /// The client's protocol text is not accepted.
    OtherProtocol,
    /// Memory ran out.
    NoMemory,
}

impl From<NoMemory> for HopRefused {
    ghost use Rattle.std.specs.Prelude.{◌≡◌};
    ghost use Rattle.avro_hop.specs.declared.hop.HopRefused.TheVariants as refusals;

    ghost from_gives = { λ _ e. e ≡ refusals.NoMemory };

    fn from(_refused: NoMemory) -> HopRefused {
        HopRefused::NoMemory
    }
}

impl From<AllocError> for HopRefused {
    ghost use Rattle.std.specs.Prelude.{◌≡◌};
    ghost use Rattle.avro_hop.specs.declared.hop.HopRefused.TheVariants.{NoMemory};

    ghost from_gives = { λ _ e. e ≡ NoMemory };

    fn from(_refused: AllocError) -> HopRefused {
        HopRefused::NoMemory
    }
}

/// A connection as its server sees it (Avro specification, "Protocol Wire Format").
#[derive(Drop)]
pub struct Hop {
    hash: [u8; 16],
    greeted: bool,
    alloc: Global,
}

impl Model for Hop {
    ghost use Rattle.std.specs.Prelude.{◌≡◌, Bool};

    ghost Value = { Bool };

    ghost use Rattle.avro_hop.specs.Handshake.{own_hash};

    ghost view = { λ h. h.greeted };

    ghost invariant = { λ h. h.hash ≡ own_hash };
}

fn first_at(alloc: Global, hash: &[u8; 16], bytes: &[u8]) -> Result<(Asked, bool), HopRefused>
    requires { hash.now ≡ own_hash }
    ensures { AnswersFirstOf bytes.now result }
{
    let (request, call) = match request_at(bytes) {
        Ok(read) => read,
        Err(e) => return Err(HopRefused::BadHandshake { at: place_of(e) }),
    };
    let found = match_of(alloc, &request, hash)?;
    let mut front = Vec::new(alloc);
    add_greeting(found, hash, &mut front)?;
    match found {
        Match::Stranger => Ok((Asked::Reply(front), false)),
        _ => {
            let asked = call_at(alloc, bytes, call, front)?;
            Ok((asked, true))
        }
    }
}

impl Hop {
    /// A connection before its handshake. It takes no memory.
    pub fn new(alloc: Global) -> Result<Hop, NoMemory>
        ensures { IsOkAnd result (λ hop. hop ≡ false) }
    {
        Ok(Hop {
            hash: hash_of(protocol_text()),
            greeted: false,
            alloc,
        })
    }

    /// What a message asks for. An `Err` leaves the connection as it was.
    ///
    /// The first message has a handshake in front of its call. After it was answered with `Both` or `Client` the
    /// connection has no more of them. A reply has at most 550 bytes and a `front` 531, and each event of a message
    /// takes two of its bytes at least.
    pub fn answer(&mut self, message: &[u8]) -> Result<Asked, HopRefused>
        ensures answers { Answers self.old message.now result self.new }
        ensures bounds { IfOk result (λ asked. IsBounded message.now asked) }
    {
        if self.greeted {
            return call_at(self.alloc, message, 0, Vec::new(self.alloc));
        }
        let (asked, greeted) = first_at(self.alloc, &self.hash, message)?;
        self.greeted = greeted;
        Ok(asked)
    }
}

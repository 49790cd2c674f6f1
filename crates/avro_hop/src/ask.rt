// What a client asks.
ghost use Rattle.std.specs.Prelude.{◌≡◌, ◌++◌, OnOk};
ghost use Rattle.avro_hop.specs.Handshake.{own_hash};
ghost use Rattle.avro_hop.specs.Asking.{own_request, batch_call, asking, IsAskedFor, FitsPack};

use crate::protocol::{hash_of, protocol_text};
use avro_binary::{add_batch, write_fixed, write_int, write_text};
use event_core::{Batch, NoMemory};

// Adds this agent's handshake.
fn add_request(hash: &[u8; 16], out: &mut Vec<u8>) -> Result<(), NoMemory>
    requires { hash.now ≡ own_hash }
    ensures { OnOk result (out.new.items ≡ out.old.items ++ own_request) }
{
    write_fixed(hash, out)?;
    write_int(1, out)?;
    write_text(protocol_text(), out)?;
    write_fixed(hash, out)?;
    write_int(0, out)
}

// Adds a call of `appendBatch`.
fn add_call(batch: &Batch, out: &mut Vec<u8>) -> Result<(), NoMemory>
    ensures { OnOk result (out.new.items ≡ out.old.items ++ batch_call batch.now) }
{
    out.push(0)?;
    write_text("appendBatch", out)?;
    add_batch(batch, out)
}

/// Adds the payload of a request: one `appendBatch` of all events (Flume's AvroSourceProtocol). A connection's first
/// has this agent's handshake in front, with its own hash for the server's too. An `Err` may have added some of it.
pub fn add_asking(first: bool, batch: &Batch, out: &mut Vec<u8>) -> Result<(), NoMemory>
    ensures { OnOk result (out.new.items ≡ out.old.items ++ asking first batch.now) }
{
    if first {
        add_request(&hash_of(protocol_text()), out)?;
    }
    add_call(batch, out)
}

/// A server of this agent that is asked so has these events to take, and no others.
pub fn asked_for()
    ensures { IsAskedFor }
{}

/// The request of a sink's batch fits into a pack.
pub fn asking_fits()
    ensures { FitsPack }
{}

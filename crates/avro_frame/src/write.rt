// Writes packs.
ghost use Rattle.std.specs.Prelude.{◌≡◌, ◌∷◌, ◌++◌, [], ◌+◌, ◌≤◌, ℕ, List, length, take, drop, OnOk, OnErr, vec_len, vec_capacity};
ghost use Rattle.avro_frame.specs.Pack.{pack, begun, max_bytes, u32_bytes};

use crate::pending::put;
use std::alloc::AllocError;

// Adds a number for which room is there.
#[tactic(auto, unfolding(crate::specs::Pack::u32_bytes))]
fn put_u32(into: &mut Vec<u8>, n: u32)
    requires { vec_len into.old + 4 ≤ vec_capacity into.old }
    ensures items { into.new.items ≡ into.old.items ++ u32_bytes n }
    ensures len { vec_len into.new ≡ vec_len into.old + 4 }
    ensures room { vec_capacity into.old ≤ vec_capacity into.new }
{
    put(into, &n.to_be_bytes());
}

/// Adds a pack of one buffer. An `Err` is out of memory, and then nothing was added.
pub fn write_pack(serial: u32, payload: &[u8], into: &mut Vec<u8>) -> Result<(), AllocError>
    requires { length payload.now ≤ max_bytes }
    ensures ok { OnOk result (into.new.items ≡ into.old.items ++ pack serial (payload.now ∷ [])) }
    ensures err { OnErr result (into.new.items ≡ into.old.items) }
{
    into.reserve(12 + payload.len())?;
    put_u32(into, serial);
    put_u32(into, 1);
    put_u32(into, payload.len() as u32);
    put(into, payload);
    Ok(())
}

/// Begins a pack of one buffer. What is added after it is the buffer, up to [`end_pack`], so that no byte of it is copied.
/// An `Err` is out of memory, and then nothing was added.
pub fn begin_pack(serial: u32, into: &mut Vec<u8>) -> Result<(), AllocError>
    ensures ok { OnOk result (into.new.items ≡ into.old.items ++ begun serial) }
    ensures err { OnErr result (into.new.items ≡ into.old.items) }
{
    into.reserve(12)?;
    put_u32(into, serial);
    put_u32(into, 1);
    put_u32(into, 0);
    Ok(())
}

/// Ends a pack that was begun at the first byte. It takes no memory.
pub fn end_pack(bytes: &mut Vec<u8>)
    requires some { 12 ≤ length bytes.old.items }
    requires fits { length bytes.old.items ≤ 12 + max_bytes }
    ensures { (serial : ℕ) (payload : List ℕ) → bytes.old.items ≡ begun serial ++ payload
        → bytes.new.items ≡ pack serial (payload ∷ []) }
{
    let [a, b, c, d] = ((bytes.len() - 12) as u32).to_be_bytes();
    bytes[8] = a;
    bytes[9] = b;
    bytes[10] = c;
    bytes[11] = d;
}

// Writes values.
ghost use Rattle.std.specs.Prelude.{◌≡◌, ◌+◌, ◌≤◌, ◌++◌, ◌∷◌, [], length, OnOk, OnErr, pos, vec_len, vec_capacity};
ghost use Rattle.std.specs.List.{flat_map};
ghost use Rattle.avro_binary.specs.Number.{zigzag};
ghost use Rattle.avro_binary.specs.Written.{written_groups, written_number, written_boolean, written_bytes, written_entry, written_map, written_event, written_batch};

use event_core::{Batch, Event, Headers, NoMemory};

// Adds a byte for which room is there.
fn put(into: &mut Vec<u8>, byte: u8)
    requires { vec_len into.old + 1 ≤ vec_capacity into.old }
    ensures items { into.new.items ≡ into.old.items ++ byte ∷ [] }
    ensures len { vec_len into.new ≡ vec_len into.old + 1 }
    ensures room { vec_capacity into.old ≤ vec_capacity into.new }
{
    if into.push(byte).is_err() {
        unreachable!();
    }
}

// Adds the groups of a number, ten at most, for which room is there.
fn put_groups(into: &mut Vec<u8>, n: u64)
    requires { vec_len into.old + 10 ≤ vec_capacity into.old }
    ensures items { into.new.items ≡ into.old.items ++ written_groups 10 n }
    ensures len { vec_len into.new ≤ vec_len into.old + 10 }
    ensures room { vec_capacity into.old ≤ vec_capacity into.new }
{
    let mut rest = n;
    'groups: for _i in 0..10u8 {
        if rest < 128 {
            put(into, rest as u8);
            return;
        }
        put(into, (rest % 128) as u8 + 128);
        rest /= 128;
    }
}

// A number without its sign.
fn without_sign(z: i64) -> u64
    ensures { result ≡ zigzag z }
{
    if z < 0 {
        2 * (-1 - z) as u64 + 1
    } else {
        2 * z as u64
    }
}

/// Adds a long in its shortest spelling. An `Err` adds nothing.
pub fn write_long(value: i64, into: &mut Vec<u8>) -> Result<(), NoMemory>
    ensures ok { OnOk result (into.new.items ≡ into.old.items ++ written_number value) }
    ensures err { OnErr result (into.new.items ≡ into.old.items) }
{
    into.reserve(10)?;
    put_groups(into, without_sign(value));
    Ok(())
}

/// Adds an int in its shortest spelling. An `Err` adds nothing.
pub fn write_int(value: i32, into: &mut Vec<u8>) -> Result<(), NoMemory>
    ensures ok { OnOk result (into.new.items ≡ into.old.items ++ written_number value) }
    ensures err { OnErr result (into.new.items ≡ into.old.items) }
{
    write_long(i64::from(value), into)
}

/// Adds a boolean. An `Err` adds nothing.
pub fn write_bool(value: bool, into: &mut Vec<u8>) -> Result<(), NoMemory>
    ensures ok { OnOk result (into.new.items ≡ into.old.items ++ written_boolean value) }
    ensures err { OnErr result (into.new.items ≡ into.old.items) }
{
    into.push(if value { 1 } else { 0 })?;
    Ok(())
}

/// Adds bytes after their length. An `Err` adds nothing.
pub fn write_bytes(value: &[u8], into: &mut Vec<u8>) -> Result<(), NoMemory>
    ensures ok { OnOk result (into.new.items ≡ into.old.items ++ written_bytes value.now) }
    ensures err { OnErr result (into.new.items ≡ into.old.items) }
{
    into.reserve(value.len() + 10)?;
    put_groups(into, 2 * value.len() as u64);
    if into.extend_from_slice(value).is_err() {
        unreachable!();
    }
    Ok(())
}

/// Adds a text after its length. An `Err` adds nothing.
pub fn write_text(value: &str, into: &mut Vec<u8>) -> Result<(), NoMemory>
    ensures ok { OnOk result (into.new.items ≡ into.old.items ++ written_bytes value.now) }
    ensures err { OnErr result (into.new.items ≡ into.old.items) }
{
    write_bytes(value.as_bytes(), into)
}

/// Adds the 16 bytes of a hash. An `Err` adds nothing.
pub fn write_fixed(value: &[u8; 16], into: &mut Vec<u8>) -> Result<(), NoMemory>
    ensures ok { OnOk result (into.new.items ≡ into.old.items ++ value.now) }
    ensures err { OnErr result (into.new.items ≡ into.old.items) }
{
    into.extend_from_slice(value)?;
    Ok(())
}

fn add_entries(headers: &Headers, out: &mut Vec<u8>) -> Result<(), NoMemory>
    ensures { OnOk result (out.new.items ≡ out.old.items ++ flat_map written_entry headers.now) }
{
    'entries: for (key, value) in headers.iter() {
        write_text(key, out)?;
        write_text(value, out)?;
    }
    Ok(())
}

// The count of a block. No memory holds as many items as a long can't count.
fn add_count(len: usize, out: &mut Vec<u8>) -> Result<(), NoMemory>
    ensures { OnOk result (out.new.items ≡ out.old.items ++ written_number (pos len)) }
{
    let Ok(count) = i64::try_from(len) else {
        return Err(NoMemory);
    };
    write_long(count, out)
}

fn add_map(headers: &Headers, out: &mut Vec<u8>) -> Result<(), NoMemory>
    ensures { OnOk result (out.new.items ≡ out.old.items ++ written_map headers.now) }
{
    if headers.len() == 0 {
        out.push(0)?;
        return Ok(());
    }
    add_count(headers.len(), out)?;
    add_entries(headers, out)?;
    out.push(0)?;
    Ok(())
}

fn add_event(event: &Event, out: &mut Vec<u8>) -> Result<(), NoMemory>
    ensures { OnOk result (out.new.items ≡ out.old.items ++ written_event event.now) }
{
    add_map(event.headers(), out)?;
    write_bytes(event.body(), out)
}

fn add_events(batch: &Batch, out: &mut Vec<u8>) -> Result<(), NoMemory>
    ensures { OnOk result (out.new.items ≡ out.old.items ++ flat_map written_event batch.now) }
{
    'events: for i in 0..batch.len() {
        add_event(batch.get(i), out)?;
    }
    Ok(())
}

/// Adds an array of events, in one block and without a copy. An `Err` may have added some of it.
pub fn add_batch(batch: &Batch, out: &mut Vec<u8>) -> Result<(), NoMemory>
    ensures { OnOk result (out.new.items ≡ out.old.items ++ written_batch batch.now) }
{
    if batch.len() == 0 {
        out.push(0)?;
        return Ok(());
    }
    add_count(batch.len(), out)?;
    add_events(batch, out)?;
    out.push(0)?;
    Ok(())
}

/// Adds an event. An `Err` adds nothing.
pub fn write_event(value: &Event, into: &mut Vec<u8>) -> Result<(), NoMemory>
    ensures ok { OnOk result (into.new.items ≡ into.old.items ++ written_event value.now) }
    ensures err { OnErr result (into.new.items ≡ into.old.items) }
{
    let mut out = Vec::new(*into.allocator());
    add_event(value, &mut out)?;
    into.extend_from_slice(&out)?;
    Ok(())
}

/// Adds an array of events, in one block. An `Err` adds nothing.
pub fn write_batch(value: &Batch, into: &mut Vec<u8>) -> Result<(), NoMemory>
    ensures ok { OnOk result (into.new.items ≡ into.old.items ++ written_batch value.now) }
    ensures err { OnErr result (into.new.items ≡ into.old.items) }
{
    let mut out = Vec::new(*into.allocator());
    add_batch(value, &mut out)?;
    into.extend_from_slice(&out)?;
    Ok(())
}

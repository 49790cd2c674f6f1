// Writing a record.
ghost use Rattle.std.specs.Prelude.{◌≡◌, ◌<◌, ◌≤◌, ◌^◌, ◌+◌, ◌∷◌, ◌++◌, length, flat_map, vec_len, vec_capacity};
ghost use Rattle.event_core.specs.Numbers.{u32_bytes, u64_bytes};
ghost use Rattle.event_core.specs.Content.{counted_bytes, header_bytes, headers_size, size};
ghost use Rattle.record_form.specs.Record.{HasFields, IsWithinLimits, record_length, spelling};
ghost use Rattle.record_form.specs.declared.record.Rec.TheVariants.{Put};
ghost use Rattle.record_form.specs.declared.record.TheConstants.{MAX_PUT_SIZE};

use crate::record::{COMMIT_PUT, COMMIT_TAKE, END, MAX_PUT_SIZE, PUT, ROLLBACK, Rec, TAKE};
use byteorder::{BigEndian, ByteOrder};
use event_core::{Event, Headers, put};

/// Adds a number of four bytes, the greatest byte first, for which there is room.
pub fn put_u32(into: &mut Vec<u8>, number: u32)
    requires { vec_len into.old + 4 ≤ vec_capacity into.old }
    ensures items { into.new.items ≡ into.old.items ++ u32_bytes number }
    ensures len { vec_len into.new ≡ vec_len into.old + 4 }
    ensures room { vec_capacity into.old ≤ vec_capacity into.new }
{
    let mut bytes = [0u8; 4];
    BigEndian::write_u32(&mut bytes, number);
    put(into, &bytes);
}

/// Adds a number of eight bytes, the greatest byte first, for which there is room.
pub fn put_u64(into: &mut Vec<u8>, number: u64)
    requires { vec_len into.old + 8 ≤ vec_capacity into.old }
    ensures items { into.new.items ≡ into.old.items ++ u64_bytes number }
    ensures len { vec_len into.new ≡ vec_len into.old + 8 }
    ensures room { vec_capacity into.old ≤ vec_capacity into.new }
{
    let mut bytes = [0u8; 8];
    BigEndian::write_u64(&mut bytes, number);
    put(into, &bytes);
}

// Adds four bytes of length, and the bytes.
fn put_counted(into: &mut Vec<u8>, bytes: &[u8])
    requires room { vec_len into.old + length bytes.now + 4 ≤ vec_capacity into.old }
    requires short { length bytes.now < 2 ^ 32 }
    ensures items { into.new.items ≡ into.old.items ++ counted_bytes bytes.now }
    ensures len { vec_len into.new ≡ vec_len into.old + length bytes.now + 4 }
    ensures room { vec_capacity into.old ≤ vec_capacity into.new }
{
    put_u32(into, bytes.len() as u32);
    put(into, bytes);
}

fn put_headers(into: &mut Vec<u8>, headers: &Headers)
    requires room { vec_len into.old + headers_size headers.now ≤ vec_capacity into.old }
    requires short { headers_size headers.now < 2 ^ 32 }
    ensures items { into.new.items ≡ into.old.items ++ flat_map header_bytes headers.now }
    ensures len { vec_len into.new ≡ vec_len into.old + headers_size headers.now }
    ensures room { vec_capacity into.old ≤ vec_capacity into.new }
{
    for (key, value) in headers.iter() {
        put_counted(into, key.as_bytes());
        put_counted(into, value.as_bytes());
    }
}

/// Adds a PUT of the event at the end. It takes no memory.
pub fn write_put(txn: u64, event: &Event, into: &mut Vec<u8>)
    requires limit { size event.now ≤ MAX_PUT_SIZE }
    requires room { vec_len into.old + (size event.now + 13) ≤ vec_capacity into.old }
    ensures items { into.new.items ≡ into.old.items ++ spelling (Put txn event.now) }
    ensures len { vec_len into.new ≡ vec_len into.old + (size event.now + 13) }
    ensures room { vec_capacity into.old ≤ vec_capacity into.new }
    ensures fields { HasFields (Put txn event.now) }
{
    let size = event.size();
    let headers = event.headers();
    put(into, &[PUT]);
    put_u64(into, txn);
    put_u32(into, size as u32);
    put_u32(into, headers.len() as u32);
    put_headers(into, headers);
    put_counted(into, event.body());
}

/// Adds the record's bytes at the end. It takes no memory.
pub fn write_record(rec: &Rec, into: &mut Vec<u8>)
    requires limits { IsWithinLimits rec.now }
    requires room { vec_len into.old + record_length rec.now ≤ vec_capacity into.old }
    ensures items { into.new.items ≡ into.old.items ++ spelling rec.now }
    ensures len { vec_len into.new ≡ vec_len into.old + record_length rec.now }
    ensures room { vec_capacity into.old ≤ vec_capacity into.new }
    ensures fields { HasFields rec.now }
{
    match rec {
        Rec::Put { txn, event } => write_put(*txn, event, into),
        Rec::Take { txn, number } => {
            put(into, &[TAKE]);
            put_u64(into, *txn);
            put_u64(into, *number);
        }
        Rec::Rollback { txn } => {
            put(into, &[ROLLBACK]);
            put_u64(into, *txn);
        }
        Rec::CommitPut { txn, first, count } => {
            put(into, &[COMMIT_PUT]);
            put_u64(into, *txn);
            put_u64(into, *first);
            put_u32(into, *count);
        }
        Rec::CommitTake { txn, count } => {
            put(into, &[COMMIT_TAKE]);
            put_u64(into, *txn);
            put_u32(into, *count);
        }
        Rec::End { count } => {
            put(into, &[END]);
            put_u32(into, *count);
        }
    }
}

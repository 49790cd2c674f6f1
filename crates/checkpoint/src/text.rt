// The fields of a checkpoint, as bytes in a buffer.
ghost use Rattle.std.specs.Prelude.{◌≡◌, ◌≤◌, ◌+◌, ◌++◌, ℕ, List, length, vec_len, vec_capacity, IsSome, None, []};
ghost use Rattle.std.proofs.Common.{ap};
ghost use Rattle.event_core.specs.Numbers.{u32_bytes, u64_bytes};
ghost use Rattle.open_table.specs.Tables.{Table, open_at};
ghost use Rattle.checkpoint.specs.Says.{puts_at, puts_in, takes_at, takes_in};
ghost use Rattle.checkpoint.specs.Text.{head_bytes, live_bytes, pointer_bytes};

use crate::place::{Next, Place};
use event_core::put;
use open_table::OpenTable;
use record_form::{Pointer, put_u32, put_u64};

// Adds what stands before the lists.
pub(crate) fn put_head(into: &mut Vec<u8>, place: Place, next: Next)
    requires { vec_len into.old + 40 ≤ vec_capacity into.old }
    ensures items { into.new.items ≡ into.old.items ++ head_bytes place next }
    ensures len { vec_len into.new ≡ vec_len into.old + 40 }
    ensures room { vec_capacity into.old ≤ vec_capacity into.new }
{
    put(into, b"FLUMECHK");
    put_u32(into, 1);
    put_u32(into, place.file);
    put_u64(into, place.at);
    put_u64(into, next.number);
    put_u64(into, next.txn);
}

fn put_pointer(into: &mut Vec<u8>, pointer: Pointer)
    requires { vec_len into.old + 16 ≤ vec_capacity into.old }
    ensures items { into.new.items ≡ into.old.items ++ pointer_bytes pointer }
    ensures len { vec_len into.new ≡ vec_len into.old + 16 }
    ensures room { vec_capacity into.old ≤ vec_capacity into.new }
{
    put_u32(into, pointer.file);
    put_u64(into, pointer.at);
    put_u32(into, pointer.length);
}

// Adds an event that is left: its number, and where its record stands.
pub(crate) fn put_live(into: &mut Vec<u8>, number: u64, pointer: Pointer)
    requires { vec_len into.old + 24 ≤ vec_capacity into.old }
    ensures items { into.new.items ≡ into.old.items ++ live_bytes (number, pointer) }
    ensures len { vec_len into.new ≡ vec_len into.old + 24 }
    ensures room { vec_capacity into.old ≤ vec_capacity into.new }
{
    put_u64(into, number);
    put_pointer(into, pointer);
}

// What an open transaction lists: the records of its puts, or the numbers that it takes.
pub(crate) trait Item: Copy {
    // Its bytes, at most 16.
    ghost bytes: { Self → List ℕ };

    // What a transaction of a table lists.
    ghost listed: { Table → ℕ → List Self };

    // One that is not open lists nothing.
    ghost none_of_closed: { (table : Table) (txn : ℕ) → open_at table txn ≡ None
        → listed table txn ≡ [] };

    // Adds its bytes.
    fn put(self, into: &mut Vec<u8>)
        requires { vec_len into.old + 16 ≤ vec_capacity into.old }
        ensures items { into.new.items ≡ into.old.items ++ bytes self }
        ensures len { vec_len into.new ≤ vec_len into.old + 16 }
        ensures room { vec_capacity into.old ≤ vec_capacity into.new };

    // What an open transaction lists.
    fn of(table: &OpenTable, txn: u64) -> &[Self]
        requires { IsSome (open_at table.now txn) }
        ensures { result.now ≡ listed table.now txn };
}

impl Item for Pointer {
    ghost bytes = { pointer_bytes };

    ghost listed = { puts_at };

    ghost none_of_closed = { λ table txn is. ap puts_in is };

    fn put(self, into: &mut Vec<u8>) {
        put_pointer(into, self);
    }

    fn of(table: &OpenTable, txn: u64) -> &[Pointer] {
        table.puts(txn)
    }
}

impl Item for u64 {
    ghost bytes = { u64_bytes };

    ghost listed = { takes_at };

    ghost none_of_closed = { λ table txn is. ap takes_in is };

    fn put(self, into: &mut Vec<u8>) {
        put_u64(into, self);
    }

    fn of(table: &OpenTable, txn: u64) -> &[u64] {
        table.takes(txn)
    }
}

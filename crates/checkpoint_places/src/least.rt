// The least log file that a checkpoint names: with those before it, it needs no other.
ghost use Rattle.std.specs.Prelude.{◌≡◌, ◌<◌, ◌≤◌, ◌^◌, ℕ, List, IsSome, map, min};
ghost use Rattle.std.specs.List.{AllByRecursion};
ghost use Rattle.record_form.specs.declared.record.Pointer as pointers;
ghost use Rattle.open_table.specs.Tables.{open_at};
ghost use Rattle.checkpoint.specs.declared.place.Next.{Next};
ghost use Rattle.checkpoint.specs.Says.{Says, live_at, puts_at};
ghost use Rattle.checkpoint.specs.Text.{CheckText, Rise};
ghost use Rattle.checkpoint_recovery.specs.Laws.{NamesFrom};

use checkpoint::Place;
use event_ring::Ring;
use open_table::OpenTable;
use record_form::Pointer;

// The least of a number and the files of pointers.
fn least_of(puts: &[Pointer], most: u32) -> u32
    ensures below { result ≤ most }
    ensures each { AllByRecursion (λ (p : pointers.Pointer). result ≤ p.file) puts.now }
    ensures least { (other : ℕ) → other ≤ most → AllByRecursion
        (λ (p : pointers.Pointer). other ≤ p.file) puts.now → other ≤ result }
{
    let mut least = most;
    for pointer in puts {
        least = least.min(pointer.file);
    }
    least
}

// The least of a number and the files of an open transaction's puts. That the transaction's number fits 64 bits is said for the
// proof of the walk.
fn least_put(table: &OpenTable, txn: u64, most: u32) -> u32
    requires { IsSome (open_at table.now txn) }
    ensures below { result ≤ most }
    ensures each { AllByRecursion (λ (p : pointers.Pointer). result ≤ p.file)
        (puts_at table.now txn) }
    ensures least { (other : ℕ) → other ≤ most → AllByRecursion
        (λ (p : pointers.Pointer). other ≤ p.file) (puts_at table.now txn) → other ≤ result }
    ensures fits { txn < 2 ^ 64 }
{
    least_of(table.puts(txn), most)
}

// The least of a number and the file of an event that is left. The event is handed on for the proof of the walk alone, which
// learns that its number fits 64 bits.
fn least_one(event: u64, pointer: Pointer, most: u32) -> u32
    ensures least { result ≡ min most pointer.file }
    ensures fits { event < 2 ^ 64 }
{
    let _ = event;
    most.min(pointer.file)
}

// The least of a number and the files of the events that are left.
fn least_left(ring: &Ring, most: u32) -> u32
    ensures below { result ≤ most }
    ensures each { (high : ℕ) → Rise 0 high (map live_at ring.now.live) → AllByRecursion
        (λ (l : ℕ × pointers.Pointer). result ≤ l.1.file) (map live_at ring.now.live) }
    ensures least { (other : ℕ) → other ≤ most → AllByRecursion
        (λ (l : ℕ × pointers.Pointer). other ≤ l.1.file) (map live_at ring.now.live) → other ≤
        result }
{
    let mut least = most;
    let mut after = None;
    while let Some((event, pointer)) = ring.next_live(after) {
        least = least_one(event, pointer, least);
        after = Some(event);
    }
    least
}

// The least of a number and the files of open puts.
fn least_open(table: &OpenTable, most: u32) -> u32
    ensures below { result ≤ most }
    ensures each { (txn : ℕ) → AllByRecursion (λ (p : pointers.Pointer). result ≤ p.file)
        (puts_at table.now txn) }
    ensures least { (other : ℕ) → other ≤ most → ((txn : ℕ) → AllByRecursion
        (λ (p : pointers.Pointer). other ≤ p.file) (puts_at table.now txn)) → other ≤ result }
{
    let mut least = most;
    let mut after = None;
    while let Some(txn) = table.next_txn(after) {
        least = least_put(table, txn, least);
        after = Some(txn);
    }
    least
}

/// The least log file that a checkpoint of this ring and this table at this place names. It takes no memory.
pub fn least_named(place: Place, ring: &Ring, table: &OpenTable) -> u32
    ensures names { (next : Next) (c : CheckText) → Says place next ring.now table.now c → Rise 0
        next.number c.live → NamesFrom result c }
    ensures least { (next : Next) (c : CheckText) (other : ℕ) → Says place next ring.now table.now c
        → NamesFrom other c → other ≤ result }
{
    let left = least_left(ring, place.file);
    least_open(table, left)
}

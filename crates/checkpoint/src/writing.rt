// Laying a checkpoint: its text goes into the file in pieces, through a buffer.
ghost use Rattle.std.specs.Prelude.{◌≡◌, ◌≤◌, ◌<◌, ◌+◌, ◌++◌, ◌^◌, [], ◌∷◌, ℕ, List, flat_map, length, map, nat_eq, true, false, IsSome, IfOk, OnOk, OnErr, vec_len, vec_capacity};
ghost use Rattle.flume_host.specs.Causes.{HasCause, Rose};
ghost use Rattle.flume_host.specs.Told.{Changes, Tells, WhereTold};
ghost use Rattle.flume_host.specs.declared.names.FileName.TheVariants.{Check};
ghost use Rattle.open_table.specs.Tables.{open_at};
ghost use Rattle.checkpoint.specs.Files.{Adds, IsBegun, IsKept, IsUnused, spool};
ghost use Rattle.checkpoint.specs.Newest.{IsPassedFile};
ghost use Rattle.checkpoint.specs.Right.{IsRightText};
ghost use Rattle.checkpoint.specs.Says.{AreListed, Says, entry_of, live_at};
ghost use Rattle.event_core.specs.Numbers.{u32_bytes, u64_bytes};
ghost use Rattle.checkpoint.specs.Text.{CheckText, FitCounts, Rise, check_bytes, counted, entry_bytes, live_bytes};

use crate::file::{LayRefused, make_closed, seal};
use crate::place::{Next, Place};
use crate::text::{Item, put_head, put_live};
use event_ring::Ring;
use flume_host::{Disk, Failed, FileName};
use open_table::OpenTable;
use record_form::{Pointer, put_u32, put_u64};

// How many bytes are written at a time.
const PIECE: usize = 65_536;

// Writes what waits at the offset, and gives the offset after it.
fn pass_on<D: Disk>(disk: &mut D, number: u32, at: u64, buffer: &mut Vec<u8>) -> Result<u64, Failed>
    requires { IsBegun number (spool (D.told disk.old) at buffer.old.items) }
    ensures any_moment { Tells (D.told disk.old) (D.told disk.new)
        (Changes (Check number) IsPassedFile 0) }
    ensures same { IfOk result (λ next. Adds number
        (spool (D.told disk.old) at buffer.old.items)
        (spool (D.told disk.new) next []) []) }
    ensures empty { OnOk result (buffer.new.items ≡ []) }
    ensures len { vec_len buffer.new ≤ vec_len buffer.old }
    ensures room { vec_capacity buffer.new ≡ vec_capacity buffer.old }
    ensures cause { HasCause (D.faults disk.old) (D.faults disk.new) result }
{
    disk.write_at(FileName::Check(number), at, buffer.as_slice())?;
    let next = at + buffer.len() as u64;
    buffer.clear();
    Ok(next)
}

// Has room for so many bytes in the buffer, where a piece has.
fn make_room<D: Disk>(
    disk: &mut D,
    number: u32,
    at: u64,
    buffer: &mut Vec<u8>,
    size: usize,
) -> Result<u64, Failed>
    requires begun { IsBegun number (spool (D.told disk.old) at buffer.old.items) }
    requires room { 65_536 ≤ vec_capacity buffer.old }
    requires small { size ≤ 65_536 }
    ensures any_moment { Tells (D.told disk.old) (D.told disk.new)
        (Changes (Check number) IsPassedFile 0) }
    ensures same { IfOk result (λ next. Adds number
        (spool (D.told disk.old) at buffer.old.items)
        (spool (D.told disk.new) next buffer.new.items) []) }
    ensures free { OnOk result (vec_len buffer.new + size ≤ vec_capacity buffer.new) }
    ensures room { vec_capacity buffer.new ≡ vec_capacity buffer.old }
    ensures cause { HasCause (D.faults disk.old) (D.faults disk.new) result }
{
    if size <= buffer.capacity() - buffer.len() {
        return Ok(at);
    }
    pass_on(disk, number, at, buffer)
}

// How many a checkpoint says that there are. One that is right for a folder has no greater counts.
fn spelled_count(count: usize) -> u32
    ensures { count < 2 ^ 32 → result ≡ count }
{
    count.min(u32::MAX as usize) as u32
}

// Adds a count.
fn add_count<D: Disk>(
    disk: &mut D,
    number: u32,
    at: u64,
    buffer: &mut Vec<u8>,
    count: u32,
) -> Result<u64, Failed>
    requires begun { IsBegun number (spool (D.told disk.old) at buffer.old.items) }
    requires room { 65_536 ≤ vec_capacity buffer.old }
    ensures any_moment { Tells (D.told disk.old) (D.told disk.new)
        (Changes (Check number) IsPassedFile 0) }
    ensures added { IfOk result (λ next. Adds number
        (spool (D.told disk.old) at buffer.old.items)
        (spool (D.told disk.new) next buffer.new.items) (u32_bytes count)) }
    ensures room { vec_capacity buffer.old ≤ vec_capacity buffer.new }
    ensures cause { HasCause (D.faults disk.old) (D.faults disk.new) result }
{
    let next = make_room(disk, number, at, buffer, 4)?;
    put_u32(buffer, count);
    Ok(next)
}

// Adds an event that is left.
fn add_one<D: Disk>(
    disk: &mut D,
    number: u32,
    at: u64,
    buffer: &mut Vec<u8>,
    event: u64,
    pointer: Pointer,
) -> Result<u64, Failed>
    requires begun { IsBegun number (spool (D.told disk.old) at buffer.old.items) }
    requires room { 65_536 ≤ vec_capacity buffer.old }
    ensures any_moment { Tells (D.told disk.old) (D.told disk.new)
        (Changes (Check number) IsPassedFile 0) }
    ensures added { IfOk result (λ next. Adds number
        (spool (D.told disk.old) at buffer.old.items)
        (spool (D.told disk.new) next buffer.new.items) (live_bytes (event, pointer))) }
    ensures fits { event < 2 ^ 64 }
    ensures room { vec_capacity buffer.old ≤ vec_capacity buffer.new }
    ensures cause { HasCause (D.faults disk.old) (D.faults disk.new) result }
{
    let next = make_room(disk, number, at, buffer, 24)?;
    put_live(buffer, event, pointer);
    Ok(next)
}

// Adds the events that are left.
fn add_live<D: Disk>(
    disk: &mut D,
    number: u32,
    at: u64,
    buffer: &mut Vec<u8>,
    ring: &Ring,
) -> Result<u64, Failed>
    requires begun { IsBegun number (spool (D.told disk.old) at buffer.old.items) }
    requires room { 65_536 ≤ vec_capacity buffer.old }
    ensures any_moment { Tells (D.told disk.old) (D.told disk.new)
        (Changes (Check number) IsPassedFile 0) }
    ensures begun { IfOk result (λ next. IsBegun number
        (spool (D.told disk.new) next buffer.new.items)) }
    ensures added { IfOk result (λ next. (high : ℕ) → Rise 0 high (map live_at ring.now.live)
        → length ring.now.live < 2 ^ 32 → Adds number
        (spool (D.told disk.old) at buffer.old.items)
        (spool (D.told disk.new) next buffer.new.items)
        (counted live_bytes (map live_at ring.now.live))) }
    ensures room { vec_capacity buffer.old ≤ vec_capacity buffer.new }
    ensures cause { HasCause (D.faults disk.old) (D.faults disk.new) result }
{
    let mut place = add_count(disk, number, at, buffer, spelled_count(ring.len()))?;
    let mut after = None;
    while let Some((event, pointer)) = ring.next_live(after) {
        place = add_one(disk, number, place, buffer, event, pointer)?;
        after = Some(event);
    }
    Ok(place)
}

// Adds the number of an open transaction, and how many it lists.
fn add_number<D: Disk>(
    disk: &mut D,
    number: u32,
    at: u64,
    buffer: &mut Vec<u8>,
    txn: u64,
    count: u32,
) -> Result<u64, Failed>
    requires begun { IsBegun number (spool (D.told disk.old) at buffer.old.items) }
    requires room { 65_536 ≤ vec_capacity buffer.old }
    ensures any_moment { Tells (D.told disk.old) (D.told disk.new)
        (Changes (Check number) IsPassedFile 0) }
    ensures added { IfOk result (λ next. Adds number (spool (D.told disk.old) at buffer.old.items)
        (spool (D.told disk.new) next buffer.new.items) (u64_bytes txn ++ u32_bytes count)) }
    ensures room { vec_capacity buffer.old ≤ vec_capacity buffer.new }
    ensures fits { txn < 2 ^ 64 }
    ensures cause { HasCause (D.faults disk.old) (D.faults disk.new) result }
{
    let next = make_room(disk, number, at, buffer, 12)?;
    put_u64(buffer, txn);
    put_u32(buffer, count);
    Ok(next)
}

// Adds one of what a transaction lists.
fn add_item<D: Disk, I: Item>(
    disk: &mut D,
    number: u32,
    at: u64,
    buffer: &mut Vec<u8>,
    item: I,
) -> Result<u64, Failed>
    requires begun { IsBegun number (spool (D.told disk.old) at buffer.old.items) }
    requires room { 65_536 ≤ vec_capacity buffer.old }
    ensures any_moment { Tells (D.told disk.old) (D.told disk.new)
        (Changes (Check number) IsPassedFile 0) }
    ensures added { IfOk result (λ next. Adds number (spool (D.told disk.old) at buffer.old.items)
        (spool (D.told disk.new) next buffer.new.items) (I.bytes item)) }
    ensures room { vec_capacity buffer.old ≤ vec_capacity buffer.new }
    ensures cause { HasCause (D.faults disk.old) (D.faults disk.new) result }
{
    let next = make_room(disk, number, at, buffer, 16)?;
    item.put(buffer);
    Ok(next)
}

// Adds what a transaction lists.
fn add_items<D: Disk, I: Item>(
    disk: &mut D,
    number: u32,
    at: u64,
    buffer: &mut Vec<u8>,
    items: &[I],
) -> Result<u64, Failed>
    requires begun { IsBegun number (spool (D.told disk.old) at buffer.old.items) }
    requires room { 65_536 ≤ vec_capacity buffer.old }
    ensures any_moment { Tells (D.told disk.old) (D.told disk.new)
        (Changes (Check number) IsPassedFile 0) }
    ensures added { IfOk result (λ next. Adds number (spool (D.told disk.old) at buffer.old.items)
        (spool (D.told disk.new) next buffer.new.items) (flat_map I.bytes items.now)) }
    ensures room { vec_capacity buffer.old ≤ vec_capacity buffer.new }
    ensures cause { HasCause (D.faults disk.old) (D.faults disk.new) result }
{
    let mut place = at;
    for item in items {
        place = add_item(disk, number, place, buffer, *item)?;
    }
    Ok(place)
}

// Adds an open transaction. One that lists nothing is left out.
fn add_entry<D: Disk, I: Item>(
    disk: &mut D,
    number: u32,
    at: u64,
    buffer: &mut Vec<u8>,
    txn: u64,
    items: &[I],
) -> Result<u64, Failed>
    requires begun { IsBegun number (spool (D.told disk.old) at buffer.old.items) }
    requires room { 65_536 ≤ vec_capacity buffer.old }
    ensures any_moment { Tells (D.told disk.old) (D.told disk.new)
        (Changes (Check number) IsPassedFile 0) }
    ensures added { IfOk result (λ next. length items.now < 2 ^ 32 → Adds number
        (spool (D.told disk.old) at buffer.old.items)
        (spool (D.told disk.new) next buffer.new.items)
        (flat_map (entry_bytes I.bytes) (entry_of txn items.now))) }
    ensures begun { IfOk result (λ next. IsBegun number
        (spool (D.told disk.new) next buffer.new.items)) }
    ensures room { vec_capacity buffer.old ≤ vec_capacity buffer.new }
    ensures fits { txn < 2 ^ 64 }
    ensures cause { HasCause (D.faults disk.old) (D.faults disk.new) result }
{
    if items.is_empty() {
        return Ok(at);
    }
    let place = add_number(disk, number, at, buffer, txn, spelled_count(items.len()))?;
    let next = add_items(disk, number, place, buffer, items)?;
    Ok(next)
}

// Whether an open transaction lists nothing.
fn lists_nothing<I: Item>(table: &OpenTable, txn: u64) -> bool
    requires { IsSome (open_at table.now txn) }
    ensures nothing { result ≡ nat_eq (length (I.listed table.now txn)) 0 }
    ensures fits { txn < 2 ^ 64 }
{
    I::of(table, txn).is_empty()
}

// One more, if it lists something.
fn counted_up(count: u32, is_empty: bool) -> u32
    ensures same { is_empty ≡ true → result ≡ count }
    ensures more { is_empty ≡ false → count + 1 < 2 ^ 32 → result ≡ count + 1 }
{
    if is_empty {
        return count;
    }
    count.saturating_add(1)
}

// How many open transactions list something.
fn count_listed<I: Item>(table: &OpenTable) -> u32
    ensures { (listed : List (ℕ × List I)) → AreListed (I.listed table.now) listed
        → length listed < 2 ^ 32
        → result ≡ length listed }
{
    let mut count: u32 = 0;
    let mut after = None;
    while let Some(txn) = table.next_txn(after) {
        count = counted_up(count, lists_nothing::<I>(table, txn));
        after = Some(txn);
    }
    count
}

// Adds the open transactions that list such.
fn add_entries<D: Disk, I: Item>(
    disk: &mut D,
    number: u32,
    at: u64,
    buffer: &mut Vec<u8>,
    table: &OpenTable,
) -> Result<u64, Failed>
    requires begun { IsBegun number (spool (D.told disk.old) at buffer.old.items) }
    requires room { 65_536 ≤ vec_capacity buffer.old }
    ensures any_moment { Tells (D.told disk.old) (D.told disk.new)
        (Changes (Check number) IsPassedFile 0) }
    ensures begun { IfOk result (λ next. IsBegun number
        (spool (D.told disk.new) next buffer.new.items)) }
    ensures added { IfOk result (λ next. (listed : List (ℕ × List I))
        → AreListed (I.listed table.now) listed
        → FitCounts listed → Adds number (spool (D.told disk.old) at buffer.old.items)
        (spool (D.told disk.new) next buffer.new.items) (counted (entry_bytes I.bytes) listed)) }
    ensures room { vec_capacity buffer.old ≤ vec_capacity buffer.new }
    ensures cause { HasCause (D.faults disk.old) (D.faults disk.new) result }
{
    let mut place = add_count(disk, number, at, buffer, count_listed::<I>(table))?;
    let mut after = None;
    while let Some(txn) = table.next_txn(after) {
        place = add_entry(disk, number, place, buffer, txn, I::of(table, txn))?;
        after = Some(txn);
    }
    Ok(place)
}

// Makes the file, and writes the text after a closed commit byte.
fn write_all<D: Disk>(
    disk: &mut D,
    number: u32,
    place: Place,
    ring: &Ring,
    table: &OpenTable,
    next: Next,
    buffer: &mut Vec<u8>,
) -> Result<(), Failed>
    requires unused { IsUnused (D.told disk.old) number }
    requires empty { buffer.old.items ≡ [] }
    requires room { 65_536 ≤ vec_capacity buffer.old }
    ensures any_moment { Tells (D.told disk.old) (D.told disk.new)
        (Changes (Check number) IsPassedFile 2) }
    ensures laid { OnOk result ((c : CheckText) → Says place next ring.now table.now c
        → Rise 0 next.number c.live
        → length c.live < 2 ^ 32 → FitCounts c.puts → FitCounts c.takes
        → WhereTold (D.told disk.new) (λ t. IsKept t number (0 ∷ check_bytes c))) }
    ensures room { vec_capacity buffer.old ≤ vec_capacity buffer.new }
    ensures cause { HasCause (D.faults disk.old) (D.faults disk.new) result }
{
    make_closed(disk, number)?;
    put_head(buffer, place, next);
    let puts_at = add_live(disk, number, 1, buffer, ring)?;
    let takes_at = add_entries::<D, Pointer>(disk, number, puts_at, buffer, table)?;
    let end = add_entries::<D, u64>(disk, number, takes_at, buffer, table)?;
    pass_on(disk, number, end, buffer)?;
    seal(disk, number)?;
    Ok(())
}

/// Lays a checkpoint of a ring and a table at a place of the log: makes its file with a closed commit byte, syncs, writes the
/// text after that byte, and syncs. The text goes through the buffer in pieces of at most 65,536 bytes. It takes no memory.
pub fn lay<D: Disk>(
    disk: &mut D,
    number: u32,
    place: Place,
    ring: &Ring,
    table: &OpenTable,
    next: Next,
    buffer: &mut Vec<u8>,
) -> Result<(), LayRefused>
    requires unused { IsUnused (D.told disk.old) number }
    requires empty { buffer.old.items ≡ [] }
    requires room { 65_536 ≤ vec_capacity buffer.old }
    // What it says is right for the folder.
    requires right { WhereTold (D.told disk.old)
        (λ t. (c : CheckText) × Says place next ring.now table.now c × IsRightText t.reads c) }
    // A crash at any moment of the call leaves no such file, or one that is passed over.
    ensures any_moment { Tells (D.told disk.old) (D.told disk.new)
        (Changes (Check number) IsPassedFile 2) }
    // After Ok a crash leaves the checkpoint after a closed commit byte.
    ensures laid { OnOk result ((c : CheckText) → Says place next ring.now table.now c
        → WhereTold (D.told disk.old) (λ t. IsRightText t.reads c)
        → WhereTold (D.told disk.new) (λ t. IsKept t number (0 ∷ check_bytes c))) }
    ensures empty { buffer.new.items ≡ [] }
    ensures room { vec_capacity buffer.old ≤ vec_capacity buffer.new }
    ensures later { D.faults disk.old ≤ D.faults disk.new }
    ensures fault { OnErr result (Rose (D.faults disk.old) (D.faults disk.new)) }
    ensures well { OnOk result (D.faults disk.new ≡ D.faults disk.old) }
{
    let written = write_all(disk, number, place, ring, table, next, buffer);
    buffer.clear();
    match written {
        Ok(()) => Ok(()),
        Err(Failed) => Err(LayRefused::DiskFault),
    }
}

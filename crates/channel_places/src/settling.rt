// What becomes of transactions that ended: what is staged of them, moved with its file, and settled in the ring. Nothing here takes
// memory.
ghost use Rattle.std.specs.Prelude.{◌≡◌, ◌<◌, ◌≤◌, ◌+◌, ◌^◌, [], length, map, vec_capacity, ◌++◌, vec_len};
ghost use Rattle.open_table.specs.Tables.{listed_of, puts_of, takes_of, MayMove, moved};
ghost use Rattle.channel_places.specs.Ends.{AreApart, AreLive, IsAppended, freed, lacking, one_if_staged, pointers_in, takes_in};
ghost use Rattle.channel_face.specs.Counters.{capped};
ghost use Rattle.channel_places.specs.Looks.{staged_of};
ghost use Rattle.std.specs.List.{AllByRecursion};

use event_ring::Ring;
use open_table::{Ended, OpenTable};
use record_form::Pointer;

// Holds events no longer.
fn free_all(ring: &mut Ring, numbers: &[u64])
    requires { AreLive ring.old.live numbers.now }
    ensures { ring.new ≡ record ring.old { live = freed numbers.now ring.old.live } }
{
    for place in 0..numbers.len() {
        ring.free(numbers[place]);
    }
}

// Takes events out.
fn remove_all(ring: &mut Ring, numbers: &[u64])
    requires { AreApart ring.old.live numbers.now }
    ensures { ring.new ≡ record ring.old { live = lacking numbers.now ring.old.live } }
{
    for place in 0..numbers.len() {
        ring.gone(numbers[place]);
    }
}

// Adds events at these pointers, with numbers from this one on.
fn append(ring: &mut Ring, pointers: &[Pointer], first: u64)
    requires above { ring.old.top ≤ first }
    requires low { first + length pointers.now < 2 ^ 64 }
    requires room { length ring.old.live + length pointers.now ≤ ring.old.slots }
    ensures { IsAppended first pointers.now ring.old ring.new }
{
    for place in 0..pointers.len() {
        ring.push(first + place as u64, pointers[place]);
    }
}

// Holds what a transaction takes no longer.
pub(crate) fn free_takes(ring: &mut Ring, ended: &Ended)
    requires { AreLive ring.old.live (takes_of (listed_of ended.now)) }
    ensures { ring.new ≡ record ring.old {
      live = freed (takes_of (listed_of ended.now)) ring.old.live;
    } }
{
    if let Ended::Takes(numbers) = ended {
        free_all(ring, numbers);
    }
}

// Takes out what a transaction takes.
fn remove_takes(ring: &mut Ring, ended: &Ended)
    requires { AreApart ring.old.live (takes_of (listed_of ended.now)) }
    ensures { ring.new ≡ record ring.old {
      live = lacking (takes_of (listed_of ended.now)) ring.old.live;
    } }
{
    if let Ended::Takes(numbers) = ended {
        remove_all(ring, numbers);
    }
}

// Adds the puts of a transaction, with numbers from this one on. The number after them.
fn append_puts(ring: &mut Ring, ended: &Ended, first: u64) -> u64
    requires above { ring.old.top ≤ first }
    requires low { first + length (puts_of (listed_of ended.now)) < 2 ^ 64 }
    requires room { length ring.old.live + length (puts_of (listed_of ended.now)) ≤ ring.old.slots }
    ensures appended { IsAppended first (puts_of (listed_of ended.now)) ring.old ring.new }
    ensures next { result ≡ first + length (puts_of (listed_of ended.now)) }
{
    match ended {
        Ended::Puts(pointers) => {
            append(ring, pointers, first);
            first + pointers.len() as u64
        }
        Ended::Takes(_) => first,
    }
}

// Takes out what staged transactions take.
pub(crate) fn remove_staged(ring: &mut Ring, staged: &[Ended])
    requires { AreApart ring.old.live (takes_in (map listed_of staged.now)) }
    ensures { ring.new ≡ record ring.old {
      live = lacking (takes_in (map listed_of staged.now)) ring.old.live;
    } }
{
    for place in 0..staged.len() {
        remove_takes(ring, &staged[place]);
    }
}

// Adds the puts of staged transactions, with numbers from this one on. The number after them.
pub(crate) fn append_staged(ring: &mut Ring, staged: &[Ended], first: u64) -> u64
    requires above { ring.old.top ≤ first }
    requires low { first + length (pointers_in (map listed_of staged.now)) < 2 ^ 64 }
    requires room { length ring.old.live + length (pointers_in (map listed_of staged.now))
        ≤ ring.old.slots }
    ensures appended { IsAppended first (pointers_in (map listed_of staged.now)) ring.old ring.new }
    ensures next { result ≡ first + length (pointers_in (map listed_of staged.now)) }
{
    let mut next = first;
    for place in 0..staged.len() {
        next = append_puts(ring, &staged[place], next);
    }
    next
}

// 1 where something is staged.
pub(crate) fn one_if_staged(staged: &[Ended]) -> u64
    ensures { result ≡ one_if_staged (map listed_of staged.now) }
{
    if staged.is_empty() { 0 } else { 1 }
}

// Hands the lists of staged transactions back to the table.
pub(crate) fn hand_back_all(staged: &mut Vec<Ended>, table: &mut OpenTable)
    ensures items { staged.new.items ≡ [] }
    ensures room { vec_capacity staged.new ≡ vec_capacity staged.old }
    ensures same { table.new ≡ table.old }
{
    while let Some(ended) = staged.pop() {
        table.hand_back(ended);
    }
}

// Ends all open transactions.
pub(crate) fn end_all(table: &mut OpenTable)
    ensures { table.new ≡ [] }
{
    while let Some(txn) = table.next_txn(None) {
        let ended = table.end(txn);
        table.hand_back(ended);
    }
}

// How many puts it had.
pub(crate) fn put_count(ended: &Ended) -> usize
    ensures { result ≡ length (puts_of (listed_of ended.now)) }
{
    match ended {
        Ended::Puts(pointers) => pointers.len(),
        Ended::Takes(_) => 0,
    }
}

// Adds it to what is staged, unless it had nothing. It takes no memory.
pub(crate) fn push_ended(staged: &mut Vec<Ended>, ended: Ended)
    requires { vec_len staged.old < vec_capacity staged.old }
    ensures items { map listed_of staged.new.items
        ≡ map listed_of staged.old.items ++ staged_of (listed_of ended) }
    ensures room { vec_capacity staged.old ≤ vec_capacity staged.new }
{
    match &ended {
        Ended::Puts(pointers) if pointers.is_empty() => {}
        Ended::Takes(numbers) if numbers.is_empty() => {}
        _ => staged.push_reserved(ended),
    }
}

// How many takes it had.
fn take_count(ended: &Ended) -> usize
    ensures { result ≡ length (takes_of (listed_of ended.now)) }
{
    match ended {
        Ended::Puts(_) => 0,
        Ended::Takes(numbers) => numbers.len(),
    }
}

// How many takes staged transactions had, up to 2^64 - 1.
pub(crate) fn count_takes(staged: &[Ended]) -> u64
    ensures { result ≡ capped (length (takes_in (map listed_of staged.now))) }
{
    let mut count = 0u64;
    for place in 0..staged.len() {
        count = count.saturating_add(take_count(&staged[place]) as u64);
    }
    count
}

// Moves the puts of transactions.
fn move_all(staged: &mut [Ended], file: u32, at: u64, to_file: u32, to_at: u64)
    requires { AllByRecursion (λ listed. MayMove file at to_at listed) (map listed_of staged.old) }
    ensures { map listed_of staged.new ≡ map (moved file at to_file to_at)
        (map listed_of staged.old) }
{
    for ended in staged.iter_mut() {
        ended.move_puts(file, at, to_file, to_at);
    }
}

// Moves the puts of staged transactions. It takes no memory.
pub(crate) fn move_staged(staged: &mut Vec<Ended>, file: u32, at: u64, to_file: u32, to_at: u64)
    requires { AllByRecursion (λ listed. MayMove file at to_at listed)
        (map listed_of staged.old.items) }
    ensures items { map listed_of staged.new.items
        ≡ map (moved file at to_file to_at) (map listed_of staged.old.items) }
    ensures room { vec_capacity staged.new ≡ vec_capacity staged.old }
{
    move_all(staged, file, at, to_file, to_at);
}

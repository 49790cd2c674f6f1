// The ring of the events that are left, over slots: each slot has an event that is left, or a gap.
ghost use Rattle.std.specs.Prelude.{◌≡◌, ◌<◌, ◌≤◌, ◌+◌, ◌-◌, ◌^◌, ◌++◌, [], ◌∷◌, length, IfOk, OnErr, OnOk, false, true, ℕ, take, drop, slice_get, slice_set, Some};
ghost use Rattle.event_ring.specs.Slots.{IsLive, first_free, lasting, least_above, look_at, marked, next_from, pointer_at, AreGaps, Free, IsBusy, IsFront, Rises, closed, is_gone, is_held, live_of};
ghost use Rattle.std.specs.List.{AllByRecursion};
ghost use Rattle.circular_buffer.specs.Buffer.{buffer};

use circular_buffer::HeapCircularBuffer;
use event_core::NoMemory;
use record_form::Pointer;
use std::alloc::Global;
use std::marker::Model;

/// The events that are left, by their numbers, with the place of each one's record. Their room is taken when it is made.
/// A number that is gone leaves a gap; gaps at the front are dropped, and the others are closed in place when the slots are
/// used up.
#[derive(Drop)]
pub struct Ring {
    slots: HeapCircularBuffer<Slot>,
    // one above each number that was pushed
    top: u64,
    live: usize,
    // no slot before this place is free
    from: usize,
}

impl Model for Ring {
    ghost use Rattle.event_ring.specs.Slots.{Index, index_of, IsRing};

    ghost Value = { Index };

    ghost view = { λ r. index_of r.slots.capacity r.top r.slots.items };

    ghost invariant = { λ r. IsRing r.slots.items r.top r.live r.from };
}

impl Ring {
    /// A ring for so many events.
    pub fn make(alloc: Global, slots: u32) -> Result<Ring, NoMemory>
        ensures { IfOk result (λ r. r ≡ record { slots = slots; top = 0; live = [] }) }
    {
        match HeapCircularBuffer::with_capacity(alloc, slots as usize) {
            Ok(slots) => Ok(Ring {
                slots,
                top: 0,
                live: 0,
                from: 0,
            }),
            Err(_) => Err(NoMemory),
        }
    }

    /// Moves the events to so many slots, which have to hold them.
    pub fn resize(&mut self, slots: u32) -> Result<(), NoMemory>
        requires { length self.old.live ≤ slots }
        ensures ok { OnOk result (self.new ≡ record self.old { slots = slots }) }
        ensures err { OnErr result (self.new ≡ self.old) }
    {
        close_up(&mut self.slots);
        self.from = 0;
        if self.slots.resize(slots as usize).is_err() {
            return Err(NoMemory);
        }
        Ok(())
    }

    /// Adds an event above each number that was pushed before. It takes no memory.
    pub fn push(&mut self, number: u64, pointer: Pointer)
        requires above { self.old.top ≤ number }
        requires low { number < 2 ^ 64 - 1 }
        requires room { length self.old.live < self.old.slots }
        ensures { self.new ≡ record self.old {
          top = number + 1;
          live = self.old.live ++ record { number = number; pointer = pointer; held = false } ∷ [];
        } }
    {
        self.from = make_room(&mut self.slots, self.from);
        let slot = Slot {
            number,
            at: pointer.at,
            file: pointer.file,
            length: pointer.length,
            state: State::Free,
        };
        if self.slots.try_push_back(slot).is_err() {
            unreachable!();
        }
        self.top = number + 1;
        self.live += 1;
    }

    /// Holds an event. It takes no memory.
    pub fn mark(&mut self, number: u64)
        requires { IsLive self.old.live number }
        ensures { self.new ≡ record self.old { live = marked number true self.old.live } }
    {
        let place = place_of(&self.slots, number);
        let slot = read(&self.slots, place);
        write(
            &mut self.slots,
            place,
            Slot {
                state: State::Held,
                ..slot
            },
        );
        self.from = free_place(&self.slots, self.from);
    }

    /// Holds an event no longer. It takes no memory.
    pub fn free(&mut self, number: u64)
        requires { IsLive self.old.live number }
        ensures { self.new ≡ record self.old { live = marked number false self.old.live } }
    {
        let place = place_of(&self.slots, number);
        let slot = read(&self.slots, place);
        write(
            &mut self.slots,
            place,
            Slot {
                state: State::Free,
                ..slot
            },
        );
        self.from = self.from.min(place);
    }

    /// Takes an event out. It takes no memory.
    pub fn gone(&mut self, number: u64)
        requires { IsLive self.old.live number }
        ensures { self.new ≡ record self.old { live = lasting number self.old.live } }
    {
        let place = place_of(&self.slots, number);
        let slot = read(&self.slots, place);
        write(
            &mut self.slots,
            place,
            Slot {
                state: State::Gone,
                ..slot
            },
        );
        self.live -= 1;
        let dropped = drop_gaps(&mut self.slots);
        self.from = self.from.saturating_sub(dropped);
    }

    /// The least number that isn't held. It takes no memory.
    pub fn first_free(&self) -> Option<u64>
        ensures { result ≡ first_free self.now.live }
    {
        let place = free_place(&self.slots, self.from);
        if place < self.slots.len() {
            Some(read(&self.slots, place).number)
        } else {
            None
        }
    }

    /// Where the record of an event stands, and whether it is held. It takes no memory.
    pub fn look(&self, number: u64) -> Option<(Pointer, bool)>
        ensures { result ≡ look_at number self.now.live }
    {
        let place = place_of(&self.slots, number);
        if place >= self.slots.len() {
            return None;
        }
        let slot = read(&self.slots, place);
        if slot.number != number || is_gap(&slot) {
            return None;
        }
        let pointer = Pointer {
            file: slot.file,
            at: slot.at,
            length: slot.length,
        };
        Some((pointer, is_held(&slot)))
    }

    /// Where the record of an event stands.
    pub fn pointer(&self, number: u64) -> Option<Pointer>
        ensures { result ≡ pointer_at number self.now.live }
    {
        match self.look(number) {
            Some((pointer, _)) => Some(pointer),
            None => None,
        }
    }

    /// The event of the least number above this one, or the first of all, with the place of its record. It takes no memory.
    pub fn next_live(&self, after: Option<u64>) -> Option<(u64, Pointer)>
        ensures { result ≡ next_from (least_above after) self.now.live }
    {
        match after {
            None => self.live_from(0),
            Some(number) if number < self.top => self.live_from(number + 1),
            Some(_) => None,
        }
    }

    // Of the events from a number on the first, with the place of its record.
    fn live_from(&self, low: u64) -> Option<(u64, Pointer)>
        ensures { result ≡ next_from low self.now.live }
    {
        let place = live_place(&self.slots, place_of(&self.slots, low));
        if place >= self.slots.len() {
            return None;
        }
        let slot = read(&self.slots, place);
        let pointer = Pointer {
            file: slot.file,
            at: slot.at,
            length: slot.length,
        };
        Some((slot.number, pointer))
    }

    /// How many events there are.
    pub fn len(&self) -> usize
        ensures { result ≡ length self.now.live }
    {
        self.live
    }
}

/// What a slot has.
#[derive(Clone, Copy, Debug, PartialEq, Eq)]
pub enum State {
    /// An event that no transaction takes.
    Free,
    /// An event that an open or a staged transaction takes.
    Held,
    /// A gap: the event is gone.
    Gone,
}

/// An event's number, where its record stands, and what became of it. It has 32 bytes.
#[derive(Clone, Copy, Debug, PartialEq, Eq)]
pub struct Slot {
    pub number: u64,
    pub at: u64,
    pub file: u32,
    pub length: u32,
    pub state: State,
}

// The slot at a place.
pub(crate) fn read(slots: &HeapCircularBuffer<Slot>, place: usize) -> Slot
    requires { place < length slots.now.items }
    ensures { slice_get slots.now.items place ≡ Some result }
{
    match slots.get(place) {
        Some(slot) => *slot,
        None => unreachable!(),
    }
}

// Puts a slot in a place.
pub(crate) fn write(slots: &mut HeapCircularBuffer<Slot>, place: usize, slot: Slot)
    requires { place < length slots.old.items }
    ensures { slots.new ≡ buffer (slice_set slots.old.items place slot) slots.old.capacity }
{
    if let Some(at) = slots.get_mut(place) {
        *at = slot;
    }
}

// Whether the slot is a gap.
pub(crate) fn is_gap(slot: &Slot) -> bool
    ensures { result ≡ is_gone slot.now.state }
{
    matches!(slot.state, State::Gone)
}

// Whether the event of the slot is held.
pub(crate) fn is_held(slot: &Slot) -> bool
    ensures { result ≡ is_held slot.now.state }
{
    matches!(slot.state, State::Held)
}

// Moves a slot to this place, unless it is a gap. The place for the next one.
fn keep(slots: &mut HeapCircularBuffer<Slot>, to: usize, slot: Slot) -> usize
    requires within { to < length slots.old.items }
    requires low { to < 2 ^ 63 }
    ensures gap { is_gone slot.state ≡ true → (slots.new ≡ slots.old) × (result ≡ to) }
    ensures kept { is_gone slot.state ≡ false
        → (slots.new ≡ buffer (slice_set slots.old.items to slot) slots.old.capacity)
        × (result ≡ to + 1) }
{
    if is_gap(&slot) {
        return to;
    }
    write(slots, to, slot);
    to + 1
}

// Closes the gaps, in place.
pub(crate) fn close_up(slots: &mut HeapCircularBuffer<Slot>)
    ensures { slots.new ≡ buffer (closed slots.old.items) slots.old.capacity }
{
    let mut to = 0;
    for place in 0..slots.len() {
        let slot = read(slots, place);
        to = keep(slots, to, slot);
    }
    slots.truncate_back(to);
}

// The first place whose number is not below this one.
pub(crate) fn place_of(slots: &HeapCircularBuffer<Slot>, number: u64) -> usize
    requires { (low top : ℕ) × Rises low slots.now.items top }
    ensures { IsFront slots.now.items number result }
{
    let mut low = 0;
    let mut high = slots.len();
    while low < high {
        let mid = low + (high - low) / 2;
        if read(slots, mid).number < number {
            low = mid + 1;
        } else {
            high = mid;
        }
    }
    low
}

// From a place on before which no slot is free: the first place of a free one, or after the last.
pub(crate) fn free_place(slots: &HeapCircularBuffer<Slot>, from: usize) -> usize
    requires { AllByRecursion IsBusy (take from slots.now.items) }
    ensures within { result ≤ length slots.now.items }
    ensures busy { AllByRecursion IsBusy (take result slots.now.items) }
    ensures free { (slot : Slot) → slice_get slots.now.items result ≡ Some slot
        → slot.state ≡ Free }
{
    for place in from..slots.len() {
        if read(slots, place).state == State::Free {
            return place;
        }
    }
    slots.len()
}

// From a place on: the first place of an event, or after the last slot.
pub(crate) fn live_place(slots: &HeapCircularBuffer<Slot>, from: usize) -> usize
    ensures behind { from ≤ result }
    ensures gaps { AreGaps from result slots.now.items }
    ensures live { (slot : Slot) → slice_get slots.now.items result ≡ Some slot
        → is_gone slot.state ≡ false }
{
    for place in from..slots.len() {
        if !is_gap(&read(slots, place)) {
            return place;
        }
    }
    slots.len().max(from)
}

// Drops the gaps at the front. How many there were.
pub(crate) fn drop_gaps(slots: &mut HeapCircularBuffer<Slot>) -> usize
    ensures rest { slots.new ≡ buffer (drop result slots.old.items) slots.old.capacity }
    ensures live { live_of slots.new.items ≡ live_of slots.old.items }
{
    let count = slots.len();
    for dropped in 0..count {
        match slots.front() {
            Some(slot) => {
                if !is_gap(slot) {
                    return dropped;
                }
            }
            None => return dropped,
        }
        let _gone = slots.pop_front();
    }
    count
}

// Closes the gaps where no slot is left. From which place on a slot may be free then.
pub(crate) fn make_room(slots: &mut HeapCircularBuffer<Slot>, from: usize) -> usize
    ensures live { live_of slots.new.items ≡ live_of slots.old.items }
    ensures rises { (low top : ℕ) → Rises low slots.old.items top → Rises low slots.new.items top }
    ensures busy { AllByRecursion IsBusy (take from slots.old.items)
        → AllByRecursion IsBusy (take result slots.new.items) }
    ensures room { length (live_of slots.old.items) < slots.old.capacity
        → length slots.new.items < slots.new.capacity }
    ensures within { from ≤ length slots.old.items → result ≤ length slots.new.items }
    ensures capacity { slots.new.capacity ≡ slots.old.capacity }
    ensures small { slots.new.capacity < 2 ^ 63 }
{
    if slots.len() < slots.capacity() {
        return from;
    }
    close_up(slots);
    0
}

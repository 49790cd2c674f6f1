//! The lock: taken, used for calls, and given back; and those who wait together for one long call.
ghost use Rattle.std.specs.Prelude.{◌≡◌, ◌<◌, ◌+◌, ◌++◌, ◌^◌, [], ◌∷◌, true, false, length, None, MatchOption, ℕ, List, IfOk, IfErr};
ghost use Rattle.channel_face.specs.History.{Opening, Step};
ghost use Rattle.channel_lock.specs.Calls.{has, AreApart, Below};
ghost use Rattle.channel_lock.specs.Views.{View, dealer, dealing, newcomer, both, joined, part, idle, with_call};
ghost use Rattle.channel_lock.specs.Turns.{Making, MadeInTurn, Knows, Has};

use crate::guarded::{Guarded, Named, Picked};
use crate::named::named;
use crate::plays::{Both, Count, CountOne, Deal, Leave, LookJoined, Read, Take, Told, Turns};
use crate::view::SeatView;
use atomic_table::{Refused, Seat, Table};
use std::alloc::{AllocFailed, Global};
use std::marker::Brand;
use std::sync::atomic::AtomicU64;
use std::sync::atomic::Ordering::SeqCst;
use std::sync::{Mutex, Wait};
use std::thread;
use std::time::Duration;

/// A value that was not shared.
pub struct Unshared<C> {
    pub value: C,
}

// How often the lock is tried for beside those that wait: for the length of some calls that make no sync.
const FIRST_TRIES: u32 = 32;

// How often the lock is looked at before another thread may run: for about the length of a call that makes no sync.
const LOOKS: u32 = 64;

// How often the lock is tried for before a thread sleeps, and how long it sleeps at most without being woken.
const TRIES: u32 = 16;

// How often who is next comes to sleep before nobody begins to overtake any more.
const LOST: u64 = 2;

// How long one sleeps at most without being woken.
const MILLIS: u64 = 50;

// How often a thread lets others in first.
const WAYS: u32 = 64;

/// A value that threads share one at a time.
#[derive(Drop)]
pub struct ChannelLock<C: Guarded> {
    pub(crate) table: Table<Option<C>, SeatView, Told, Turns<C>, Global>,
    // Who is next for the lock has it; the others wait for it here, so that nobody who held the lock overtakes them for long.
    queue: Mutex<()>,
    // How many wait for the lock, whether who is next sleeps until it is free, or is about to, and how often it came to. No clause
    // rests on these four.
    waiting: AtomicU64,
    asleep: AtomicU64,
    starved: AtomicU64,
    ghost sized: { (table.shared.table_id.words ≡ 2) × (table.shared.table_id.slots ≡ 1) },
}

/// A seat at the table.
pub type Place<C> = Seat<Option<C>, SeatView>;

impl<C: Guarded> ChannelLock<C> {
    /// Shares a value that stands for an opening and no calls. Where memory runs out, it comes back. The seat deals the numbers of so
    /// many passes.
    pub fn new(
        alloc: Global,
        value: C,
        passes: u64,
    ) -> Result<(ChannelLock<C>, Place<C>), Unshared<C>>
        ghost opening: { Opening }
        requires { C.stands value opening [] }
        ensures shared { IfOk result (λ r. (r.1.table_id ≡ r.0.table.shared.table_id) ×
            (r.1.me ≡ (dealer opening passes, []))) }
        ensures back { IfErr result (λ r. r.value ≡ value) }
    {
        let Ok(opened) = named::<Brand>(alloc) else {
            return Err(Unshared { value });
        };
        let about = (opened, passes);
        let mut slots = Vec::new(alloc);
        if let Err(AllocFailed { value }) = slots.push(Some(value)) {
            slots.destroy_empty();
            let Some(value) = value else { unreachable!() };
            return Err(Unshared { value });
        }
        match Table::new(alloc, &[0, 0], slots, &about) {
            Ok((table, seat)) => Ok((
                ChannelLock {
                    table,
                    queue: Mutex::new(()),
                    waiting: AtomicU64::new(0),
                    asleep: AtomicU64::new(0),
                    starved: AtomicU64::new(0),
                },
                seat,
            )),
            Err(Refused { mut slots }) => {
                let last = slots.pop();
                slots.destroy_empty();
                let Some(Some(value)) = last else {
                    unreachable!()
                };
                Err(Unshared { value })
            }
        }
    }

    /// A seat with the next number, which has made no call.
    pub fn deal(&self, dealer: &mut Place<C>) -> Place<C>
        requires table { dealer.old.table_id ≡ self.now.table.shared.table_id }
        requires deals { (dealer.old.me.0.deals ≡ true) × (dealer.old.me.0.turn ≡ false) ×
            (dealer.old.me.0.live ≡ true) × (dealer.old.me.1 ≡ []) }
        requires room { dealer.old.me.0.dealt < dealer.old.me.0.passes }
        ensures dealer { (dealer.new.table_id ≡ dealer.old.table_id) ×
            (dealer.new.me ≡ (dealing dealer.old.me.0, [])) }
        ensures pass { (result.table_id ≡ dealer.old.table_id) ×
            (result.me ≡ (newcomer dealer.old.me.0, [])) }
    {
        self.table.shared.split_seat::<Deal>(dealer)
    }

    /// Takes another seat in. What either has seen is seen, and the numbers of both are its own. Both are seats of one history
    /// and of as many passes, and no number was with both.
    pub fn join(&self, into: &mut Place<C>, from: Place<C>)
        requires into { (into.old.table_id ≡ self.now.table.shared.table_id) ×
            (into.old.me.0.live ≡ true) × (into.old.me.1 ≡ []) }
        requires from { (from.table_id ≡ self.now.table.shared.table_id) × (from.me.0.turn ≡ false)
            × (from.me.1 ≡ []) }
        ensures same { (into.new.table_id ≡ into.old.table_id) ×
            (into.new.me ≡ (joined (both into.old.me.0 from.me.0), [])) }
        ensures seen { Has into.new.me.0.seen (part into.old.me.0) × Has into.new.me.0.seen
            (part from.me.0) }
        ensures one { from.me.0.live ≡ true → (from.me.0.base ≡ into.old.me.0.base) ×
            (from.me.0.passes ≡ into.old.me.0.passes) }
        ensures apart { AreApart into.old.me.0.numbers from.me.0.numbers }
        ensures numbers { (n : ℕ) → has into.new.me.0.numbers n ≡ true → n < into.new.me.0.passes }
    {
        self.table.shared.join_seat::<Both>(into, from);
        self.table.shared.load::<LookJoined>(into, 0);
    }

    fn try_enter(&self, seat: &mut Place<C>) -> Option<C>
        requires table { seat.old.table_id ≡ self.now.table.shared.table_id }
        requires idle { (seat.old.me.0.turn ≡ false) × (seat.old.me.1 ≡ []) ×
            (seat.old.me.0.live ≡ true) }
        ensures same { (seat.new.table_id ≡ seat.old.table_id) × (seat.new.id ≡ seat.old.id) }
        ensures turn { MatchOption result (seat.new.me ≡ seat.old.me)
            (λ c. (seat.new.me.1 ≡ (0, None) ∷ []) × Knows C.stands seat.old.me.0 c seat.new.me.0) }
    {
        if self.table.shared.compare_exchange::<Take>(seat, 1, 0, 1) != 0 {
            return None;
        }
        self.table.shared.exchange(seat, 0, None)
    }

    // Whether the lock looks free soon. A look shares the word's cache line with the one who holds the lock, where a try takes it
    // away.
    fn looks_free(&self) -> bool {
        for _ in 0..LOOKS {
            if self.table.shared.peek(1) == 0 {
                return true;
            }
        }
        false
    }

    // Tries for the lock so many times, but where it does not look free soon. Between two tries others run, perhaps the one who
    // holds the lock.
    fn try_often(&self, seat: &mut Place<C>, tries: u32) -> Option<C>
        requires table { seat.old.table_id ≡ self.now.table.shared.table_id }
        requires idle { (seat.old.me.0.turn ≡ false) × (seat.old.me.1 ≡ []) ×
            (seat.old.me.0.live ≡ true) }
        ensures same { (seat.new.table_id ≡ seat.old.table_id) × (seat.new.id ≡ seat.old.id) }
        ensures turn { MatchOption result (seat.new.me ≡ seat.old.me)
            (λ c. (seat.new.me.1 ≡ (0, None) ∷ []) × Knows C.stands seat.old.me.0 c seat.new.me.0) }
    {
        for _ in 0..tries {
            if self.looks_free() {
                if let Some(value) = self.try_enter(seat) {
                    return Some(value);
                }
            }
            thread::yield_now();
        }
        None
    }

    // Sleeps while the lock is taken, or shut, until one who leaves it wakes it, or for some time.
    fn sleep<R: Wait>(&self, rt: &R) {
        self.asleep.fetch_add(1, SeqCst);
        let taken_or_shut = if self.table.shared.peek(1) == 1 { 1 } else { 2 };
        self.table
            .shared
            .park_timeout(rt, 1, taken_or_shut, Duration::from_millis(MILLIS));
        self.asleep.fetch_sub(1, SeqCst);
    }

    fn wake(&self) {
        if self.asleep.load(SeqCst) != 0 {
            self.table.shared.wake_one(1);
        }
    }

    // Takes the lock in the queue: who is next there tries some times, and then sleeps until the lock is released.
    fn enter_in_line<R: Wait>(&self, rt: &R, seat: &mut Place<C>) -> C
        requires table { seat.old.table_id ≡ self.now.table.shared.table_id }
        requires idle { (seat.old.me.0.turn ≡ false) × (seat.old.me.1 ≡ []) ×
            (seat.old.me.0.live ≡ true) }
        ensures same { (seat.new.table_id ≡ seat.old.table_id) × (seat.new.id ≡ seat.old.id) }
        ensures turn { (seat.new.me.1 ≡ (0, None) ∷ []) × Knows C.stands seat.old.me.0 result
            seat.new.me.0 }
        ensures making { Making seat.old.me.0 [] seat.new.me.0 }
    {
        self.waiting.fetch_add(1, SeqCst);
        let _next = self.queue.lock(rt);
        for _ in rt.forever() {
            match self.try_often(seat, TRIES) {
                Some(value) => {
                    self.starved.store(0, SeqCst);
                    self.waiting.fetch_sub(1, SeqCst);
                    return value;
                }
                None => {
                    self.sleep(rt);
                    self.starved.fetch_add(1, SeqCst);
                }
            }
        }
        unreachable!()
    }

    /// Takes the lock, and the value out of its slot. It may wait for the lock. A call that makes no sync is soon over, so the
    /// turn is tried for at once, and then waited for in a queue. Once who is next there has come to sleep twice, nobody
    /// begins to overtake.
    pub fn enter<R: Wait>(&self, rt: &R, seat: &mut Place<C>) -> C
        requires table { seat.old.table_id ≡ self.now.table.shared.table_id }
        requires idle { (seat.old.me.0.turn ≡ false) × (seat.old.me.1 ≡ []) ×
            (seat.old.me.0.live ≡ true) }
        ensures same { (seat.new.table_id ≡ seat.old.table_id) × (seat.new.id ≡ seat.old.id) }
        ensures turn { (seat.new.me.1 ≡ (0, None) ∷ []) × Knows C.stands seat.old.me.0 result
            seat.new.me.0 }
        ensures making { Making seat.old.me.0 [] seat.new.me.0 }
    {
        if self.starved.load(SeqCst) < LOST {
            if let Some(value) = self.try_often(seat, FIRST_TRIES) {
                return value;
            }
        }
        self.enter_in_line(rt, seat)
    }

    /// Lets those in first that wait for the lock, for some tries. Who is about to make a long call for others too asks for
    /// this, so that more of them have come in by then.
    pub fn give_way(&self) {
        for _ in 0..WAYS {
            if self.waiting.load(SeqCst) == 0 {
                return;
            }
            thread::yield_now();
        }
    }

    /// How many wait for the lock.
    pub fn waiting(&self) -> u64 {
        self.waiting.load(SeqCst)
    }

    /// How many calls the history has.
    pub fn calls(&self, seat: &mut Place<C>) -> u64
        requires table { seat.old.table_id ≡ self.now.table.shared.table_id }
        requires turn { seat.old.me.0.turn ≡ true }
        ensures same { (seat.new.table_id ≡ seat.old.table_id) × (seat.new.id ≡ seat.old.id) ×
            (seat.new.me ≡ seat.old.me) }
        ensures calls { result ≡ length seat.old.me.0.seen }
    {
        self.table.shared.load::<Read>(seat, 0)
    }

    /// Counts the call that E names. What a caller's pick of E names is in `said`.
    pub fn count<E: Named, T>(&self, seat: &mut Place<C>, by: u64, said: &T)
        requires table { seat.old.table_id ≡ self.now.table.shared.table_id }
        requires turn { (seat.old.me.0.turn ≡ true) × (length seat.old.me.0.seen + 1 < 2 ^ 64) ×
            (seat.old.me.0.live ≡ true) }
        requires own { has seat.old.me.0.numbers E.entry.pass ≡ true }
        ensures same { (seat.new.table_id ≡ seat.old.table_id) × (seat.new.id ≡ seat.old.id) }
        ensures call { seat.new.me ≡ (with_call E.entry seat.old.me.0, seat.old.me.1) }
        ensures making { (v : View) (es : List Step) → Making v es seat.old.me.0 → has v.numbers
            E.entry.pass ≡ true → Making v (es ++ E.entry ∷ []) seat.new.me.0 }
    {
        let _ = by;
        let _ = said;
        self.table.shared.fetch_add::<Count<E>>(seat, 0, 1);
    }

    /// Counts one of the calls that P picks, where it picks one of the seat's own numbers. What a caller's pick of P speaks of
    /// is in `said`.
    pub fn count_one<P: Picked, T>(&self, seat: &mut Place<C>, by: u64, said: &T)
        requires table { seat.old.table_id ≡ self.now.table.shared.table_id }
        requires turn { (seat.old.me.0.turn ≡ true) × (length seat.old.me.0.seen + 1 < 2 ^ 64) ×
            (seat.old.me.0.live ≡ true) }
        requires some { (e : Step) × P.picks e × (has seat.old.me.0.numbers e.pass ≡ true) }
        ensures same { (seat.new.table_id ≡ seat.old.table_id) × (seat.new.id ≡ seat.old.id) }
        ensures call { (e : Step) × P.picks e × (seat.new.me ≡
            (with_call e seat.old.me.0, seat.old.me.1)) ×
            ((v : View) (es : List Step) → Making v es seat.old.me.0 → has v.numbers e.pass ≡ true →
            Making v (es ++ e ∷ []) seat.new.me.0) }
    {
        let _ = by;
        let _ = said;
        self.table.shared.fetch_add::<CountOne<P>>(seat, 0, 1);
    }

    /// Brings the value home, and releases the lock.
    pub fn leave(&self, seat: &mut Place<C>, value: C)
        requires table { seat.old.table_id ≡ self.now.table.shared.table_id }
        requires turn { (seat.old.me.0.turn ≡ true) × (seat.old.me.1 ≡ (0, None) ∷ []) ×
            (seat.old.me.0.live ≡ true) }
        requires value { C.stands value seat.old.me.0.base seat.old.me.0.seen }
        ensures same { (seat.new.table_id ≡ seat.old.table_id) × (seat.new.id ≡ seat.old.id) }
        ensures turn { seat.new.me ≡ (idle seat.old.me.0, []) }
        ensures made { (v : View) (es : List Step) → Making v es seat.old.me.0 → MadeInTurn v es
            seat.new.me.0 }
    {
        let before = self.table.shared.exchange(seat, 0, Some(value));
        let None = before else { unreachable!() };
        self.table.shared.store::<Leave>(seat, 1, 0);
        self.wake();
    }

    /// Releases the lock without the value, for good. Who waits for the lock, or asks for it later, waits for ever.
    pub fn shut(&self, seat: &mut Place<C>)
        requires table { seat.old.table_id ≡ self.now.table.shared.table_id }
        requires turn { (seat.old.me.0.turn ≡ true) × (seat.old.me.1 ≡ (0, None) ∷ []) }
        ensures same { (seat.new.table_id ≡ seat.old.table_id) × (seat.new.id ≡ seat.old.id) }
        ensures turn { seat.new.me ≡ (idle seat.old.me.0, []) }
        ensures made { (v : View) (es : List Step) → Making v es seat.old.me.0 → MadeInTurn v es
            seat.new.me.0 }
    {
        self.table.shared.store::<Leave>(seat, 1, 2);
    }
}

// How often who leads waits for the others, and how long each time at most.
const WAITS: u32 = 16;

const MICROS: u64 = 200;

/// Callers that want a long call made, of which one leads: it makes the call, and the others sleep until then. No clause rests
/// on it: who comes back from the sleep asks the value itself.
#[derive(Drop)]
pub struct Gather {
    led: AtomicU64,
    // Every mark below this one was served, or its call was tried.
    served: AtomicU64,
    // How often one who led was done, or let go, how many sleep until the next time, and how many are likely to sleep by then.
    rounds: AtomicU64,
    asleep: AtomicU64,
    company: AtomicU64,
}

fn low_bits(word: u64) -> u32 {
    (word % 4_294_967_296) as u32
}

impl Gather {
    /// One in which nobody leads, and no mark was served.
    pub fn new() -> Gather {
        Gather {
            led: AtomicU64::new(0),
            served: AtomicU64::new(0),
            rounds: AtomicU64::new(0),
            asleep: AtomicU64::new(0),
            company: AtomicU64::new(0),
        }
    }

    /// Waits while another leads and the mark was not served. Answers whether the caller leads: then it makes the call, and
    /// says so by [`Gather::done`].
    pub fn leads<R: Wait>(&self, rt: &R, mark: u64) -> bool {
        for _ in rt.forever() {
            let round = self.rounds.load(SeqCst);
            if self.served.load(SeqCst) > mark {
                return false;
            }
            if self.led.swap(1, SeqCst) == 0 {
                if self.served.load(SeqCst) <= mark {
                    return true;
                }
                self.free();
                return false;
            }
            let before = self.asleep.fetch_add(1, SeqCst);
            if before.saturating_add(1) == self.company.load(SeqCst) {
                self.asleep.wake_one();
            }
            self.rounds
                .park_timeout(rt, low_bits(round), Duration::from_millis(MILLIS));
            self.asleep.fetch_sub(1, SeqCst);
        }
        unreachable!()
    }

    /// Waits, before the one who leads makes the call, for those who are likely to come, as long as some come.
    pub fn await_company<R: Wait>(&self, rt: &R) {
        let mut before = u64::MAX;
        for _ in 0..WAITS {
            let asleep = self.asleep.load(SeqCst);
            if asleep >= self.company.load(SeqCst) || asleep == before {
                return;
            }
            before = asleep;
            self.asleep
                .park_timeout(rt, low_bits(asleep), Duration::from_micros(MICROS));
        }
    }

    // Nobody leads any more. All who sleep wake.
    fn free(&self) {
        self.led.store(0, SeqCst);
        self.rounds.fetch_add(1, SeqCst);
        if self.asleep.load(SeqCst) != 0 {
            self.rounds.wake_all();
        }
    }

    /// The one who leads has made the call for this mark and those below it. All who sleep wake. They and so many others are
    /// likely to come again.
    pub fn done(&self, mark: u64, others: u64) {
        self.served.fetch_max(mark.saturating_add(1), SeqCst);
        let asleep = self.asleep.load(SeqCst);
        self.company.store(asleep.saturating_add(others), SeqCst);
        self.free();
    }
}

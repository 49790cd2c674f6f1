// What one thread calls the channel with.
ghost use Rattle.std.specs.Prelude.{◌≡◌, ◌<◌, ◌≤◌, ◌||◌, ℕ, All, [], IfOk, IfErr, true, false, length, get_or, if◌then◌else◌};
ghost use Rattle.std.specs.Vec.{vec_capacity};
ghost use Rattle.channel_face.specs.History.{Opening};
ghost use Rattle.channel_lock.specs.Calls.{has, AreApart, calls_by};
ghost use Rattle.channel_lock.specs.Turns.{Has, HasAll};
ghost use Rattle.channel_lock.specs.Views.{part, both, joined, dealer_of, dealing};
ghost use Rattle.shared_channel.specs.Calls.{Left};
ghost use Rattle.shared_channel.specs.Counting.{StandsAgreeing};
ghost use Rattle.shared_channel.specs.Passes.{Known, new_pass, new_passes, IsBlank};

use crate::home::Home;
use crate::shared::{Holder, Shared};
use atomic_table::Badge;
use channel_face::Channel;
use channel_lock::{ChannelLock, Gather, Place, SeatView};
use std::alloc::{AllocError, Global};
use std::marker::Model;
use std::mem;
use std::sync::Wait;

/// What one thread has seen of the history, and the numbers of its calls.
#[derive(Drop)]
pub struct Pass {
    pub(crate) badge: Badge<SeatView>,
    pub(crate) number: u64,
    // how many calls it has seen
    pub(crate) calls: u64,
    // whether it has the number of a place
    pub(crate) marks: Vec<bool>,
}

impl Model for Pass {
    ghost use Rattle.shared_channel.specs.Passes.{Known, view_of, IsPass};

    ghost Value = { Known };

    ghost view = { λ p. record {
      table_id = p.badge.table_id;
      number = p.number;
      view = view_of
          p.badge.views;
    } };

    ghost invariant = { λ p. IsPass p.badge.views p.number p.calls p.marks.items };
}

/// A channel that was not shared.
#[derive(Drop)]
pub struct Unshared<C> {
    pub channel: C,
}

/// A channel that nobody shares any more, and a pass that has seen the calls that it stands for.
#[derive(Drop)]
pub struct Closed<C> {
    pub channel: C,
    pub pass: Pass,
}

impl Pass {
    /// The number that its next call carries.
    pub fn number(&self) -> u64
        ensures { result ≡ self.now.number }
    {
        self.number
    }

    /// How many calls it has seen.
    pub fn seen(&self) -> u64
        ensures { result ≡ length self.now.view.seen }
    {
        self.calls
    }

    /// Whether this number is one of its own. Then its later calls carry it; else nothing changes.
    pub fn turn_to(&mut self, number: u64) -> bool
        ensures own { result ≡ has self.old.view.numbers number }
        ensures same { (self.new.table_id ≡ self.old.table_id) × (self.new.view ≡ self.old.view) }
        ensures number { self.new.number ≡ (if result then number else self.old.number) }
    {
        if number >= self.marks.len() as u64 {
            return false;
        }
        if !self.marks[number as usize] {
            return false;
        }
        self.number = number;
        true
    }
}

// No marks, for one pass.
fn blank(alloc: Global, passes: u32) -> Result<Vec<bool>, AllocError>
    ensures { IfOk result (λ m. IsBlank passes m.items) }
{
    vec![in alloc; false; passes as usize]
}

// No marks, for each pass.
fn blanks(alloc: Global, passes: u32) -> Result<Vec<Vec<bool>>, AllocError>
    ensures blank { IfOk result (λ all. All (λ m. IsBlank passes m.items) all.items) }
    ensures each { IfOk result (λ all. length all.items ≡ passes) }
{
    let mut all = Vec::new(alloc);
    while all.len() < passes as usize {
        all.push(blank(alloc, passes)?)?;
    }
    Ok(all)
}

// Marks what either marks.
fn add_marks(into: &mut Vec<bool>, from: &Vec<bool>)
    ensures each { (n : ℕ) → n < length into.old.items → get_or into.new.items n false ≡
        (get_or into.old.items n false || get_or from.now.items n false) }
    ensures same { length into.new.items ≡ length into.old.items }
{
    for (i, mark) in from.iter().enumerate() {
        if *mark && i < into.len() {
            into[i] = true;
        }
    }
}

impl<C: Channel> Shared<C> {
    /// Shares a channel that has made no call since the opening that it stands for. The pass at place i of the list has number
    /// i, and has made no call; there are no other passes, and without one nobody can close it. Where memory runs out, the
    /// channel comes back.
    pub fn new(
        alloc: Global,
        channel: C,
        passes: u32,
    ) -> Result<(Shared<C>, Vec<Pass>), Unshared<C>>
        ghost start: { Opening }
        requires { C.stands channel start [] }
        ensures shared { IfOk result
            (λ r. r.1.items ≡ new_passes r.0.turn.table.shared.table_id start passes passes) }
        ensures table { IfOk result
            (λ r. All (λ p. p.table_id ≡ r.0.turn.table.shared.table_id) r.1.items) }
        ensures back { IfErr result (λ u. u.channel ≡ channel) }
    {
        let Ok(marks) = blanks(alloc, passes) else {
            return Err(Unshared { channel });
        };
        let Ok(list) = Vec::with_capacity(alloc, passes as usize) else {
            return Err(Unshared { channel });
        };
        match ChannelLock::new(alloc, Home { channel }, u64::from(passes)) {
            Ok((turn, dealer)) => {
                let shared = Shared {
                    turn,
                    flushing: Gather::new(),
                };
                let list = shared.deal_all(dealer, list, marks, passes);
                Ok((shared, list))
            }
            Err(refused) => {
                let channel_lock::Unshared { value } = refused;
                let Home { channel } = value;
                Err(Unshared { channel })
            }
        }
    }

    // A pass for each number, in order.
    fn deal_all(
        &self,
        mut dealer: Place<Home<C>>,
        mut list: Vec<Pass>,
        mut marks: Vec<Vec<bool>>,
        passes: u32,
    ) -> Vec<Pass>
        ghost start: { Opening }
        requires table { dealer.table_id ≡ self.now.turn.table.shared.table_id }
        requires dealer { dealer.me ≡ (dealer_of start passes 0, []) }
        requires list { (list.items ≡ []) × (passes ≤ vec_capacity list) }
        requires marks { All (λ m. IsBlank passes m.items) marks.items ×
            (length marks.items ≡ passes) }
        ensures passes { result.items ≡ new_passes self.now.turn.table.shared.table_id start passes
            passes }
        ensures table { All (λ p. p.table_id ≡ self.now.turn.table.shared.table_id) result.items }
    {
        let mut i = 0;
        while i < passes {
            let Some(blank) = marks.pop() else {
                unreachable!()
            };
            let pass = self.deal(&mut dealer, blank, i);
            let Ok(()) = list.push(pass) else {
                unreachable!()
            };
            i += 1;
        }
        list
    }

    // A pass with the next number.
    fn deal(&self, dealer: &mut Place<Home<C>>, mut marks: Vec<bool>, number: u32) -> Pass
        ghost start: { Opening }
        requires table { dealer.old.table_id ≡ self.now.turn.table.shared.table_id }
        requires dealer { dealer.old.me ≡ (dealer_of start (length marks.items) number, []) }
        requires room { number < length marks.items }
        requires marks { IsBlank (length marks.items) marks.items }
        ensures dealer { (dealer.new.table_id ≡ dealer.old.table_id) ×
            (dealer.new.me ≡ (dealing dealer.old.me.0, [])) }
        ensures pass { result ≡ new_pass dealer.old.table_id start (length marks.items) number }
    {
        let seat = self.turn.deal(dealer);
        marks[number as usize] = true;
        Pass {
            badge: seat.into_badge(),
            number: u64::from(number),
            calls: 0,
            marks,
        }
    }

    /// Takes in another pass. What either has seen is seen, and the numbers and the calls of both are its own. Both are of one
    /// history and of as many passes, and no number was with both.
    pub fn join_pass(&self, into: &mut Pass, from: Pass)
        requires { (into.old.table_id ≡ self.now.turn.table.shared.table_id) ×
            (from.table_id ≡ self.now.turn.table.shared.table_id) }
        ensures same { (into.new.table_id ≡ into.old.table_id) ×
            (into.new.number ≡ into.old.number) }
        ensures view { into.new.view ≡ joined (both into.old.view from.view) }
        ensures seen { Has into.new.view.seen (part into.old.view) × Has into.new.view.seen
            (part from.view) }
        ensures one { (from.view.base ≡ into.old.view.base) ×
            (from.view.passes ≡ into.old.view.passes) }
        ensures apart { AreApart into.old.view.numbers from.view.numbers }
    {
        let badge = mem::replace(&mut into.badge, Badge::blank());
        let mut seat = badge.into_seat();
        let Pass {
            badge: other,
            number: _,
            calls,
            marks,
        } = from;
        self.turn.join(&mut seat, other.into_seat());
        into.badge = seat.into_badge();
        into.calls = into.calls.max(calls);
        add_marks(&mut into.marks, &marks);
    }

    /// Hands the channel back, and a pass that has seen the calls that it then stands for. Its state, its counts and what it
    /// has settled are those of what was seen. Where the pass has each number, all calls are its own, and it had seen them. It may
    /// wait for the lock.
    pub fn close<R: Wait>(self, rt: &R, pass: Pass) -> Closed<C>
    where
        C: Drop,
        requires { pass.table_id ≡ self.turn.table.shared.table_id }
        ensures same { (result.pass.table_id ≡ pass.table_id) × (result.pass.number ≡ pass.number) }
        ensures left { Left C.stands C.tells pass.view [] result.pass.view result.channel }
        ensures channel { StandsAgreeing C.stands result.channel pass.view.base
            result.pass.view.seen }
        ensures all { HasAll pass.view → calls_by pass.view.numbers result.pass.view.seen ≡
            result.pass.view.seen }
        ensures whole { HasAll pass.view → result.pass.view.seen ≡ pass.view.seen }
    {
        let Pass {
            mut badge,
            number,
            calls: _,
            marks,
        } = pass;
        let Holder {
            mut seat,
            home,
            by: _,
            calls,
        } = self.hold(rt, &mut badge, number);
        self.turn.shut(&mut seat);
        let Home { channel } = home;
        Closed {
            channel,
            pass: Pass {
                badge: seat.into_badge(),
                number,
                calls,
                marks,
            },
        }
    }
}

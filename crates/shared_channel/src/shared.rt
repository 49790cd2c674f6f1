// A channel behind one lock. As the one who holds the lock sees it: taking the lock, calls that are each counted as they are made,
// for puts and for takes alike, and letting it go. And with these, the calls of a transaction through a pass.
ghost use Rattle.std.specs.Prelude.{◌≡◌, [], ◌<◌, ◌≤◌, ◌-◌, ◌^◌, IfErr, true, false, length, Bool, Result, None};
ghost use Rattle.channel_lock.specs.Turns.{Making};
ghost use Rattle.shared_channel.specs.Holding.{Holds, IsReleased, Makes, MakesCommit, Rolls, Tries};
ghost use Rattle.shared_channel.specs.Passes.{IsHome, view_of};
ghost use Rattle.channel_face.specs.Calls.{cause_of};
ghost use Rattle.channel_face.specs.Faces.{is_spent_begin, is_spent_put, is_spent_take, is_spent_stage, is_spent_flush};
ghost use Rattle.channel_face.specs.Machine.{Put, Take, Flush, BeginPut, BeginTake, Call, RollbackPut, RollbackTake, StagePut, StageTake, State, puts_of, takes_of};
ghost use Rattle.shared_channel.specs.Ports.{MakesSettled};
ghost use Rattle.shared_channel.specs.Calls.{is_spent_commit, Answers, RolledBack, Commits};
ghost use Rattle.channel_face.specs.Token.{Token};
ghost use Rattle.channel_face.specs.History.{AddsOne};
ghost use Rattle.channel_face.specs.declared.replies.BeginRefused.{BeginRefused};
ghost use Rattle.channel_face.specs.declared.replies.StageCause.{StageCause};
ghost use Rattle.channel_face.specs.declared.replies.Ticket.{Ticket};
ghost use Rattle.shared_channel.specs.Kinds.{IsCountedCall, IsRollback};

use crate::home::Home;
use crate::pass::Pass;
use atomic_table::Badge;
use channel_face::{
    BeginRefused, Channel, CommitRefused, Counter, FlushRefused, OfPuts, OfTakes, PutRefused,
    PutTxn, Settled, StageCause, StageRefused, TakeRefused, TakeTxn, Taken, Ticket, Txn,
};
use channel_lock::{ChannelLock, Gather, Place, SeatView};
use event_core::Event;
use std::marker::Brand;
use std::mem;
use std::sync::Wait;

// A call that no rollback needs the count for is made where fewer were counted.
const MOST: u64 = 18446744073709550591;

/// A channel that threads share. Its calls have one history, in which each was made whole.
#[derive(Drop)]
pub struct Shared<C: Channel> {
    pub(crate) turn: ChannelLock<Home<C>>,
    // Who has staged waits here for one flush.
    pub(crate) flushing: Gather,
}

/// A pass that holds the lock, with the channel.
pub(crate) struct Holder<C: Channel> {
    pub(crate) seat: Place<Home<C>>,
    pub(crate) home: Home<C>,
    // The number that its calls carry.
    pub(crate) by: u64,
    // How many calls are counted.
    pub(crate) calls: u64,
}

impl<C: Channel> Shared<C> {
    // Takes the lock with a pass, whose badge is out until the lock is released.
    pub(crate) fn hold<R: Wait>(&self, rt: &R, badge: &mut Badge<SeatView>, by: u64) -> Holder<C>
        requires table { badge.old.table_id ≡ self.now.turn.table.shared.table_id }
        requires home { IsHome badge.old.views by }
        ensures holds { Holds C.stands self.now.turn.table.shared.table_id result }
        ensures by { result.by ≡ by }
        ensures making { Making (view_of badge.old.views) [] result.seat.me.0 }
    {
        let mut seat = mem::replace(badge, Badge::blank()).into_seat();
        let home = self.turn.enter(rt, &mut seat);
        let calls = self.turn.calls(&mut seat);
        Holder {
            seat,
            home,
            by,
            calls,
        }
    }

    // Brings the channel home, releases the lock, and puts the badge back. It answers how many calls are counted.
    pub(crate) fn release(&self, holder: Holder<C>, badge: &mut Badge<SeatView>) -> u64
        requires { Holds C.stands self.now.turn.table.shared.table_id holder }
        ensures table { badge.new.table_id ≡ self.now.turn.table.shared.table_id }
        ensures released { IsReleased C.stands C.tells holder badge.new.views result }
    {
        let Holder {
            mut seat,
            home,
            by: _,
            calls,
        } = holder;
        self.turn.leave(&mut seat, home);
        *badge = seat.into_badge();
        calls
    }
}

// Each call, counted as it is made.
impl<C: Channel> Shared<C> {
    // Whether so many calls were counted that the rest of the count is for rollbacks.
    pub(crate) fn is_spent(&self, holder: &Holder<C>) -> bool
        requires { Holds C.stands self.now.turn.table.shared.table_id holder.now }
        ensures none { result ≡ true → Makes C.stands self.now.turn.table.shared.table_id []
            holder.now holder.now }
        ensures many { result ≡ true → 2 ^ 64 - 1025 ≤ length holder.now.seat.me.0.seen }
        ensures few { result ≡ false → holder.now.calls < 2 ^ 64 - 1025 }
    {
        holder.calls >= MOST
    }

    pub(crate) fn make_begin<K: KindOfTxn>(
        &self,
        holder: &mut Holder<C>,
    ) -> Result<Txn<K>, BeginRefused>
        requires { Holds C.stands self.now.turn.table.shared.table_id holder.old }
        ensures { Tries C.stands self.now.turn.table.shared.table_id C.moment
            (is_spent_begin result) (K.begins result) holder.old holder.new }
    {
        if self.is_spent(holder) {
            return Err(BeginRefused::Spent {
                counter: Counter::Calls,
            });
        }
        let reply = K::begin(&mut holder.home.channel);
        self.turn
            .count::<Brand, (&Result<Txn<K>, BeginRefused>, &Home<C>)>(
                &mut holder.seat,
                holder.by,
                &(&reply, &holder.home),
            );
        holder.calls += 1;
        reply
    }

    pub(crate) fn make_put(
        &self,
        holder: &mut Holder<C>,
        txn: &mut PutTxn,
        event: &Event,
    ) -> Result<channel_face::Put, PutRefused>
        requires { Holds C.stands self.now.turn.table.shared.table_id holder.old }
        ensures tries { Tries C.stands self.now.turn.table.shared.table_id C.moment
            (is_spent_put result) (Put txn.old event.now result) holder.old holder.new }
        ensures token { txn.new ≡ txn.old }
    {
        if self.is_spent(holder) {
            return Err(PutRefused::Spent {
                counter: Counter::Calls,
            });
        }
        let reply = holder.home.channel.put(txn, event);
        self.turn
            .count::<
                Brand,
                (
                    &PutTxn,
                    &Event,
                    &Result<channel_face::Put, PutRefused>,
                    &Home<C>,
                ),
            >(
                &mut holder.seat,
                holder.by,
                &(&*txn, event, &reply, &holder.home),
            );
        holder.calls += 1;
        reply
    }

    pub(crate) fn make_take(
        &self,
        holder: &mut Holder<C>,
        txn: &mut TakeTxn,
    ) -> Result<Taken, TakeRefused>
        requires { Holds C.stands self.now.turn.table.shared.table_id holder.old }
        ensures tries { Tries C.stands self.now.turn.table.shared.table_id C.moment
            (is_spent_take result) (Take txn.old result) holder.old holder.new }
        ensures token { txn.new ≡ txn.old }
    {
        if self.is_spent(holder) {
            return Err(TakeRefused::Spent {
                counter: Counter::Calls,
            });
        }
        let reply = holder.home.channel.take(txn);
        self.turn
            .count::<Brand, (&TakeTxn, &Result<Taken, TakeRefused>, &Home<C>)>(
                &mut holder.seat,
                holder.by,
                &(&*txn, &reply, &holder.home),
            );
        holder.calls += 1;
        reply
    }

    pub(crate) fn make_stage<K: KindOfTxn>(
        &self,
        holder: &mut Holder<C>,
        txn: Txn<K>,
    ) -> Result<Ticket, StageRefused<Txn<K>>>
        requires { Holds C.stands self.now.turn.table.shared.table_id holder.old }
        ensures tries { Tries C.stands self.now.turn.table.shared.table_id C.moment
            (is_spent_stage (cause_of result)) (K.stages txn (cause_of result)) holder.old
            holder.new }
        ensures back { IfErr result (λ refused. refused.txn ≡ txn) }
    {
        if self.is_spent(holder) {
            return Err(StageRefused {
                txn,
                cause: StageCause::Spent {
                    counter: Counter::Calls,
                },
            });
        }
        let (life, number) = (txn.life(), txn.number());
        let reply = K::stage(&mut holder.home.channel, txn);
        self.turn
            .count::<Brand, (&u64, &u64, &Result<Ticket, StageRefused<Txn<K>>>, &Home<C>)>(
                &mut holder.seat,
                holder.by,
                &(&life, &number, &reply, &holder.home),
            );
        holder.calls += 1;
        reply
    }

    pub(crate) fn make_flush(&self, holder: &mut Holder<C>) -> Result<(), FlushRefused>
        requires { Holds C.stands self.now.turn.table.shared.table_id holder.old }
        ensures { Tries C.stands self.now.turn.table.shared.table_id C.moment
            (is_spent_flush result) (Flush result) holder.old holder.new }
    {
        if self.is_spent(holder) {
            return Err(FlushRefused::Spent {
                counter: Counter::Calls,
            });
        }
        let reply = holder.home.channel.flush();
        self.turn
            .count::<Brand, (&Result<(), FlushRefused>, &Home<C>)>(
                &mut holder.seat,
                holder.by,
                &(&reply, &holder.home),
            );
        holder.calls += 1;
        reply
    }

    // Answers whether the token was not stale. A rollback of a stale token is not counted.
    pub(crate) fn make_rollback<K: KindOfTxn>(&self, holder: &mut Holder<C>, txn: Txn<K>) -> bool
        requires { Holds C.stands self.now.turn.table.shared.table_id holder.old }
        ensures { Rolls C.stands self.now.turn.table.shared.table_id C.moment
            result (K.rolls_back txn true) (K.is_stale txn) holder.old holder.new }
    {
        let (life, number) = (txn.life(), txn.number());
        let ended = K::roll_back(&mut holder.home.channel, txn);
        if !ended {
            return false;
        }
        self.turn.count::<Brand, (&u64, &u64, &Home<C>)>(
            &mut holder.seat,
            holder.by,
            &(&life, &number, &holder.home),
        );
        holder.calls += 1;
        true
    }

    // Stages a transaction, then flushes.
    pub(crate) fn make_commit<K: KindOfTxn>(
        &self,
        holder: &mut Holder<C>,
        txn: Txn<K>,
    ) -> Result<Ticket, CommitRefused<Txn<K>>>
        requires { Holds C.stands self.now.turn.table.shared.table_id holder.old }
        ensures { MakesCommit C.stands self.now.turn.table.shared.table_id
            (is_spent_commit result) (K.stages txn) txn result holder.old holder.new }
    {
        if holder.calls >= MOST - 1 {
            return Err(CommitRefused::Stage(StageRefused {
                txn,
                cause: StageCause::Spent {
                    counter: Counter::Calls,
                },
            }));
        }
        match self.make_stage(holder, txn) {
            Ok(ticket) => match self.make_flush(holder) {
                Ok(()) => Ok(ticket),
                Err(_) => Err(CommitRefused::InDoubt),
            },
            Err(refused) => Err(CommitRefused::Stage(refused)),
        }
    }

    // Flushes where the ticket is `No`, and answers whether it then is settled.
    pub(crate) fn make_settled(&self, holder: &mut Holder<C>, ticket: &Ticket) -> bool
        requires { Holds C.stands self.now.turn.table.shared.table_id holder.old }
        ensures { MakesSettled C.stands self.now.turn.table.shared.table_id C.moment
            ticket.now result holder.old holder.new }
    {
        match holder.home.channel.settled(ticket) {
            Settled::Yes => true,
            Settled::No => self.make_flush(holder).is_ok(),
            Settled::InDoubt => false,
        }
    }
}

/// A kind of transactions: of puts, or of takes.
pub(crate) trait KindOfTxn {
    /// A beginning, with its reply.
    ghost begins: { Result Token BeginRefused → Call };

    /// A stage, with its reply.
    ghost stages: { Token → Result Ticket StageCause → Call };

    /// A rollback, and whether it ended a transaction.
    ghost rolls_back: { Token → Bool → Call };

    /// No transaction of this kind is open by the token.
    ghost is_stale: { Token → State → Type 0 };

    /// Begins one.
    fn begin<C: Channel>(channel: &mut C) -> Result<Txn<Self>, BeginRefused>
        ensures call { AddsOne (C.stands channel.old) (C.stands channel.new) (begins result)
            (C.moment channel.new) }
        ensures counts { IsCountedCall (begins result) (is_spent_begin result) };

    /// Stages one.
    fn stage<C: Channel>(channel: &mut C, txn: Txn<Self>) -> Result<Ticket, StageRefused<Txn<Self>>>
        ensures step { AddsOne (C.stands channel.old) (C.stands channel.new)
            (stages txn (cause_of result)) (C.moment channel.new) }
        ensures counts { IsCountedCall (stages txn (cause_of result))
            (is_spent_stage (cause_of result)) }
        ensures back { IfErr result (λ refused. refused.txn ≡ txn) };

    /// Gives one up, and answers whether its token was not stale.
    fn roll_back<C: Channel>(channel: &mut C, txn: Txn<Self>) -> bool
        ensures call { AddsOne (C.stands channel.old) (C.stands channel.new) (rolls_back txn result)
            (C.moment channel.new) }
        ensures counts { IsRollback (rolls_back txn) (is_stale txn) };
}

impl KindOfTxn for OfPuts {
    ghost use Rattle.channel_face.specs.Machine.{BeginPut, RollbackPut, StagePut, puts_of};

    ghost begins = { λ reply. BeginPut reply };

    ghost stages = { λ token reply. StagePut token reply };

    ghost rolls_back = { λ token ended. RollbackPut token ended };

    ghost is_stale = { λ token s. puts_of s token ≡ None };

    fn begin<C: Channel>(channel: &mut C) -> Result<Txn<OfPuts>, BeginRefused>
        ensures call { AddsOne (C.stands channel.old) (C.stands channel.new) (BeginPut result)
            (C.moment channel.new) }
        ensures counts { IsCountedCall (BeginPut result) (is_spent_begin result) }
    {
        channel.begin_put()
    }

    fn stage<C: Channel>(
        channel: &mut C,
        txn: Txn<OfPuts>,
    ) -> Result<Ticket, StageRefused<Txn<OfPuts>>>
        ensures step { AddsOne (C.stands channel.old) (C.stands channel.new)
            (StagePut txn (cause_of result)) (C.moment channel.new) }
        ensures counts { IsCountedCall (StagePut txn (cause_of result))
            (is_spent_stage (cause_of result)) }
        ensures back { IfErr result (λ refused. refused.txn ≡ txn) }
    {
        channel.stage_put(txn)
    }

    fn roll_back<C: Channel>(channel: &mut C, txn: Txn<OfPuts>) -> bool
        ensures call { AddsOne (C.stands channel.old) (C.stands channel.new)
            (RollbackPut txn result) (C.moment channel.new) }
        ensures counts { IsRollback (RollbackPut txn) (λ s. puts_of s txn ≡ None) }
    {
        channel.rollback_put(txn)
    }
}

impl KindOfTxn for OfTakes {
    ghost use Rattle.channel_face.specs.Machine.{BeginTake, RollbackTake, StageTake, takes_of};

    ghost begins = { λ reply. BeginTake reply };

    ghost stages = { λ token reply. StageTake token reply };

    ghost rolls_back = { λ token ended. RollbackTake token ended };

    ghost is_stale = { λ token s. takes_of s token ≡ None };

    fn begin<C: Channel>(channel: &mut C) -> Result<Txn<OfTakes>, BeginRefused>
        ensures call { AddsOne (C.stands channel.old) (C.stands channel.new) (BeginTake result)
            (C.moment channel.new) }
        ensures counts { IsCountedCall (BeginTake result) (is_spent_begin result) }
    {
        channel.begin_take()
    }

    fn stage<C: Channel>(
        channel: &mut C,
        txn: Txn<OfTakes>,
    ) -> Result<Ticket, StageRefused<Txn<OfTakes>>>
        ensures step { AddsOne (C.stands channel.old) (C.stands channel.new)
            (StageTake txn (cause_of result)) (C.moment channel.new) }
        ensures counts { IsCountedCall (StageTake txn (cause_of result))
            (is_spent_stage (cause_of result)) }
        ensures back { IfErr result (λ refused. refused.txn ≡ txn) }
    {
        channel.stage_take(txn)
    }

    fn roll_back<C: Channel>(channel: &mut C, txn: Txn<OfTakes>) -> bool
        ensures call { AddsOne (C.stands channel.old) (C.stands channel.new)
            (RollbackTake txn result) (C.moment channel.new) }
        ensures counts { IsRollback (RollbackTake txn) (λ s. takes_of s txn ≡ None) }
    {
        channel.rollback_take(txn)
    }
}

// Transactions of puts.
impl<C: Channel> Shared<C> {
    /// Begins a transaction of puts, as [`Channel::begin_put`], or is refused as `Spent` of `Counter::Calls`.
    pub fn begin_put<R: Wait>(&self, rt: &R, pass: &mut Pass) -> Result<PutTxn, BeginRefused>
        requires { pass.old.table_id ≡ self.now.turn.table.shared.table_id }
        ensures same { (pass.new.table_id ≡ pass.old.table_id) ×
            (pass.new.number ≡ pass.old.number) }
        ensures call { Answers C.stands C.tells C.moment
            (is_spent_begin result) pass.old.view pass.old.number (BeginPut result) pass.new.view }
    {
        let mut holder = self.hold(rt, &mut pass.badge, pass.number);
        let reply = self.make_begin::<OfPuts>(&mut holder);
        pass.calls = self.release(holder, &mut pass.badge);
        reply
    }

    /// Puts an event, as [`Channel::put`], or is refused as `Spent` of `Counter::Calls`.
    pub fn put<R: Wait>(
        &self,
        rt: &R,
        pass: &mut Pass,
        txn: &mut PutTxn,
        event: &Event,
    ) -> Result<channel_face::Put, PutRefused>
        requires { pass.old.table_id ≡ self.now.turn.table.shared.table_id }
        ensures same { (pass.new.table_id ≡ pass.old.table_id) ×
            (pass.new.number ≡ pass.old.number) }
        ensures call { Answers C.stands C.tells C.moment
            (is_spent_put result) pass.old.view pass.old.number
            (Put txn.old event.now result) pass.new.view }
        ensures token { txn.new ≡ txn.old }
    {
        let mut holder = self.hold(rt, &mut pass.badge, pass.number);
        let reply = self.make_put(&mut holder, txn, event);
        pass.calls = self.release(holder, &mut pass.badge);
        reply
    }

    /// Stages a transaction of puts, as [`Channel::stage_put`], or is refused as `Spent` of `Counter::Calls`.
    pub fn stage_put<R: Wait>(
        &self,
        rt: &R,
        pass: &mut Pass,
        txn: PutTxn,
    ) -> Result<Ticket, StageRefused<PutTxn>>
        requires { pass.old.table_id ≡ self.now.turn.table.shared.table_id }
        ensures same { (pass.new.table_id ≡ pass.old.table_id) ×
            (pass.new.number ≡ pass.old.number) }
        ensures call { Answers C.stands C.tells C.moment
            (is_spent_stage (cause_of result)) pass.old.view pass.old.number
            (StagePut txn (cause_of result)) pass.new.view }
        ensures back { IfErr result (λ refused. refused.txn ≡ txn) }
    {
        let mut holder = self.hold(rt, &mut pass.badge, pass.number);
        let reply = self.make_stage::<OfPuts>(&mut holder, txn);
        pass.calls = self.release(holder, &mut pass.badge);
        reply
    }

    /// Settles all that is staged, as [`Channel::flush`], or is refused as `Spent` of `Counter::Calls`.
    pub fn flush<R: Wait>(&self, rt: &R, pass: &mut Pass) -> Result<(), FlushRefused>
        requires { pass.old.table_id ≡ self.now.turn.table.shared.table_id }
        ensures same { (pass.new.table_id ≡ pass.old.table_id) ×
            (pass.new.number ≡ pass.old.number) }
        ensures call { Answers C.stands C.tells C.moment
            (is_spent_flush result) pass.old.view pass.old.number (Flush result) pass.new.view }
    {
        let mut holder = self.hold(rt, &mut pass.badge, pass.number);
        let reply = self.make_flush(&mut holder);
        pass.calls = self.release(holder, &mut pass.badge);
        reply
    }

    /// Stages a transaction of puts and flushes, under one lock, as [`Channel::commit_put`], or is refused as `Spent` of
    /// `Counter::Calls`.
    pub fn commit_put<R: Wait>(
        &self,
        rt: &R,
        pass: &mut Pass,
        txn: PutTxn,
    ) -> Result<Ticket, CommitRefused<PutTxn>>
        requires { pass.old.table_id ≡ self.now.turn.table.shared.table_id }
        ensures same { (pass.new.table_id ≡ pass.old.table_id) ×
            (pass.new.number ≡ pass.old.number) }
        ensures call { Commits C.stands C.tells (is_spent_commit result) pass.old.view
            pass.old.number (StagePut txn) txn result pass.new.view }
    {
        let mut holder = self.hold(rt, &mut pass.badge, pass.number);
        let reply = self.make_commit::<OfPuts>(&mut holder, txn);
        pass.calls = self.release(holder, &mut pass.badge);
        reply
    }

    /// Gives a transaction of puts up, as [`Channel::rollback_put`]. It is never refused. A rollback of a stale token is not
    /// counted.
    pub fn rollback_put<R: Wait>(&self, rt: &R, pass: &mut Pass, txn: PutTxn) -> bool
        requires { pass.old.table_id ≡ self.now.turn.table.shared.table_id }
        ensures same { (pass.new.table_id ≡ pass.old.table_id) ×
            (pass.new.number ≡ pass.old.number) }
        ensures call { RolledBack C.stands C.tells C.moment result pass.old.view pass.old.number
            (RollbackPut txn true) (λ s. puts_of s txn ≡ None) pass.new.view }
    {
        let mut holder = self.hold(rt, &mut pass.badge, pass.number);
        let ended = self.make_rollback::<OfPuts>(&mut holder, txn);
        pass.calls = self.release(holder, &mut pass.badge);
        ended
    }
}

// Transactions of takes.
impl<C: Channel> Shared<C> {
    /// Begins a transaction of takes, as [`Channel::begin_take`], or is refused as `Spent` of `Counter::Calls`.
    pub fn begin_take<R: Wait>(&self, rt: &R, pass: &mut Pass) -> Result<TakeTxn, BeginRefused>
        requires { pass.old.table_id ≡ self.now.turn.table.shared.table_id }
        ensures same { (pass.new.table_id ≡ pass.old.table_id) ×
            (pass.new.number ≡ pass.old.number) }
        ensures call { Answers C.stands C.tells C.moment
            (is_spent_begin result) pass.old.view pass.old.number (BeginTake result) pass.new.view }
    {
        let mut holder = self.hold(rt, &mut pass.badge, pass.number);
        let reply = self.make_begin::<OfTakes>(&mut holder);
        pass.calls = self.release(holder, &mut pass.badge);
        reply
    }

    /// Takes an event, as [`Channel::take`], or is refused as `Spent` of `Counter::Calls`.
    pub fn take<R: Wait>(
        &self,
        rt: &R,
        pass: &mut Pass,
        txn: &mut TakeTxn,
    ) -> Result<Taken, TakeRefused>
        requires { pass.old.table_id ≡ self.now.turn.table.shared.table_id }
        ensures same { (pass.new.table_id ≡ pass.old.table_id) ×
            (pass.new.number ≡ pass.old.number) }
        ensures call { Answers C.stands C.tells C.moment
            (is_spent_take result) pass.old.view pass.old.number
            (Take txn.old result) pass.new.view }
        ensures token { txn.new ≡ txn.old }
    {
        let mut holder = self.hold(rt, &mut pass.badge, pass.number);
        let reply = self.make_take(&mut holder, txn);
        pass.calls = self.release(holder, &mut pass.badge);
        reply
    }

    /// Stages a transaction of takes, as [`Channel::stage_take`], or is refused as `Spent` of `Counter::Calls`.
    pub fn stage_take<R: Wait>(
        &self,
        rt: &R,
        pass: &mut Pass,
        txn: TakeTxn,
    ) -> Result<Ticket, StageRefused<TakeTxn>>
        requires { pass.old.table_id ≡ self.now.turn.table.shared.table_id }
        ensures same { (pass.new.table_id ≡ pass.old.table_id) ×
            (pass.new.number ≡ pass.old.number) }
        ensures call { Answers C.stands C.tells C.moment
            (is_spent_stage (cause_of result)) pass.old.view pass.old.number
            (StageTake txn (cause_of result)) pass.new.view }
        ensures back { IfErr result (λ refused. refused.txn ≡ txn) }
    {
        let mut holder = self.hold(rt, &mut pass.badge, pass.number);
        let reply = self.make_stage::<OfTakes>(&mut holder, txn);
        pass.calls = self.release(holder, &mut pass.badge);
        reply
    }

    /// Stages a transaction of takes and flushes, under one lock, as [`Channel::commit_take`], or is refused as `Spent` of
    /// `Counter::Calls`.
    pub fn commit_take<R: Wait>(
        &self,
        rt: &R,
        pass: &mut Pass,
        txn: TakeTxn,
    ) -> Result<Ticket, CommitRefused<TakeTxn>>
        requires { pass.old.table_id ≡ self.now.turn.table.shared.table_id }
        ensures same { (pass.new.table_id ≡ pass.old.table_id) ×
            (pass.new.number ≡ pass.old.number) }
        ensures call { Commits C.stands C.tells (is_spent_commit result) pass.old.view
            pass.old.number (StageTake txn) txn result pass.new.view }
    {
        let mut holder = self.hold(rt, &mut pass.badge, pass.number);
        let reply = self.make_commit::<OfTakes>(&mut holder, txn);
        pass.calls = self.release(holder, &mut pass.badge);
        reply
    }

    /// Gives a transaction of takes up, as [`Channel::rollback_take`]. It is never refused. A rollback of a stale token is not
    /// counted.
    pub fn rollback_take<R: Wait>(&self, rt: &R, pass: &mut Pass, txn: TakeTxn) -> bool
        requires { pass.old.table_id ≡ self.now.turn.table.shared.table_id }
        ensures same { (pass.new.table_id ≡ pass.old.table_id) ×
            (pass.new.number ≡ pass.old.number) }
        ensures call { RolledBack C.stands C.tells C.moment result pass.old.view pass.old.number
            (RollbackTake txn true) (λ s. takes_of s txn ≡ None) pass.new.view }
    {
        let mut holder = self.hold(rt, &mut pass.badge, pass.number);
        let ended = self.make_rollback::<OfTakes>(&mut holder, txn);
        pass.calls = self.release(holder, &mut pass.badge);
        ended
    }
}

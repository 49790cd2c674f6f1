// Reading calls through a pass. They answer of a state not older than what the pass had seen, and are not counted.
ghost use Rattle.std.specs.Prelude.{◌≡◌, length};
ghost use Rattle.channel_face.specs.Counters.{counts_of};
ghost use Rattle.channel_face.specs.Machine.{settled};
ghost use Rattle.channel_lock.specs.Turns.{HasAll};
ghost use Rattle.shared_channel.specs.Calls.{Looks, state_seen};

use crate::pass::Pass;
use crate::shared::Shared;
use channel_face::{Channel, Counts, Settled, Ticket};
use std::sync::Wait;

/// What is counted of a channel, and whether it is broken.
#[derive(Clone, Copy, Debug, PartialEq, Eq)]
pub struct Look {
    pub counts: Counts,
    pub broken: bool,
}

impl<C: Channel> Shared<C> {
    /// Whether what the ticket stands for is settled, as [`Channel::settled`].
    pub fn settled<R: Wait>(&self, rt: &R, pass: &mut Pass, ticket: &Ticket) -> Settled
        requires { pass.old.table_id ≡ self.now.turn.table.shared.table_id }
        ensures same { (pass.new.table_id ≡ pass.old.table_id) ×
            (pass.new.number ≡ pass.old.number) }
        ensures look { Looks C.stands C.tells pass.old.view pass.new.view }
        ensures answer { result ≡ settled (state_seen pass.new.view) ticket.now }
    {
        let holder = self.hold(rt, &mut pass.badge, pass.number);
        let answer = holder.home.channel.settled(ticket);
        pass.calls = self.release(holder, &mut pass.badge);
        answer
    }

    /// How many events are left.
    pub fn size<R: Wait>(&self, rt: &R, pass: &mut Pass) -> u64
        requires { pass.old.table_id ≡ self.now.turn.table.shared.table_id }
        ensures same { (pass.new.table_id ≡ pass.old.table_id) ×
            (pass.new.number ≡ pass.old.number) }
        ensures look { Looks C.stands C.tells pass.old.view pass.new.view }
        ensures answer { result ≡ length (state_seen pass.new.view).items }
    {
        self.look(rt, pass).counts.size
    }

    /// The most events.
    pub fn capacity<R: Wait>(&self, rt: &R, pass: &mut Pass) -> u64
        requires { pass.old.table_id ≡ self.now.turn.table.shared.table_id }
        ensures same { (pass.new.table_id ≡ pass.old.table_id) ×
            (pass.new.number ≡ pass.old.number) }
        ensures look { Looks C.stands C.tells pass.old.view pass.new.view }
        ensures answer { result ≡ (state_seen pass.new.view).rules.limits.capacity }
    {
        self.look(rt, pass).counts.capacity
    }

    /// Whether the channel is broken until it is reopened.
    pub fn is_broken<R: Wait>(&self, rt: &R, pass: &mut Pass) -> bool
        requires { pass.old.table_id ≡ self.now.turn.table.shared.table_id }
        ensures same { (pass.new.table_id ≡ pass.old.table_id) ×
            (pass.new.number ≡ pass.old.number) }
        ensures look { Looks C.stands C.tells pass.old.view pass.new.view }
        ensures answer { result ≡ (state_seen pass.new.view).broken }
    {
        self.look(rt, pass).broken
    }

    /// What is counted since the channel was opened or made.
    pub fn counts<R: Wait>(&self, rt: &R, pass: &mut Pass) -> Counts
        requires { pass.old.table_id ≡ self.now.turn.table.shared.table_id }
        ensures same { (pass.new.table_id ≡ pass.old.table_id) ×
            (pass.new.number ≡ pass.old.number) }
        ensures look { Looks C.stands C.tells pass.old.view pass.new.view }
        ensures answer { result ≡ counts_of pass.new.view.base pass.new.view.seen }
    {
        self.look(rt, pass).counts
    }

    /// What is counted, and whether the channel is broken, of one state. A pass with each number sees no call that it had not
    /// seen.
    pub fn look<R: Wait>(&self, rt: &R, pass: &mut Pass) -> Look
        requires { pass.old.table_id ≡ self.now.turn.table.shared.table_id }
        ensures same { (pass.new.table_id ≡ pass.old.table_id) ×
            (pass.new.number ≡ pass.old.number) }
        ensures look { Looks C.stands C.tells pass.old.view pass.new.view }
        ensures whole { HasAll pass.old.view → pass.new.view.seen ≡ pass.old.view.seen }
        ensures counts { result.counts ≡ counts_of pass.new.view.base pass.new.view.seen }
        ensures broken { result.broken ≡ (state_seen pass.new.view).broken }
    {
        let holder = self.hold(rt, &mut pass.badge, pass.number);
        let counts = holder.home.channel.counts();
        let broken = holder.home.channel.is_broken();
        pass.calls = self.release(holder, &mut pass.badge);
        Look { counts, broken }
    }
}

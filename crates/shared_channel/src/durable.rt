// The calls of a channel on a disk through a pass that lay checkpoints and remove old files.
ghost use Rattle.std.specs.Prelude.{◌≡◌, OnOk};
ghost use Rattle.channel_face.specs.Machine.{Checkpoint, Prune};
ghost use Rattle.shared_channel.specs.Calls.{Answers, SawOf, state_seen};
ghost use Rattle.shared_channel.specs.Holding.{Holds, Tries};
ghost use Rattle.channel_face.specs.Keeps.{is_spent_check, is_spent_prune};

use crate::home::Home;
use crate::pass::Pass;
use crate::shared::{Holder, Shared};
use channel_face::{CheckRefused, Counter, Durable, PruneRefused};
use std::marker::Brand;
use std::sync::Wait;

impl<C: Durable> Shared<C> {
    fn make_checkpoint(&self, holder: &mut Holder<C>) -> Result<(), CheckRefused>
        requires { Holds C.stands self.now.turn.table.shared.table_id holder.old }
        ensures tries { Tries C.stands self.now.turn.table.shared.table_id C.moment
            (is_spent_check result) (Checkpoint result) holder.old holder.new }
        ensures laid { OnOk result
            (C.is_laid holder.new.home.channel (state_seen holder.new.seat.me.0)) }
    {
        if self.is_spent(holder) {
            return Err(CheckRefused::Spent {
                counter: Counter::Calls,
            });
        }
        let reply = holder.home.channel.checkpoint();
        self.turn
            .count::<Brand, (&Result<(), CheckRefused>, &Home<C>)>(
                &mut holder.seat,
                holder.by,
                &(&reply, &holder.home),
            );
        holder.calls += 1;
        reply
    }

    fn make_prune(&self, holder: &mut Holder<C>) -> Result<u64, PruneRefused>
        requires { Holds C.stands self.now.turn.table.shared.table_id holder.old }
        ensures tries { Tries C.stands self.now.turn.table.shared.table_id C.moment
            (is_spent_prune result) (Prune result) holder.old holder.new }
        ensures gone { OnOk result (C.is_pruned holder.new.home.channel) }
    {
        if self.is_spent(holder) {
            return Err(PruneRefused::Spent {
                counter: Counter::Calls,
            });
        }
        let reply = holder.home.channel.prune();
        self.turn
            .count::<Brand, (&Result<u64, PruneRefused>, &Home<C>)>(
                &mut holder.seat,
                holder.by,
                &(&reply, &holder.home),
            );
        holder.calls += 1;
        reply
    }

    /// Flushes, then lays a checkpoint, as [`Durable::checkpoint`], or is refused as `Spent` of `Counter::Calls`.
    pub fn checkpoint<R: Wait>(&self, rt: &R, pass: &mut Pass) -> Result<(), CheckRefused>
        requires { pass.old.table_id ≡ self.now.turn.table.shared.table_id }
        ensures same { (pass.new.table_id ≡ pass.old.table_id) ×
            (pass.new.number ≡ pass.old.number) }
        ensures call { Answers C.stands C.tells C.moment
            (is_spent_check result) pass.old.view pass.old.number
            (Checkpoint result) pass.new.view }
        // The channel then had a checkpoint of the state that was seen.
        ensures laid { OnOk result (SawOf C.stands C.tells C.is_laid pass.new.view) }
    {
        let mut holder = self.hold(rt, &mut pass.badge, pass.number);
        let reply = self.make_checkpoint(&mut holder);
        pass.calls = self.release(holder, &mut pass.badge);
        reply
    }

    /// Removes the files that the newest checkpoint does not need, as [`Durable::prune`], or is refused as `Spent` of `Counter::Calls`.
    pub fn prune<R: Wait>(&self, rt: &R, pass: &mut Pass) -> Result<u64, PruneRefused>
        requires { pass.old.table_id ≡ self.now.turn.table.shared.table_id }
        ensures same { (pass.new.table_id ≡ pass.old.table_id) ×
            (pass.new.number ≡ pass.old.number) }
        ensures call { Answers C.stands C.tells C.moment
            (is_spent_prune result) pass.old.view pass.old.number (Prune result) pass.new.view }
        // The channel then had no file that its newest checkpoint does not need.
        ensures gone { OnOk result (SawOf C.stands C.tells (λ c s. C.is_pruned c) pass.new.view) }
    {
        let mut holder = self.hold(rt, &mut pass.badge, pass.number);
        let reply = self.make_prune(&mut holder);
        pass.calls = self.release(holder, &mut pass.badge);
        reply
    }
}

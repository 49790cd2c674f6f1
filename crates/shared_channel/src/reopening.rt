// The reopening of a shared channel, and the mending of a broken one.
ghost use Rattle.std.specs.Prelude.{◌≡◌};
ghost use Rattle.shared_channel.specs.Durables.{MakesMended, Mends, Reopens, TriesReopen};
ghost use Rattle.shared_channel.specs.Holding.{Holds};

use crate::home::Home;
use crate::pass::Pass;
use crate::shared::{Holder, Shared};
use channel_face::{Counter, OpenCause, Reopen};
use flume_host::Steps;
use std::marker::Brand;
use std::sync::Wait;
use std::sync::ledger::Ledger;

impl<C: Reopen> Shared<C> {
    // What it kept is known to be there, and not what it is. So one of the calls is counted that its reply may stand for.
    fn make_reopen<L: Ledger>(
        &self,
        holder: &mut Holder<C>,
        steps: &mut Steps<L>,
    ) -> Result<(), OpenCause>
        requires { Holds C.stands self.now.turn.table.shared.table_id holder.old }
        ensures { TriesReopen C.stands self.now.turn.table.shared.table_id C.moment result
            holder.old holder.new }
    {
        if self.is_spent(holder) {
            return Err(OpenCause::Spent {
                counter: Counter::Calls,
            });
        }
        let reply = holder.home.channel.reopen(steps);
        self.turn
            .count_one::<Brand, (&Result<(), OpenCause>, &Home<C>)>(
                &mut holder.seat,
                holder.by,
                &(&reply, &holder.home),
            );
        holder.calls += 1;
        reply
    }

    // Reopens the channel where it is broken, and answers whether it was.
    fn make_mended<L: Ledger>(
        &self,
        holder: &mut Holder<C>,
        steps: &mut Steps<L>,
    ) -> Result<bool, OpenCause>
        requires { Holds C.stands self.now.turn.table.shared.table_id holder.old }
        ensures { MakesMended C.stands self.now.turn.table.shared.table_id C.moment result
            holder.old holder.new }
    {
        let broken = holder.home.channel.is_broken();
        if !broken {
            return Ok(false);
        }
        match self.make_reopen(holder, steps) {
            Ok(()) => Ok(true),
            Err(cause) => Err(cause),
        }
    }

    /// Opens the channel's folder anew, as [`Reopen::reopen`], or is refused as `Spent` of `Counter::Calls`. After Ok the tokens
    /// of every pass from before are stale, and tickets of what was not settled are in doubt.
    pub fn reopen<R: Wait, L: Ledger>(
        &self,
        rt: &R,
        pass: &mut Pass,
        steps: &mut Steps<L>,
    ) -> Result<(), OpenCause>
        requires { pass.old.table_id ≡ self.now.turn.table.shared.table_id }
        ensures same { (pass.new.table_id ≡ pass.old.table_id) ×
            (pass.new.number ≡ pass.old.number) }
        ensures call { Reopens C.stands C.tells C.moment pass.old.view pass.old.number result
            pass.new.view }
    {
        let mut holder = self.hold(rt, &mut pass.badge, pass.number);
        let reply = self.make_reopen(&mut holder, steps);
        pass.calls = self.release(holder, &mut pass.badge);
        reply
    }

    /// Under one lock reopens the channel exactly where it is broken, and answers true after a reopening. False comes exactly where
    /// the channel is not broken: then it is a look, and no call. A refusal is that of [`Shared::reopen`].
    pub fn mend<R: Wait, L: Ledger>(
        &self,
        rt: &R,
        pass: &mut Pass,
        steps: &mut Steps<L>,
    ) -> Result<bool, OpenCause>
        requires { pass.old.table_id ≡ self.now.turn.table.shared.table_id }
        ensures same { (pass.new.table_id ≡ pass.old.table_id) ×
            (pass.new.number ≡ pass.old.number) }
        ensures call { Mends C.stands C.tells C.moment pass.old.view pass.old.number result
            pass.new.view }
    {
        let mut holder = self.hold(rt, &mut pass.badge, pass.number);
        let reply = self.make_mended(&mut holder, steps);
        pass.calls = self.release(holder, &mut pass.badge);
        reply
    }
}

// What carries a pass, and what joins passes.
ghost use Rattle.std.specs.Prelude.{◌≡◌};
ghost use Rattle.atomic_table.specs.Seated.{TableId};
ghost use Rattle.shared_channel.specs.Passes.{Known};
ghost use Rattle.channel_lock.specs.Calls.{AreApart};
ghost use Rattle.channel_lock.specs.Turns.{Has};
ghost use Rattle.channel_lock.specs.Views.{both, joined, part};

use crate::pass::Pass;
use crate::port::Port;
use crate::shared::Shared;
use channel_face::Channel;
use std::sync::Wait;

/// What carries a pass.
pub trait Carries {
    /// The pass.
    ghost pass: { Self → Known };

    /// Hands the pass back.
    fn into_pass(self) -> Pass
        ensures { result ≡ pass self };
}

impl<'a, R: Wait, C: Channel> Carries for Port<'a, R, C> {
    ghost pass = { λ p. p.pass };

    fn into_pass(self) -> Pass {
        self.give_back()
    }
}

/// A pass carries itself: so a worker that never got its port gives its pass back as one that ran.
impl Carries for Pass {
    ghost pass = { λ p. p };

    fn into_pass(self) -> Pass {
        self
    }
}

/// A shared channel, of whatever kind, whose passes can be joined.
pub trait Joins {
    /// Its passes have this table.
    ghost table: { Self → TableId };

    /// Takes in another pass, as [`Shared::join_pass`].
    fn join_pass(&self, into: &mut Pass, from: Pass)
        requires { (into.old.table_id ≡ table self.now) × (from.table_id ≡ table self.now) }
        ensures same { (into.new.table_id ≡ into.old.table_id) ×
            (into.new.number ≡ into.old.number) }
        ensures view { into.new.view ≡ joined (both into.old.view from.view) }
        ensures seen { Has into.new.view.seen (part into.old.view) × Has into.new.view.seen
            (part from.view) }
        ensures one { (from.view.base ≡ into.old.view.base) ×
            (from.view.passes ≡ into.old.view.passes) }
        ensures apart { AreApart into.old.view.numbers from.view.numbers };
}

impl<C: Channel> Joins for Shared<C> {
    ghost table = { λ s. s.turn.table.shared.table_id };

    fn join_pass(&self, into: &mut Pass, from: Pass) {
        self.join_pass(into, from)
    }
}

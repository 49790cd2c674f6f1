// A port as those see it who keep the channel in order.
ghost use Rattle.std.specs.Prelude.{◌≡◌, ◌≤◌, OnOk, length};
ghost use Rattle.channel_face.specs.Faces.{Gains};
ghost use Rattle.channel_face.specs.Keeps.{IsCheck, IsLook, IsMend, IsPrune};
ghost use Rattle.shared_channel.specs.Calls.{SawOf};
ghost use Rattle.shared_channel.specs.Ports.{AreOwned, Later, Saw};

use crate::port::Port;
use channel_face::{
    Channel, CheckRefused, Durable, KeepFace, MendFace, OpenCause, PruneRefused, Reopen,
};
use flume_host::Steps;
use std::sync::Wait;
use std::sync::ledger::Ledger;

impl<'a, R: Wait, C: Channel> Port<'a, R, C> {
    /// How many events are left. It is no call.
    pub fn events_left(&mut self) -> u64
        ensures seen { length self.old.pass.view.seen ≤ length self.new.pass.view.seen }
        ensures calls { Gains (AreOwned self.old.pass.view) (AreOwned self.new.pass.view)
            (IsLook (Saw C.stands self.new.pass.view) (λ s. result ≡ length s.items)) }
        ensures kept { Later self.old.pass self.new.pass }
    {
        self.shared.size(self.rt, &mut self.pass)
    }
}

impl<'a, R: Wait, C: Reopen> MendFace for Port<'a, R, C> {
    ghost on_disk = { λ p. Unit {0} };

    fn mend<L: Ledger>(&mut self, steps: &mut Steps<L>) -> Result<bool, OpenCause>
        ensures seen { length self.old.pass.view.seen ≤ length self.new.pass.view.seen }
        ensures calls { Gains (AreOwned self.old.pass.view) (AreOwned self.new.pass.view)
            (IsMend (Unit {0}) (Saw C.stands self.new.pass.view)
            (length self.new.pass.view.seen) result) }
        ensures kept { Later self.old.pass self.new.pass }
    {
        self.shared.mend(self.rt, &mut self.pass, steps)
    }

    fn size(&mut self) -> u64
        ensures seen { length self.old.pass.view.seen ≤ length self.new.pass.view.seen }
        ensures calls { Gains (AreOwned self.old.pass.view) (AreOwned self.new.pass.view)
            (IsLook (Saw C.stands self.new.pass.view) (λ s. result ≡ length s.items)) }
        ensures kept { Later self.old.pass self.new.pass }
    {
        self.events_left()
    }
}

impl<'a, R: Wait, C: Durable> KeepFace for Port<'a, R, C> {
    ghost use Rattle.shared_channel.specs.Calls.{SawOf};

    ghost saw_laid = { λ p. SawOf C.stands C.tells C.is_laid p.pass.view };

    ghost saw_pruned = { λ p. SawOf C.stands C.tells (λ c s. C.is_pruned c) p.pass.view };

    fn checkpoint(&mut self) -> Result<(), CheckRefused>
        ensures seen { length self.old.pass.view.seen ≤ length self.new.pass.view.seen }
        ensures calls { Gains (AreOwned self.old.pass.view) (AreOwned self.new.pass.view)
            (λ earlier. IsCheck (length self.new.pass.view.seen) result) }
        ensures kept { Later self.old.pass self.new.pass }
        ensures laid { OnOk result (SawOf C.stands C.tells C.is_laid self.new.pass.view) }
    {
        self.shared.checkpoint(self.rt, &mut self.pass)
    }

    fn prune(&mut self) -> Result<u64, PruneRefused>
        ensures seen { length self.old.pass.view.seen ≤ length self.new.pass.view.seen }
        ensures calls { Gains (AreOwned self.old.pass.view) (AreOwned self.new.pass.view)
            (λ earlier. IsPrune (length self.new.pass.view.seen) result) }
        ensures kept { Later self.old.pass self.new.pass }
        ensures gone { OnOk result
            (SawOf C.stands C.tells (λ c s. C.is_pruned c) self.new.pass.view) }
    {
        self.shared.prune(self.rt, &mut self.pass)
    }
}

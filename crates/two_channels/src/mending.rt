// The mending of a shared channel of either kind.
ghost use Rattle.std.specs.Prelude.{◌≡◌, ◌<◌};
ghost use Rattle.shared_channel.specs.Ports.{Later};
ghost use Rattle.two_channels.specs.Shares.{MendsIn, table_of};

use crate::shared::EitherShared;
use channel_face::{Channel, OpenCause, Reopen};
use flume_host::Steps;
use shared_channel::Pass;
use std::marker::Brand;
use std::sync::Wait;
use std::sync::ledger::{Blank, Ledger};

impl<A: Reopen, B: Channel> EitherShared<A, B> {
    fn mend_by<R: Wait, L: Ledger>(
        &self,
        rt: &R,
        blank: Blank,
        pass: &mut Pass,
    ) -> Result<bool, OpenCause>
        requires table { pass.old.table_id ≡ table_of self.now }
        requires name { blank.name ≡ L.name }
        requires parts { blank.parts ≡ L.parts }
        requires some { 0 < L.parts }
        ensures same { (pass.new.table_id ≡ pass.old.table_id)
            × (pass.new.number ≡ pass.old.number) }
        ensures mends { MendsIn A.stands A.tells A.moment self.now pass.old.view pass.old.number
            result pass.new.view }
    {
        match self {
            EitherShared::Disk(shared) => {
                let mut steps = Steps::<L>::new(blank);
                shared.mend(rt, pass, &mut steps)
            }
            EitherShared::Memory(_) => Ok(false),
        }
    }

    /// Mends the channel, as [`Shared::mend`](shared_channel::Shared::mend), for one who counts no steps. For one that is not on
    /// a disk it is no call, and answers false.
    pub fn mend<R: Wait>(&self, rt: &R, pass: &mut Pass) -> Result<bool, OpenCause>
        requires { pass.old.table_id ≡ table_of self.now }
        ensures same { (pass.new.table_id ≡ pass.old.table_id)
            × (pass.new.number ≡ pass.old.number) }
        ensures mends { MendsIn A.stands A.tells A.moment self.now pass.old.view pass.old.number
            result pass.new.view }
        ensures kept { Later pass.old pass.new }
    {
        self.mend_by::<R, Brand>(rt, Blank::new(1), pass)
    }
}

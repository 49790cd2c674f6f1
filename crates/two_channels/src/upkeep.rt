// The upkeep of a shared channel of either kind.
ghost use Rattle.std.specs.Prelude.{◌≡◌};
ghost use Rattle.shared_channel.specs.Ports.{Later};
ghost use Rattle.two_channels.specs.Shares.{KeepsIn, table_of};

use crate::shared::EitherShared;
use channel_face::{Channel, Durable};
use shared_channel::Pass;
use std::sync::Wait;

impl<A: Durable, B: Channel> EitherShared<A, B> {
    /// Lays a checkpoint, and then removes the files that the newest one does not need, whatever the first was answered, as
    /// [`Shared::checkpoint`](shared_channel::Shared::checkpoint) and [`Shared::prune`](shared_channel::Shared::prune). For a
    /// channel that is not on a disk it is no call.
    pub fn keep<R: Wait>(&self, rt: &R, pass: &mut Pass)
        requires { pass.old.table_id ≡ table_of self.now }
        ensures same { (pass.new.table_id ≡ pass.old.table_id)
            × (pass.new.number ≡ pass.old.number) }
        ensures keeps { KeepsIn A.stands A.tells A.moment A.is_laid A.is_pruned
            self.now pass.old.view pass.old.number pass.new.view }
        ensures kept { Later pass.old pass.new }
    {
        match self {
            EitherShared::Disk(shared) => {
                let _checked = shared.checkpoint(rt, pass);
                let _pruned = shared.prune(rt, pass);
            }
            EitherShared::Memory(_) => {}
        }
    }
}

// Removes the files that the newest checkpoint of a channel does not need.
ghost use Rattle.std.specs.Prelude.{◌≡◌, ◌≤◌, IfOk, IfSome, IsErrOf, None, OnOk, false};
ghost use Rattle.flume_host.specs.Causes.{Rose};
ghost use Rattle.flume_host.specs.Told.{LeavesOnly, Tells, WhereTold};
ghost use Rattle.channel_face.specs.Machine.{Prune};
ghost use Rattle.channel_face.specs.declared.replies.PruneRefused.{PruneRefused};
ghost use Rattle.channel_writing.specs.Stands.{is_fault};
ghost use Rattle.channel_writing.specs.Written.{RecoversSettled};
ghost use Rattle.checkpoint_pruning.specs.Pruning.{KeepsFrom};
ghost use Rattle.file_channel.specs.Laid.{AreChecks};
ghost use Rattle.file_channel.specs.Pruned.{IsPruned, pruned_count};
ghost use Rattle.file_channel.specs.Stepped.{ShowsOf, StepsOn};

use crate::checks::Checks;
use crate::logged::LoggedPlaces;
use channel_face::PruneRefused;
use channel_laying::prune_log;
use flume_host::Disk;

impl<D: Disk + Drop> LoggedPlaces<D> {
    /// Removes each checkpoint below the newest one, and then each log file below those that this one names, and answers how
    /// many files went. A crash at any moment of the call leaves what is settled. It takes no memory.
    pub(crate) fn prune(&mut self, checks: &Checks) -> Result<u64, PruneRefused>
        requires { AreChecks (D.told self.old.0) checks.now }
        ensures step { StepsOn (D.told self.old.0) (D.told self.new.0) self.old.1 self.new.1
            (Prune result) }
        ensures broken { IsErrOf result PruneRefused.Broken → self.new.0 ≡ self.old.0 }
        ensures nothing { checks.now.laid ≡ None → (self.new.0 ≡ self.old.0)
            × IfOk result (λ count. count ≡ 0) }
        ensures kept { IfSome checks.now.laid (λ laid. Tells (D.told self.old.0) (D.told self.new.0)
            (KeepsFrom laid.least laid.number)) }
        ensures any_moment { ShowsOf (D.told self.old.0) self.old.1 (λ s. s.broken ≡ false
            → Tells (D.told self.old.0) (D.told self.new.0)
            (λ t u. LeavesOnly t u (RecoversSettled s))) }
        ensures gone { OnOk result (IfSome checks.now.laid
            (λ laid. WhereTold (D.told self.new.0) (λ t. IsPruned t.reads laid))) }
        ensures count { IfOk result (λ count. WhereTold (D.told self.old.0)
            (λ t. count ≡ pruned_count t.reads checks.now.laid)) }
        ensures checks { AreChecks (D.told self.new.0) checks.now }
        ensures later { D.faults self.old.0 ≤ D.faults self.new.0 }
        ensures well { is_fault (Prune result) ≡ false
            → D.faults self.new.0 ≡ D.faults self.old.0 }
        ensures fault { IsErrOf result PruneRefused.DiskFault
            → Rose (D.faults self.old.0) (D.faults self.new.0) }
    {
        if self.held.is_broken() {
            return Err(PruneRefused::Broken);
        }
        let Some(laid) = checks.laid else {
            return Ok(0);
        };
        match prune_log(&mut self.writing, laid.number, laid.least) {
            Ok(count) => Ok(count),
            Err(_) => Err(PruneRefused::DiskFault),
        }
    }
}

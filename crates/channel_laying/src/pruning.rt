// Removes the files of a channel that its newest checkpoint does not need.
ghost use Rattle.std.specs.Prelude.{◌≡◌, ◌<◌, ◌≤◌, ◌+◌, ℕ, IfOk, None, OnOk, false};
ghost use Rattle.flume_host.specs.Causes.{HasCause};
ghost use Rattle.flume_host.specs.Told.{LeavesOnly, Tells, WhereTold};
ghost use Rattle.flume_host.specs.declared.names.FileName.TheVariants.{Check, Log};
ghost use Rattle.channel_face.specs.Machine.{State};
ghost use Rattle.channel_writing.specs.Written.{IsLogged, RecoversSettled};
ghost use Rattle.checkpoint_pruning.specs.Pruning.{KeepsFrom, checks_in, count_below, logs_in};
ghost use Rattle.channel_laying.specs.Laying.{AreNeeded};

use channel_writing::Writing;
use checkpoint_pruning::prune;
use flume_host::{Disk, Failed};

/// Removes each checkpoint below the number `laid`, and then each log file below the number `least`, and answers how many
/// files went. Whatever a crash leaves has a newest checkpoint from `laid` on, which names log files from `least` on. A crash
/// at any moment of the call leaves what is settled. It takes no memory.
pub fn prune_log<D: Disk + Drop>(
    writing: &mut Writing<D>,
    laid: u32,
    least: u32,
) -> Result<u64, Failed>
    requires low { WhereTold (D.told writing.old.disk) (λ t. least ≤ writing.old.log.file) }
    requires needs { WhereTold (D.told writing.old.disk) (λ t. AreNeeded t least laid) }
    ensures any_moment { (s : State) → IsLogged (D.told writing.old.disk) writing.old.log
        writing.old.busy s
        → s.broken ≡ false → Tells (D.told writing.old.disk) (D.told writing.new.disk)
        (λ t u. LeavesOnly t u (RecoversSettled s)) }
    ensures logged { (s : State) → IsLogged (D.told writing.old.disk) writing.old.log
        writing.old.busy s
        → IsLogged (D.told writing.new.disk) writing.new.log writing.new.busy s }
    ensures kept { Tells (D.told writing.old.disk) (D.told writing.new.disk)
        (KeepsFrom least laid) }
    ensures checks_gone { OnOk result (WhereTold (D.told writing.new.disk)
        (λ t. (n : ℕ) → n < laid → t.reads (Check n) ≡ None)) }
    ensures logs_gone { OnOk result (WhereTold (D.told writing.new.disk)
        (λ t. (n : ℕ) → n < least → t.reads (Log n) ≡ None)) }
    ensures count { IfOk result (λ count. WhereTold (D.told writing.old.disk)
        (λ t. count ≡ count_below (checks_in t.reads) laid + count_below (logs_in t.reads) least)) }
    ensures log { writing.new.log ≡ writing.old.log }
    ensures busy { writing.new.busy ≡ writing.old.busy }
    ensures cause { HasCause (D.faults writing.old.disk) (D.faults writing.new.disk) result }
{
    prune(&mut writing.disk, laid, least)
}

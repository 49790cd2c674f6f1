// A file channel lays checkpoints of itself, and removes the files that the newest one does not need.
ghost use Rattle.std.specs.Prelude.{◌≡◌, ◌<◌, ◌≤◌, ◌↔◌, Err, IfOk, IfSome, IsErrOf, None, OnErr, OnOk, false, true, if◌then◌else◌};
ghost use Rattle.flume_host.specs.Causes.{Rose};
ghost use Rattle.flume_host.specs.Told.{LeavesOnly, Tells, WhereTold, moment_of};
ghost use Rattle.channel_face.specs.History.{AddsOne, Shows};
ghost use Rattle.channel_face.specs.Machine.{Checkpoint, Prune, settle};
ghost use Rattle.channel_face.specs.declared.replies.CheckRefused.{CheckRefused};
ghost use Rattle.channel_face.specs.declared.replies.Counter.TheVariants as counters;
ghost use Rattle.channel_face.specs.declared.replies.PruneRefused.{PruneRefused};
ghost use Rattle.channel_writing.specs.Stands.{is_fault};
ghost use Rattle.channel_writing.specs.Touches.{FillsFiles};
ghost use Rattle.channel_writing.specs.Written.{MayRecover, RecoversSettled};
ghost use Rattle.checkpoint.specs.Text.{CheckText};
ghost use Rattle.file_channel.specs.Laid.{IsLaid, IsNamedAs, Lays, MayBeLaid, is_made, is_tried, next_after};
ghost use Rattle.checkpoint_pruning.specs.Pruning.{KeepsFrom};
ghost use Rattle.file_channel.specs.Pruned.{IsPruned, pruned_count};
ghost use Rattle.file_channel.specs.Stands.{StandsOver};

use crate::channel::{FileChannel, reply_of};
use channel_face::{CheckRefused, PruneRefused};
use flume_host::Disk;
use txn_core::{Call, Reply, note};

// What is counted of a checkpoint.
fn check_reply(done: &Result<(), CheckRefused>, staged: (u64, u64)) -> Reply
    ensures puts { result.settled_puts ≡ (if is_made done.now then staged.0 else 0) }
    ensures takes { result.settled_takes ≡ (if is_made done.now then staged.1 else 0) }
{
    match done {
        Ok(()) => reply_of(true, true, staged),
        Err(CheckRefused::CheckFault) => reply_of(false, true, staged),
        Err(_) => Reply::quiet(false),
    }
}

impl<D: Disk + Drop> FileChannel<D> {
    /// Flushes, and lays a checkpoint at the end of the log, under the next number. 1. `Broken`. 2. `Spent` of `Counter::Check`,
    /// exactly where that number would pass 4,294,967,295. 3. `DiskFault`, where the flush failed: the channel is broken.
    /// 4. `CheckFault`, where the checkpoint's own file failed: what was staged is settled, the channel is not broken, and the
    /// file is passed over or right. After `Ok` it is the newest checkpoint of whatever a crash leaves, and opening begins
    /// there. At most three syncs more than a flush. It takes no memory.
    pub fn checkpoint(&mut self) -> Result<(), CheckRefused>
        ensures step { AddsOne (StandsOver (D.told self.old.0) (D.faults self.old.0) self.old.1)
            (StandsOver (D.told self.new.0) (D.faults self.new.0) self.new.1) (Checkpoint result)
            (moment_of (D.told self.new.0)) }
        ensures spent { Shows (StandsOver (D.told self.old.0) (D.faults self.old.0) self.old.1)
            (λ s. s.broken ≡ false → (result ≡ Err (CheckRefused.Spent counters.Check))
            ↔ (4_294_967_295 < self.old.1.checks.next)) }
        ensures next { self.new.1.checks.next ≡ next_after result self.old.1.checks.next }
        // After Ok the channel knows it, with the least log file that it names; and else what it knew.
        ensures named { OnOk result (WhereTold (D.told self.new.0)
            (λ t. IsNamedAs self.old.1.checks.next t.reads self.new.1.checks.laid)) }
        ensures kept { OnErr result (self.new.1.checks.laid ≡ self.old.1.checks.laid) }
        ensures quiet { is_tried result ≡ false → D.told self.new.0 ≡ D.told self.old.0 }
        // A crash at any moment of the call leaves what is settled, or that with what is staged.
        ensures any_moment { Shows (StandsOver (D.told self.old.0) (D.faults self.old.0) self.old.1)
            (λ s. is_tried result ≡ true → (s.broken ≡ false)
            × Tells (D.told self.old.0) (D.told self.new.0)
            (λ t u. LeavesOnly t u (MayRecover s))) }
        // The flush writes log files alone, and after it that one checkpoint alone is written.
        ensures fills { Shows (StandsOver (D.told self.old.0) (D.faults self.old.0) self.old.1)
            (λ s. IsErrOf result CheckRefused.DiskFault
            → Tells (D.told self.old.0) (D.told self.new.0)
            (FillsFiles s.rules.limits.max_file self.old.1.waiting)) }
        ensures nothing { self.old.1.waiting ≡ 0
            → IsErrOf result CheckRefused.DiskFault → ⊥ }
        ensures lays { Shows (StandsOver (D.told self.old.0) (D.faults self.old.0) self.old.1)
            (λ s. is_made result ≡ true
            → (c : CheckText) × Tells (D.told self.old.0) (D.told self.new.0)
            (Lays self.old.1.checks.next s.rules.limits.max_file self.old.1.waiting c)) }
        // Whatever a crash then leaves has it passed over, or as it was to be; and after Ok the latter alone.
        ensures left { Shows (StandsOver (D.told self.old.0) (D.faults self.old.0) self.old.1)
            (λ s. is_made result ≡ true
            → WhereTold (D.told self.new.0) (MayBeLaid self.old.1.checks.next (settle s))) }
        ensures laid { Shows (StandsOver (D.told self.old.0) (D.faults self.old.0) self.old.1)
            (λ s. OnOk result (WhereTold (D.told self.new.0)
            (IsLaid self.old.1.checks.next (settle s)))) }
        ensures later { D.faults self.old.0 ≤ D.faults self.new.0 }
        ensures well { is_fault (Checkpoint result) ≡ false
            → D.faults self.new.0 ≡ D.faults self.old.0 }
        ensures fault { IsErrOf result CheckRefused.DiskFault
            → Rose (D.faults self.old.0) (D.faults self.new.0) }
        ensures check { IsErrOf result CheckRefused.CheckFault
            → Rose (D.faults self.old.0) (D.faults self.new.0) }
    {
        let staged = self.logged.staged();
        let result = self.logged.checkpoint(&mut self.checks);
        let reply = check_reply(&result, staged);
        note(&mut self.counts, Call::Checkpoint, reply);
        result
    }

    /// Removes each checkpoint below the newest one that this channel laid or was opened from, and then each log file below the
    /// least that this one's place or pointers name, and answers how many files went. Without such a checkpoint it answers 0.
    /// 1. `Broken`. 2. `DiskFault`; the channel is not broken. It takes no memory.
    pub fn prune(&mut self) -> Result<u64, PruneRefused>
        ensures step { AddsOne (StandsOver (D.told self.old.0) (D.faults self.old.0) self.old.1)
            (StandsOver (D.told self.new.0) (D.faults self.new.0) self.new.1) (Prune result)
            (moment_of (D.told self.new.0)) }
        ensures checks { self.new.1.checks ≡ self.old.1.checks }
        ensures broken { IsErrOf result PruneRefused.Broken
            → D.told self.new.0 ≡ D.told self.old.0 }
        ensures nothing { self.old.1.checks.laid ≡ None → (D.told self.new.0 ≡ D.told self.old.0)
            × IfOk result (λ count. count ≡ 0) }
        // The other files stay as they were at each moment of the call, and a crash leaves what is settled.
        ensures kept { IfSome self.old.1.checks.laid
            (λ laid. Tells (D.told self.old.0) (D.told self.new.0)
            (KeepsFrom laid.least laid.number)) }
        ensures any_moment { Shows (StandsOver (D.told self.old.0) (D.faults self.old.0) self.old.1)
            (λ s. s.broken ≡ false → Tells (D.told self.old.0) (D.told self.new.0)
            (λ t u. LeavesOnly t u (RecoversSettled s))) }
        ensures gone { OnOk result (IfSome self.old.1.checks.laid
            (λ laid. WhereTold (D.told self.new.0) (λ t. IsPruned t.reads laid))) }
        ensures count { IfOk result (λ count. WhereTold (D.told self.old.0)
            (λ t. count ≡ pruned_count t.reads self.old.1.checks.laid)) }
        ensures later { D.faults self.old.0 ≤ D.faults self.new.0 }
        ensures well { is_fault (Prune result) ≡ false
            → D.faults self.new.0 ≡ D.faults self.old.0 }
        ensures fault { IsErrOf result PruneRefused.DiskFault
            → Rose (D.faults self.old.0) (D.faults self.new.0) }
    {
        let result = self.logged.prune(&self.checks);
        let reply = Reply::quiet(result.is_ok());
        note(&mut self.counts, Call::Prune, reply);
        result
    }
}

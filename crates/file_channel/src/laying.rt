// Lays a checkpoint of the places of a channel's events.
ghost use Rattle.std.specs.Prelude.{◌≡◌, ◌<◌, ◌≤◌, ◌^◌, ◌↔◌, [], Err, IfOk, IsErrOf, OnErr, OnOk, false, length, true, vec_capacity};
ghost use Rattle.flume_host.specs.Causes.{Rose};
ghost use Rattle.flume_host.specs.Folder.{Files, IsImage};
ghost use Rattle.flume_host.specs.Told.{Changes, LeavesOnly, Tells, WhereTold};
ghost use Rattle.flume_host.specs.declared.names.FileName.TheVariants.{Check};
ghost use Rattle.channel_face.specs.Machine.{Checkpoint, State, settle};
ghost use Rattle.channel_face.specs.declared.replies.CheckRefused.{CheckRefused};
ghost use Rattle.channel_face.specs.declared.replies.Counter.TheVariants as counters;
ghost use Rattle.channel_writing.specs.Stands.{is_fault};
ghost use Rattle.channel_writing.specs.Touches.{FillsFiles};
ghost use Rattle.channel_writing.specs.Written.{MayRecover, RecoversSettled};
ghost use Rattle.checkpoint.specs.Text.{CheckText};
ghost use Rattle.channel_laying.specs.Laying.{IsLaying};
ghost use Rattle.checkpoint_opening.specs.Opening.{IsNamed};
ghost use Rattle.checkpoint_opening.specs.declared.opening.NewestCheck.{NewestCheck};
ghost use Rattle.file_channel.specs.Laid.{AreChecks, AreFree, IsBare, IsLaidOf, IsNamedAs, IsNeeded, Lays, MayStand, end_of_log, is_made, is_tried, next_after};
ghost use Rattle.file_channel.specs.Placed.{IsStateOf};
ghost use Rattle.file_channel.specs.Stepped.{ShowsOf, StepsOn};

use crate::checks::Checks;
use crate::logged::{LoggedPlaces, settle_staged};
use channel_face::{CheckRefused, Counter};
use channel_laying::lay_checkpoint;
use channel_places::Held;
use channel_writing::Writing;
use checkpoint::{Next, Place};
use checkpoint_opening::NewestCheck;
use checkpoint_places::least_named;
use flume_host::{Disk, Failed};

// The next numbers, as a checkpoint says them.
fn next_of(number: u64, txn: u64) -> Next
    ensures is { result ≡ record { number = number; txn = txn } }
    ensures fits { (number < 2 ^ 64) × (txn < 2 ^ 64) }
{
    Next { number, txn }
}

// Lays a checkpoint of this number of a channel of which nothing is staged or waits for a flush. It answers the least log file
// that this names, and whether it was laid. A crash at any moment of the call leaves what is settled, and where it fails
// the file is passed over or right. It takes no memory.
fn lay_places<D: Disk + Drop>(
    held: &Held,
    writing: &mut Writing<D>,
    number: u32,
    buffer: &mut Vec<u8>,
) -> (u32, Result<(), Failed>)
    requires bare { (s : State) × IsBare (D.told writing.old.disk)
        (record { places = held.now; log = writing.old.log; busy = writing.old.busy }) s }
    requires unused { AreFree (D.told writing.old.disk) number }
    requires empty { buffer.old.items ≡ [] }
    requires room { 65_536 ≤ vec_capacity buffer.old }
    ensures stands { (s : State) → IsBare (D.told writing.old.disk)
        (record { places = held.now; log = writing.old.log; busy = writing.old.busy }) s
        → IsStateOf (D.told writing.new.disk)
        (record { places = held.now; log = writing.new.log; busy = writing.new.busy }) s }
    ensures any_moment { (s : State) → IsBare (D.told writing.old.disk)
        (record { places = held.now; log = writing.old.log; busy = writing.old.busy }) s
        → Tells (D.told writing.old.disk) (D.told writing.new.disk)
        (λ t u. LeavesOnly t u (RecoversSettled s)) }
    ensures changes { (c : CheckText) × Tells (D.told writing.old.disk) (D.told writing.new.disk)
        (Changes (Check number) (IsLaying c) 3) }
    ensures left { (s : State) → IsBare (D.told writing.old.disk)
        (record { places = held.now; log = writing.old.log; busy = writing.old.busy }) s
        → WhereTold (D.told writing.new.disk) (λ t. (image : Files) → IsImage t.now image
        → MayStand number (end_of_log writing.new.log) s image) }
    ensures laid { OnOk result.1 ((s : State) → IsBare (D.told writing.old.disk)
        (record { places = held.now; log = writing.old.log; busy = writing.old.busy }) s
        → WhereTold (D.told writing.new.disk)
        (λ t. IsLaidOf t number (end_of_log writing.new.log) s)) }
    ensures named { OnOk result.1 (WhereTold (D.told writing.new.disk)
        (λ t. IsNamed t.reads (record { number = number; least = result.0 }))) }
    // Once it is laid, whatever a crash leaves needs it; and what that needed before it needs in any case.
    ensures needed { OnOk result.1 (IsNeeded (D.told writing.new.disk)
        (record { number = number; least = result.0 })) }
    ensures kept { (laid : NewestCheck) → IsNeeded (D.told writing.old.disk) laid
        → IsNeeded (D.told writing.new.disk) laid }
    ensures log { writing.new.log ≡ writing.old.log }
    ensures busy { writing.new.busy ≡ writing.old.busy }
    ensures empty { buffer.new.items ≡ [] }
    ensures room { vec_capacity buffer.old ≤ vec_capacity buffer.new }
    ensures later { D.faults writing.old.disk ≤ D.faults writing.new.disk }
    ensures fault { OnErr result.1
        (Rose (D.faults writing.old.disk) (D.faults writing.new.disk)) }
    ensures well { OnOk result.1 (D.faults writing.new.disk ≡ D.faults writing.old.disk) }
{
    let (first, txn) = held.next();
    let next = next_of(first, txn);
    let place = Place {
        file: writing.log.file(),
        at: writing.log.gate_at(),
    };
    let ring = held.ring();
    let table = held.table();
    let least = least_named(place, ring, table);
    let laid = lay_checkpoint(writing, number, ring, table, next, buffer);
    (least, laid)
}

impl<D: Disk + Drop> LoggedPlaces<D> {
    /// Settles all that is staged, and lays the next checkpoint at the end of the log. A crash at any moment of the call leaves
    /// what is settled, or that with what is staged. Where the checkpoint's own file fails, the channel is as after a flush, and
    /// the file is passed over or right. It takes no memory.
    pub(crate) fn checkpoint(&mut self, checks: &mut Checks) -> Result<(), CheckRefused>
        requires { AreChecks (D.told self.old.0) checks.old }
        ensures step { StepsOn (D.told self.old.0) (D.told self.new.0) self.old.1 self.new.1
            (Checkpoint result) }
        ensures spent { ShowsOf (D.told self.old.0) self.old.1 (λ s. s.broken ≡ false
            → (result ≡ Err (CheckRefused.Spent counters.Check)) ↔
            (4_294_967_295 < checks.old.next)) }
        ensures quiet { is_tried result ≡ false → self.new.0 ≡ self.old.0 }
        ensures any_moment { ShowsOf (D.told self.old.0) self.old.1 (λ s. is_tried result ≡ true
            → (s.broken ≡ false) × Tells (D.told self.old.0) (D.told self.new.0)
            (λ t u. LeavesOnly t u (MayRecover s))) }
        ensures fills { ShowsOf (D.told self.old.0) self.old.1
            (λ s. IsErrOf result CheckRefused.DiskFault
            → Tells (D.told self.old.0) (D.told self.new.0)
            (FillsFiles s.rules.limits.max_file (length self.old.1.log.bytes))) }
        ensures nothing { length self.old.1.log.bytes ≡ 0
            → IsErrOf result CheckRefused.DiskFault → ⊥ }
        ensures lays { ShowsOf (D.told self.old.0) self.old.1 (λ s. is_made result ≡ true
            → (c : CheckText) × Tells (D.told self.old.0) (D.told self.new.0)
            (Lays checks.old.next s.rules.limits.max_file (length self.old.1.log.bytes) c)) }
        ensures left { ShowsOf (D.told self.old.0) self.old.1 (λ s. is_made result ≡ true
            → WhereTold (D.told self.new.0) (λ t. (image : Files) → IsImage t.now image
            → MayStand checks.old.next (end_of_log self.new.1.log) (settle s) image)) }
        ensures laid { ShowsOf (D.told self.old.0) self.old.1 (λ s. OnOk result
            (WhereTold (D.told self.new.0)
            (λ t. IsLaidOf t checks.old.next (end_of_log self.new.1.log) (settle s)))) }
        ensures checks { AreChecks (D.told self.new.0) checks.new }
        ensures next { checks.new.next ≡ next_after result checks.old.next }
        ensures named { OnOk result (WhereTold (D.told self.new.0)
            (λ t. IsNamedAs checks.old.next t.reads checks.new.laid)) }
        ensures kept { OnErr result (checks.new.laid ≡ checks.old.laid) }
        ensures later { D.faults self.old.0 ≤ D.faults self.new.0 }
        ensures well { is_fault (Checkpoint result) ≡ false
            → D.faults self.new.0 ≡ D.faults self.old.0 }
        ensures fault { IsErrOf result CheckRefused.DiskFault
            → Rose (D.faults self.old.0) (D.faults self.new.0) }
        ensures check { IsErrOf result CheckRefused.CheckFault
            → Rose (D.faults self.old.0) (D.faults self.new.0) }
    {
        if self.held.is_broken() {
            return Err(CheckRefused::Broken);
        }
        let Ok(number) = u32::try_from(checks.next) else {
            return Err(CheckRefused::Spent {
                counter: Counter::Check,
            });
        };
        match settle_staged(&mut self.held, &mut self.writing) {
            Ok(()) => {}
            Err(_) => return Err(CheckRefused::DiskFault),
        }
        let (least, laid) = lay_places(&self.held, &mut self.writing, number, &mut checks.buffer);
        checks.next += 1;
        match laid {
            Ok(()) => checks.laid = Some(NewestCheck { number, least }),
            Err(_) => return Err(CheckRefused::CheckFault),
        }
        Ok(())
    }
}

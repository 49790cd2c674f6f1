// Lays a checkpoint at the end of a channel's log.
ghost use Rattle.std.specs.Prelude.{◌≡◌, ◌≤◌, ◌∷◌, [], OnErr, OnOk, Some, vec_capacity};
ghost use Rattle.flume_host.specs.Causes.{Rose};
ghost use Rattle.flume_host.specs.Folder.{Files, IsImage};
ghost use Rattle.flume_host.specs.Told.{Changes, LeavesOnly, Tells, WhereTold};
ghost use Rattle.flume_host.specs.declared.names.FileName.TheVariants.{Check};
ghost use Rattle.channel_face.specs.Machine.{State};
ghost use Rattle.channel_replay.specs.Start.{Start};
ghost use Rattle.channel_writing.specs.Written.{IsLogged, RecoversSettled};
ghost use Rattle.checkpoint.specs.Files.{IsKept};
ghost use Rattle.checkpoint.specs.Newest.{IsNewest};
ghost use Rattle.checkpoint.specs.Text.{CheckText, check_bytes};
ghost use Rattle.checkpoint_recovery.specs.Recovers.{IsCheck};
ghost use Rattle.channel_laying.specs.Laying.{IsLaying, MayLay};

use channel_writing::Writing;
use checkpoint::{LayRefused, Next, Place, lay, open_gate};
use event_ring::Ring;
use flume_host::{Disk, Failed};
use open_table::OpenTable;

/// Lays a checkpoint of this number at the end of a log of which nothing waits for a flush: what ring and table have, with the
/// next numbers. A crash at any moment of the call leaves what is settled, and where it fails the file is passed over or
/// right. It takes no memory.
pub fn lay_checkpoint<D: Disk + Drop>(
    writing: &mut Writing<D>,
    number: u32,
    ring: &Ring,
    table: &OpenTable,
    next: Next,
    buffer: &mut Vec<u8>,
) -> Result<(), Failed>
    requires may { (s : State) × (c : CheckText) × (start : Start)
        × MayLay (D.told writing.old.disk) writing.old.log writing.old.busy number next ring.now
        table.now s c start }
    requires empty { buffer.old.items ≡ [] }
    requires room { 65_536 ≤ vec_capacity buffer.old }
    ensures any_moment { (s : State) (c : CheckText) (start : Start)
        → MayLay (D.told writing.old.disk) writing.old.log writing.old.busy number next ring.now
        table.now s c start
        → Tells (D.told writing.old.disk) (D.told writing.new.disk)
        (λ t u. LeavesOnly t u (RecoversSettled s)) }
    ensures logged { (s : State) (c : CheckText) (start : Start)
        → MayLay (D.told writing.old.disk) writing.old.log writing.old.busy number next ring.now
        table.now s c start
        → IsLogged (D.told writing.new.disk) writing.new.log writing.new.busy s }
    ensures changes { (s : State) (c : CheckText) (start : Start)
        → MayLay (D.told writing.old.disk) writing.old.log writing.old.busy number next ring.now
        table.now s c start
        → Tells (D.told writing.old.disk) (D.told writing.new.disk)
        (Changes (Check number) (IsLaying c) 3) }
    // After Ok it is the newest of whatever a crash leaves, with the place of the log's end.
    ensures laid { OnOk result ((s : State) (c : CheckText) (start : Start)
        → MayLay (D.told writing.old.disk) writing.old.log writing.old.busy number next ring.now
        table.now s c start
        → WhereTold (D.told writing.new.disk) (λ t. IsKept t number (1 ∷ check_bytes c)
        × ((image : Files) → IsImage t.now image → IsNewest image (Some number) × IsCheck image
        number c start))) }
    ensures log { writing.new.log ≡ writing.old.log }
    ensures busy { writing.new.busy ≡ writing.old.busy }
    ensures empty { buffer.new.items ≡ [] }
    ensures room { vec_capacity buffer.old ≤ vec_capacity buffer.new }
    ensures later { D.faults writing.old.disk ≤ D.faults writing.new.disk }
    ensures fault { OnErr result (Rose (D.faults writing.old.disk) (D.faults writing.new.disk)) }
    ensures well { OnOk result (D.faults writing.new.disk ≡ D.faults writing.old.disk) }
{
    let place = Place {
        file: writing.log.file(),
        at: writing.log.gate_at(),
    };
    match lay(&mut writing.disk, number, place, ring, table, next, buffer) {
        Ok(()) => {}
        Err(LayRefused::DiskFault) => return Err(Failed),
    }
    match open_gate(&mut writing.disk, number) {
        Ok(()) => Ok(()),
        Err(LayRefused::DiskFault) => Err(Failed),
    }
}

// Channels that have made no call, shared.
ghost use Rattle.std.specs.Prelude.{◌≡◌, ◌<◌, All, IfSome};
ghost use Rattle.channel_face.specs.History.{Opening};
ghost use Rattle.shared_tests.specs.Opened.{IsOpenedAt};

use channel_face::Limits;
use file_channel::{FileChannel, OpenRefused, open_channel};
use flume_host::{Disk, Steps};
use host_memory::MemDisk;
use shared_channel::{Pass, Shared};
use std::alloc::Global;
use std::marker::Brand;
use std::snapshot::Snapshot;
use std::sync::ledger::{Blank, Ledger};

/// Limits that no test of threads reaches.
pub const LIMITS: Limits = Limits {
    capacity: 100_000,
    txn_capacity: 1000,
    max_file: 1_000_000,
};

/// A channel that several threads share, with a pass for each.
pub type Opened<C> = Option<(Shared<C>, Vec<Pass>)>;

// Shares a channel that was opened in a folder that was so before.
fn share_opened<D: Disk + Drop>(
    alloc: Global,
    channel: FileChannel<D>,
    before: Snapshot<D>,
    limits: Limits,
    passes: u32,
) -> Opened<FileChannel<D>>
    ghost start: { Opening }
    requires { IsOpenedAt (D.told channel.0) (D.faults channel.0) channel.1 start }
    ensures { IfSome result (λ r. All (λ p. p.table_id ≡ r.0.turn.table.shared.table_id)
        r.1.items) }
{
    let _ = before;
    let _ = limits;
    match Shared::new(alloc, channel, passes) {
        Ok(opened) => Some(opened),
        Err(_) => None,
    }
}

/// Opens a channel on this disk and shares it, counting by this blank.
pub fn on_disk_by<D: Disk + Drop, L: Ledger>(
    alloc: Global,
    blank: Blank,
    disk: D,
    limits: Limits,
    passes: u32,
) -> Opened<FileChannel<D>>
    requires name { blank.name ≡ L.name }
    requires parts { blank.parts ≡ L.parts }
    requires some { 0 < L.parts }
    ensures { IfSome result (λ r. All (λ p. p.table_id ≡ r.0.turn.table.shared.table_id)
        r.1.items) }
{
    let mut steps = Steps::<L>::new(blank);
    let before = Snapshot::of(&disk);
    match open_channel(alloc, disk, limits, &mut steps) {
        Ok(channel) => share_opened(alloc, channel, before, limits, passes),
        Err(OpenRefused { disk: _, cause: _ }) => None,
    }
}

/// One in a folder of this disk.
pub fn on_disk(alloc: Global, disk: MemDisk, passes: u32) -> Opened<FileChannel<MemDisk>>
    ensures { IfSome result (λ r. All (λ p. p.table_id ≡ r.0.turn.table.shared.table_id)
        r.1.items) }
{
    on_disk_by::<MemDisk, Brand>(alloc, Blank::new(1), disk, LIMITS, passes)
}

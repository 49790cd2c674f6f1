// A channel that is opened in a folder of the disk in memory.
ghost use Rattle.std.specs.Prelude.{◌≡◌, ◌<◌};

use channel_face::{Limits, OpenCause};
use file_channel::{FileChannel, OpenRefused, open_channel};
use flume_host::Steps;
use host_memory::{DiskFault, MemDisk, Part};
use std::alloc::{AllocError, Global};
use std::marker::Brand;
use std::sync::ledger::{Blank, Ledger};

/// What an opening answered; after a refusal with the disk.
pub type OpenAnswer = Result<FileChannel<MemDisk>, (MemDisk, OpenCause)>;

fn open_by<L: Ledger>(alloc: Global, blank: Blank, disk: MemDisk, limits: Limits) -> OpenAnswer
    requires name { blank.name ≡ L.name }
    requires parts { blank.parts ≡ L.parts }
    requires some { 0 < L.parts }
{
    let mut steps = Steps::<L>::new(blank);
    match open_channel(alloc, disk, limits, &mut steps) {
        Ok(channel) => Ok(channel),
        Err(OpenRefused { disk, cause }) => Err((disk, cause)),
    }
}

/// Opens the channel of a folder.
pub fn open(alloc: Global, disk: MemDisk, limits: Limits) -> OpenAnswer {
    open_by::<Brand>(alloc, Blank::new(1), disk, limits)
}

fn reopen_by<L: Ledger>(blank: Blank, channel: &mut FileChannel<MemDisk>) -> Result<(), OpenCause>
    requires name { blank.name ≡ L.name }
    requires parts { blank.parts ≡ L.parts }
    requires some { 0 < L.parts }
{
    let mut steps = Steps::<L>::new(blank);
    channel.reopen(&mut steps)
}

/// Opens the folder of a channel anew.
pub fn reopen(channel: &mut FileChannel<MemDisk>) -> Result<(), OpenCause> {
    reopen_by::<Brand>(Blank::new(1), channel)
}

/// The channel of a folder, or why it was not opened.
pub fn channel_on(
    alloc: Global,
    disk: MemDisk,
    limits: Limits,
) -> Result<FileChannel<MemDisk>, OpenCause> {
    match open(alloc, disk, limits) {
        Ok(channel) => Ok(channel),
        Err((_disk, cause)) => Err(cause),
    }
}

/// An empty folder's disk after an opening.
pub fn disk_after_opening(alloc: Global, limits: Limits) -> Result<MemDisk, OpenCause> {
    Ok(channel_on(alloc, MemDisk::new(alloc), limits)?.close())
}

/// An empty folder's disk, of which one call fails.
pub fn disk_failing_at(alloc: Global, call: u64, part: Part) -> Result<MemDisk, AllocError> {
    let fault = DiskFault { call, part };
    Ok(MemDisk::new(alloc).failing_at(vec![in alloc; fault]?))
}

/// An empty folder's disk, of which the second sync of the first flush fails, where a channel with these limits is opened and
/// nothing else comes before the flush. The flush writes, syncs, writes and syncs.
pub fn disk_failing_in_flush(alloc: Global, limits: Limits) -> Result<MemDisk, OpenCause> {
    let calls = disk_after_opening(alloc, limits)?.calls();
    match disk_failing_at(alloc, calls.saturating_add(3), Part::Nothing) {
        Ok(disk) => Ok(disk),
        Err(_) => Err(OpenCause::NoMemory),
    }
}

// One channel is opened.
ghost use Rattle.std.specs.Prelude.{◌≡◌, ◌⊎◌, ◌<◌, IfOk, IfErr, OnOk};
ghost use Rattle.channel_face.specs.declared.replies.OpenCause.{OpenCause};
ghost use Rattle.two_channels.specs.Shares.{IsDisk};
ghost use Rattle.channel_wishes.specs.Openings.{BeginsOnDisk, Fails, GivesBack, HandsNone, IsFresh, IsOpened, IsOut, Refuses, in_memory};

use crate::sharing::{share_in_memory, share_on_disk};
use channel_face::{Limits, OpenCause};
use channel_wishes::{ChannelPlace, ChannelWish, OpenedChannel};
use file_channel::{FileChannel, OpenRefused, open_channel};
use flume_host::{Disk, Host, NameRefused, Steps};
use memory_channel::MemoryChannel;
use std::alloc::Global;
use std::marker::Brand;
use std::snapshot::Snapshot;
use std::sync::ledger::{Blank, Ledger};

// Opens and shares the channel of a folder. Nobody asks for the records that it reads.
fn open_on_disk_by<D: Disk + Drop, L: Ledger>(
    alloc: Global,
    blank: Blank,
    disk: D,
    limits: Limits,
    users: u32,
) -> Result<OpenedChannel<FileChannel<D>, MemoryChannel>, OpenRefused<D>>
    requires name { blank.name ≡ L.name }
    requires parts { blank.parts ≡ L.parts }
    requires some { 0 < L.parts }
    requires users { users < 4_294_967_295 }
    requires clean { D.faults disk ≡ 0 }
    ensures kind { IfOk result (λ c. IsDisk c.share) }
    ensures fresh { IfOk result
        (λ c. IsFresh (BeginsOnDisk limits (D.told disk)) users c.share c.home c.others.items) }
    ensures fails { IfErr result
        (λ refused. Fails (D.told disk) (D.told refused.disk) (D.faults refused.disk)
        limits.capacity refused.cause) }
{
    let mut steps = Steps::<L>::new(blank);
    let before = Snapshot::of(&disk);
    match open_channel(alloc, disk, limits, &mut steps) {
        Ok(channel) => share_on_disk(alloc, channel, before, users),
        Err(refused) => Err(refused),
    }
}

fn open_on_disk<D: Disk + Drop>(
    alloc: Global,
    disk: D,
    limits: Limits,
    users: u32,
) -> Result<OpenedChannel<FileChannel<D>, MemoryChannel>, OpenRefused<D>>
    requires users { users < 4_294_967_295 }
    requires clean { D.faults disk ≡ 0 }
    ensures kind { IfOk result (λ c. IsDisk c.share) }
    ensures fresh { IfOk result
        (λ c. IsFresh (BeginsOnDisk limits (D.told disk)) users c.share c.home c.others.items) }
    ensures fails { IfErr result
        (λ refused. Fails (D.told disk) (D.told refused.disk) (D.faults refused.disk)
        limits.capacity refused.cause) }
{
    open_on_disk_by::<D, Brand>(alloc, Blank::new(1), disk, limits, users)
}

// Opens and shares the channel in the folder of this path. A refused one gives the disk back.
fn open_folder<H: Host>(
    alloc: Global,
    host: &mut H,
    folder: &str,
    limits: Limits,
    users: u32,
) -> Result<OpenedChannel<FileChannel<H::Disk>, MemoryChannel>, OpenCause>
    requires users { users < 4_294_967_295 }
    ensures kind { IfOk result (λ c. IsDisk c.share) }
    ensures fresh { IfOk result
        (λ c. IsFresh (BeginsOnDisk limits ((H.folders host.old).disks folder.now)) users
        c.share c.home c.others.items) }
    ensures out { OnOk result (IsOut folder.now
        (record { state = H.state host.old; folders = H.folders host.old })
        (record { state = H.state host.new; folders = H.folders host.new })) }
    ensures refused { IfErr result (λ cause.
        HandsNone (record { state = H.state host.old; folders = H.folders host.old })
        (record { state = H.state host.new; folders = H.folders host.new }) cause
        ⊎ GivesBack folder.now limits.capacity
        (record { state = H.state host.old; folders = H.folders host.old })
        (record { state = H.state host.new; folders = H.folders host.new }) cause) }
{
    match host.open_disk(folder) {
        Ok(disk) => match open_on_disk(alloc, disk, limits, users) {
            Ok(channel) => Ok(channel),
            Err(OpenRefused { disk, cause }) => {
                host.keep_disk(folder, disk);
                Err(cause)
            }
        },
        Err(NameRefused::Failed) => Err(OpenCause::DiskFault),
        Err(NameRefused::NoMemory) => Err(OpenCause::NoMemory),
    }
}

// Opens and shares an empty channel in memory.
fn open_in_memory<D: Disk + Drop>(
    alloc: Global,
    limits: Limits,
    users: u32,
) -> Result<OpenedChannel<FileChannel<D>, MemoryChannel>, OpenCause>
    requires users { users < 4_294_967_295 }
    ensures kind { IfOk result (λ c. IsDisk c.share → ⊥) }
    ensures fresh { IfOk result
        (λ c. IsFresh (λ start. start ≡ in_memory limits) users c.share c.home c.others.items) }
    ensures refused { IfErr result (λ cause. cause ≡ OpenCause.NoMemory) }
{
    match MemoryChannel::new(alloc, limits) {
        Ok(channel) => share_in_memory(alloc, channel, users),
        Err(_) => Err(OpenCause::NoMemory),
    }
}

/// Opens the channel that a run wants, with a pass for the caller and one for each of its users. A channel in a folder has its disk
/// from the host, which is out from then on; one in memory is empty. The disk of a refused folder was given back. The causes are
/// those of [`open_channel`](file_channel::open_channel); beside them comes `DiskFault`, with a rise of the host's count, where the
/// host hands no disk out, and `NoMemory` where there is none to share the channel.
pub fn open_one<H: Host>(
    alloc: Global,
    host: &mut H,
    wish: &ChannelWish,
) -> Result<OpenedChannel<FileChannel<H::Disk>, MemoryChannel>, OpenCause>
    requires users { wish.now.users < 4_294_967_295 }
    ensures opened { IfOk result (λ c. IsOpened
        (record { state = H.state host.old; folders = H.folders host.old })
        (record { state = H.state host.new; folders = H.folders host.new })
        wish.now c.share c.home c.others.items) }
    ensures refused { IfErr result (λ cause. Refuses wish.now.place wish.now.limits.capacity
        (record { state = H.state host.old; folders = H.folders host.old })
        (record { state = H.state host.new; folders = H.folders host.new }) cause) }
{
    match &wish.place {
        ChannelPlace::Memory => open_in_memory(alloc, wish.limits, wish.users),
        ChannelPlace::Folder(path) => {
            open_folder(alloc, host, path.as_str(), wish.limits, wish.users)
        }
    }
}

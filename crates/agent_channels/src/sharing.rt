// A channel that was opened is shared.
ghost use Rattle.std.specs.Prelude.{◌≡◌, ◌+◌, ◌<◌, ◌∷◌, [], IfOk, IfErr, length};
ghost use Rattle.channel_face.specs.History.{Opening};
ghost use Rattle.channel_face.specs.declared.replies.OpenCause.{OpenCause};
ghost use Rattle.file_channel.specs.Stands.{StandsOver};
ghost use Rattle.shared_channel.specs.Passes.{new_passes};
ghost use Rattle.two_channels.specs.Shares.{IsDisk, table_of};
ghost use Rattle.txn_core.specs.Counted.{StandsAs};

use channel_face::{Channel, OpenCause};
use channel_wishes::OpenedChannel;
use file_channel::{FileChannel, OpenRefused};
use flume_host::Disk;
use memory_channel::MemoryChannel;
use shared_channel::{Pass, Shared, Unshared};
use std::alloc::Global;
use std::snapshot::Snapshot;
use two_channels::EitherShared;

// The first pass, and the others.
fn part(passes: Vec<Pass>) -> (Pass, Vec<Pass>)
    requires { 0 < length passes.items }
    ensures { result.0 ∷ result.1.items ≡ passes.items }
{
    let mut others = passes;
    let home = others.remove(0);
    (home, others)
}

// A channel that was shared: its first pass, and one for each user.
#[derive(Drop)]
struct Parts<C: Channel> {
    shared: Shared<C>,
    home: Pass,
    others: Vec<Pass>,
}

// Shares a channel that has made no call. Where memory runs out, the channel comes back.
fn share<C: Channel>(alloc: Global, channel: C, users: u32) -> Result<Parts<C>, C>
    ghost start: { Opening }
    requires users { users < 4_294_967_295 }
    requires stands { C.stands channel start [] }
    ensures fresh { IfOk result
        (λ p. p.home ∷ p.others.items ≡
        new_passes p.shared.turn.table.shared.table_id start (users + 1) (users + 1)) }
    ensures back { IfErr result (λ c. c ≡ channel) }
{
    match Shared::new(alloc, channel, users + 1) {
        Ok((shared, passes)) => {
            let (home, others) = part(passes);
            Ok(Parts {
                shared,
                home,
                others,
            })
        }
        Err(Unshared { channel }) => Err(channel),
    }
}

// Shares the channel of a folder, whose disk was so before. Out of memory closes it.
pub(crate) fn share_on_disk<D: Disk + Drop>(
    alloc: Global,
    channel: FileChannel<D>,
    before: Snapshot<D>,
    users: u32,
) -> Result<OpenedChannel<FileChannel<D>, MemoryChannel>, OpenRefused<D>>
    ghost start: { Opening }
    requires users { users < 4_294_967_295 }
    requires stands { StandsOver (D.told channel.0) (D.faults channel.0) channel.1 start [] }
    ensures kind { IfOk result (λ c. IsDisk c.share) }
    ensures fresh { IfOk result
        (λ c. c.home ∷ c.others.items ≡ new_passes (table_of c.share) start (users + 1)
        (users + 1)) }
    ensures back { IfErr result
        (λ refused. (refused.disk ≡ channel.0) × (refused.cause ≡ OpenCause.NoMemory)) }
{
    let _ = before;
    match share(alloc, channel, users) {
        Ok(
            Parts {
                shared,
                home,
                others,
            },
        ) => Ok(OpenedChannel {
            share: EitherShared::Disk(shared),
            home,
            others,
        }),
        Err(channel) => Err(OpenRefused {
            disk: channel.close(),
            cause: OpenCause::NoMemory,
        }),
    }
}

// Shares an empty channel in memory.
pub(crate) fn share_in_memory<D: Disk + Drop>(
    alloc: Global,
    channel: MemoryChannel,
    users: u32,
) -> Result<OpenedChannel<FileChannel<D>, MemoryChannel>, OpenCause>
    ghost start: { Opening }
    requires users { users < 4_294_967_295 }
    requires stands { StandsAs channel start [] }
    ensures kind { IfOk result (λ c. IsDisk c.share → ⊥) }
    ensures fresh { IfOk result
        (λ c. c.home ∷ c.others.items ≡ new_passes (table_of c.share) start (users + 1)
        (users + 1)) }
    ensures back { IfErr result (λ cause. cause ≡ OpenCause.NoMemory) }
{
    match share(alloc, channel, users) {
        Ok(
            Parts {
                shared,
                home,
                others,
            },
        ) => Ok(OpenedChannel {
            share: EitherShared::Memory(shared),
            home,
            others,
        }),
        Err(_) => Err(OpenCause::NoMemory),
    }
}

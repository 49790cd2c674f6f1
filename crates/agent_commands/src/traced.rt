// A file channel, and what each of its calls did to its disk.
ghost use Rattle.std.specs.Prelude.{◌≡◌, ◌⊎◌, ◌<◌, [], IfOk, IfErr};
ghost use Rattle.flume_host.specs.Told.{Tells};
ghost use Rattle.channel_face.specs.declared.replies.OpenCause.{OpenCause};
ghost use Rattle.channel_writing.specs.Folders.{IsRefused, OpensFrom};
ghost use Rattle.file_channel.specs.Stands.{opened_as};
ghost use Rattle.agent_commands.specs.Puts.{BeginsOver};
ghost use Rattle.agent_commands.specs.Stored.{default_limits};
ghost use Rattle.agent_commands.specs.Trails.{StandsTraced};

use channel_face::{
    BeginRefused, Channel, CheckRefused, Counts, Durable, FlushRefused, Limits, OpenCause,
    PruneRefused, Put, PutRefused, PutTxn, Reopen, Settled, StageRefused, TakeRefused, TakeTxn,
    Taken, Ticket,
};
use event_core::Event;
use file_channel::{FileChannel, OpenRefused, open_channel};
use flume_host::{Disk, Steps};
use std::alloc::Global;
use std::marker::Brand;
use std::sync::ledger::{Blank, Ledger};

/// The limits of a file channel of which nothing is said (Flume User Guide, "File Channel").
pub fn default_limits() -> Limits
    ensures { result ≡ default_limits }
{
    Limits {
        capacity: 1_000_000,
        txn_capacity: 10_000,
        max_file: 2_146_435_071,
    }
}

/// A file channel with default limits. What it stands for says also what each call did to the disk: so that is known of all calls
/// once the channel was shared and is closed.
#[derive(Drop)]
pub struct TracedChannel<D: Disk + Drop> {
    /// The channel.
    pub channel: FileChannel<D>,
}

// Opens the channel of a folder. Nobody asks for the records that it reads.
fn open_by<D: Disk + Drop, L: Ledger>(
    alloc: Global,
    blank: Blank,
    disk: D,
) -> Result<TracedChannel<D>, OpenRefused<D>>
    requires name { blank.name ≡ L.name }
    requires parts { blank.parts ≡ L.parts }
    requires some { 0 < L.parts }
    ensures stands { IfOk result
        (λ c. StandsTraced (D.told c.channel.0) (D.faults c.channel.0) c.channel.1
        (opened_as (D.told disk) (D.faults disk) (D.told c.channel.0) c.channel.1) []) }
    ensures begins { IfOk result
        (λ c. BeginsOver (D.told disk)
        (opened_as (D.told disk) (D.faults disk) (D.told c.channel.0) c.channel.1)) }
    ensures refused { IfErr result
        (λ refused. IsRefused (D.told disk) (D.told refused.disk) (D.faults disk)
        (D.faults refused.disk) default_limits.capacity refused.cause) }
    ensures settled { IfErr result
        (λ refused. (refused.cause ≡ OpenCause.DiskFault)
        ⊎ Tells (D.told disk) (D.told refused.disk) OpensFrom) }
{
    let mut steps = Steps::<L>::new(blank);
    match open_channel(alloc, disk, default_limits(), &mut steps) {
        Ok(channel) => {
            channel.rests();
            Ok(TracedChannel { channel })
        }
        Err(refused) => Err(refused),
    }
}

impl<D: Disk + Drop> TracedChannel<D> {
    /// Opens the channel of a folder, as [`open_channel`].
    pub fn open(alloc: Global, disk: D) -> Result<TracedChannel<D>, OpenRefused<D>>
        ensures stands { IfOk result
            (λ c. StandsTraced (D.told c.channel.0) (D.faults c.channel.0) c.channel.1
            (opened_as (D.told disk) (D.faults disk) (D.told c.channel.0) c.channel.1) []) }
        ensures begins { IfOk result
            (λ c. BeginsOver (D.told disk)
            (opened_as (D.told disk) (D.faults disk) (D.told c.channel.0) c.channel.1)) }
        ensures refused { IfErr result
            (λ refused. IsRefused (D.told disk) (D.told refused.disk) (D.faults disk)
            (D.faults refused.disk) default_limits.capacity refused.cause) }
        ensures settled { IfErr result
            (λ refused. (refused.cause ≡ OpenCause.DiskFault)
            ⊎ Tells (D.told disk) (D.told refused.disk) OpensFrom) }
    {
        open_by::<D, Brand>(alloc, Blank::new(1), disk)
    }

    /// Hands the disk back.
    pub fn close(self) -> D
        ensures { result ≡ self.channel.0 }
    {
        let TracedChannel { channel } = self;
        channel.close()
    }
}

impl<D: Disk + Drop> Channel for TracedChannel<D> {
    ghost use Rattle.flume_host.specs.Told.{moment_of};
    ghost use Rattle.channel_face.specs.Machine.{is_some_of};
    ghost use Rattle.agent_commands.specs.Trails.{StandsTraced};

    ghost stands = { λ c. StandsTraced (D.told c.channel.0) (D.faults c.channel.0) c.channel.1 };

    ghost tells = { λ c. is_some_of (D.told c.channel.0) };

    ghost moment = { λ c. moment_of (D.told c.channel.0) };

    ghost faults = { λ c. D.faults c.channel.0 };

    fn begin_put(&mut self) -> Result<PutTxn, BeginRefused> {
        let reply = self.channel.begin_put();
        self.channel.rests();
        reply
    }

    fn begin_take(&mut self) -> Result<TakeTxn, BeginRefused> {
        let reply = self.channel.begin_take();
        self.channel.rests();
        reply
    }

    fn put(&mut self, txn: &mut PutTxn, event: &Event) -> Result<Put, PutRefused> {
        let reply = self.channel.put(txn, event);
        self.channel.rests();
        reply
    }

    fn take(&mut self, txn: &mut TakeTxn) -> Result<Taken, TakeRefused> {
        let reply = self.channel.take(txn);
        self.channel.rests();
        reply
    }

    fn stage_put(&mut self, txn: PutTxn) -> Result<Ticket, StageRefused<PutTxn>> {
        let reply = self.channel.stage_put(txn);
        self.channel.rests();
        reply
    }

    fn stage_take(&mut self, txn: TakeTxn) -> Result<Ticket, StageRefused<TakeTxn>> {
        let reply = self.channel.stage_take(txn);
        self.channel.rests();
        reply
    }

    fn flush(&mut self) -> Result<(), FlushRefused> {
        let reply = self.channel.flush();
        self.channel.rests();
        reply
    }

    fn rollback_put(&mut self, txn: PutTxn) -> bool {
        let ended = self.channel.rollback_put(txn);
        self.channel.rests();
        ended
    }

    fn rollback_take(&mut self, txn: TakeTxn) -> bool {
        let ended = self.channel.rollback_take(txn);
        self.channel.rests();
        ended
    }

    fn settled(&self, ticket: &Ticket) -> Settled {
        self.channel.settled(ticket)
    }

    fn size(&self) -> u64 {
        self.channel.size()
    }

    fn capacity(&self) -> u64 {
        self.channel.capacity()
    }

    fn counts(&self) -> Counts {
        self.channel.counts()
    }

    fn is_broken(&self) -> bool {
        self.channel.is_broken()
    }

    ghost is_run = { λ c start h stands. stands.stands.run };

    ghost tells_as_opened = { λ c start h stands. stands.stands.tells };
}

impl<D: Disk + Drop> Reopen for TracedChannel<D> {
    fn reopen<L: Ledger>(&mut self, steps: &mut Steps<L>) -> Result<(), OpenCause> {
        let reply = self.channel.reopen(steps);
        self.channel.rests();
        reply
    }
}

impl<D: Disk + Drop> Durable for TracedChannel<D> {
    ghost use Rattle.flume_host.specs.Told.{WhereTold};
    ghost use Rattle.file_channel.specs.Laid.{HasLaid};
    ghost use Rattle.file_channel.specs.Pruned.{HasOld, IsPrunedBy};

    ghost is_laid = { λ c s. WhereTold (D.told c.channel.0) (HasLaid s) };

    ghost is_pruned = { λ c. WhereTold (D.told c.channel.0) (IsPrunedBy c.channel.1.checks.laid) };

    ghost has_old = { λ c n. WhereTold (D.told c.channel.0) (HasOld c.channel.1.checks.laid n) };

    fn checkpoint(&mut self) -> Result<(), CheckRefused> {
        let reply = self.channel.checkpoint();
        self.channel.rests();
        reply
    }

    fn prune(&mut self) -> Result<u64, PruneRefused> {
        let reply = self.channel.prune();
        self.channel.rests();
        reply
    }
}

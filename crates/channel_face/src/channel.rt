// What a channel is. It stands for an opening and the calls since, and each call adds itself to them.
ghost use Rattle.std.specs.Prelude.{◌≡◌, ◌++◌, ℕ, List, Bool, length, IfErr, IfOk, IsErrOf, OnOk};
ghost use Rattle.flume_host.specs.Causes.{Rose};
ghost use Rattle.channel_face.specs.Calls.{IsCommit, cause_of};
ghost use Rattle.channel_face.specs.Counters.{counts_of};
ghost use Rattle.channel_face.specs.History.{Opening, Step, IsRun, opening, AddsOne, Made, Shows, reopen_reply};
ghost use Rattle.channel_face.specs.declared.replies.CommitRefused.{CommitRefused};
ghost use Rattle.channel_face.specs.declared.replies.CheckRefused.{CheckRefused};
ghost use Rattle.channel_face.specs.declared.replies.FlushRefused.{FlushRefused};
ghost use Rattle.channel_face.specs.declared.replies.OpenCause.{OpenCause};
ghost use Rattle.channel_face.specs.declared.replies.PruneRefused.{PruneRefused};
ghost use Rattle.channel_face.specs.declared.replies.PutRefused.{PutRefused};
ghost use Rattle.channel_face.specs.declared.replies.TakeRefused.{TakeRefused};
ghost use Rattle.channel_face.specs.Machine.{State, BeginPut, BeginTake, Put, Take, StagePut, StageTake, Flush, RollbackPut, RollbackTake, Checkpoint, Prune, Reopen, Reopened, settle, settled};

use crate::{
    BeginRefused, CheckRefused, CommitRefused, Counts, FlushRefused, OpenCause, PruneRefused,
    PutRefused, PutTxn, Settled, StageRefused, TakeRefused, TakeTxn, Taken, Ticket,
};
use event_core::Event;
use flume_host::Steps;
use std::sync::ledger::Ledger;

/// A channel of events with transactions that may interleave (Flume Developer Guide, "Transaction interface").
///
/// A token is stale where its life is not the channel's, or its number is not that of an open transaction of its kind. What
/// each call answers, and what it leaves, is the machine of `specs/Machine.antt`: each call adds itself with its reply to the
/// history that the channel stands for, and every history is a run of the machine.
pub trait Channel {
    /// The channel stands for an opening and the calls since.
    ghost stands: { Self → Opening → List Step → Type 0 };

    /// Whether takes give just the events that were put. Over a disk that does not show its contents they give some of the same size.
    ghost tells: { Self → Bool };

    /// The clock of its disk, and 0 without one.
    ghost moment: { Self → ℕ };

    /// How often its disk has failed, and 0 without one.
    ghost faults: { Self → ℕ };

    /// Begins a transaction of puts. 1. `Broken`. 2. `TooManyOpen`, exactly where 1,024 transactions are open. 3. `Spent` of
    /// `Counter::Txn`, exactly where the next transaction's number is 2^64 - 1. 4. `NoMemory`.
    fn begin_put(&mut self) -> Result<PutTxn, BeginRefused>
        ensures { AddsOne (stands self.old) (stands self.new) (BeginPut result) (moment self.new) };

    /// Begins a transaction of takes, as [`Channel::begin_put`].
    fn begin_take(&mut self) -> Result<TakeTxn, BeginRefused>
        ensures { AddsOne (stands self.old) (stands self.new) (BeginTake result)
            (moment self.new) };

    /// Puts an event. 1. `Stale`. 2. `Broken`. 3. `Spent` of `Counter::File`. 4. `TxnFull`, exactly where the transaction has
    /// as many puts as the limits allow. 5. `TooLarge`, exactly where the event's size passes 1,048,576 bytes. 6. `Full`,
    /// exactly where left, open and staged events together are the capacity. 7. `DiskFault`, where the disk failed in this
    /// call. A memory channel answers only the first, the fourth and `NoMemory`.
    fn put(&mut self, txn: &mut PutTxn, event: &Event) -> Result<crate::Put, PutRefused>
        ensures step { AddsOne (stands self.old) (stands self.new) (Put txn.old event.now result)
            (moment self.new) }
        ensures same { txn.new ≡ txn.old }
        ensures fault { IsErrOf result PutRefused.DiskFault
            → Rose (faults self.old) (faults self.new) };

    /// Takes the event of the least number that no transaction holds, or none. 1. `Stale`. 2. `Broken`. 3. `Spent` of
    /// `Counter::File`. 4. `TxnFull`. 5. `ReadFault`, where the disk failed to read in this call. 6. `Damaged`, only over a
    /// disk that does not show its contents. 7. `NoMemory`. 8. `DiskFault`, where the disk failed in this call.
    fn take(&mut self, txn: &mut TakeTxn) -> Result<Taken, TakeRefused>
        ensures step { AddsOne (stands self.old) (stands self.new) (Take txn.old result)
            (moment self.new) }
        ensures same { txn.new ≡ txn.old }
        ensures read { IsErrOf result TakeRefused.ReadFault
            → Rose (faults self.old) (faults self.new) }
        ensures fault { IsErrOf result TakeRefused.DiskFault
            → Rose (faults self.old) (faults self.new) };

    /// Stages a transaction of puts. Its events have numbers from then on, in order. It takes no memory and touches no
    /// device. 1. `Stale`. 2. `Broken`. 3. `Full`, of a memory channel alone, exactly where left and staged events and the
    /// transaction's pass the capacity. 4. `Spent` of `Counter::Number`, exactly where the next event's number and the
    /// transaction's count pass 2^64 - 1.
    fn stage_put(&mut self, txn: PutTxn) -> Result<Ticket, StageRefused<PutTxn>>
        ensures step { AddsOne (stands self.old) (stands self.new) (StagePut txn (cause_of result))
            (moment self.new) }
        ensures back { IfErr result (λ refused. refused.txn ≡ txn) }
        ensures faults { faults self.new ≡ faults self.old };

    /// Stages a transaction of takes. 1. `Stale`. 2. `Broken`.
    fn stage_take(&mut self, txn: TakeTxn) -> Result<Ticket, StageRefused<TakeTxn>>
        ensures step { AddsOne (stands self.old) (stands self.new) (StageTake txn (cause_of result))
            (moment self.new) }
        ensures back { IfErr result (λ refused. refused.txn ≡ txn) }
        ensures faults { faults self.new ≡ faults self.old };

    /// Settles all that is staged. 1. `Broken`. 2. `DiskFault`, where the disk failed in this call, and the channel is broken.
    fn flush(&mut self) -> Result<(), FlushRefused>
        ensures step { AddsOne (stands self.old) (stands self.new) (Flush result)
            (moment self.new) }
        ensures fault { IsErrOf result FlushRefused.DiskFault
            → Rose (faults self.old) (faults self.new) };

    /// Gives a transaction up, and answers whether its token was not stale. It takes no memory and touches no device.
    fn rollback_put(&mut self, txn: PutTxn) -> bool
        ensures { AddsOne (stands self.old) (stands self.new) (RollbackPut txn result)
            (moment self.new) };

    /// Gives a transaction up, so that the events that it took are there again, and answers whether its token was not stale.
    fn rollback_take(&mut self, txn: TakeTxn) -> bool
        ensures { AddsOne (stands self.old) (stands self.new) (RollbackTake txn result)
            (moment self.new) };

    /// Whether what the ticket stands for is settled.
    fn settled(&self, ticket: &Ticket) -> Settled
        ensures { Shows (stands self.now) (λ s. result ≡ settled s ticket.now) };

    /// How many events are left.
    fn size(&self) -> u64
        ensures { Shows (stands self.now) (λ s. result ≡ length s.items) };

    /// The most events.
    fn capacity(&self) -> u64
        ensures { Shows (stands self.now) (λ s. result ≡ s.rules.limits.capacity) };

    /// What is counted since the channel was opened or made.
    fn counts(&self) -> Counts
        ensures { (start : Opening) (h : List Step) → stands self.now start h
            → result ≡ counts_of start h };

    /// Whether the channel is broken until it is reopened.
    fn is_broken(&self) -> bool
        ensures { Shows (stands self.now) (λ s. result ≡ s.broken) };

    /// Stages a transaction of puts, then flushes. A stage that was refused hands the token back. `InDoubt` comes only where
    /// the disk failed in this call's flush.
    final fn commit_put(&mut self, txn: PutTxn) -> Result<Ticket, CommitRefused<PutTxn>>
        ensures calls { Made (stands self.old) (stands self.new)
            (λ calls. IsCommit (StagePut txn) txn calls result) }
        ensures doubt { Shows (stands self.old)
            (λ _. IsErrOf result CommitRefused.InDoubt → Rose (faults self.old) (faults self.new)) }
    {
        match self.stage_put(txn) {
            Ok(ticket) => match self.flush() {
                Ok(()) => Ok(ticket),
                Err(_) => Err(CommitRefused::InDoubt),
            },
            Err(refused) => Err(CommitRefused::Stage(refused)),
        }
    }

    /// Stages a transaction of takes, then flushes, as [`Channel::commit_put`].
    final fn commit_take(&mut self, txn: TakeTxn) -> Result<Ticket, CommitRefused<TakeTxn>>
        ensures calls { Made (stands self.old) (stands self.new)
            (λ calls. IsCommit (StageTake txn) txn calls result) }
        ensures doubt { Shows (stands self.old)
            (λ _. IsErrOf result CommitRefused.InDoubt → Rose (faults self.old) (faults self.new)) }
    {
        match self.stage_take(txn) {
            Ok(ticket) => match self.flush() {
                Ok(()) => Ok(ticket),
                Err(_) => Err(CommitRefused::InDoubt),
            },
            Err(refused) => Err(CommitRefused::Stage(refused)),
        }
    }

    /// The calls were answered as the machine answers them.
    ghost is_run: { (channel : Self) (start : Opening) (h : List Step) → stands channel start h
        → IsRun (tells channel) (opening start) h };

    /// Whether it shows its contents never changes.
    ghost tells_as_opened: { (channel : Self) (start : Opening) (h : List Step)
        → stands channel start h → start.tells ≡ tells channel };
}

/// A channel that can be opened anew: one on a disk.
pub trait Reopen: Channel {
    /// Opens the channel's folder anew. On Ok the life is one more, earlier tokens are stale, and what was staged is kept up
    /// to some place. After a refusal the channel is broken, and `Spent` of `Counter::Life` comes exactly where the life is
    /// 2^64 - 1. `steps` counts the records that it reads.
    fn reopen<L: Ledger>(&mut self, steps: &mut Steps<L>) -> Result<(), OpenCause>
        ensures step { (kept : Reopened) × AddsOne (Self.stands self.old) (Self.stands self.new)
            (Reopen (reopen_reply result kept)) (Self.moment self.new) }
        ensures fault { IsErrOf result OpenCause.DiskFault
            → Rose (Self.faults self.old) (Self.faults self.new) };
}

/// A channel on a disk that lays checkpoints and removes old files.
pub trait Durable: Reopen {
    /// A checkpoint of just this state, at the end of its log, is the newest one of whatever a crash leaves.
    ghost is_laid: { Self → State → Type 0 };

    /// No file is left that its newest checkpoint does not need.
    ghost is_pruned: { Self → Type 0 };

    /// So many files are there that its newest checkpoint does not need.
    ghost has_old: { Self → ℕ → Type 0 };

    /// Flushes, then lays a checkpoint. 1. `Broken`. 2. `Spent` of `Counter::Check`. 3. `DiskFault`, where the flush failed.
    /// 4. `CheckFault`, where the checkpoint's own file failed: what was staged is settled. It takes no memory.
    fn checkpoint(&mut self) -> Result<(), CheckRefused>
        ensures step { AddsOne (Self.stands self.old) (Self.stands self.new) (Checkpoint result)
            (Self.moment self.new) }
        // It has the present state: all that was staged is settled in it.
        ensures laid { Shows (Self.stands self.old)
            (λ s. OnOk result (Self.is_laid self.new (settle s))) }
        ensures fault { IsErrOf result CheckRefused.DiskFault
            → Rose (Self.faults self.old) (Self.faults self.new) }
        ensures check { IsErrOf result CheckRefused.CheckFault
            → Rose (Self.faults self.old) (Self.faults self.new) };

    /// Removes the files that its newest checkpoint does not need, and answers how many. 1. `Broken`. 2. `DiskFault`, and the
    /// channel is not broken. It takes no memory.
    fn prune(&mut self) -> Result<u64, PruneRefused>
        ensures step { AddsOne (Self.stands self.old) (Self.stands self.new) (Prune result)
            (Self.moment self.new) }
        ensures gone { OnOk result (Self.is_pruned self.new) }
        ensures count { IfOk result (λ count. Self.has_old self.old count) }
        ensures fault { IsErrOf result PruneRefused.DiskFault
            → Rose (Self.faults self.old) (Self.faults self.new) };
}

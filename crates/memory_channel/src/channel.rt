// A channel in memory.
ghost use Rattle.std.specs.Prelude.{◌≡◌, ℕ, [], IfOk, IfErr, IsErrOf, IsOk, true};
ghost use Rattle.flume_host.specs.Causes.{Rose};
ghost use Rattle.channel_face.specs.Calls.{cause_of};
ghost use Rattle.channel_face.specs.History.{AddsOne, opening};
ghost use Rattle.channel_face.specs.Machine.{BeginPut, BeginTake, StagePut, StageTake, Flush};
ghost use Rattle.channel_face.specs.Machine as Face;
ghost use Rattle.channel_face.specs.declared.replies.FlushRefused.{FlushRefused};
ghost use Rattle.channel_face.specs.declared.replies.Kind.{Kind};
ghost use Rattle.channel_face.specs.declared.replies.PutRefused.{PutRefused};
ghost use Rattle.channel_face.specs.declared.replies.TakeRefused.{TakeRefused};
ghost use Rattle.memory_channel.specs.Memory.{MayRefuseBegin, MayRefusePut, MayRefuseTake, MayRefuseStage};
ghost use Rattle.txn_core.specs.Counted.{StandsAs};

use channel_face::{
    BeginRefused, Channel, Counts, FlushRefused, Kind, Limits, Put, PutRefused, PutTxn, Settled,
    StageRefused, TakeRefused, TakeTxn, Taken, Ticket,
};
use event_core::{Event, NoMemory};
use std::alloc::Global;
use std::marker::Model;
use txn_core::CountedLists;

/// A channel in memory (Flume User Guide, "Memory Channel"). It is never broken, and what it holds ends with it. Beginning,
/// putting and taking may find no memory; staging, flushing and rolling back need none.
#[derive(Drop)]
pub struct MemoryChannel {
    lists: CountedLists,
}

impl Model for MemoryChannel {
    ghost use Rattle.txn_core.specs.Counted.{Counted};
    ghost use Rattle.memory_channel.specs.Memory.{IsInMemory};

    ghost Value = { Counted };

    ghost view = { λ c. c.lists };

    ghost invariant = { λ c. IsInMemory c.lists.state };
}

impl MemoryChannel {
    /// An empty channel. It does not read the limit of a file.
    pub fn new(alloc: Global, limits: Limits) -> Result<MemoryChannel, NoMemory>
        ensures state { IfOk result (λ c. (faults from : ℕ)
            → c.state ≡ opening (record {
              rules = record { kind = Kind.Memory; limits = limits };
              base = record
                  { items = []; first = 0 };
              txn = 1;
              faults = faults;
              from = from;
              tells = true;
            })) }
        ensures tally { IfOk result
            (λ c. c.tally ≡ record
            { put_attempts = 0; put_successes = 0; take_attempts = 0; take_successes = 0 }) }
    {
        let mut items = Vec::new(alloc);
        items.reserve(1)?;
        Ok(MemoryChannel {
            lists: CountedLists::begin(alloc, Kind::Memory, limits, items, 0, 1),
        })
    }
}

impl Channel for MemoryChannel {
    ghost use Rattle.std.specs.Prelude.{true};
    ghost use Rattle.txn_core.specs.Counted.{StandsAs};

    ghost stands = { StandsAs };

    ghost tells = { λ _. true };

    ghost moment = { λ _. 0 };

    ghost faults = { λ _. 0 };

    /// It is never refused as `Broken`.
    fn begin_put(&mut self) -> Result<PutTxn, BeginRefused>
        ensures step { AddsOne (StandsAs self.old) (StandsAs self.new) (BeginPut result) 0 }
        ensures refused { IfErr result MayRefuseBegin }
    {
        self.lists.begin_put()
    }

    /// It is never refused as `Broken`.
    fn begin_take(&mut self) -> Result<TakeTxn, BeginRefused>
        ensures step { AddsOne (StandsAs self.old) (StandsAs self.new) (BeginTake result) 0 }
        ensures refused { IfErr result MayRefuseBegin }
    {
        self.lists.begin_take()
    }

    /// 1. `Stale`. 2. `TxnFull`. 3. `NoMemory`. The event is copied.
    fn put(&mut self, txn: &mut PutTxn, event: &Event) -> Result<Put, PutRefused>
        ensures step { AddsOne (StandsAs self.old) (StandsAs self.new)
            (Face.Put txn.old event.now result) 0 }
        ensures same { txn.new ≡ txn.old }
        ensures fault { IsErrOf result PutRefused.DiskFault → Rose 0 0 }
        ensures refused { IfErr result MayRefusePut }
    {
        self.lists.put(txn, event)
    }

    /// 1. `Stale`. 2. `TxnFull`. 3. `NoMemory`, where the event's copy finds none.
    fn take(&mut self, txn: &mut TakeTxn) -> Result<Taken, TakeRefused>
        ensures step { AddsOne (StandsAs self.old) (StandsAs self.new)
            (Face.Take txn.old result) 0 }
        ensures same { txn.new ≡ txn.old }
        ensures read { IsErrOf result TakeRefused.ReadFault → Rose 0 0 }
        ensures fault { IsErrOf result TakeRefused.DiskFault → Rose 0 0 }
        ensures refused { IfErr result MayRefuseTake }
    {
        self.lists.take(txn)
    }

    /// 1. `Stale`. 2. `Full`. 3. `Spent` of `Counter::Number`.
    fn stage_put(&mut self, txn: PutTxn) -> Result<Ticket, StageRefused<PutTxn>>
        ensures step { AddsOne (StandsAs self.old) (StandsAs self.new)
            (StagePut txn (cause_of result)) 0 }
        ensures back { IfErr result (λ refused. refused.txn ≡ txn) }
        ensures faults { ◌≡◌ {A = ℕ} 0 0 }
        ensures refused { IfErr result (λ refused. MayRefuseStage refused.cause) }
    {
        self.lists.stage_put(txn)
    }

    /// `Stale` alone.
    fn stage_take(&mut self, txn: TakeTxn) -> Result<Ticket, StageRefused<TakeTxn>>
        ensures step { AddsOne (StandsAs self.old) (StandsAs self.new)
            (StageTake txn (cause_of result)) 0 }
        ensures back { IfErr result (λ refused. refused.txn ≡ txn) }
        ensures faults { ◌≡◌ {A = ℕ} 0 0 }
        ensures refused { IfErr result (λ refused. MayRefuseStage refused.cause) }
    {
        self.lists.stage_take(txn)
    }

    /// It always answers Ok.
    fn flush(&mut self) -> Result<(), FlushRefused>
        ensures step { AddsOne (StandsAs self.old) (StandsAs self.new) (Flush result) 0 }
        ensures fault { IsErrOf result FlushRefused.DiskFault → Rose 0 0 }
        ensures always { IsOk result }
    {
        self.lists.flush()
    }

    fn rollback_put(&mut self, txn: PutTxn) -> bool {
        self.lists.rollback_put(txn)
    }

    fn rollback_take(&mut self, txn: TakeTxn) -> bool {
        self.lists.rollback_take(txn)
    }

    fn settled(&self, ticket: &Ticket) -> Settled {
        self.lists.settled(ticket)
    }

    fn size(&self) -> u64 {
        self.lists.size()
    }

    fn capacity(&self) -> u64 {
        self.lists.capacity()
    }

    fn counts(&self) -> Counts {
        self.lists.counts()
    }

    fn is_broken(&self) -> bool {
        self.lists.is_broken()
    }

    ghost is_run = { λ c start h stands. stands.0.0 };

    ghost tells_as_opened = { λ c start h stands. stands.0.2 };
}

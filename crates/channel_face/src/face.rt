// What a source and a sink see of a channel.
ghost use Rattle.std.specs.Prelude.{◌≡◌, ◌<◌, ◌≤◌, ℕ, List, All, length};
ghost use Rattle.channel_face.specs.Faces.{Own, Gains, picked_events, IsPutBatch, IsTakeBegun, IsTake, IsTakeCommit, IsTakeRolledBack};
ghost use Rattle.channel_face.specs.History.{Opening, Step};
ghost use Rattle.channel_face.specs.Machine.{State};

use crate::{FaceRefused, TakeTxn};
use event_core::{Batch, Event};

/// What a face of a channel is known by: its own calls, and what it saw of the channel.
pub trait Face {
    /// After this opening and these earlier calls of the channel, these are its own calls so far, with their replies.
    ghost own: { Self → Opening → List Step → List Own → Type 0 };

    /// These are its own calls so far, and in this state it left the channel.
    ghost saw: { Self → List Own → State → Type 0 };

    /// How many of the channel's calls it has seen.
    ghost seen: { Self → ℕ };

    /// The second is the first after some calls: what never changes of it is the same.
    ghost kept: { Self → Self → Type 0 };

    /// No call changes nothing.
    ghost kept_none: { (face : Self) → kept face face };

    /// Calls after calls are calls.
    ghost kept_then: { (first second third : Self) → kept first second → kept second third
        → kept first third };
}

/// What a source sees of a channel: whole transactions of puts.
pub trait PutFace: Face {
    /// Puts the events at these places of the batch, in order, as one transaction, and answers the number of its first event,
    /// or without events the next one. The transaction is begun, put event by event up to the first refusal, and staged. Where
    /// a put or the stage was refused, it is rolled back, unless its token is stale. Where its ticket is `No` when it is then asked
    /// for, one flush follows, unless no more calls are counted: so several callers may be settled by one flush. `InDoubt` comes
    /// exactly where the ticket is in doubt or that flush was refused or left out.
    fn put_batch(&mut self, batch: &Batch, picked: &[u32]) -> Result<u64, FaceRefused>
        requires { All (λ place. place < length batch.now) picked.now }
        ensures seen { Self.seen self.old ≤ Self.seen self.new }
        ensures kept { Self.kept self.old self.new }
        ensures calls { Gains (Self.own self.old) (Self.own self.new)
            (IsPutBatch (Self.saw self.new) (Self.seen self.new)
            (picked_events batch.now picked.now) result) };
}

/// What a sink sees of a channel: transactions of takes.
pub trait TakeFace: Face {
    /// Begins a transaction.
    fn begin(&mut self) -> Result<TakeTxn, FaceRefused>
        ensures seen { Self.seen self.old ≤ Self.seen self.new }
        ensures kept { Self.kept self.old self.new }
        ensures calls { Gains (Self.own self.old) (Self.own self.new)
            (λ earlier. IsTakeBegun (Self.seen self.new) result) };

    /// Takes an event, or none where each event that is left is held by a transaction. After a refusal too the transaction is
    /// open.
    fn take(&mut self, txn: &mut TakeTxn) -> Result<Option<Event>, FaceRefused>
        ensures seen { Self.seen self.old ≤ Self.seen self.new }
        ensures kept { Self.kept self.old self.new }
        ensures calls { Gains (Self.own self.old) (Self.own self.new)
            (λ earlier. IsTake (Self.seen self.new) txn.old result) }
        ensures same { txn.new ≡ txn.old };

    /// Stages a transaction. Where the stage was refused, it is rolled back, unless its token is stale. Where its ticket is `No`
    /// when it is then asked for, one flush follows, unless no more calls are counted. `InDoubt` comes exactly where the ticket is
    /// in doubt or that flush was refused or left out.
    fn commit(&mut self, txn: TakeTxn) -> Result<(), FaceRefused>
        ensures seen { Self.seen self.old ≤ Self.seen self.new }
        ensures kept { Self.kept self.old self.new }
        ensures calls { Gains (Self.own self.old) (Self.own self.new)
            (IsTakeCommit (Self.saw self.new) (Self.seen self.new) txn result) };

    /// Gives a transaction up, so that the events that it took are there again.
    fn rollback(&mut self, txn: TakeTxn)
        ensures seen { Self.seen self.old ≤ Self.seen self.new }
        ensures kept { Self.kept self.old self.new }
        ensures calls { Gains (Self.own self.old) (Self.own self.new)
            (IsTakeRolledBack (Self.saw self.new) txn) };
}

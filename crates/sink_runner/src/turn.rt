// One turn of a sink.
ghost use Rattle.channel_face.specs.Faces.{Gains, IsTakeRolledBack};
ghost use Rattle.flume_host.specs.Causes.{Rose};
ghost use Rattle.sink_runner.specs.Turns.{IsTurn, IsHandedOver, turn_refused, not_delivered, IsSinkFailure};
ghost use Rattle.std.specs.Prelude.{◌≡◌, ◌≤◌, ◌<◌, ◌^◌, length};

use crate::take::take_events;
use channel_face::{BeginRefused, FaceRefused, PutRefused, TakeFace, TakeRefused, TakeTxn};
use event_core::Batch;
use plug_in::{EventSink, SinkRefused};
use std::alloc::Global;

/// Why nothing was delivered.
#[derive(Clone, Copy, Debug, PartialEq, Eq)]
pub enum TurnCause {
    /// The channel refused a call.
    Channel(FaceRefused),
    /// The sink refused the batch.
    Sink,
}

/// What a turn came to.
#[derive(Clone, Copy, Debug, PartialEq, Eq)]
pub enum Turn {
    /// So many events were delivered, and are taken out of the channel.
    Delivered {
        /// How many.
        n: u32,
    },
    /// There was no event to be taken.
    Empty,
    /// Nothing was taken out of the channel.
    Failed {
        /// Why.
        cause: TurnCause,
    },
    /// The events were delivered, and whether they are taken out of the channel is not known.
    InDoubt,
    /// Out of memory. Nothing was taken out of the channel.
    NoMemory,
}

/// How a turn ends in which the channel refused a call.
pub fn turn_refused(refused: FaceRefused) -> Turn
    ensures turn { result ≡ turn_refused refused }
    ensures channel { IsSinkFailure result → ⊥ }
{
    match refused {
        FaceRefused::Begin(BeginRefused::NoMemory)
        | FaceRefused::Put(PutRefused::NoMemory)
        | FaceRefused::Take(TakeRefused::NoMemory) => Turn::NoMemory,
        FaceRefused::InDoubt => Turn::InDoubt,
        refused => Turn::Failed {
            cause: TurnCause::Channel(refused),
        },
    }
}

// How a turn ends in which the sink refused the batch.
fn not_delivered(refused: SinkRefused) -> Turn
    ensures { result ≡ not_delivered refused }
{
    match refused {
        SinkRefused::Refused => Turn::Failed {
            cause: TurnCause::Sink,
        },
        SinkRefused::NoMemory => Turn::NoMemory,
    }
}

// Rolls the transaction back, and ends the turn so.
fn give_up<T: TakeFace>(from: &mut T, txn: TakeTxn, turn: Turn) -> Turn
    ensures calls { Gains (T.own from.old) (T.own from.new)
        (IsTakeRolledBack (T.saw from.new) txn) }
    ensures seen { T.seen from.old ≤ T.seen from.new }
    ensures kept { T.kept from.old from.new }
    ensures turn { result ≡ turn }
{
    from.rollback(txn);
    turn
}

// Delivers what was taken, and ends the transaction.
#[tactic(auto, using(crate::proofs::Turning::handed_commit))]
fn hand_over<T: TakeFace, S: EventSink>(
    from: &mut T,
    txn: TakeTxn,
    sink: &mut S,
    taken: &Batch,
    moment: u64,
) -> Turn
    requires { length taken.now < 2 ^ 32 }
    ensures calls { Gains (T.own from.old) (T.own from.new)
        (IsHandedOver (T.saw from.new) (T.seen from.new) S.delivers txn taken.now moment sink.old
        result sink.new) }
    ensures seen { T.seen from.old ≤ T.seen from.new }
    ensures kept { T.kept from.old from.new }
    ensures cause { IsSinkFailure result → Rose (S.faults sink.old) (S.faults sink.new) }
    ensures later { S.faults sink.old ≤ S.faults sink.new }
{
    if taken.is_empty() {
        return give_up(from, txn, Turn::Empty);
    }
    match sink.deliver(taken, moment) {
        Ok(()) => match from.commit(txn) {
            Ok(()) => Turn::Delivered {
                n: taken.len() as u32,
            },
            Err(refused) => turn_refused(refused),
        },
        Err(refused) => give_up(from, txn, not_delivered(refused)),
    }
}

/// One turn of a sink (Flume Developer Guide, "Sink"): takes up to `batch` events of the channel in one transaction, delivers
/// just these, in order, at this moment in milliseconds since 1970, and commits the transaction once the delivery answered Ok.
/// Otherwise it is rolled back. It takes no further event once [`MAX_TURN_SIZE`](crate::MAX_TURN_SIZE) bytes are reached.
///
/// `Empty` comes exactly where the first take answered none. `Failed` has the channel's own refusal, or `Sink` where the sink
/// refused the batch; out of memory of either is `NoMemory`, and a commit that is in doubt is `InDoubt`.
pub fn drain_turn<T: TakeFace, S: EventSink>(
    alloc: Global,
    from: &mut T,
    sink: &mut S,
    batch: u32,
    moment: u64,
) -> Turn
    requires { 1 ≤ batch }
    ensures calls { Gains (T.own from.old) (T.own from.new)
        (IsTurn (T.saw from.new) (T.seen from.new) S.delivers batch moment sink.old result
        sink.new) }
    ensures seen { T.seen from.old ≤ T.seen from.new }
    ensures kept { T.kept from.old from.new }
    ensures cause { IsSinkFailure result → Rose (S.faults sink.old) (S.faults sink.new) }
    ensures later { S.faults sink.old ≤ S.faults sink.new }
{
    let mut txn = match from.begin() {
        Ok(txn) => txn,
        Err(refused) => return turn_refused(refused),
    };
    let mut taken = Batch::new(alloc);
    match take_events(from, &mut txn, batch, &mut taken) {
        Ok(()) => hand_over(from, txn, sink, &taken, moment),
        Err(turn) => give_up(from, txn, turn),
    }
}

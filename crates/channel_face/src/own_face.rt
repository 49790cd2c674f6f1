// A channel of one's own, seen as a source and a sink see it.
ghost use Rattle.std.specs.Prelude.{◌≡◌, ◌<◌, All, length};
ghost use Rattle.channel_face.specs.Faces.{picked_events, ArePutUpTo, Ends, IsPutStage, IsPutRolledBack, IsTakeRolledBack};
ghost use Rattle.channel_face.specs.OwnCalls.{Continues, Goes, Was};

use crate::{
    Channel, Face, FaceRefused, PutFace, PutRefused, PutTxn, Settled, StageRefused, TakeFace,
    TakeTxn, Ticket,
};
use event_core::{Batch, Event};

/// A face over a channel that nobody else uses. None of its calls is refused because no more calls are counted.
#[derive(Drop)]
pub struct OwnFace<C: Channel> {
    pub channel: C,
}

// Flushes where the ticket isn't settled, and answers whether it then is.
fn settle<C: Channel>(channel: &mut C, ticket: &Ticket) -> bool
    ensures goes { Goes (C.stands channel.old) (C.stands channel.new)
        (λ own s more new. Ends (Was (C.stands channel.new)) 0 ticket.now own more result) }
    ensures kept { Continues (C.stands channel.old) (C.stands channel.new) }
{
    match channel.settled(ticket) {
        Settled::Yes => true,
        Settled::No => channel.flush().is_ok(),
        Settled::InDoubt => false,
    }
}

fn roll_back_put<C: Channel>(channel: &mut C, txn: PutTxn)
    ensures goes { Goes (C.stands channel.old) (C.stands channel.new)
        (λ own s more new. IsPutRolledBack (Was (C.stands channel.new)) txn own more) }
    ensures kept { Continues (C.stands channel.old) (C.stands channel.new) }
{
    let _ended = channel.rollback_put(txn);
}

fn roll_back_take<C: Channel>(channel: &mut C, txn: TakeTxn)
    ensures goes { Goes (C.stands channel.old) (C.stands channel.new)
        (λ own s more new. IsTakeRolledBack (Was (C.stands channel.new)) txn own more) }
    ensures kept { Continues (C.stands channel.old) (C.stands channel.new) }
{
    let _ended = channel.rollback_take(txn);
}

// Stages the puts and settles them.
fn finish_puts<C: Channel>(channel: &mut C, txn: PutTxn) -> Result<u64, FaceRefused>
    ensures goes { Goes (C.stands channel.old) (C.stands channel.new)
        (λ own s more new. IsPutStage (Was (C.stands channel.new)) 0 txn result own more) }
    ensures kept { Continues (C.stands channel.old) (C.stands channel.new) }
{
    match channel.stage_put(txn) {
        Ok(ticket) => {
            if settle(channel, &ticket) {
                Ok(ticket.first)
            } else {
                Err(FaceRefused::InDoubt)
            }
        }
        Err(refused) => {
            let StageRefused { txn, cause } = refused;
            roll_back_put(channel, txn);
            Err(FaceRefused::Stage(cause))
        }
    }
}

// Puts the events at these places, up to the first refusal.
fn put_picked<C: Channel>(
    channel: &mut C,
    txn: &mut PutTxn,
    batch: &Batch,
    picked: &[u32],
) -> Result<(), PutRefused>
    requires { All (λ place. place < length batch.now) picked.now }
    ensures puts { Goes (C.stands channel.old) (C.stands channel.new)
        (λ own s more new. ArePutUpTo 0 txn.old (picked_events batch.now picked.now) result more) }
    ensures kept { Continues (C.stands channel.old) (C.stands channel.new) }
    ensures same { txn.new ≡ txn.old }
{
    for place in picked {
        if let Err(refused) = channel.put(txn, batch.get(*place as usize)) {
            return Err(refused);
        }
    }
    Ok(())
}

impl<C: Channel> OwnFace<C> {
    /// The face over this channel.
    pub fn new(channel: C) -> OwnFace<C>
        ensures { result.channel ≡ channel }
    {
        OwnFace { channel }
    }

    /// The channel.
    pub fn into_channel(self) -> C
        ensures { result ≡ self.channel }
    {
        let OwnFace { channel } = self;
        channel
    }
}

impl<C: Channel> Face for OwnFace<C> {
    ghost use Rattle.channel_face.specs.OwnCalls.{Continues, HasMade, Was, continues_none, continues_then};

    ghost own = { λ f. HasMade (C.stands f.channel) };

    ghost saw = { λ f. Was (C.stands f.channel) };

    ghost seen = { λ _. 0 };

    ghost kept = { λ f g. Continues (C.stands f.channel) (C.stands g.channel) };

    ghost kept_none = { λ f. continues_none (C.stands f.channel) };

    ghost kept_then = { λ f g h. continues_then (C.stands f.channel) (C.stands g.channel)
        (C.stands h.channel) };
}

impl<C: Channel> PutFace for OwnFace<C> {
    fn put_batch(&mut self, batch: &Batch, picked: &[u32]) -> Result<u64, FaceRefused> {
        let mut txn = match self.channel.begin_put() {
            Ok(txn) => txn,
            Err(refused) => return Err(FaceRefused::Begin(refused)),
        };
        match put_picked(&mut self.channel, &mut txn, batch, picked) {
            Ok(()) => finish_puts(&mut self.channel, txn),
            Err(refused) => {
                roll_back_put(&mut self.channel, txn);
                Err(FaceRefused::Put(refused))
            }
        }
    }
}

impl<C: Channel> TakeFace for OwnFace<C> {
    fn begin(&mut self) -> Result<TakeTxn, FaceRefused> {
        match self.channel.begin_take() {
            Ok(txn) => Ok(txn),
            Err(refused) => Err(FaceRefused::Begin(refused)),
        }
    }

    fn take(&mut self, txn: &mut TakeTxn) -> Result<Option<Event>, FaceRefused> {
        match self.channel.take(txn) {
            Ok(taken) => Ok(taken.event),
            Err(refused) => Err(FaceRefused::Take(refused)),
        }
    }

    fn commit(&mut self, txn: TakeTxn) -> Result<(), FaceRefused> {
        match self.channel.stage_take(txn) {
            Ok(ticket) => {
                if settle(&mut self.channel, &ticket) {
                    Ok(())
                } else {
                    Err(FaceRefused::InDoubt)
                }
            }
            Err(refused) => {
                let StageRefused { txn, cause } = refused;
                roll_back_take(&mut self.channel, txn);
                Err(FaceRefused::Stage(cause))
            }
        }
    }

    fn rollback(&mut self, txn: TakeTxn) {
        roll_back_take(&mut self.channel, txn)
    }
}

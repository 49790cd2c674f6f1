// Channels are given their events.
ghost use Rattle.std.specs.Prelude.{◌≡◌, ◌<◌, All, length};
ghost use Rattle.channel_face.specs.Faces.{picked_events};
ghost use Rattle.source_put.specs.Tries.{GivesBoth, Offers, Requires, Tries, Puts, answer, events_at, ArePlacesOf};

use crate::ports::Ports;
use channel_face::{FaceRefused, PutFace};
use event_core::Batch;

/// A channel that refused its events.
#[derive(Clone, Copy, Debug, PartialEq, Eq)]
pub struct Refusal {
    /// Its place among the channels of the source, from 0.
    pub channel: u32,
    /// Its reply.
    pub cause: FaceRefused,
}

// A channel's reply without the number of the first event.
fn without_number(reply: Result<u64, FaceRefused>) -> Result<(), FaceRefused>
    ensures { result ≡ answer reply }
{
    match reply {
        Ok(_) => Ok(()),
        Err(cause) => Err(cause),
    }
}

// A channel is given the events at these places, if there are any.
fn give<F: PutFace>(port: &mut F, batch: &Batch, places: &[u32]) -> Result<(), FaceRefused>
    requires { All (λ place. place < length batch.now) places.now }
    ensures { Tries (Puts F.own F.saw F.seen F.kept) (picked_events batch.now places.now) port.old
        port.new result }
{
    if places.is_empty() {
        return Ok(());
    }
    without_number(port.put_batch(batch, places))
}

// A channel is given the events that are picked for its place.
fn give_at<F: PutFace>(
    port: &mut F,
    batch: &Batch,
    picked: &[Vec<u32>],
    place: u32,
) -> Result<(), FaceRefused>
    requires place { place < length picked.now }
    requires places { ArePlacesOf batch.now picked.now }
    ensures { Tries (Puts F.own F.saw F.seen F.kept) (events_at batch.now picked.now place) port.old
        port.new result }
{
    give(port, batch, picked[place as usize].as_slice())
}

// The channels are given their events, in order up to the first refusal.
fn require<F: PutFace>(ports: &mut Ports<F>, batch: &Batch, picked: &[Vec<u32>]) -> Option<Refusal>
    requires as_many { length picked.now ≡ length ports.old }
    requires places { ArePlacesOf batch.now picked.now }
    ensures required { Requires (Puts F.own F.saw F.seen F.kept) (events_at batch.now picked.now) 0
        ports.old result ports.new }
    ensures len { length ports.new ≡ length ports.old }
{
    for channel in 0..ports.count() {
        match give_at(ports.at(channel), batch, picked, channel) {
            Ok(()) => {}
            Err(cause) => return Some(Refusal { channel, cause }),
        }
    }
    None
}

// The channels are given their events, in order, whatever they answer.
fn offer<F: PutFace>(ports: &mut Ports<F>, batch: &Batch, picked: &[Vec<u32>])
    requires as_many { length picked.now ≡ length ports.old }
    requires places { ArePlacesOf batch.now picked.now }
    ensures { Offers (Puts F.own F.saw F.seen F.kept) (events_at batch.now picked.now) 0 ports.old
        ports.new }
{
    for channel in 0..ports.count() {
        let _reply = give_at(ports.at(channel), batch, picked, channel);
    }
}

/// The channels are given the events that they have to take, in order up to the first refusal, and where none refused those
/// that they may miss.
pub(crate) fn give_all<F: PutFace>(
    ports: &mut Ports<F>,
    batch: &Batch,
    required: &[Vec<u32>],
    optional: &[Vec<u32>],
) -> Option<Refusal>
    requires required { (length required.now ≡ length ports.old) × ArePlacesOf batch.now
        required.now }
    requires optional { (length optional.now ≡ length ports.old) × ArePlacesOf batch.now
        optional.now }
    ensures { GivesBoth (Puts F.own F.saw F.seen F.kept) (events_at batch.now required.now)
        (events_at batch.now optional.now) ports.old ports.new result }
{
    match require(ports, batch, required) {
        None => {
            offer(ports, batch, optional);
            None
        }
        Some(refusal) => Some(refusal),
    }
}

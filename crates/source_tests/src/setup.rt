// An intake over three channels, and what these then hold.
ghost use Rattle.std.specs.Prelude.{◌≡◌, ◌<◌, ◌↔◌, All, IsTrue};
ghost use Rattle.source_put.specs.Accepts.{NamesBelow};

use channel_face::{Channel, OwnFace, TakeFace};
use event_core::{Batch, Event};
use scenarios::owned;
use selectors::Selector;
use source_put::{Chain, ChainLink, HostNames, Intake, Verdict};
use std::alloc::Global;

fn are_below(places: &[u32], count: u32) -> bool
    ensures { IsTrue result ↔ All (λ place. place < count) places.now }
{
    places.iter().all(|place| *place < count)
}

fn pairs_are_below(pairs: &[(String, Vec<u32>)], count: u32) -> bool
    ensures { IsTrue result → All (λ pair. All (λ place. place < count) pair.1.items) pairs.now }
{
    for pair in pairs {
        if !are_below(pair.1.as_slice(), count) {
            return false;
        }
    }
    true
}

// Whether a selector names no other channels than the first ones.
fn names_below(selector: &Selector, count: u32) -> bool
    ensures { IsTrue result → NamesBelow selector.now count }
{
    match selector {
        Selector::Replicating { channels, optional } => {
            if *channels > count {
                return false;
            }
            are_below(optional.as_slice(), count)
        }
        Selector::Multiplexing {
            header: _,
            mapping,
            default,
            optional,
        } => {
            if !pairs_are_below(mapping.as_slice(), count) {
                return false;
            }
            if !are_below(default.as_slice(), count) {
                return false;
            }
            pairs_are_below(optional.as_slice(), count)
        }
    }
}

fn names(alloc: Global) -> Option<HostNames> {
    let name = owned(alloc, "host")?;
    Some(HostNames {
        name,
        address: owned(alloc, "10.0.0.1")?,
    })
}

// The faces of some channels.
fn faces_of<C: Channel + Drop>(alloc: Global, channels: Vec<C>) -> Option<Vec<OwnFace<C>>> {
    let mut faces = Vec::new(alloc);
    for channel in channels {
        faces.push(OwnFace::new(channel)).ok()?;
    }
    Some(faces)
}

/// An intake over three channels, where the selector names no others.
pub fn intake_over<C: Channel + Drop>(
    alloc: Global,
    links: Vec<ChainLink>,
    selector: Selector,
    channels: Vec<C>,
) -> Option<Intake<OwnFace<C>>> {
    let (host, ports) = (names(alloc)?, faces_of(alloc, channels)?);
    if ports.len() != 3 || !names_below(&selector, 3) {
        return None;
    }
    Intake::new(alloc, Chain { links }, selector, host, ports).ok()
}

/// Hands a batch of at most ten events to an intake.
pub fn accept<C: Channel + Drop>(intake: &mut Intake<OwnFace<C>>, batch: Batch) -> Verdict {
    if batch.len() > 10 {
        return Verdict::NoMemory;
    }
    intake.accept(batch, 0)
}

/// How many events the channel at a place holds.
pub fn size_at<C: Channel + Drop>(intake: &mut Intake<OwnFace<C>>, place: u32) -> Option<u64> {
    if place >= intake.port_count() {
        return None;
    }
    Some(intake.port(place).channel.size())
}

/// The next event of the channel at a place, by a transaction of its own: it is then gone from the channel, or stays in it. Nothing,
/// where a call is refused.
pub fn next_at<C: Channel + Drop>(
    intake: &mut Intake<OwnFace<C>>,
    place: u32,
    stays: bool,
) -> Option<Option<Event>> {
    if place >= intake.port_count() {
        return None;
    }
    let port = intake.port(place);
    let Ok(mut txn) = port.begin() else {
        return None;
    };
    let taken = port.take(&mut txn);
    if stays {
        port.rollback(txn);
    } else if port.commit(txn).is_err() {
        return None;
    }
    taken.ok()
}

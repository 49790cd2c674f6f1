// Intakes over channels, and what these then hold.
use channel_face::{Channel, Limits, OwnFace, TakeFace};
use event_core::Event;
use file_channel::FileChannel;
use host_memory::MemDisk;
use memory_channel::MemoryChannel;
use regex_steps::{RegexKeys, RegexStep};
use selectors::Selector;
use source_put::{Chain, ChainLink, HostNames, Intake};
use std::alloc::Global;
use test_fixtures::{channel_on, disk_failing_in_flush};

// A channel in memory of this capacity.
fn in_memory_of(alloc: Global, capacity: u32) -> Option<MemoryChannel> {
    let limits = Limits {
        capacity,
        txn_capacity: capacity,
        max_file: 0,
    };
    MemoryChannel::new(alloc, limits).ok()
}

/// Channels in memory of these capacities, as `2 1`.
pub fn in_memory(alloc: Global, capacities: &str) -> Option<Vec<MemoryChannel>> {
    let mut channels = Vec::new(alloc);
    for word in capacities.split(' ') {
        let channel = in_memory_of(alloc, word.parse::<u32>().ok()?)?;
        channels.push(channel).ok()?;
    }
    Some(channels)
}

/// A channel in a folder, of whose first commit the last sync fails. After it the channel refuses all.
pub fn failing(alloc: Global) -> Option<Vec<FileChannel<MemDisk>>> {
    let limits = Limits {
        capacity: 10,
        txn_capacity: 10,
        max_file: 1_000_000,
    };
    let disk = disk_failing_in_flush(alloc, limits).ok()?;
    let channel = channel_on(alloc, disk, limits).ok()?;
    let mut channels = Vec::new(alloc);
    channels.push(channel).ok()?;
    Some(channels)
}

/// An interceptor that drops the events in which a pattern is found.
pub fn filter(alloc: Global, pattern: &str) -> Option<ChainLink> {
    let keys = RegexKeys::Filter {
        regex: String::from_str(alloc, pattern).ok()?,
        exclude: true,
    };
    match RegexStep::build(alloc, &keys) {
        Ok(step) => Some(ChainLink::Regex(step)),
        Err(_) => None,
    }
}

fn names(alloc: Global) -> Option<HostNames> {
    let name = String::from_str(alloc, "host").ok()?;
    Some(HostNames {
        name,
        address: String::from_str(alloc, "10.0.0.1").ok()?,
    })
}

fn faces_of<C: Channel + Drop>(alloc: Global, channels: Vec<C>) -> Option<Vec<OwnFace<C>>> {
    let mut faces = Vec::new(alloc);
    for channel in channels {
        faces.push(OwnFace::new(channel)).ok()?;
    }
    Some(faces)
}

/// An intake whose events go to each of these channels.
pub fn intake_over<C: Channel + Drop>(
    alloc: Global,
    links: Vec<ChainLink>,
    channels: Vec<C>,
) -> Option<Intake<OwnFace<C>>> {
    let (host, ports) = (names(alloc)?, faces_of(alloc, channels)?);
    let count = ports.len();
    if count > 8 {
        return None;
    }
    let selector = Selector::Replicating {
        channels: count as u32,
        optional: Vec::new(alloc),
    };
    Intake::new(alloc, Chain { links }, selector, host, ports).ok()
}

// The next event of a channel, which it then has no more.
fn next<C: Channel + Drop>(port: &mut OwnFace<C>) -> Option<Option<Event>> {
    let Ok(mut txn) = port.begin() else {
        return None;
    };
    let taken = port.take(&mut txn);
    if port.commit(txn).is_err() {
        return None;
    }
    taken.ok()
}

// Adds the bodies of the events that a channel holds, of which it has ten at most, each with a comma after it.
fn add_bodies<C: Channel + Drop>(port: &mut OwnFace<C>, into: &mut Vec<u8>) -> Option<()> {
    for _ in 0..11 {
        match next(port)? {
            Some(event) => {
                into.extend_from_slice(event.body()).ok()?;
                into.push(b',').ok()?;
            }
            None => return Some(()),
        }
    }
    None
}

/// The bodies in each channel, each with a comma after it, and a semicolon after each channel.
pub fn bodies<C: Channel + Drop>(alloc: Global, intake: Intake<OwnFace<C>>) -> Option<Vec<u8>> {
    let mut text = Vec::new(alloc);
    for port in intake.close() {
        let mut port = port;
        add_bodies(&mut port, &mut text)?;
        text.push(b';').ok()?;
    }
    Some(text)
}

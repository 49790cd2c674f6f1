// The host that a run is made on, of what was given to it.
use crate::own_host::OwnHost;
use crate::scene::Given;
use host_memory::{
    Flag, MemClock, MemDialer, MemDisk, MemHost, MemListener, MemRandom, MemRoll, MemSink,
    MemSource, Named, Offer, Placed,
};
use std::alloc::Global;
use std::mem;

fn source_of(alloc: Global, given: &mut Given) -> MemSource {
    let bytes = mem::replace(&mut given.input, Vec::new(alloc));
    let source = MemSource::new(alloc, bytes)
        .in_pieces(mem::replace(&mut given.input_pieces, Vec::new(alloc)))
        .failing_at(mem::replace(&mut given.input_fails, Vec::new(alloc)));
    match given.held.take() {
        Some((begun, until)) => source.held(begun, until),
        None => source,
    }
}

fn sink_of(alloc: Global, given: &mut Given) -> MemSink {
    MemSink::new(alloc)
        .in_pieces(mem::replace(&mut given.output_pieces, Vec::new(alloc)))
        .failing_at(mem::replace(&mut given.output_fails, Vec::new(alloc)))
}

fn disk_of(alloc: Global, given: &mut Given) -> MemDisk {
    let faults = mem::replace(&mut given.disk_faults, Vec::new(alloc));
    match given.disk.take() {
        Some(disk) => disk.failing_at(faults),
        None => MemDisk::new(alloc).failing_at(faults),
    }
}

fn roll_of(alloc: Global, given: &mut Given) -> MemRoll {
    let roll = MemRoll::new(alloc).failing_at(mem::replace(&mut given.rolls_fail, Vec::new(alloc)));
    match given.flushed.take() {
        Some(flag) => roll.setting(flag),
        None => roll,
    }
}

/// A list of one object.
pub fn only<T: Drop>(alloc: Global, object: T) -> Option<Vec<T>> {
    let mut all = Vec::new(alloc);
    match all.push(object) {
        Ok(()) => Some(all),
        Err(_) => None,
    }
}

fn named<T: Drop>(alloc: Global, path: &str, object: T) -> Option<Vec<Named<T>>> {
    let path = String::from_str(alloc, path).ok()?;
    let object = Some(object);
    only(alloc, Named { path, object })
}

fn placed_listener(alloc: Global, port: u16, offers: Vec<Offer>) -> Option<Placed<MemListener>> {
    let host = String::from_str(alloc, "localhost").ok()?;
    Some(Placed::new(host, port, MemListener::new(alloc, offers)))
}

fn listeners_of(alloc: Global, given: &mut Given) -> Option<Vec<Placed<MemListener>>> {
    let mut all = Vec::new(alloc);
    for (port, offers) in mem::replace(&mut given.ports, Vec::new(alloc)) {
        if all.push(placed_listener(alloc, port, offers)?).is_err() {
            return None;
        }
    }
    Some(all)
}

fn dialers_of(alloc: Global, given: &mut Given) -> Option<Vec<Placed<MemDialer>>> {
    let host = String::from_str(alloc, "far").ok()?;
    let links = mem::replace(&mut given.dials, Vec::new(alloc));
    only(alloc, Placed::new(host, 4545, MemDialer::new(alloc, links)))
}

// The folders of rolled files that were given, and `out`.
fn rolls_of(alloc: Global, given: &mut Given) -> Option<Vec<Named<MemRoll>>> {
    let path = String::from_str(alloc, "out").ok()?;
    let object = Some(roll_of(alloc, given));
    let mut rolls = mem::replace(&mut given.rolls, Vec::new(alloc));
    match rolls.push(Named { path, object }) {
        Ok(()) => Some(rolls),
        Err(_) => None,
    }
}

// A host with the file `x.conf`, the folder `d`, the rolled files of `out`, and clocks that stand at the moment 5000.
fn host_of(alloc: Global, given: &mut Given) -> Option<MemHost> {
    let folders = named(alloc, "d", disk_of(alloc, given))?;
    let text = mem::replace(&mut given.text, Vec::new(alloc));
    let files = named(alloc, "x.conf", text)?;
    let rolls = rolls_of(alloc, given)?;
    let listeners = listeners_of(alloc, given)?;
    let dialers = dialers_of(alloc, given)?;
    let (clock, random) = (
        MemClock {
            moment: 5000,
            step: 0,
        },
        MemRandom {
            number: given.draw,
            step: 0,
        },
    );
    Some(
        MemHost::new(
            alloc,
            source_of(alloc, given),
            sink_of(alloc, given),
            folders,
        )
        .with_files(files)
        .with_rolls(rolls)
        .with_times(clock, random)
        .with_listeners(listeners)
        .with_dialers(dialers)
        .failing_opens(mem::replace(&mut given.opens_fail, Vec::new(alloc)))
        .lacking_opens(mem::replace(&mut given.opens_lack, Vec::new(alloc))),
    )
}

/// The host of what was given, with what it has of its own. What is given is empty afterwards.
pub fn own_host_of(alloc: Global, given: &mut Given) -> Option<OwnHost> {
    let more = given.more;
    let gate = given.gate.take();
    let slow = given.slow.take();
    let host = host_of(alloc, given)?;
    Some(OwnHost {
        host,
        more,
        gate,
        slow,
        ended: Flag::new(alloc).ok(),
    })
}

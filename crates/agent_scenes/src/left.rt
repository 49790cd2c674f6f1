// What is left in the channel of a folder.
use channel_face::{Channel, Limits, TakeTxn};
use file_channel::FileChannel;
use host_memory::MemDisk;
use std::alloc::Global;
use test_fixtures::channel_on;

const LIMITS: Limits = Limits {
    capacity: 100,
    txn_capacity: 100,
    max_file: 1_000_000,
};

// Adds the body of the next event and a newline, and says whether there was one.
fn take_one(
    channel: &mut FileChannel<MemDisk>,
    txn: &mut TakeTxn,
    bodies: &mut Vec<u8>,
) -> Option<bool> {
    match channel.take(txn).ok()?.event {
        Some(event) => {
            let is_added = bodies.extend_from_slice(event.body()).is_ok()
                && bodies.push(b'\n').is_ok();
            is_added.then_some(true)
        }
        None => Some(false),
    }
}

// Adds the bodies of the events that takes give, each with a newline, and says whether that is all.
fn take_all(channel: &mut FileChannel<MemDisk>, txn: &mut TakeTxn, bodies: &mut Vec<u8>) -> bool {
    for _ in 0..100 {
        match take_one(channel, txn, bodies) {
            Some(true) => {}
            Some(false) => return true,
            None => return false,
        }
    }
    false
}

fn is_emptied(channel: &mut FileChannel<MemDisk>, bodies: &mut Vec<u8>) -> bool {
    let Ok(mut txn) = channel.begin_take() else {
        return false;
    };
    let is_done = take_all(channel, &mut txn, bodies);
    channel.rollback_take(txn);
    is_done
}

/// The bodies of the events that takes give of the folder's channel, each with a newline.
pub fn left(alloc: Global, disk: MemDisk) -> Option<Vec<u8>> {
    let mut bodies = Vec::new(alloc);
    let mut channel = channel_on(alloc, disk, LIMITS).ok()?;
    if is_emptied(&mut channel, &mut bodies) {
        Some(bodies)
    } else {
        None
    }
}

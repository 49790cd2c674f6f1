// Draws a picture of a world.
use crate::picture::{
    AttemptRow, ChannelRow, EntryRow, Name, OutputRow, Picture, ReplyRow, RequestRow, WorkRow,
};
use channel_face::{StageRefused, TakeTxn};
use event_core::{Batch, Entry, Event, NoMemory};
use hop_core::{Body, Delivery, Node, NodeChannel, OpenAttempt, Packet, Work, World};
use std::alloc::Global;
use txn_core::Machine;

// An event's letter: the first byte of its body.
fn letter(event: &Event) -> u64 {
    match event.body().first() {
        Some(byte) => *byte as u64,
        None => 0,
    }
}

fn letters(alloc: Global, batch: &Batch) -> Result<Vec<u64>, NoMemory> {
    let mut all = Vec::new(alloc);
    for at in 0..batch.len() {
        all.push(letter(batch.get(at)))?;
    }
    Ok(all)
}

fn values(alloc: Global, entry: &Entry) -> Result<Vec<u64>, NoMemory> {
    match entry {
        Entry::Puts(batch) => letters(alloc, batch),
        Entry::Takes(numbers) => Ok(Vec::from_slice(alloc, numbers.as_slice())?),
    }
}

fn name(delivery: Delivery) -> Name {
    (delivery.by(), delivery.place())
}

// Whether the take of this life and number is open, and what it took, unless the channel is broken.
fn open_take(
    alloc: Global,
    machine: &Machine,
    life: u64,
    number: u64,
) -> Result<(bool, Option<Vec<u64>>), NoMemory> {
    let mut copy = machine.copy()?;
    let before = copy.commits().len();
    match copy.stage_take(TakeTxn::new(life, number)) {
        Ok(_) => {
            let mut took = Vec::new(alloc);
            for entry in copy.commits().iter().skip(before) {
                if let Entry::Takes(taken) = entry {
                    took.extend_from_slice(taken.as_slice())?;
                }
            }
            Ok((true, Some(took)))
        }
        Err(StageRefused { txn, cause: _ }) => Ok((copy.rollback_take(txn), None)),
    }
}

fn draw_channel(
    alloc: Global,
    all: &mut Picture,
    node: &Node,
    at: (u32, u32),
    channel: &NodeChannel,
) -> Result<(), NoMemory> {
    let mut required = Vec::new(alloc);
    for pair in &node.required {
        if pair.1.contains(&at.1) {
            required.push(letter(&pair.0))?;
        }
    }
    let mut left = Vec::new(alloc);
    for item in channel.machine().left() {
        left.push(item.0)?;
    }
    all.channels.push(ChannelRow {
        node: at.0,
        channel: at.1,
        broken: channel.machine().is_broken(),
        later: Vec::from_slice(alloc, channel.later())?,
        last: channel.is_last(),
        required,
        left,
    })?;
    let machine = channel.machine();
    let settled = machine.journal().len();
    for (place, entry) in machine.commits().iter().enumerate() {
        all.entries.push(EntryRow {
            node: at.0,
            channel: at.1,
            place: place as u64,
            settled: place < settled,
            takes: matches!(entry, Entry::Takes(_)),
            values: values(alloc, entry)?,
            name: match channel.named().get(place) {
                Some(Some(delivery)) => Some(name(*delivery)),
                _ => None,
            },
        })?;
    }
    Ok(())
}

fn work_row(
    alloc: Global,
    node: u32,
    number: u64,
    is_ack: bool,
    work: &Work,
) -> Result<WorkRow, NoMemory> {
    Ok(WorkRow {
        node,
        number,
        is_ack,
        batch: letters(alloc, &work.batch)?,
        made: letters(alloc, &work.made)?,
        tag: (work.tag.connection, work.tag.serial),
        entries: Vec::from_slice(alloc, &work.entries)?,
    })
}

fn draw_attempt(
    alloc: Global,
    all: &mut Picture,
    node: &Node,
    at: (u32, u64),
    attempt: &OpenAttempt,
) -> Result<(), NoMemory> {
    let (open, took) = match node.channels.get(attempt.channel as usize) {
        Some(channel) => open_take(alloc, channel.machine(), attempt.life, attempt.txn)?,
        None => (false, None),
    };
    all.attempts.push(AttemptRow {
        node: at.0,
        number: at.1,
        channel: attempt.channel,
        txn: attempt.txn,
        open,
        took,
        events: letters(alloc, &attempt.events)?,
        tag: match attempt.tag {
            Some(tag) => Some((tag.connection, tag.serial)),
            None => None,
        },
        delivery: match attempt.delivery {
            Some(delivery) => Some(name(delivery)),
            None => None,
        },
    })?;
    Ok(())
}

fn draw_channels(alloc: Global, all: &mut Picture, at: u32, node: &Node) -> Result<(), NoMemory> {
    let mut place: u32 = 0;
    for channel in &node.channels {
        draw_channel(alloc, all, node, (at, place), channel)?;
        place = place.saturating_add(1);
    }
    Ok(())
}

fn draw_works(alloc: Global, all: &mut Picture, at: u32, node: &Node) -> Result<(), NoMemory> {
    for (number, ack) in node.acks.iter().enumerate() {
        all.works
            .push(work_row(alloc, at, number as u64, true, ack)?)?;
    }
    for (number, work) in node.works.iter().enumerate() {
        if let Some(work) = work {
            all.works
                .push(work_row(alloc, at, number as u64, false, work)?)?;
        }
    }
    Ok(())
}

fn draw_attempts(alloc: Global, all: &mut Picture, at: u32, node: &Node) -> Result<(), NoMemory> {
    for (number, attempt) in node.attempts.iter().enumerate() {
        if let Some(attempt) = attempt {
            draw_attempt(alloc, all, node, (at, number as u64), attempt)?;
        }
    }
    Ok(())
}

fn draw_outputs(alloc: Global, all: &mut Picture, at: u32, node: &Node) -> Result<(), NoMemory> {
    for (place, output) in node.outputs.iter().enumerate() {
        all.outputs.push(OutputRow {
            node: at,
            place: place as u64,
            events: letters(alloc, output)?,
        })?;
    }
    Ok(())
}

fn draw_node(alloc: Global, all: &mut Picture, at: u32, node: &Node) -> Result<(), NoMemory> {
    draw_channels(alloc, all, at, node)?;
    draw_works(alloc, all, at, node)?;
    draw_attempts(alloc, all, at, node)?;
    draw_outputs(alloc, all, at, node)
}

fn draw_packet(
    alloc: Global,
    all: &mut Picture,
    packet: u64,
    sent: &Packet,
) -> Result<(), NoMemory> {
    let tag = (sent.tag.connection, sent.tag.serial);
    match &sent.body {
        Body::Request { batch } => all.requests.push(RequestRow {
            packet,
            node: sent.node,
            tag,
            batch: letters(alloc, batch)?,
        })?,
        Body::Reply { place } => all.replies.push(ReplyRow {
            packet,
            node: sent.node,
            tag,
            place: *place,
        })?,
    }
    Ok(())
}

/// All that the world has.
pub fn draw(alloc: Global, world: &World) -> Result<Picture, NoMemory> {
    let mut all = Picture {
        channels: Vec::new(alloc),
        entries: Vec::new(alloc),
        works: Vec::new(alloc),
        attempts: Vec::new(alloc),
        requests: Vec::new(alloc),
        replies: Vec::new(alloc),
        outputs: Vec::new(alloc),
    };
    let mut at: u32 = 0;
    for node in world.nodes() {
        draw_node(alloc, &mut all, at, node)?;
        at = at.saturating_add(1);
    }
    for (packet, sent) in world.sent().iter().enumerate() {
        draw_packet(alloc, &mut all, packet as u64, sent)?;
    }
    Ok(all)
}

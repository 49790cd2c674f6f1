// Worlds to be, and steps, as rows of plain numbers.
use crate::letters::{A, B, batch, event};
use channel_face::Limits;
use event_core::NoMemory;
use hop_core::{HopStep, World, WorldChannel, WorldNode, WorldPlan};
use std::alloc::Global;

/// A channel: of which node, its limits, whether its sinks point to each node, whether a last sink takes from it, and whether
/// `a` and `b` have to reach it.
#[derive(Clone, Copy)]
pub struct Setting {
    pub node: u32,
    pub capacity: u32,
    pub txn_capacity: u32,
    pub later: [bool; 3],
    pub last: bool,
    pub a: bool,
    pub b: bool,
}

/// A step: its kind by a letter, the node, the channel (or the node to which a request goes), the number (of the work, the
/// attempt, or the packet that is delivered), another number (the connection, the packet that replies, or how many channels
/// are reopened), and the serial (or how many entries stay).
pub type Row = (u8, u32, u32, u64, u64, u32);

fn channel_of(alloc: Global, setting: &Setting) -> Result<WorldChannel, NoMemory> {
    let mut later = Vec::new(alloc);
    let mut to: u32 = 0;
    for points in setting.later {
        if points {
            later.push(to)?;
        }
        to = to.saturating_add(1);
    }
    Ok(WorldChannel {
        limits: Limits {
            capacity: setting.capacity,
            txn_capacity: setting.txn_capacity,
            max_file: 0,
        },
        later,
        last: setting.last,
    })
}

fn node_of(alloc: Global, settings: &[Setting], node: u32) -> Result<WorldNode, NoMemory> {
    let mut channels = Vec::new(alloc);
    let mut to_a = Vec::new(alloc);
    let mut to_b = Vec::new(alloc);
    let mut place: u32 = 0;
    for setting in settings {
        if setting.node == node {
            channels.push(channel_of(alloc, setting)?)?;
            if setting.a {
                to_a.push(place)?;
            }
            if setting.b {
                to_b.push(place)?;
            }
            place = place.saturating_add(1);
        }
    }
    let mut required = Vec::new(alloc);
    required.push((event(alloc, A)?, to_a))?;
    required.push((event(alloc, B)?, to_b))?;
    Ok(WorldNode { channels, required })
}

/// A new world of so many nodes.
pub fn world_of(alloc: Global, settings: &[Setting], count: u32) -> Result<World, NoMemory> {
    let mut nodes = Vec::new(alloc);
    for node in 0..count {
        nodes.push(node_of(alloc, settings, node)?)?;
    }
    World::new(alloc, WorldPlan { nodes })
}

// A step that needs no memory.
fn plain_step(row: Row) -> Option<HopStep> {
    let (kind, node, channel, number, other, serial) = row;
    let (work, attempt) = (number, number);
    match kind {
        b'a' => Some(HopStep::Accept {
            node,
            work,
            channel,
        }),
        b'k' => Some(HopStep::Acknowledge { node, work }),
        b'w' => Some(HopStep::EndWork { node, work }),
        b'f' => Some(HopStep::Flush {
            node,
            channel,
            done: true,
        }),
        b'F' => Some(HopStep::Flush {
            node,
            channel,
            done: false,
        }),
        b'b' => Some(HopStep::Fail { node, channel }),
        b'm' => Some(HopStep::Mend {
            node,
            channel,
            kept: serial,
        }),
        b't' => Some(HopStep::Take {
            node,
            channel,
            attempt: None,
        }),
        b'T' => Some(HopStep::Take {
            node,
            channel,
            attempt: Some(attempt),
        }),
        b'n' => Some(HopStep::Send {
            node,
            attempt,
            to: channel,
            connection: other,
            serial,
        }),
        b'u' => Some(HopStep::Output { node, attempt }),
        b'r' => Some(HopStep::Reply {
            node,
            attempt,
            packet: other,
        }),
        b'c' => Some(HopStep::Commit { node, attempt }),
        b'e' => Some(HopStep::EndAttempt { node, attempt }),
        _ => None,
    }
}

/// The step of a row; one of a batch has these letters.
pub fn step_of(alloc: Global, row: Row, letters: &[u64]) -> Result<HopStep, NoMemory> {
    if let Some(step) = plain_step(row) {
        return Ok(step);
    }
    let (kind, node, channel, packet, other, serial) = row;
    if kind == b'R' {
        let mut kept = Vec::new(alloc);
        for _ in 0..other {
            kept.push(serial)?;
        }
        return Ok(HopStep::Restart { node, kept });
    }
    let batch = batch(alloc, letters)?;
    Ok(match kind {
        b'o' => HopStep::Offer {
            node,
            connection: other,
            serial,
            batch,
        },
        b'd' => HopStep::Deliver {
            packet,
            made: batch,
        },
        _ => HopStep::Aside {
            node,
            channel,
            events: batch,
        },
    })
}

// What a world is made of, and what can happen in it.
use channel_face::Limits;
use event_core::{Batch, Event};

/// The nodes of a world.
#[derive(Drop)]
pub struct WorldPlan {
    pub nodes: Vec<WorldNode>,
}

/// A node: its channels, and the channels that an event has to reach. The first pair with an equal event counts, and an event
/// that is in none has no channel to reach.
#[derive(Drop)]
pub struct WorldNode {
    pub channels: Vec<WorldChannel>,
    pub required: Vec<(Event, Vec<u32>)>,
}

/// A file channel: its limits, the nodes to which its sinks point, and whether a last sink takes from it.
#[derive(Drop)]
pub struct WorldChannel {
    pub limits: Limits,
    pub later: Vec<u32>,
    pub last: bool,
}

/// What can happen in a world. Nodes, channels, works, attempts and packets are named by their number, from 0.
#[derive(Drop)]
pub enum HopStep {
    /// A request with this batch comes from outside.
    Offer {
        node: u32,
        connection: u64,
        serial: u32,
        batch: Batch,
    },
    /// A node begins a work with a request that was sent to it, and its interceptors make these events of its batch.
    Deliver {
        packet: u64,
        made: Batch,
    },
    /// A required channel of the work stages the events that it has to take, or the work ends refused.
    Accept {
        node: u32,
        work: u64,
        channel: u32,
    },
    /// A channel flushes, and its device did so or failed.
    Flush {
        node: u32,
        channel: u32,
        done: bool,
    },
    /// A work whose events are settled is acknowledged, and its reply is sent.
    Acknowledge {
        node: u32,
        work: u64,
    },
    /// An attempt begins, or takes one event more.
    Take {
        node: u32,
        channel: u32,
        attempt: Option<u64>,
    },
    /// An attempt sends a request to a node.
    Send {
        node: u32,
        attempt: u64,
        to: u32,
        connection: u64,
        serial: u32,
    },
    /// A last sink has the events of an attempt.
    Output {
        node: u32,
        attempt: u64,
    },
    /// A reply that was sent comes to an attempt.
    Reply {
        node: u32,
        attempt: u64,
        packet: u64,
    },
    /// An attempt that was delivered is committed.
    Commit {
        node: u32,
        attempt: u64,
    },
    /// A channel stages events that no work asks for.
    Aside {
        node: u32,
        channel: u32,
        events: Batch,
    },
    /// A channel is reopened, and so many of its staged entries stay.
    Mend {
        node: u32,
        channel: u32,
        kept: u32,
    },
    /// An attempt is rolled back.
    EndAttempt {
        node: u32,
        attempt: u64,
    },
    /// A work ends without an acknowledgement.
    EndWork {
        node: u32,
        work: u64,
    },
    /// A channel breaks.
    Fail {
        node: u32,
        channel: u32,
    },
    /// A node restarts, and so many of the staged entries of each of its channels stay.
    Restart {
        node: u32,
        kept: Vec<u32>,
    },
}

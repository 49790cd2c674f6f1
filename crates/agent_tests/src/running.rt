// The runs of scenarios by the top call.
use crate::objects::outcome_of;
use agent_run::{ChannelEnd, Outcome};
use agent_scenes::{Ended, Notes, OwnHost, TopCall};
use std::alloc::Global;
use std::sync::Wait;
use std::test::Fail;
use std::thread::Threads;

// The top call.
struct Agent;

// Tells what a channel that came back is, and its workers.
fn is_channel_told(channel: &ChannelEnd, ended: &mut Ended) -> bool {
    if !ended.add_channel(channel.name.as_str(), channel.pass.seen()) {
        return false;
    }
    for worker in channel.workers.as_slice() {
        if !ended.add_worker(worker.component.as_str(), worker.place, worker.number) {
            return false;
        }
    }
    true
}

// Tells what a run ended with.
fn is_told(outcome: &Outcome, ended: &mut Ended) -> bool {
    ended.status = outcome.status;
    for channel in &outcome.channels {
        if !is_channel_told(channel, ended) {
            return false;
        }
    }
    true
}

impl TopCall for Agent {
    fn run<R: Threads + Wait + Sync>(
        rt: &R,
        alloc: Global,
        words: &[String],
        host: &mut OwnHost,
        notes: &Notes,
        ended: &mut Ended,
    ) -> bool {
        match outcome_of(rt, alloc, words, host, notes) {
            Some(outcome) => is_told(&outcome, ended),
            None => false,
        }
    }
}

/// Passes where each line of some scenarios holds, and names the first one that does not.
pub fn pass<R: Threads + Wait + Sync>(rt: &R, alloc: Global, scenarios: &str) -> Result<(), Fail> {
    agent_scenes::pass::<Agent, R>(rt, alloc, scenarios)
}

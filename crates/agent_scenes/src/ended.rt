// What a run ended with, as words look at it: its status, and the channels that came back, with the workers that used them.
use std::alloc::Global;

// A worker of a run.
#[derive(Drop)]
struct Worker {
    component: String,
    place: u32,
    number: u64,
}

// A channel that came back.
#[derive(Drop)]
struct Channel {
    name: String,
    // How many calls its pass has seen.
    calls: u64,
    workers: Vec<Worker>,
}

/// What a run ended with.
#[derive(Drop)]
pub struct Ended {
    alloc: Global,
    /// The exit status.
    pub status: u8,
    channels: Vec<Channel>,
}

impl Ended {
    /// The status 0, and no channel.
    pub fn new(alloc: Global) -> Ended {
        Ended {
            alloc,
            status: 0,
            channels: Vec::new(alloc),
        }
    }

    /// Adds a channel of this name, whose pass has seen so many calls, and tells whether there was memory for it.
    pub fn add_channel(&mut self, name: &str, calls: u64) -> bool {
        let Some(name) = String::from_str(self.alloc, name).ok() else {
            return false;
        };
        let workers = Vec::new(self.alloc);
        self.channels
            .push(Channel {
                name,
                calls,
                workers,
            })
            .is_ok()
    }

    /// Adds a worker to the channel that was added last, and tells whether there was one, and memory for it.
    pub fn add_worker(&mut self, component: &str, place: u32, number: u64) -> bool {
        let Some(component) = String::from_str(self.alloc, component).ok() else {
            return false;
        };
        match self.channels.last_mut() {
            Some(channel) => channel
                .workers
                .push(Worker {
                    component,
                    place,
                    number,
                })
                .is_ok(),
            None => false,
        }
    }

    /// How many channels came back.
    pub fn channels(&self) -> u64 {
        self.channels.len() as u64
    }

    /// How many calls the channels have seen.
    pub fn seen(&self) -> u64 {
        let mut calls: u64 = 0;
        for channel in &self.channels {
            calls = calls.saturating_add(channel.calls);
        }
        calls
    }

    /// How many workers the channels name.
    pub fn workers(&self) -> u64 {
        let mut count: u64 = 0;
        for channel in &self.channels {
            count = count.saturating_add(channel.workers.len() as u64);
        }
        count
    }
}

// How often a channel of this name names this worker.
fn times_named(channels: &[Channel], name: &str, component: &str, place: u32) -> usize {
    let mut times: usize = 0;
    for channel in channels {
        for worker in channel.workers.as_slice() {
            if channel.name.as_str() == name
                && worker.component.as_str() == component
                && worker.place == place
            {
                times = times.saturating_add(1);
            }
        }
    }
    times
}

/// Whether a channel names a worker once, as `c1 sinks.k 0`.
pub fn is_worker(ended: &Ended, named: &str) -> bool {
    let Some((name, rest)) = named.split_once(' ') else {
        return false;
    };
    let Some((component, place)) = rest.split_once(' ') else {
        return false;
    };
    match place.parse::<u32>() {
        Ok(place) => times_named(ended.channels.as_slice(), name, component, place) == 1,
        Err(_) => false,
    }
}

// How many of the workers have this number.
fn times_numbered(channel: &Channel, number: u64) -> usize {
    let mut times: usize = 0;
    for worker in channel.workers.as_slice() {
        if worker.number == number {
            times = times.saturating_add(1);
        }
    }
    times
}

/// Whether the workers of each channel have the numbers from 1 on, each once, and its pass has seen some calls.
pub fn are_numbered(ended: &Ended) -> bool {
    for channel in &ended.channels {
        if channel.calls == 0 {
            return false;
        }
        for number in 1..=channel.workers.len() as u64 {
            if times_numbered(channel, number) != 1 {
                return false;
            }
        }
    }
    true
}

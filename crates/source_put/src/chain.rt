// A chain of interceptors.
ghost use Rattle.std.specs.Prelude.{◌≡◌, length};
ghost use Rattle.source_put.specs.Chains.{Answers, Intercepts, IsMade, IsMadeOrNot, Links, Passes, host_text};
ghost use Rattle.interceptors.specs.Steps.{applied};
ghost use Rattle.regex_steps.specs.Steps.{ran, step as step_of};

use event_core::{Batch, Event, EventRefused};
use interceptors::{Step, apply};
use plug_in::{Intercepted, Interceptor};
use regex_steps::RegexStep;
use std::alloc::Global;

/// The name and the address of this host.
#[derive(Debug, Drop)]
pub struct HostNames {
    pub name: String,
    pub address: String,
}

/// One interceptor.
#[derive(Drop)]
pub enum ChainLink<B = Box<dyn Interceptor + Send>> {
    /// One that sets or removes headers.
    Step(Step),
    /// One that looks for a pattern in the body.
    Regex(RegexStep),
    /// One that was handed in.
    Boxed(B),
}

/// Interceptors in their order (Flume User Guide, "Flume Interceptors").
#[derive(Drop)]
pub struct Chain<B = Box<dyn Interceptor + Send>> {
    pub links: Vec<ChainLink<B>>,
}

/// What became of an event.
#[derive(Drop)]
pub enum Passed {
    /// This event goes on in its place.
    Event(Event),
    /// No event goes on.
    Dropped,
    /// An event of this size would have been made, which is more than an event may have.
    TooLarge { size: u64 },
    /// Out of memory.
    NoMemory,
}

/// Why no event of a batch goes on.
#[derive(Clone, Copy, Debug, PartialEq, Eq)]
pub enum Stopped {
    /// An event of this size would have been made, which is more than an event may have.
    TooLarge { size: u64 },
    /// Out of memory.
    NoMemory,
}

// What a step is told of the host.
fn host_text<'a>(step: &Step, host: &'a HostNames) -> &'a str
    ensures { result.now ≡ host_text step.now host.now }
{
    match step {
        Step::Host { use_ip: true, .. } => host.address.as_str(),
        Step::Host { use_ip: false, .. } => host.name.as_str(),
        _ => "",
    }
}

// An event passes a step over headers.
fn pass_step(step: &Step, event: Event, moment: u64, host: &HostNames) -> Passed
    ensures { IsMade (applied step.now moment (host_text step.now host.now) event) result }
{
    match apply(step, event, moment, host_text(step, host)) {
        Ok(event) => Passed::Event(event),
        Err(EventRefused::TooLarge { size }) => Passed::TooLarge { size },
        Err(_) => Passed::NoMemory,
    }
}

// An event passes a step over a pattern.
fn pass_regex(step: &mut RegexStep, event: Event) -> Passed
    ensures made { IsMadeOrNot (ran (step_of step.old) event) result }
    ensures same { step_of step.new ≡ step_of step.old }
{
    match step.run(event) {
        Ok(Some(event)) => Passed::Event(event),
        Ok(None) => Passed::Dropped,
        Err(EventRefused::TooLarge { size }) => Passed::TooLarge { size },
        Err(_) => Passed::NoMemory,
    }
}

// An event passes an interceptor that was handed in.
fn pass_boxed<B: Interceptor>(step: &mut B, event: Event, moment: u64) -> Passed
    ensures { Answers B.intercepts moment step.old event result step.new }
{
    match step.intercept(event, moment) {
        Intercepted::Keep(event) => Passed::Event(event),
        Intercepted::Dropped => Passed::Dropped,
        Intercepted::NoMemory => Passed::NoMemory,
    }
}

// An event passes an interceptor.
fn pass_link<B: Interceptor>(
    link: &mut ChainLink<B>,
    event: Event,
    moment: u64,
    host: &HostNames,
) -> Passed
    ensures { Links B.intercepts moment host.now link.old event result link.new }
{
    match link {
        ChainLink::Step(step) => pass_step(step, event, moment, host),
        ChainLink::Regex(step) => pass_regex(step, event),
        ChainLink::Boxed(step) => pass_boxed(step, event, moment),
    }
}

// An event passes interceptors.
fn pass_event<B: Interceptor>(
    links: &mut [ChainLink<B>],
    event: Event,
    moment: u64,
    host: &HostNames,
) -> Passed
    ensures passes { Passes B.intercepts moment host.now links.old event result links.new }
    ensures len { length links.new ≡ length links.old }
{
    let mut event = event;
    for place in 0..links.len() {
        match pass_link(&mut links[place], event, moment, host) {
            Passed::Event(made) => event = made,
            Passed::Dropped => return Passed::Dropped,
            Passed::TooLarge { size } => return Passed::TooLarge { size },
            Passed::NoMemory => return Passed::NoMemory,
        }
    }
    Passed::Event(event)
}

impl<B: Interceptor> Chain<B> {
    // An event passes the interceptors.
    fn pass_one(&mut self, event: Event, moment: u64, host: &HostNames) -> Passed
        ensures { Passes B.intercepts moment host.now self.old.links.items event result
            self.new.links.items }
    {
        pass_event(self.links.as_mut_slice(), event, moment, host)
    }

    /// The events of a batch pass the interceptors, in order.
    pub(crate) fn pass(
        &mut self,
        alloc: Global,
        batch: Batch,
        moment: u64,
        host: &HostNames,
    ) -> Result<Batch, Stopped>
        ensures { Intercepts B.intercepts moment host.now self.old.links.items batch result
            self.new.links.items }
    {
        let mut left = batch;
        let mut kept = Batch::new(alloc);
        while let Some(event) = left.take_first() {
            match self.pass_one(event, moment, host) {
                Passed::Event(event) => {
                    if kept.push(event).is_err() {
                        return Err(Stopped::NoMemory);
                    }
                }
                Passed::Dropped => {}
                Passed::TooLarge { size } => return Err(Stopped::TooLarge { size }),
                Passed::NoMemory => return Err(Stopped::NoMemory),
            }
        }
        Ok(kept)
    }
}

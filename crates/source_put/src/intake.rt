// Where the batches of a source go.
ghost use Rattle.std.specs.Prelude.{◌≡◌, ◌⊎◌, ◌<◌, ◌^◌, IsOkAnd, Some, length, slice_get};
ghost use Rattle.std.specs.Borrow.{sem};
ghost use Rattle.source_put.specs.Accepts.{Gives, NamesBelow, is_want, verdict_of};
ghost use Rattle.source_put.specs.Routes.{Accepts, LendsPort, route_of};
ghost use Rattle.source_put.specs.Tries.{Puts};

use crate::chain::{Chain, HostNames, Stopped};
use crate::pick::pick;
use crate::ports::Ports;
use crate::put::{Refusal, give_all};
use channel_face::{BeginRefused, FaceRefused, PutFace, PutRefused};
use event_core::{Batch, NoMemory};
use plug_in::Interceptor;
use selectors::Selector;
use std::alloc::Global;

/// What became of a batch.
#[derive(Clone, Copy, Debug, PartialEq, Eq)]
pub enum Verdict {
    /// Each channel that has to take some of its events took them.
    Taken,
    /// A channel that has to take some of its events refused them. Those before it took theirs.
    Refused {
        /// Its place among the channels of the source, from 0.
        channel: u32,
        /// Its reply.
        cause: FaceRefused,
    },
    /// The chain would have made an event of this size, which is more than an event may have. No channel was given any.
    TooLarge {
        size: u64,
    },
    /// Out of memory. The channels before the one that wanted it took their events.
    NoMemory,
}

/// Takes the batches of a source: the chain is applied to the events, and the selector names the channels of each.
#[derive(Drop)]
pub struct Intake<F, B = Box<dyn Interceptor + Send>> {
    alloc: Global,
    chain: Chain<B>,
    selector: Selector,
    host: HostNames,
    ports: Ports<F>,
}

// Whether a channel refused when out of memory.
fn is_want(cause: &FaceRefused) -> bool
    ensures { result ≡ is_want cause.now }
{
    matches!(
        cause,
        FaceRefused::Begin(BeginRefused::NoMemory) | FaceRefused::Put(PutRefused::NoMemory)
    )
}

// By the first channel that refused.
fn verdict_of(refusal: Option<Refusal>) -> Verdict
    ensures { result ≡ verdict_of refusal }
{
    match refusal {
        None => Verdict::Taken,
        Some(Refusal { channel, cause }) => {
            if is_want(&cause) {
                Verdict::NoMemory
            } else {
                Verdict::Refused { channel, cause }
            }
        }
    }
}

impl<F: PutFace + Drop, B: Interceptor> Intake<F, B> {
    /// Takes batches into these channels, which are in the order of the source's. The selector names them by their places.
    /// It takes no memory, and so is never refused.
    pub fn new(
        alloc: Global,
        chain: Chain<B>,
        selector: Selector,
        host: HostNames,
        ports: Vec<F>,
    ) -> Result<Intake<F, B>, NoMemory>
        requires few { length ports.items < 2 ^ 32 }
        requires named { NamesBelow selector (length ports.items) }
        ensures { IsOkAnd result (λ intake. (intake.chain ≡ chain) × (intake.selector ≡ selector) ×
            (intake.host ≡ host) × (intake.ports ≡ ports.items)) }
    {
        Ok(Intake {
            alloc,
            chain,
            selector,
            host,
            ports: Ports::new(ports),
        })
    }

    // The verdict on events that passed the chain.
    fn give(&mut self, batch: &Batch) -> Verdict
        requires { length batch.now < 2 ^ 32 }
        ensures gives { Gives (Puts F.own F.saw F.seen F.kept) self.old.selector batch.now
            self.old.ports self.new.ports result ⊎ ((result ≡ Verdict.NoMemory) ×
            (self.new.ports ≡ self.old.ports)) }
        ensures same { (self.new.selector ≡ self.old.selector) × (self.new.host ≡ self.old.host) ×
            (self.new.chain ≡ self.old.chain) }
    {
        let Ok(picked) = pick(self.alloc, &self.selector, batch, self.ports.count()) else {
            return Verdict::NoMemory;
        };
        let required = picked.required.as_slice();
        let optional = picked.optional.as_slice();
        verdict_of(give_all(&mut self.ports, batch, required, optional))
    }

    /// Takes a batch at a moment, in milliseconds since 1970.
    pub fn accept(&mut self, batch: Batch, moment: u64) -> Verdict
        requires { length batch < 2 ^ 32 }
        ensures accepts { Accepts (Puts F.own F.saw F.seen F.kept) self.old.selector B.intercepts
            moment self.old.host (route_of self.old) batch result (route_of self.new) }
        ensures same { (self.new.selector ≡ self.old.selector) × (self.new.host ≡ self.old.host) }
    {
        match self.chain.pass(self.alloc, batch, moment, &self.host) {
            Ok(batch) => self.give(&batch),
            Err(Stopped::TooLarge { size }) => Verdict::TooLarge { size },
            Err(Stopped::NoMemory) => Verdict::NoMemory,
        }
    }

    /// How many channels there are. It takes no memory.
    pub fn port_count(&self) -> u32
        ensures { result ≡ length self.now.ports }
    {
        self.ports.count()
    }

    /// Lends one of the channels, by its place. It takes no memory. What is left after the loan is then in its place, and
    /// nothing else changes.
    pub fn port(&mut self, place: u32) -> &mut F
        requires { place < length self.old.ports }
        ensures* writes_back { sem 𝓛 (LendsPort F.row B.row self.entry place result) }
        ensures value { slice_get self.old.ports place ≡ Some result.now }
    {
        self.ports.at(place)
    }

    /// Hands the channels back, in order. It takes no memory.
    pub fn close(self) -> Vec<F>
        ensures { result.items ≡ self.ports }
    {
        self.ports.into_list()
    }
}

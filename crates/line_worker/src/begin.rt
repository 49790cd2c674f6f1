// A worker of lines begins.
ghost use Rattle.std.specs.Prelude.{◌≡◌, true};
ghost use Rattle.chain_plan.specs.Builds.{AreBuilt};
ghost use Rattle.line_worker.specs.Workers.{CanServe};

use crate::worker::LineWorker;
use channel_face::PutFace;
use plug_in::Interceptor;
use selectors::Selector;
use source_put::{HostNames, Intake};
use source_worker::chain_of;
use std::mem;

/// Where the lines go, and whether the chain that they pass is the one that was planned. Else there was no memory for that, and
/// no session begins.
#[derive(Drop)]
pub(crate) struct Begun<F, B> {
    pub intake: Intake<F, B>,
    pub built: bool,
}

impl<F: PutFace + Drop, I, O, C, B: Interceptor> LineWorker<F, I, O, C, B> {
    /// Builds the chain, and takes the ports, the selector and the names out of the worker.
    pub(crate) fn begin(&mut self) -> Begun<F, B>
        requires { CanServe self.old }
        ensures ports { result.intake.ports ≡ self.old.ports.items }
        ensures means { (result.intake.selector ≡ self.old.selector)
            × (result.intake.host ≡ self.old.host) }
        ensures chain { result.built ≡ true → AreBuilt self.old.plan.items
            result.intake.chain.links.items }
        ensures same { (self.new.channels ≡ self.old.channels)
            × (self.new.rules ≡ self.old.rules) × (self.new.input ≡ self.old.input)
            × (self.new.output ≡ self.old.output) × (self.new.clock ≡ self.old.clock) }
    {
        let alloc = self.alloc;
        let (chain, built) = chain_of(alloc, mem::replace(&mut self.plan, Vec::new(alloc)));
        let none = Selector::Replicating {
            channels: 0,
            optional: Vec::new(alloc),
        };
        let selector = mem::replace(&mut self.selector, none);
        let unnamed = HostNames {
            name: String::new(alloc),
            address: String::new(alloc),
        };
        let host = mem::replace(&mut self.host, unnamed);
        let ports = mem::replace(&mut self.ports, Vec::new(alloc));
        match Intake::new(alloc, chain, selector, host, ports) {
            Ok(intake) => Begun { intake, built },
            Err(_) => unreachable!(),
        }
    }
}

// A listener's worker begins.
ghost use Rattle.std.specs.Prelude.{◌≡◌, true, false};
ghost use Rattle.chain_plan.specs.Builds.{AreBuilt};
ghost use Rattle.source_worker.specs.Workers.{CanListen};

use crate::service::Service;
use crate::worker::ListenWorker;
use chain_plan::{LinkPlan, build_chain};
use channel_face::PutFace;
use plug_in::Interceptor;
use selectors::Selector;
use source_put::{Chain, HostNames, Intake};
use std::alloc::Global;
use std::mem;

/// Builds a chain, and says whether there was memory for it; else it is empty. A text that is no pattern is found long before,
/// where the chain is built for the first time.
pub fn chain_of<B: Drop>(alloc: Global, plan: Vec<LinkPlan<B>>) -> (Chain<B>, bool)
    ensures { result.1 ≡ true → AreBuilt plan.items result.0.links.items }
{
    match build_chain(alloc, plan) {
        Ok(chain) => (chain, true),
        Err(_) => {
            let none = Chain {
                links: Vec::new(alloc),
            };
            (none, false)
        }
    }
}

impl<F: PutFace + Drop, N, C, B: Interceptor> ListenWorker<F, N, C, B> {
    /// Builds the chain, and takes the ports, the selector and the names out of the worker.
    pub(crate) fn begin(&mut self) -> Service<F, B>
        requires { CanListen self.old }
        ensures ports { result.intake.ports ≡ self.old.ports.items }
        ensures means { (result.intake.selector ≡ self.old.selector)
            × (result.intake.host ≡ self.old.host) }
        ensures chain { result.built ≡ true → AreBuilt self.old.plan.items
            result.intake.chain.links.items }
        ensures due { result.due ≡ false }
        ensures same { (self.new.channels ≡ self.old.channels)
            × (self.new.rules ≡ self.old.rules) × (self.new.listener ≡ self.old.listener)
            × (self.new.clock ≡ self.old.clock) }
    {
        let alloc = self.alloc;
        let (chain, built) = chain_of(alloc, mem::replace(&mut self.plan, Vec::new(alloc)));
        let none = Selector::Replicating {
            channels: 0,
            optional: Vec::new(alloc),
        };
        let selector = mem::replace(&mut self.selector, none);
        let unnamed = HostNames {
            name: String::new(alloc),
            address: String::new(alloc),
        };
        let host = mem::replace(&mut self.host, unnamed);
        let ports = mem::replace(&mut self.ports, Vec::new(alloc));
        match Intake::new(alloc, chain, selector, host, ports) {
            Ok(intake) => Service {
                intake,
                built,
                due: false,
            },
            Err(_) => unreachable!(),
        }
    }
}

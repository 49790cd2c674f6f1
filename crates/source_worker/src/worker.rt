// The worker of a listener.
use crate::ends::SessionRules;
use chain_plan::LinkPlan;
use selectors::Selector;
use source_put::HostNames;
use std::alloc::Global;
use std::marker::PhantomData;

/// A listener, the rules of its sessions, and all that the events need on their way into the channels. The chain is a plan: it
/// is built in the worker's thread.
#[derive(Drop)]
pub struct ListenWorker<F, N, C, B> {
    /// Where memory comes from.
    pub alloc: Global,
    /// The ports of the channels of the source, in their order.
    pub ports: Vec<F>,
    /// The places of those channels among the agent's channels.
    pub channels: Vec<u32>,
    /// What the interceptors are built of.
    pub plan: Vec<LinkPlan<B>>,
    /// Which channels an event goes to.
    pub selector: Selector,
    /// What interceptors are told of this host.
    pub host: HostNames,
    /// The rules of the sessions.
    pub rules: SessionRules,
    /// Gives the links.
    pub listener: N,
    /// Gives the moment of each batch, and makes the pauses.
    pub clock: C,
    /// The kind of the ports.
    pub of: PhantomData<F>,
}

// The worker of lines.
use chain_plan::LinkPlan;
use line_session::SessionEnd;
use netcat_source::LineRules;
use selectors::Selector;
use source_put::HostNames;
use std::alloc::Global;
use std::marker::PhantomData;

/// An input, an output, the rules of the session on them, and all that the lines need on their way into the channels. The chain
/// is a plan: it is built in the worker's thread.
#[derive(Drop)]
pub struct LineWorker<F, I, O, C, B> {
    /// Where memory comes from.
    pub alloc: Global,
    /// The ports of the channels of the source, in their order.
    pub ports: Vec<F>,
    /// The places of those channels among the agent's channels.
    pub channels: Vec<u32>,
    /// What the interceptors are built of.
    pub plan: Vec<LinkPlan<B>>,
    /// Which channels an event goes to.
    pub selector: Selector,
    /// What interceptors are told of this host.
    pub host: HostNames,
    /// The rules of the session.
    pub rules: LineRules,
    /// Where the lines come from.
    pub input: I,
    /// Where their answers go.
    pub output: O,
    /// Gives the moment of each line, and makes the pauses. It is there before and after a run, and with the session within.
    pub clock: Option<C>,
    /// What ended the session, once it has run.
    pub end: Option<SessionEnd>,
    /// The kind of the ports.
    pub of: PhantomData<F>,
}

// A draft of a session worker.
use chain_plan::LinkPlan;
use plug_in::Interceptor;
use selectors::Selector;
use source_put::HostNames;
use source_worker::SessionRules;

/// All that a session worker needs of its source.
#[derive(Drop)]
pub struct SourceDraft<B = Box<dyn Interceptor + Send>> {
    /// The place of the source in the plan, from 0.
    pub source: usize,
    /// The place of the worker among those of its source, from 0.
    pub place: u32,
    /// The places of the source's channels in the plan.
    pub channels: Vec<u32>,
    /// What its interceptors are built of.
    pub plan: Vec<LinkPlan<B>>,
    /// Which channels an event goes to.
    pub selector: Selector,
    /// What its interceptors are told of the host.
    pub host: HostNames,
    /// The rules of its sessions.
    pub rules: SessionRules,
}

/// Drafts of all session workers of an agent, in the order of its sources.
#[derive(Drop)]
pub struct Drafts<B = Box<dyn Interceptor + Send>> {
    /// Those of the sources that listen: as many of each source as it has listeners.
    pub listeners: Vec<SourceDraft<B>>,
    /// Those of the sources of standard input, one of each source.
    pub lines: Vec<SourceDraft<B>>,
}

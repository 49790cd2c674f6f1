// Who dials links in memory.
ghost use Rattle.std.specs.Prelude.{◌≡◌, Some, None, IsErr, OnErr, OnOk, IfOk};
ghost use Rattle.flume_host.specs.Causes.{HasCause};
ghost use Rattle.flume_host.specs.Listens.{IsOwed, fresh_from, gave_one, no_links, refused_link};
ghost use Rattle.host_memory.specs.Links.{link_told};
ghost use Rattle.host_memory.specs.Listens.{FollowsDials, dialer_told, dialer_endpoint};

use crate::MemLink;
use crate::address::Address;
use crate::given::Given;
use flume_host::{Dialer, Failed};
use std::alloc::Global;

/// A dialer that gives links in their order. A dial fails at an empty place and after them all, and where there is no
/// memory; the link that it was to give is lost then.
#[derive(Drop)]
pub struct MemDialer {
    // the address for which a host handed it out
    at: Option<Address>,
    links: Vec<Option<MemLink>>,
    next: usize,
    given: Given,
    faults: u64,
}

impl MemDialer {
    /// A dialer that shows its contents, with these links.
    pub fn new(alloc: Global, links: Vec<Option<MemLink>>) -> MemDialer
        ensures told { dialer_told result ≡ Some no_links }
        ensures nowhere { result.at ≡ None }
        ensures script { (result.links ≡ links) × (result.next ≡ 0) }
        ensures count { result.faults ≡ 0 }
    {
        MemDialer {
            at: None,
            links,
            next: 0,
            given: Given::new(alloc),
            faults: 0,
        }
    }

    /// A dialer that shows nothing, and whose links show nothing.
    pub fn silent(mut self) -> MemDialer
        ensures told { dialer_told result ≡ None }
        ensures at { result.at ≡ self.at }
        ensures script { (result.links ≡ self.links) × (result.next ≡ self.next) }
        ensures count { result.faults ≡ self.faults }
    {
        self.given.tells = false;
        self
    }

    /// The rest of its script, of which nothing was asked yet, and it shows its contents. It is handed out for this address.
    pub(crate) fn fresh(mut self, at: Address) -> MemDialer
        ensures told { dialer_told result ≡ Some no_links }
        ensures at { result.at ≡ Some at }
        ensures script { (result.links ≡ self.links) × (result.next ≡ self.next) }
        ensures count { result.faults ≡ 0 }
    {
        self.at = Some(at);
        self.given = self.given.fresh();
        self.faults = 0;
        self
    }

    /// The links that it took back, in that order, as long as it told.
    pub fn back(&self) -> &[MemLink]
        ensures { result.now ≡ self.now.given.back.items }
    {
        &self.given.back
    }

    // A dial that fails.
    fn fail(&mut self) -> Result<MemLink, Failed>
        ensures told { dialer_told self.new ≡ refused_link (dialer_told self.old) }
        ensures same { (self.new.at ≡ self.old.at) × (self.new.links ≡ self.old.links) ×
            (self.new.next ≡ self.old.next) }
        ensures err { IsErr result }
        ensures cause { HasCause self.old.faults self.new.faults result }
    {
        self.given.failed = true;
        self.faults = self.faults.saturating_add(1);
        Err(Failed)
    }
}

impl Dialer for MemDialer {
    type Link = MemLink;

    ghost told = { dialer_told };

    ghost endpoint = { dialer_endpoint };

    ghost faults = { λ d. d.faults };

    fn dial(&mut self) -> Result<MemLink, Failed>
        ensures given { IfOk result (λ link. (dialer_told self.new ≡ gave_one
            (dialer_told self.old)) × (link_told link ≡ fresh_from (dialer_told self.old))) }
        ensures owed { OnOk result (IsOwed (dialer_told self.new)) }
        ensures refused { OnErr result (dialer_told self.new ≡ refused_link
            (dialer_told self.old)) }
        ensures endpoint { dialer_endpoint self.new ≡ dialer_endpoint self.old }
        ensures cause { HasCause self.old.faults self.new.faults result }
        ensures follows { FollowsDials self.old self.new result }
    {
        let place = self.next;
        if place >= self.links.len() {
            return self.fail();
        }
        let link = self.links[place].take();
        self.next = place + 1;
        let Some(link) = link else {
            return self.fail();
        };
        match self.given.give(link) {
            Ok(link) => Ok(link),
            Err(_) => self.fail(),
        }
    }

    fn keep(&mut self, link: MemLink) {
        self.given.keep(link);
    }

    fn faults(&self) -> u64 {
        self.faults
    }
}

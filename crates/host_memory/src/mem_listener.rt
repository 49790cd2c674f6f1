// Who accepts links in memory.
ghost use Rattle.std.specs.Prelude.{◌≡◌, ◌≤◌, Some, None, IsErr, OnErr, IfOk, IfNone, MatchOption};
ghost use Rattle.flume_host.specs.Causes.{HasCause, Rose};
ghost use Rattle.flume_host.specs.Listens.{IsOwed, fresh_from, gave_none, gave_one, no_links, refused_link};
ghost use Rattle.host_memory.specs.Links.{link_told};
ghost use Rattle.host_memory.specs.Listens.{AnswersOffer, FollowsOffers, listener_endpoint, listener_told, given_told};

use crate::address::Address;
use crate::given::Given;
use crate::{Flag, MemLink};
use flume_host::{Failed, Listener};
use std::alloc::Global;
use std::mem;

/// What an accept of a listener in memory does.
#[derive(Drop)]
pub enum Offer {
    /// Gives this link, of which nothing was asked yet.
    Link(MemLink),
    /// Waits in vain.
    Quiet,
    /// Fails.
    Fail,
    /// Waits until this flag is set, and then has waited in vain. It looks at it 1,000,000,000 times at most, and then fails.
    Hold(Flag),
}

/// A listener whose accepts follow a script, after which they wait in vain. A call that needs memory and has none fails
/// too, and the link that it was to give is lost.
#[derive(Drop)]
pub struct MemListener {
    // the address for which a host handed it out
    at: Option<Address>,
    offers: Vec<Offer>,
    next: usize,
    given: Given,
    waits: u64,
    faults: u64,
}

impl MemListener {
    /// A listener that shows its contents, with this script.
    pub fn new(alloc: Global, offers: Vec<Offer>) -> MemListener
        ensures told { listener_told result ≡ Some no_links }
        ensures nowhere { result.at ≡ None }
        ensures script { (result.offers ≡ offers) × (result.next ≡ 0) }
        ensures counts { (result.faults ≡ 0) × (result.waits ≡ 0) }
    {
        MemListener {
            at: None,
            offers,
            next: 0,
            given: Given::new(alloc),
            waits: 0,
            faults: 0,
        }
    }

    /// A listener that shows nothing, and whose links show nothing.
    pub fn silent(mut self) -> MemListener
        ensures told { listener_told result ≡ None }
        ensures at { result.at ≡ self.at }
        ensures script { (result.offers ≡ self.offers) × (result.next ≡ self.next) }
        ensures counts { (result.faults ≡ self.faults) × (result.waits ≡ self.waits) }
    {
        self.given.tells = false;
        self
    }

    /// The rest of its script, of which nothing was asked yet, and it shows its contents. It is handed out for this address.
    pub(crate) fn fresh(mut self, at: Address) -> MemListener
        ensures told { listener_told result ≡ Some no_links }
        ensures at { result.at ≡ Some at }
        ensures script { (result.offers ≡ self.offers) × (result.next ≡ self.next) }
        ensures counts { (result.faults ≡ 0) × (result.waits ≡ 0) }
    {
        self.at = Some(at);
        self.given = self.given.fresh();
        self.waits = 0;
        self.faults = 0;
        self
    }

    /// The links that it took back, in that order, as long as it told.
    pub fn back(&self) -> &[MemLink]
        ensures { result.now ≡ self.now.given.back.items }
    {
        &self.given.back
    }

    // An accept that fails.
    fn fail(&mut self) -> Result<Option<MemLink>, Failed>
        ensures told { listener_told self.new ≡ refused_link (listener_told self.old) }
        ensures same { (self.new.at ≡ self.old.at) × (self.new.offers ≡ self.old.offers) ×
            (self.new.next ≡ self.old.next) × (self.new.waits ≡ self.old.waits) }
        ensures err { IsErr result }
        ensures cause { HasCause self.old.faults self.new.faults result }
    {
        self.given.failed = true;
        self.faults = self.faults.saturating_add(1);
        Err(Failed)
    }

    // An accept that waits in vain.
    fn rest(&mut self) -> Result<Option<MemLink>, Failed>
        ensures told { listener_told self.new ≡ gave_none (listener_told self.old) }
        ensures none { result ≡ Ok None }
        ensures same { (self.new.at ≡ self.old.at) × (self.new.offers ≡ self.old.offers) ×
            (self.new.next ≡ self.old.next) }
        ensures waited { Rose self.old.waits self.new.waits × (self.old.waits ≤ self.new.waits) }
        ensures cause { HasCause self.old.faults self.new.faults result }
    {
        self.given.failed = false;
        self.waits = self.waits.saturating_add(1);
        Ok(None)
    }

    // An accept by an offer.
    fn take(&mut self, offer: Offer) -> Result<Option<MemLink>, Failed>
        ensures given { IfOk result (λ found. MatchOption found
            (listener_told self.new ≡ gave_none (listener_told self.old))
            (λ link. (listener_told self.new ≡ gave_one (listener_told self.old)) ×
            (link_told link ≡ fresh_from (listener_told self.old)))) }
        ensures refused { OnErr result (listener_told self.new ≡ refused_link
            (listener_told self.old)) }
        ensures owed { IfOk result (λ found. MatchOption found (Unit {0})
            (λ _. IsOwed (listener_told self.new))) }
        ensures waited { IfOk result (λ found. IfNone found (Rose self.old.waits self.new.waits)) }
        ensures waits { self.old.waits ≤ self.new.waits }
        ensures cause { HasCause self.old.faults self.new.faults result }
        ensures follows { AnswersOffer offer result }
        ensures same { (self.new.at ≡ self.old.at) × (self.new.offers ≡ self.old.offers) ×
            (self.new.next ≡ self.old.next) }
    {
        match offer {
            Offer::Link(link) => match self.given.give(link) {
                Ok(link) => Ok(Some(link)),
                Err(_) => self.fail(),
            },
            Offer::Quiet => self.rest(),
            Offer::Fail => self.fail(),
            Offer::Hold(flag) => {
                if flag.wait() {
                    self.rest()
                } else {
                    self.fail()
                }
            }
        }
    }
}

impl Listener for MemListener {
    type Link = MemLink;

    ghost told = { listener_told };

    ghost endpoint = { listener_endpoint };

    ghost faults = { λ l. l.faults };

    ghost waits = { λ l. l.waits };

    fn accept(&mut self) -> Result<Option<MemLink>, Failed>
        ensures given { IfOk result (λ found. MatchOption found
            (listener_told self.new ≡ gave_none (listener_told self.old))
            (λ link. (listener_told self.new ≡ gave_one (listener_told self.old)) ×
            (link_told link ≡ fresh_from (listener_told self.old)))) }
        ensures refused { OnErr result (listener_told self.new ≡ refused_link
            (listener_told self.old)) }
        ensures owed { IfOk result (λ found. MatchOption found (Unit {0})
            (λ _. IsOwed (listener_told self.new))) }
        ensures waited { IfOk result (λ found. IfNone found (Rose self.old.waits self.new.waits)) }
        ensures waits { self.old.waits ≤ self.new.waits }
        ensures endpoint { listener_endpoint self.new ≡ listener_endpoint self.old }
        ensures cause { HasCause self.old.faults self.new.faults result }
        ensures follows { FollowsOffers self.old self.new result }
    {
        let place = self.next;
        if place >= self.offers.len() {
            return self.rest();
        }
        let offer = mem::replace(&mut self.offers[place], Offer::Quiet);
        self.next = place + 1;
        self.take(offer)
    }

    fn keep(&mut self, link: MemLink) {
        self.given.keep(link);
    }

    fn faults(&self) -> u64 {
        self.faults
    }

    fn waits(&self) -> u64 {
        self.waits
    }
}

// Who gives a worker its links.
ghost use Rattle.std.specs.Prelude.{◌≡◌, ◌≤◌, ℕ, Option, MatchOption, IfNone, IfOk, OnErr};
ghost use Rattle.flume_host.specs.Causes.{HasCause, Rose};
ghost use Rattle.flume_host.specs.Listens.{Endpoint, LinksTold, IsOwed, fresh_from, gave_none, gave_one, kept_in, refused_link};

use flume_host::{Failed, Link, Listener};

/// A listener, with its links as a parameter. The kit's borrow checker refuses, within an impl of a trait, a call whose bound has
/// an associated type that is `Send`, as the links of `Listener` are.
pub trait Listens<L: Link> {
    // The links that it gave and took back, where it shows them.
    ghost told: { Self → Option LinksTold };

    // The address and port for which a host handed it out, where it shows them.
    ghost endpoint: { Self → Option Endpoint };

    // How often it has failed.
    ghost faults: { Self → ℕ };

    // How often it has waited.
    ghost waits: { Self → ℕ };

    // The next link of a peer, or none where none came for a while.
    fn next_link(&mut self) -> Result<Option<L>, Failed>
        ensures given { IfOk result (λ found. MatchOption found (told self.new ≡ gave_none (told
            self.old))
            (λ link. (told self.new ≡ gave_one (told self.old))
            × (L.told link ≡ fresh_from (told self.old)))) }
        ensures refused { OnErr result (told self.new ≡ refused_link (told self.old)) }
        ensures owed { IfOk result (λ found. MatchOption found (Unit {0}) (λ _. IsOwed (told
            self.new))) }
        ensures waited { IfOk result (λ found. IfNone found (Rose (waits self.old) (waits
            self.new))) }
        ensures waits { waits self.old ≤ waits self.new }
        ensures endpoint { endpoint self.new ≡ endpoint self.old }
        ensures cause { HasCause (faults self.old) (faults self.new) result };

    // Takes a link back.
    fn take_back(&mut self, link: L)
        requires { IsOwed (told self.old) }
        ensures told { told self.new ≡ kept_in (told self.old) (L.told link) }
        ensures same { (faults self.new ≡ faults self.old) × (waits self.new ≡ waits self.old)
            × (endpoint self.new ≡ endpoint self.old) };
}

impl<N: Listener> Listens<N::Link> for N {
    ghost told = { N.told };

    ghost endpoint = { N.endpoint };

    ghost faults = { N.faults };

    ghost waits = { N.waits };

    fn next_link(&mut self) -> Result<Option<N::Link>, Failed> {
        self.accept()
    }

    fn take_back(&mut self, link: N::Link) {
        self.keep(link)
    }
}

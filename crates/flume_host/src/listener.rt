// Who accepts links, and who dials them.
ghost use Rattle.std.specs.Prelude.{◌≡◌, ◌≤◌, ℕ, Option, None, MatchOption, IfNone, IfOk, OnErr, OnOk};
ghost use Rattle.flume_host.specs.Causes.{HasCause, Rose};
ghost use Rattle.flume_host.specs.Listens.{Endpoint, LinksTold, IsOwed, fresh_from, gave_one, gave_none, kept_in, refused_link};

use crate::{Failed, Link};

/// Accepts links from peers, and takes each back when its session has ended.
pub trait Listener {
    /// What it gives.
    type Link: Link + Send + Drop;

    /// The links that it gave and took back, where it shows them.
    ghost told: { Self → Option LinksTold };

    /// The address and port for which a host handed it out, where it shows them.
    ghost endpoint: { Self → Option Endpoint };

    /// How often it has failed. The count stops at 2^64 - 1.
    ghost faults: { Self → ℕ };

    /// How often it has waited. The count stops at 2^64 - 1.
    ghost waits: { Self → ℕ };

    /// The next link of a peer, or none where none came for a while.
    fn accept(&mut self) -> Result<Option<Self::Link>, Failed>
        ensures given { IfOk result (λ found. MatchOption found
            (told self.new ≡ gave_none (told self.old))
            (λ link. (told self.new ≡ gave_one (told self.old))
            × (Self.Link.told link ≡ fresh_from (told self.old)))) }
        ensures refused { OnErr result (told self.new ≡ refused_link (told self.old)) }
        ensures owed { IfOk result (λ found. MatchOption found (Unit {0})
            (λ _. IsOwed (told self.new))) }
        ensures waited { IfOk result (λ found. IfNone found
            (Rose (waits self.old) (waits self.new))) }
        ensures waits { waits self.old ≤ waits self.new }
        ensures endpoint { endpoint self.new ≡ endpoint self.old }
        ensures cause { HasCause (faults self.old) (faults self.new) result };

    /// Takes a link back, one of those that it gave, and closes it: its session has ended. It can't fail, and takes no memory.
    fn keep(&mut self, link: Self::Link)
        requires { IsOwed (told self.old) }
        ensures told { told self.new ≡ kept_in (told self.old) (Self.Link.told link) }
        ensures same { (faults self.new ≡ faults self.old) × (waits self.new ≡ waits self.old)
            × (endpoint self.new ≡ endpoint self.old) };

    /// How often it has failed.
    fn faults(&self) -> u64
        ensures { result ≡ faults self.now };

    /// How often it has waited.
    fn waits(&self) -> u64
        ensures { result ≡ waits self.now };
}

/// Makes links to a peer, and takes each back when it is of no more use.
pub trait Dialer {
    /// What it gives.
    type Link: Link + Send + Drop;

    /// The links that it gave and took back, where it shows them.
    ghost told: { Self → Option LinksTold };

    /// The address and port for which a host handed it out, where it shows them.
    ghost endpoint: { Self → Option Endpoint };

    /// How often it has failed. The count stops at 2^64 - 1.
    ghost faults: { Self → ℕ };

    /// A new link to the peer.
    fn dial(&mut self) -> Result<Self::Link, Failed>
        ensures given { IfOk result (λ link. (told self.new ≡ gave_one (told self.old))
            × (Self.Link.told link ≡ fresh_from (told self.old))) }
        ensures owed { OnOk result (IsOwed (told self.new)) }
        ensures refused { OnErr result (told self.new ≡ refused_link (told self.old)) }
        ensures endpoint { endpoint self.new ≡ endpoint self.old }
        ensures cause { HasCause (faults self.old) (faults self.new) result };

    /// Takes a link back, one of those that it gave, and closes it: it is of no more use. It can't fail, and takes no memory.
    fn keep(&mut self, link: Self::Link)
        requires { IsOwed (told self.old) }
        ensures told { told self.new ≡ kept_in (told self.old) (Self.Link.told link) }
        ensures same { (faults self.new ≡ faults self.old)
            × (endpoint self.new ≡ endpoint self.old) };

    /// How often it has failed.
    fn faults(&self) -> u64
        ensures { result ≡ faults self.now };
}

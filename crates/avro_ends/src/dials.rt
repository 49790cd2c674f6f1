// Who makes a sink's links.
ghost use Rattle.std.specs.Prelude.{◌≡◌, ℕ, Option, IfOk, OnErr, OnOk};
ghost use Rattle.flume_host.specs.Causes.{HasCause};
ghost use Rattle.flume_host.specs.Listens.{Endpoint, LinksTold, IsOwed, fresh_from, gave_one, kept_in, refused_link};

use flume_host::{Dialer, Failed, Link};

/// A dialer, with its links as a parameter. The kit's borrow checker refuses, within an impl of a trait, a call whose bound has
/// an associated type that is `Send`, as the links of `Dialer` are.
pub trait Dials<L: Link> {
    // The links that it gave and took back, where it shows them.
    ghost told: { Self → Option LinksTold };

    // The address and port for which a host handed it out, where it shows them.
    ghost endpoint: { Self → Option Endpoint };

    // How often it has failed.
    ghost faults: { Self → ℕ };

    // A new link.
    fn make(&mut self) -> Result<L, Failed>
        ensures given { IfOk result
            (λ link. (told self.new ≡ gave_one (told self.old))
            × (L.told link ≡ fresh_from (told self.old))) }
        ensures owed { OnOk result (IsOwed (told self.new)) }
        ensures refused { OnErr result (told self.new ≡ refused_link (told self.old)) }
        ensures endpoint { endpoint self.new ≡ endpoint self.old }
        ensures cause { HasCause (faults self.old) (faults self.new) result };

    // Takes a link back.
    fn take_back(&mut self, link: L)
        requires { IsOwed (told self.old) }
        ensures told { told self.new ≡ kept_in (told self.old) (L.told link) }
        ensures same { (faults self.new ≡ faults self.old)
            × (endpoint self.new ≡ endpoint self.old) };
}

impl<D: Dialer> Dials<D::Link> for D {
    ghost told = { D.told };

    ghost endpoint = { D.endpoint };

    ghost faults = { D.faults };

    fn make(&mut self) -> Result<D::Link, Failed> {
        self.dial()
    }

    fn take_back(&mut self, link: D::Link) {
        self.keep(link)
    }
}

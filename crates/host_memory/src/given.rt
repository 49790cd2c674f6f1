// The links that a listener or a dialer in memory gave and took back.
ghost use Rattle.std.specs.Prelude.{◌≡◌, ◌≤◌, OnOk, vec_capacity, vec_len};

use crate::MemLink;
use crate::ends::put;
use flume_host::Failed;
use std::alloc::Global;

/// The links that were given and taken back. Room to take one back is made before it is given.
#[derive(Drop)]
pub struct Given {
    given: u64,
    pub back: Vec<MemLink>,
    // the last call that was to give one failed
    pub failed: bool,
    pub tells: bool,
    ghost room: { given ≤ vec_capacity back },
    ghost owed: { vec_len back ≤ given },
}

// Makes room for so many links.
fn make_room(back: &mut Vec<MemLink>, count: u64) -> Result<(), Failed>
    ensures same { back.new.items ≡ back.old.items }
    ensures more { vec_capacity back.old ≤ vec_capacity back.new }
    ensures room { OnOk result (count ≤ vec_capacity back.new) }
{
    let Ok(count) = usize::try_from(count) else {
        return Err(Failed);
    };
    if count <= back.len() {
        return Ok(());
    }
    match back.reserve(count - back.len()) {
        Ok(()) => Ok(()),
        Err(_) => Err(Failed),
    }
}

impl Given {
    ghost use Rattle.std.specs.Prelude.{Some, IfOk, OnErr};
    ghost use Rattle.flume_host.specs.Listens.{IsOwed, fresh_from, gave_one, kept_in, no_links};
    ghost use Rattle.host_memory.specs.Links.{link_told};
    ghost use Rattle.host_memory.specs.Listens.{IsFreshCopy, given_told};

    /// None yet.
    pub fn new(alloc: Global) -> Given
        ensures { given_told result ≡ Some no_links }
    {
        Given {
            given: 0,
            back: Vec::new(alloc),
            failed: false,
            tells: true,
        }
    }

    /// As new, and it shows its contents.
    pub fn fresh(mut self) -> Given
        ensures { given_told result ≡ Some no_links }
    {
        self.given = 0;
        self.back.clear();
        self.failed = false;
        self.tells = true;
        self
    }

    /// Gives a link, of which nothing was asked yet. Where there is no memory, or the count stands at its last value,
    /// nothing is told.
    pub fn give(&mut self, link: MemLink) -> Result<MemLink, Failed>
        ensures told { IfOk result (λ given. (link_told given ≡ fresh_from (given_told self.old)) ×
            IsFreshCopy link given) }
        ensures given { OnOk result (given_told self.new ≡ gave_one (given_told self.old)) }
        ensures owed { OnOk result (IsOwed (given_told self.new)) }
        ensures refused { OnErr result (given_told self.new ≡ given_told self.old) }
    {
        let Some(given) = self.given.checked_add(1) else {
            return Err(Failed);
        };
        make_room(&mut self.back, given)?;
        self.given = given;
        self.failed = false;
        Ok(link.fresh(self.tells))
    }

    /// Takes a link back.
    pub fn keep(&mut self, link: MemLink)
        requires { IsOwed (given_told self.old) }
        ensures { given_told self.new ≡ kept_in (given_told self.old) (link_told link) }
    {
        if !self.tells {
            return;
        }
        if !link.does_tell() {
            self.tells = false;
            return;
        }
        put(&mut self.back, link);
    }
}

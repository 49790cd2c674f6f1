// The listeners, or the dialers, of a host in memory: those that are out, and those that came back.
ghost use Rattle.std.specs.Prelude.{◌≡◌, ◌≤◌, ◌<◌, ◌+◌, ◌++◌, ◌∷◌, [], vec_len, vec_capacity};

use crate::address::{Address, Placed, first_at};
use std::alloc::{AllocError, Global};

/// The objects that were handed out. Room to take one back is made before it is handed out.
#[derive(Drop)]
pub struct Ends<T: Drop> {
    out: Vec<Address>,
    back: Vec<Placed<T>>,
    ghost room: { vec_len out + vec_len back ≤ vec_capacity back },
}

/// Adds an item for which room is there.
pub fn put<T: Drop>(items: &mut Vec<T>, item: T)
    requires { vec_len items.old < vec_capacity items.old }
    ensures items { items.new.items ≡ items.old.items ++ item ∷ [] }
    ensures room { vec_capacity items.old ≤ vec_capacity items.new }
{
    if items.push(item).is_err() {
        unreachable!();
    }
}

impl<T: Drop> Ends<T> {
    ghost use Rattle.std.specs.Prelude.{ℕ, Option, OnErr, OnOk, count_by};
    ghost use Rattle.flume_host.specs.Listens.{LinksTold};
    ghost use Rattle.flume_host.specs.HandedOut.{GoesOut, ComesBack};
    ghost use Rattle.host_memory.specs.Ends.{handed_out, is_at};

    /// None is out, and none came back.
    pub fn new(alloc: Global) -> Ends<T>
        ensures { (result.out.items ≡ []) × (result.back.items ≡ []) }
    {
        Ends {
            out: Vec::new(alloc),
            back: Vec::new(alloc),
        }
    }

    /// Those that came back, in that order.
    pub fn back(&self) -> &[Placed<T>]
        ensures { result.now ≡ self.now.back.items }
    {
        &self.back
    }

    /// One more of this address is out. Where there is no memory for it, all is as before.
    pub fn hand_out(&mut self, alloc: Global, host: &str, port: u16) -> Result<(), AllocError>
        ensures out { OnOk result ((told : T → Option LinksTold) (waits faults : T → ℕ)
            → GoesOut host.now port (handed_out told waits faults self.old)
            (handed_out told waits faults self.new)) }
        ensures same { OnErr result ((self.new.out.items ≡ self.old.out.items) ×
            (self.new.back.items ≡ self.old.back.items)) }
    {
        let host = String::from_str(alloc, host)?;
        self.back.reserve(self.out.len() + 1)?;
        self.out.push(Address { host, port })?;
        Ok(())
    }

    /// One of this address came back.
    pub fn take_back(&mut self, host: &str, port: u16, object: T)
        requires { 0 < count_by (is_at host.now port) self.old.out.items }
        ensures { (told : T → Option LinksTold) (waits faults : T → ℕ)
            → ComesBack (record {
              host = host.now;
              port = port;
              told = told object;
              waits = waits
                  object;
              faults = faults object;
            })
            (handed_out told waits faults self.old) (handed_out told waits faults self.new) }
    {
        let Some(index) = first_at(&self.out, host, port) else {
            unreachable!();
        };
        let at = self.out.remove(index);
        put(&mut self.back, Placed { at, object });
    }
}

// Objects by an address and a port.
ghost use Rattle.std.specs.Prelude.{◌≡◌, ◌<◌, IfOk, MatchOption, string_bytes, length, count_by, get_or, true};
ghost use Rattle.host_memory.specs.Ends.{is_at};

use std::alloc::{AllocError, Global};

/// An address and a port.
#[derive(Drop)]
pub struct Address {
    /// The address as text.
    pub host: String,
    /// The port.
    pub port: u16,
}

impl Address {
    /// This address and this port, where there is memory for them.
    pub fn new(alloc: Global, host: &str, port: u16) -> Result<Address, AllocError>
        ensures { IfOk result (λ at. (string_bytes at.host ≡ host.now) × (at.port ≡ port)) }
    {
        let host = String::from_str(alloc, host)?;
        Ok(Address { host, port })
    }

    // It is this address and this port.
    fn is(&self, host: &str, port: u16) -> bool
        ensures { result ≡ is_at host.now port self.now }
    {
        self.port == port && self.host.as_str() == host
    }
}

/// An object of an address.
#[derive(Drop)]
pub struct Placed<T: Drop> {
    /// Its address.
    pub at: Address,
    /// The object.
    pub object: T,
}

impl<T: Drop> Placed<T> {
    /// An object of this address and port.
    pub fn new(host: String, port: u16, object: T) -> Placed<T>
        ensures { result ≡ record { at = record { host = host; port = port }; object = object } }
    {
        let at = Address { host, port };
        Placed { at, object }
    }
}

/// Takes the first object of an address out, if there is one.
pub fn take_at<T: Drop>(objects: &mut Vec<Placed<T>>, at: &Address) -> Option<T> {
    for i in 0..objects.len() {
        if objects[i].at.is(at.host.as_str(), at.port) {
            return Some(objects.remove(i).object);
        }
    }
    None
}

/// Where the first of these addresses is that is this one.
pub fn first_at(out: &[Address], host: &str, port: u16) -> Option<usize>
    ensures { MatchOption result (count_by (is_at host.now port) out.now ≡ 0)
        (λ i. (i < length out.now) × ((d : Address) → is_at host.now port (get_or out.now i d) ≡
        true)) }
{
    for i in 0..out.len() {
        if out[i].is(host, port) {
            return Some(i);
        }
    }
    None
}

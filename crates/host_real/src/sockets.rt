// The ports at which a host listens.
ghost use Rattle.std.specs.Prelude.{◌≡◌, ◌<◌, IfOk, IfSome, length};

use crate::host::Teller;
use crate::listener::{RealListener, bind};
use flume_host::NameRefused;
use std::io;
use std::net::TcpListener;

// An address and a port, its socket, and how many listeners of it are out.
#[derive(Drop)]
struct OpenSocket {
    bind: String,
    port: u16,
    socket: TcpListener,
    out: u64,
}

/// The sockets of the ports of which a listener is out.
#[derive(Drop)]
pub struct Sockets {
    teller: Teller,
    sockets: Vec<OpenSocket>,
}

impl Sockets {
    /// None yet.
    pub fn new(rt: HostRuntime) -> Sockets {
        Sockets {
            teller: Teller::new(rt),
            sockets: Vec::new(rt.alloc()),
        }
    }

    // Where the socket of an address and a port is.
    fn place_of(&self, bind: &str, port: u16) -> Option<usize>
        ensures { IfSome result (λ i. i < length self.now.sockets.items) }
    {
        for i in 0..self.sockets.len() {
            if self.sockets[i].port == port && self.sockets[i].bind.as_str() == bind {
                return Some(i);
            }
        }
        None
    }

    // A failure, which is told.
    fn refused(&self, address: &str, port: u16, error: &io::Error) -> NameRefused
        ensures { result ≡ NameRefused.Failed }
    {
        self.teller.failed_at(address, port, error);
        NameRefused::Failed
    }

    // Begins to listen at an address and a port, where there is memory to note it.
    fn open(&mut self, address: &str, port: u16) -> Result<RealListener, NameRefused>
        ensures { IfOk result (λ listener. (listener.waits ≡ 0) × (listener.faults ≡ 0)) }
    {
        let Ok(own) = String::from_str(self.teller.rt.alloc(), address) else {
            return Err(NameRefused::NoMemory);
        };
        if self.sockets.reserve(1).is_err() {
            return Err(NameRefused::NoMemory);
        }
        let socket = match bind(&self.teller.rt, address, port) {
            Ok(socket) => socket,
            Err(e) => return Err(self.refused(address, port, &e)),
        };
        let listener = match RealListener::of(self.teller.rt, &socket) {
            Ok(listener) => listener,
            Err(e) => return Err(self.refused(address, port, &e)),
        };
        self.teller.listens(address, port);
        let opened = OpenSocket {
            bind: own,
            port,
            socket,
            out: 1,
        };
        match self.sockets.push(opened) {
            Ok(()) => Ok(listener),
            Err(_) => Err(NameRefused::NoMemory),
        }
    }

    /// A listener of an address and a port: a further one, where one of them is out.
    pub fn listen(&mut self, address: &str, port: u16) -> Result<RealListener, NameRefused>
        ensures { IfOk result (λ listener. (listener.waits ≡ 0) × (listener.faults ≡ 0)) }
    {
        let Some(index) = self.place_of(address, port) else {
            return self.open(address, port);
        };
        match RealListener::of(self.teller.rt, &self.sockets[index].socket) {
            Ok(listener) => {
                self.sockets[index].out = self.sockets[index].out.saturating_add(1);
                Ok(listener)
            }
            Err(e) => Err(self.refused(address, port, &e)),
        }
    }

    /// One of an address and a port came back. With the last one its socket is closed.
    pub fn give_back(&mut self, address: &str, port: u16) {
        let Some(index) = self.place_of(address, port) else {
            return;
        };
        let out = self.sockets[index].out;
        if out > 1 {
            self.sockets[index].out = out - 1;
        } else {
            let _ = self.sockets.swap_remove(index);
        }
    }
}

// A listener over a socket. It shows nothing of its contents.
ghost use Rattle.std.specs.Prelude.{◌≡◌, ◌≤◌, Ok, None, IfOk};
ghost use Rattle.flume_host.specs.Causes.{HasCause};

use crate::host::Teller;
use crate::link::{RealLink, WAIT_MILLIS};
use flume_host::{Failed, Listener};
use std::io;
use std::io::ErrorKind;
use std::net::{SocketAddr, TcpListener, TcpStream};
use std::os::fd::OwnedFd;
use std::time::Duration;

/// A listener. Several of one address share its port, and each link is given by one of them.
#[derive(Drop)]
pub struct RealListener {
    teller: Teller,
    socket: TcpListener,
    pub waits: u64,
    pub faults: u64,
}

/// Listens at an address and a port. Linux takes the time that a socket's reads wait for its accepts too, and each handle of
/// the socket has it.
pub fn bind(rt: &HostRuntime, address: &str, port: u16) -> io::Result<TcpListener> {
    let socket = TcpListener::bind(rt, (address, port))?;
    let stream = TcpStream::from(OwnedFd::from(socket));
    stream.set_read_timeout(Some(Duration::from_millis(WAIT_MILLIS)))?;
    Ok(TcpListener::from(OwnedFd::from(stream)))
}

// Accepts a connection.
fn accept_some(socket: &TcpListener) -> io::Result<(TcpStream, SocketAddr)> {
    for _ in 0..u64::MAX {
        match socket.accept() {
            Err(e) if e.kind() == ErrorKind::Interrupted => {}
            answer => return answer,
        }
    }
    Err(io::Error::from(ErrorKind::Interrupted))
}

impl RealListener {
    ghost use Rattle.flume_host.specs.Causes.{Rose};

    /// A further listener of a socket.
    pub fn of(rt: HostRuntime, socket: &TcpListener) -> io::Result<RealListener>
        ensures { IfOk result (λ listener. (listener.waits ≡ 0) × (listener.faults ≡ 0)) }
    {
        let socket = socket.try_clone()?;
        Ok(RealListener {
            teller: Teller::new(rt),
            socket,
            waits: 0,
            faults: 0,
        })
    }

    /// The port at which it listens, which tells the one that the system chose for port 0.
    pub fn port(&self) -> io::Result<u16> {
        Ok(self.socket.local_addr()?.port())
    }

    // Nothing came, or a peer that had gone again: a peer's doing is no fault of the listener.
    fn wait_over(&mut self) -> Result<Option<RealLink>, Failed>
        ensures none { result ≡ Ok None }
        ensures waits { Rose self.old.waits self.new.waits × (self.old.waits ≤ self.new.waits) }
        ensures faults { self.new.faults ≡ self.old.faults }
    {
        self.waits = self.waits.saturating_add(1);
        Ok(None)
    }
}

impl Listener for RealListener {
    type Link = RealLink;

    ghost told = { λ _. None };

    ghost endpoint = { λ _. None };

    ghost faults = { λ l. l.faults };

    ghost waits = { λ l. l.waits };

    fn accept(&mut self) -> Result<Option<RealLink>, Failed> {
        match accept_some(&self.socket) {
            Ok((stream, _)) => match RealLink::new(self.teller.rt, stream) {
                Ok(link) => {
                    self.teller.works_with(self.socket.local_addr());
                    Ok(Some(link))
                }
                Err(_) => self.wait_over(),
            },
            Err(e)
                if e.kind() == ErrorKind::WouldBlock || e.kind() == ErrorKind::ConnectionAborted =>
                { self.wait_over() }
            Err(e) => {
                self.teller.fails_with(self.socket.local_addr(), &e);
                self.faults = self.faults.saturating_add(1);
                Err(Failed)
            }
        }
    }

    fn keep(&mut self, link: RealLink) {
        link.close();
    }

    fn faults(&self) -> u64 {
        self.faults
    }

    fn waits(&self) -> u64 {
        self.waits
    }
}

// A dialer over sockets. It shows nothing of its contents.
ghost use Rattle.std.specs.Prelude.{◌≡◌, ◌≤◌, None};
ghost use Rattle.flume_host.specs.Causes.{HasCause};

use crate::host::Teller;
use crate::link::RealLink;
use flume_host::{Dialer, Failed};
use std::io;
use std::io::ErrorKind;
use std::net::{TcpStream, ToSocketAddrs};
use std::time::Duration;

// How long each address of a host is tried, in seconds: the connect-timeout of an Avro sink in Flume.
const DIAL_SECONDS: u64 = 20;

/// A dialer. Each dial looks the host's addresses up, and tries them in turn.
#[derive(Drop)]
pub struct RealDialer {
    teller: Teller,
    host: String,
    port: u16,
    pub faults: u64,
}

impl RealDialer {
    /// A dialer of a host's port, which touches nothing outside.
    pub fn new(rt: HostRuntime, host: String, port: u16) -> RealDialer
        ensures { result.faults ≡ 0 }
    {
        RealDialer {
            teller: Teller::new(rt),
            host,
            port,
            faults: 0,
        }
    }
}

// A link to the first address of a host that answers.
fn connect(rt: HostRuntime, host: &str, port: u16) -> io::Result<RealLink> {
    let mut last = io::Error::from(ErrorKind::NotFound);
    for address in (host, port).to_socket_addrs(&rt)? {
        match TcpStream::connect_timeout(&rt, &address, Duration::from_secs(DIAL_SECONDS)) {
            Ok(stream) => return RealLink::new(rt, stream),
            Err(e) => last = e,
        }
    }
    Err(last)
}

impl Dialer for RealDialer {
    type Link = RealLink;

    ghost told = { λ _. None };

    ghost endpoint = { λ _. None };

    ghost faults = { λ d. d.faults };

    fn dial(&mut self) -> Result<RealLink, Failed> {
        match connect(self.teller.rt, self.host.as_str(), self.port) {
            Ok(link) => {
                self.teller.works_at(self.host.as_str(), self.port);
                Ok(link)
            }
            Err(e) => {
                self.teller.fails_at(self.host.as_str(), self.port, &e);
                self.faults = self.faults.saturating_add(1);
                Err(Failed)
            }
        }
    }

    fn keep(&mut self, link: RealLink) {
        link.close();
    }

    fn faults(&self) -> u64 {
        self.faults
    }
}

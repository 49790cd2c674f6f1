// A link over a socket. It shows nothing of its contents.
ghost use Rattle.std.specs.Prelude.{◌≡◌, ◌≤◌, ◌<◌, None, length};
ghost use Rattle.std.specs.Io.{ReadsAtMost, WritesAtMost};
ghost use Rattle.flume_host.specs.Causes.{HasCause};

use crate::host::Teller;
use flume_host::{Failed, Link, LinkRead};
use std::io;
use std::io::{ErrorKind, Read, Write};
use std::net::{Shutdown, TcpStream};
use std::time::{Duration, Instant};

/// How long an accept and a read wait, in milliseconds.
pub const WAIT_MILLIS: u64 = 200;

// How long a write waits, in seconds. Once one lasted that long, every later write of the link fails at once.
const WRITE_SECONDS: u64 = 10;

// How much of what a peer still sends is read before its link is closed: so many pieces, of 64 KiB together, and no
// more once so many milliseconds have passed.
const CLOSE_READS: usize = 16;

const CLOSE_PIECE: usize = 4_096;

const CLOSE_MILLIS: u64 = 200;

/// A connection: a read waits 200 ms at most, and a write 10 s.
#[derive(Drop)]
pub struct RealLink {
    teller: Teller,
    stream: TcpStream,
    // a write lasted too long
    slow: bool,
    waits: u64,
    faults: u64,
}

// Reads some bytes of a socket.
fn read_some(mut stream: &TcpStream, into: &mut [u8]) -> io::Result<usize>
    ensures { ReadsAtMost result into.new }
{
    for _ in 0..u64::MAX {
        match stream.read(into) {
            Err(e) if e.kind() == ErrorKind::Interrupted => {}
            answer => return answer,
        }
    }
    Err(io::Error::from(ErrorKind::Interrupted))
}

// Writes some bytes to a socket.
fn write_some(mut stream: &TcpStream, bytes: &[u8]) -> io::Result<usize>
    ensures { WritesAtMost result bytes.now }
{
    for _ in 0..u64::MAX {
        match stream.write(bytes) {
            Err(e) if e.kind() == ErrorKind::Interrupted => {}
            answer => return answer,
        }
    }
    Err(io::Error::from(ErrorKind::Interrupted))
}

// Whether so much time has passed, as far as the system's clock can be read.
fn has_passed(rt: &HostRuntime, began: &io::Result<Instant>, time: Duration) -> bool {
    match began {
        Ok(began) => match began.elapsed(rt) {
            Ok(passed) => passed >= time,
            Err(_) => false,
        },
        Err(_) => false,
    }
}

impl RealLink {
    /// A link over this stream.
    pub fn new(rt: HostRuntime, stream: TcpStream) -> io::Result<RealLink> {
        stream.set_read_timeout(Some(Duration::from_millis(WAIT_MILLIS)))?;
        stream.set_write_timeout(Some(Duration::from_secs(WRITE_SECONDS)))?;
        stream.set_nodelay(true)?;
        Ok(RealLink {
            teller: Teller::new(rt),
            stream,
            slow: false,
            waits: 0,
            faults: 0,
        })
    }

    /// Ends the connection. What was written is sent, and some of what the peer still sends is read and dropped, so that
    /// the system sends no reset that overtakes it.
    pub fn close(self) {
        let RealLink { teller, stream, .. } = self;
        if stream.shutdown(Shutdown::Write).is_err() {
            return;
        }
        let began = Instant::now(&teller.rt);
        let mut piece = [0u8; CLOSE_PIECE];
        for _ in 0..CLOSE_READS {
            match read_some(&stream, &mut piece) {
                Ok(n) if n > 0 => {}
                _ => return,
            }
            if has_passed(&teller.rt, &began, Duration::from_millis(CLOSE_MILLIS)) {
                return;
            }
        }
    }
}

impl Link for RealLink {
    ghost told = { λ _. None };

    ghost faults = { λ l. l.faults };

    ghost waits = { λ l. l.waits };

    fn read(&mut self, into: &mut [u8]) -> Result<LinkRead, Failed> {
        match read_some(&self.stream, into) {
            Ok(0) => Ok(LinkRead::End),
            Ok(n) => Ok(LinkRead::Got(n)),
            Err(e) if e.kind() == ErrorKind::WouldBlock => {
                self.waits = self.waits.saturating_add(1);
                Ok(LinkRead::Quiet)
            }
            Err(e) => {
                self.teller.failed_with(self.stream.peer_addr(), &e);
                self.faults = self.faults.saturating_add(1);
                Err(Failed)
            }
        }
    }

    fn write(&mut self, bytes: &[u8]) -> Result<usize, Failed> {
        if self.slow {
            self.faults = self.faults.saturating_add(1);
            return Err(Failed);
        }
        let began = Instant::now(&self.teller.rt);
        let written = write_some(&self.stream, bytes);
        self.slow = has_passed(&self.teller.rt, &began, Duration::from_secs(WRITE_SECONDS));
        match written {
            Ok(n) if n > 0 || bytes.is_empty() => Ok(n),
            Ok(_) => {
                self.faults = self.faults.saturating_add(1);
                Err(Failed)
            }
            Err(e) => {
                self.teller.failed_with(self.stream.peer_addr(), &e);
                self.faults = self.faults.saturating_add(1);
                Err(Failed)
            }
        }
    }

    fn faults(&self) -> u64 {
        self.faults
    }

    fn waits(&self) -> u64 {
        self.waits
    }
}

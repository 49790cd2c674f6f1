// The host: it hands the streams, folders, clock and random numbers of the system out, and takes them back. Its standard
// streams, and what it says of itself where it is asked to.
ghost use Rattle.std.specs.Prelude.{◌≡◌, None, true};
ghost use Rattle.flume_host.specs.Causes.{Counts, HasCause};
ghost use Rattle.std.specs.Io.{ReadsAtMost, WritesAtMost};

use crate::dialer::RealDialer;
use crate::disk::RealDisk;
use crate::listener::RealListener;
use crate::roll::RealRoll;
use crate::sockets::Sockets;
use crate::times::{RealClock, RealRandom};
use flume_host::{FILE_LIMIT, Failed, FileRefused, Host, NameRefused, NoMemory, Sink, Source};
use std::fmt::Display;
use std::fs::File;
use std::io::{ErrorKind, Read};
use std::net::ToSocketAddrs;
use std::{env, io};

/// The host that a program runs in. It shows nothing of its contents.
#[derive(Drop)]
pub struct RealHost {
    teller: Teller,
    sockets: Sockets,
    faults: u64,
    disk_faults: u64,
}

impl RealHost {
    /// The host of a process, of which no failure was counted yet.
    pub fn new(rt: HostRuntime) -> Self
        ensures { (result.faults ≡ 0) × (result.disk_faults ≡ 0) }
    {
        RealHost {
            teller: Teller::new(rt),
            sockets: Sockets::new(rt),
            faults: 0,
            disk_faults: 0,
        }
    }
}

// Fills `into` from the front of a file, and tells how many bytes the file has.
fn read_front(rt: &HostRuntime, path: &str, into: &mut [u8]) -> io::Result<u64> {
    let mut file = File::open(rt, path)?;
    let mut filled = 0;
    for _ in 0..u64::MAX {
        if filled >= into.len() {
            break;
        }
        match file.read(&mut into[filled..]) {
            Ok(0) => break,
            Ok(n) => filled += n,
            Err(e) if e.kind() == ErrorKind::Interrupted => {}
            Err(e) => return Err(e),
        }
    }
    if filled < into.len() {
        return Ok(filled as u64);
    }
    Ok(file.metadata()?.len().max(filled as u64))
}

// The file in which Linux tells the host's name, with a newline after it.
const NAME_FILE: &str = "/proc/sys/kernel/hostname";

// The most bytes of that file.
const NAME_LIMIT: usize = 1_024;

// The host's name.
fn name_of(teller: &Teller) -> Result<String, NameRefused> {
    let mut bytes = [0u8; NAME_LIMIT];
    if let Err(e) = read_front(&teller.rt, NAME_FILE, &mut bytes) {
        teller.failed(NAME_FILE, &e);
        return Err(NameRefused::Failed);
    }
    let front = match bytes.iter().position(|b| *b == b'\n') {
        Some(end) => &bytes[..end],
        None => return Err(NameRefused::Failed),
    };
    let Ok(name) = str::from_utf8(front) else {
        return Err(NameRefused::Failed);
    };
    match String::from_str(teller.rt.alloc(), name) {
        Ok(name) => Ok(name),
        Err(_) => Err(NameRefused::NoMemory),
    }
}

// The first address that looking a name up gives, as text.
fn address_of(teller: &Teller, name: &str) -> Result<String, NameRefused> {
    let mut addresses = match (name, 0).to_socket_addrs(&teller.rt) {
        Ok(addresses) => addresses,
        Err(e) => {
            teller.failed(name, &e);
            return Err(NameRefused::Failed);
        }
    };
    let Some(address) = addresses.next() else {
        return Err(NameRefused::Failed);
    };
    match format!(in teller.rt.alloc(); "{}", address.ip()) {
        Ok(text) => Ok(text),
        Err(_) => Err(NameRefused::NoMemory),
    }
}

// The count after an object with this count was given back.
fn count_after(before: u64, own: u64) -> u64
    ensures { Counts before result own }
{
    if own == 0 {
        before
    } else {
        before.saturating_add(1)
    }
}

impl Host for RealHost {
    type Source = RealSource;

    type Sink = RealSink;

    type Disk = RealDisk;

    type Roll = RealRoll;

    type Listener = RealListener;

    type Dialer = RealDialer;

    type Clock = RealClock;

    type Random = RealRandom;

    ghost state = { λ h. record {
      input = None;
      output = None;
      handed = None;
      files = λ _. None;
      moments = None;
      draws = None;
      listeners = None;
      dialers = None;
      name = None;
      address = None;
      faults = h.faults;
      disk_faults = h.disk_faults;
    } };

    ghost folders = { λ _. record {
      disks = λ _. None;
      rolls = λ _. None;
      disk_opened = λ _. true;
      roll_opened = λ _. true;
    } };

    fn take_input(&mut self) -> RealSource {
        RealSource::new(self.teller.rt)
    }

    fn keep_input(&mut self, input: RealSource) {
        self.faults = count_after(self.faults, input.faults);
    }

    fn take_output(&mut self) -> RealSink {
        RealSink::new(self.teller.rt)
    }

    fn keep_output(&mut self, output: RealSink) {
        self.faults = count_after(self.faults, output.faults);
    }

    fn say(&mut self, line: &str) {
        let _ = self.teller.rt.eprintln(line);
    }

    fn open_disk(&mut self, path: &str) -> Result<RealDisk, NameRefused> {
        let Ok(own) = String::from_str(self.teller.rt.alloc(), path) else {
            return Err(NameRefused::NoMemory);
        };
        match RealDisk::open(self.teller.rt, own) {
            Ok(disk) => {
                self.teller.opened(path);
                Ok(disk)
            }
            Err(e) => {
                self.teller.failed(path, &e);
                self.faults = self.faults.saturating_add(1);
                Err(NameRefused::Failed)
            }
        }
    }

    fn keep_disk(&mut self, _path: &str, disk: RealDisk) {
        self.disk_faults = count_after(self.disk_faults, disk.faults);
    }

    fn read_file(&mut self, path: &str) -> Result<Vec<u8>, FileRefused> {
        let Ok(mut bytes) = vec![in self.teller.rt.alloc(); 0u8; FILE_LIMIT as usize + 1] else {
            return Err(FileRefused::NoMemory);
        };
        let size = match read_front(&self.teller.rt, path, &mut bytes) {
            Ok(size) => size,
            Err(e) => {
                self.teller.failed(path, &e);
                self.faults = self.faults.saturating_add(1);
                return Err(FileRefused::Failed);
            }
        };
        if size > FILE_LIMIT {
            return Err(FileRefused::TooLarge { size });
        }
        bytes.truncate(size as usize);
        Ok(bytes)
    }

    fn open_roll(&mut self, path: &str) -> Result<RealRoll, NameRefused> {
        let Ok(own) = String::from_str(self.teller.rt.alloc(), path) else {
            return Err(NameRefused::NoMemory);
        };
        match RealRoll::open(self.teller.rt, own) {
            Ok(roll) => {
                self.teller.opened(path);
                Ok(roll)
            }
            Err(e) => {
                self.teller.failed(path, &e);
                self.faults = self.faults.saturating_add(1);
                Err(NameRefused::Failed)
            }
        }
    }

    fn keep_roll(&mut self, _path: &str, _roll: RealRoll) {}

    fn listen(&mut self, bind: &str, port: u16) -> Result<RealListener, NameRefused> {
        match self.sockets.listen(bind, port) {
            Ok(listener) => Ok(listener),
            Err(NameRefused::NoMemory) => Err(NameRefused::NoMemory),
            Err(NameRefused::Failed) => {
                self.faults = self.faults.saturating_add(1);
                Err(NameRefused::Failed)
            }
        }
    }

    fn keep_listener(&mut self, bind: &str, port: u16, _listener: RealListener) {
        self.sockets.give_back(bind, port);
    }

    fn dialer(&mut self, host: &str, port: u16) -> Result<RealDialer, NoMemory> {
        match String::from_str(self.teller.rt.alloc(), host) {
            Ok(host) => Ok(RealDialer::new(self.teller.rt, host, port)),
            Err(_) => Err(NoMemory),
        }
    }

    fn keep_dialer(&mut self, _host: &str, _port: u16, _dialer: RealDialer) {}

    fn host_name(&mut self, use_ip: bool) -> Result<String, NameRefused> {
        let named = match name_of(&self.teller) {
            Ok(name) if use_ip => address_of(&self.teller, &name),
            named => named,
        };
        match named {
            Ok(text) => Ok(text),
            Err(NameRefused::NoMemory) => Err(NameRefused::NoMemory),
            Err(NameRefused::Failed) => {
                self.faults = self.faults.saturating_add(1);
                Err(NameRefused::Failed)
            }
        }
    }

    fn clock(&mut self) -> RealClock {
        RealClock { rt: self.teller.rt }
    }

    fn random(&mut self) -> RealRandom {
        RealRandom { rt: self.teller.rt }
    }

    fn faults(&self) -> u64 {
        self.faults
    }

    fn disk_faults(&self) -> u64 {
        self.disk_faults
    }
}

// Where this environment variable is set, a host tells what it opened and which calls failed.
const VERBOSE: &str = "FLUME_VERBOSE";

/// Tells on standard error what a host opened, and with which error of the system a call failed, where that is asked for. Of a thing
/// that is used over and over, as a disk, a folder, a peer or a port, it tells the first of failures in a row, and once it works again.
#[derive(Clone, Copy, Drop)]
pub struct Teller {
    pub rt: HostRuntime,
    is_on: bool,
    // the last call of the thing failed, and that was told
    is_failing: bool,
}

impl Teller {
    /// One that tells where the environment asks for it.
    pub fn new(rt: HostRuntime) -> Teller {
        Teller {
            rt,
            is_on: env::var(&rt, VERBOSE).is_ok(),
            is_failing: false,
        }
    }

    /// Tells that a folder was opened.
    pub fn opened(&self, folder: &str) {
        if self.is_on
            && let Ok(line) = format!(in self.rt.alloc(); "flume: {folder}: opened")
        {
            let _ = self.rt.eprintln(line.as_str());
        }
    }

    /// Tells that a port is listened at.
    pub fn listens(&self, address: &str, port: u16) {
        if self.is_on
            && let Ok(line) = format!(in self.rt.alloc(); "flume: {address}:{port}: opened")
        {
            let _ = self.rt.eprintln(line.as_str());
        }
    }

    /// Tells that a call on this file, folder or stream failed.
    pub fn failed(&self, name: &str, error: &io::Error) {
        if self.is_on
            && let Ok(line) = format!(in self.rt.alloc(); "flume: {name}: {error}")
        {
            let _ = self.rt.eprintln(line.as_str());
        }
    }

    /// Tells that a call on this port failed.
    pub fn failed_at(&self, address: &str, port: u16, error: &io::Error) {
        if self.is_on
            && let Ok(line) = format!(in self.rt.alloc(); "flume: {address}:{port}: {error}")
        {
            let _ = self.rt.eprintln(line.as_str());
        }
    }

    /// Tells of a failure of the thing of this name, where it is the first since it worked.
    pub fn fails(&mut self, name: &str, error: &io::Error) {
        if !self.is_failing {
            self.failed(name, error);
        }
        self.is_failing = true;
    }

    /// Tells of a failure at this port, where it is the first since it worked.
    pub fn fails_at(&mut self, address: &str, port: u16, error: &io::Error) {
        if !self.is_failing {
            self.failed_at(address, port, error);
        }
        self.is_failing = true;
    }

    /// Tells of a failure of the socket of this address, where it is the first since it worked.
    pub fn fails_with<A: Display + Drop>(&mut self, address: io::Result<A>, error: &io::Error) {
        if !self.is_failing {
            self.failed_with(address, error);
        }
        self.is_failing = true;
    }

    /// Tells that the thing of this name works again, where it failed before.
    pub fn works(&mut self, name: &str) {
        if self.is_on
            && self.is_failing
            && let Ok(line) = format!(in self.rt.alloc(); "flume: {name}: works again")
        {
            let _ = self.rt.eprintln(line.as_str());
        }
        self.is_failing = false;
    }

    /// Tells that this port works again, where it failed before.
    pub fn works_at(&mut self, address: &str, port: u16) {
        if self.is_on
            && self.is_failing
            && let Ok(line) = format!(in self.rt.alloc(); "flume: {address}:{port}: works again")
        {
            let _ = self.rt.eprintln(line.as_str());
        }
        self.is_failing = false;
    }

    /// Tells that the socket of this address works again, where it failed before and the system knows the address.
    pub fn works_with<A: Display + Drop>(&mut self, address: io::Result<A>) {
        if self.is_on
            && self.is_failing
            && let Ok(address) = address
            && let Ok(line) = format!(in self.rt.alloc(); "flume: {address}: works again")
        {
            let _ = self.rt.eprintln(line.as_str());
        }
        self.is_failing = false;
    }

    /// Tells that a call on the socket of this address failed, where the system knows the address.
    pub fn failed_with<A: Display + Drop>(&self, address: io::Result<A>, error: &io::Error) {
        if self.is_on
            && let Ok(address) = address
            && let Ok(line) = format!(in self.rt.alloc(); "flume: {address}: {error}")
        {
            let _ = self.rt.eprintln(line.as_str());
        }
    }
}

/// Standard input, with no buffer.
#[derive(Drop)]
pub struct RealSource {
    teller: Teller,
    pub faults: u64,
}

impl RealSource {
    /// Standard input.
    pub fn new(rt: HostRuntime) -> Self
        ensures { result.faults ≡ 0 }
    {
        RealSource {
            teller: Teller::new(rt),
            faults: 0,
        }
    }
}

// Reads some bytes of standard input.
fn read_some(rt: &HostRuntime, into: &mut [u8]) -> io::Result<usize>
    ensures { ReadsAtMost result into.new }
{
    for _ in 0..u64::MAX {
        match rt.stdin().read(into) {
            Err(e) if e.kind() == ErrorKind::Interrupted => {}
            answer => return answer,
        }
    }
    Err(io::Error::from(ErrorKind::Interrupted))
}

impl Source for RealSource {
    ghost left = { λ _. None };

    ghost faults = { λ s. s.faults };

    fn read(&mut self, into: &mut [u8]) -> Result<usize, Failed> {
        match read_some(&self.teller.rt, into) {
            Ok(n) => Ok(n),
            Err(e) => {
                self.teller.failed("standard input", &e);
                self.faults = self.faults.saturating_add(1);
                Err(Failed)
            }
        }
    }

    fn faults(&self) -> u64 {
        self.faults
    }
}

/// Standard output, with no buffer.
#[derive(Drop)]
pub struct RealSink {
    teller: Teller,
    pub faults: u64,
}

impl RealSink {
    /// Standard output.
    pub fn new(rt: HostRuntime) -> Self
        ensures { result.faults ≡ 0 }
    {
        RealSink {
            teller: Teller::new(rt),
            faults: 0,
        }
    }
}

// Writes some bytes to standard output.
fn write_some(rt: &HostRuntime, bytes: &[u8]) -> io::Result<usize>
    ensures { WritesAtMost result bytes.now }
{
    for _ in 0..u64::MAX {
        match rt.stdout().write_some(bytes) {
            Err(e) if e.kind() == ErrorKind::Interrupted => {}
            answer => return answer,
        }
    }
    Err(io::Error::from(ErrorKind::Interrupted))
}

impl Sink for RealSink {
    ghost took = { λ _. None };

    ghost handed = { λ _. None };

    ghost faults = { λ s. s.faults };

    fn write(&mut self, bytes: &[u8]) -> Result<usize, Failed> {
        match write_some(&self.teller.rt, bytes) {
            Ok(n) if n > 0 || bytes.is_empty() => Ok(n),
            Ok(_) => {
                self.faults = self.faults.saturating_add(1);
                Err(Failed)
            }
            Err(e) => {
                self.teller.failed("standard output", &e);
                self.faults = self.faults.saturating_add(1);
                Err(Failed)
            }
        }
    }

    // Nothing was held back.
    fn flush(&mut self) -> Result<(), Failed> {
        Ok(())
    }

    fn faults(&self) -> u64 {
        self.faults
    }
}

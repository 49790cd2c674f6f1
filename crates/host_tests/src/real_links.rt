// What the real host does with links over the loopback.
use flume_host::{Dialer, Failed, Host, Link, LinkRead, Listener, NameRefused};
use host_real::{RealDialer, RealHost, RealLink, RealListener};
use std::fs;
use std::io::{self, Read, Write};
use std::net::{IpAddr, Shutdown, TcpStream};
use std::test::Fail;
use std::time::{Duration, Instant};

// A listener of a port of the loopback that the system chooses, and the port.
fn listening(host: &mut RealHost) -> Result<(RealListener, u16), Fail> {
    let Ok(listener) = host.listen("127.0.0.1", 0) else {
        return Err(Fail::from("no listener"));
    };
    let port = listener.port()?;
    Ok((listener, port))
}

// The next link, which a peer has made already.
fn accepted(listener: &mut RealListener) -> Result<RealLink, Fail> {
    match listener.accept() {
        Ok(Some(link)) => Ok(link),
        _ => Err(Fail::from("no link")),
    }
}

// Whether a listener for which nobody waits says so within two seconds.
fn is_soon_quiet(rt: HostRuntime, listener: &mut RealListener) -> Result<bool, Fail> {
    let began = Instant::now(&rt)?;
    let is_quiet = matches!(listener.accept(), Ok(None));
    Ok(is_quiet && began.elapsed(&rt)? < Duration::from_secs(2))
}

// A peer that has connected to the port.
fn peer_of(rt: HostRuntime, address: &str, port: u16) -> Result<TcpStream, Fail> {
    Ok(TcpStream::connect(&rt, (address, port))?)
}

// Whether the listeners give a link each to two peers, and the first of them gives no other.
fn give_one_each(
    rt: HostRuntime,
    one: &mut RealListener,
    two: &mut RealListener,
    port: u16,
) -> Result<bool, Fail> {
    let first = peer_of(rt, "localhost", port)?;
    let second = peer_of(rt, "127.0.0.1", port)?;
    let (a, b) = (accepted(one)?, accepted(two)?);
    let is_quiet = matches!(one.accept(), Ok(None));
    drop(first);
    drop(second);
    one.keep(a);
    two.keep(b);
    Ok(is_quiet)
}

// Of two listeners of a port that the system chose for one of them.
#[derive(Clone, Copy)]
struct TwoFound {
    same_port: bool,
    soon_quiet: bool,
    one_each: bool,
    // of the one and of the other
    waits: [u64; 2],
    faults: [u64; 2],
}

fn listened(rt: HostRuntime, host: &mut RealHost) -> Result<TwoFound, Fail> {
    let (mut one, port) = listening(host)?;
    let (mut two, same) = listening(host)?;
    let soon_quiet = is_soon_quiet(rt, &mut two)?;
    let one_each = give_one_each(rt, &mut one, &mut two, port)?;
    let found = TwoFound {
        same_port: port == same,
        soon_quiet,
        one_each,
        waits: [one.waits(), two.waits()],
        faults: [one.faults(), two.faults()],
    };
    host.keep_listener("127.0.0.1", 0, one);
    host.keep_listener("127.0.0.1", 0, two);
    Ok(found)
}

#[test]
fn two_listeners_of_one_port_give_each_link_once(rt: HostRuntime) -> Result<(), Fail> {
    let mut host = RealHost::new(rt);
    let found = listened(rt, &mut host)?;
    assert!(rt; found.same_port && found.soon_quiet && found.one_each);
    assert!(rt; (found.waits, found.faults) == ([1, 1], [0, 0]));
    assert!(rt; host.faults() == 0);
    Ok(())
}

// What a link answers whose peer says no more, and whose peer still reads.
fn half_closed(link: &mut RealLink) -> [Result<LinkRead, Failed>; 3] {
    let mut into = [0u8; 8];
    [
        link.read(&mut into),
        link.read(&mut into),
        link.read(&mut into),
    ]
}

// Whether a link is quiet first, gives what its peer says, ends, and still takes an answer.
fn is_heard_to_its_end(peer: &mut TcpStream, link: &mut RealLink) -> Result<bool, Fail> {
    let was_quiet = link.read(&mut [0u8; 8]) == Ok(LinkRead::Quiet);
    let was_said = matches!(peer.write(b"ab"), Ok(2));
    peer.shutdown(Shutdown::Write)?;
    let want = [Ok(LinkRead::Got(2)), Ok(LinkRead::End), Ok(LinkRead::End)];
    Ok(was_quiet && was_said && half_closed(link) == want && link.write(b"ok") == Ok(2))
}

#[test]
fn a_link_is_quiet_and_ends(rt: HostRuntime) -> Result<(), Fail> {
    let (mut listener, port) = listening(&mut RealHost::new(rt))?;
    let mut peer = peer_of(rt, "127.0.0.1", port)?;
    let mut link = accepted(&mut listener)?;
    assert!(rt; is_heard_to_its_end(&mut peer, &mut link)?);
    listener.keep(link);
    assert!(rt; matches!(peer.read(&mut [0u8; 8]), Ok(2)));
    Ok(())
}

// What a read of a link answers whose peer went without reading, and then its counts of faults and of waits.
fn read_after_reset(rt: HostRuntime) -> Result<(Result<LinkRead, Failed>, u64, u64), Fail> {
    let (mut listener, port) = listening(&mut RealHost::new(rt))?;
    let peer = peer_of(rt, "127.0.0.1", port)?;
    let mut link = accepted(&mut listener)?;
    if link.write(b"unread") != Ok(6) {
        return Err(Fail::from("not written"));
    }
    drop(peer);
    let found = (link.read(&mut [0u8; 8]), link.faults(), link.waits());
    listener.keep(link);
    Ok(found)
}

#[test]
fn a_link_is_reset(rt: HostRuntime) -> Result<(), Fail> {
    assert!(rt; read_after_reset(rt)? == (Err(Failed), 1, 0));
    Ok(())
}

// Whether a dialer gives a link that takes three bytes, and that is given back.
fn is_dialled(dialer: &mut RealDialer) -> bool {
    match dialer.dial() {
        Ok(mut link) => {
            let wrote = link.write(b"abc");
            dialer.keep(link);
            wrote == Ok(3)
        }
        Err(_) => false,
    }
}

// What two reads of the next link answer.
fn heard(listener: &mut RealListener) -> Result<[Result<LinkRead, Failed>; 2], Fail> {
    let mut into = [0u8; 8];
    let mut link = accepted(listener)?;
    let reads = [link.read(&mut into), link.read(&mut into)];
    listener.keep(link);
    Ok(reads)
}

#[test]
fn a_dialer_finds_who_listens(rt: HostRuntime) -> Result<(), Fail> {
    let mut host = RealHost::new(rt);
    let (mut listener, port) = listening(&mut host)?;
    let mut dialer = host.dialer("localhost", port)?;
    assert!(rt; is_dialled(&mut dialer));
    assert!(rt; heard(&mut listener)? == [Ok(LinkRead::Got(3)), Ok(LinkRead::End)]);
    host.keep_listener("127.0.0.1", 0, listener);
    assert!(rt; (is_dialled(&mut dialer), dialer.faults()) == (false, 1));
    host.keep_dialer("localhost", port, dialer);
    Ok(())
}

// An address as text, or none that the system knows of, which is counted.
fn is_address(host: &mut RealHost) -> bool {
    match host.host_name(true) {
        Ok(text) => text.as_str().parse::<IpAddr>().is_ok(),
        Err(NameRefused::Failed) => host.faults() == 1,
        Err(NameRefused::NoMemory) => false,
    }
}

#[test]
fn the_host_has_a_name(rt: HostRuntime) -> Result<(), Fail> {
    let mut host = RealHost::new(rt);
    let told = fs::read_to_string(&rt, "/proc/sys/kernel/hostname")?;
    assert!(rt; host.host_name(false)?.as_str() == told.as_str().trim());
    assert!(rt; is_address(&mut host));
    Ok(())
}

// Links in memory, and the host that hands out who gives them: each follows its script.
ghost use Rattle.std.specs.Prelude.{◌≡◌};
ghost use Rattle.host_memory.specs.Listens.{dialer_endpoint, listener_endpoint};

use flume_host::{Dialer, Failed, Host, Link, LinkRead, Listener, NameRefused};
use host_memory::{
    Flag, LinkStep, MemDialer, MemHost, MemLink, MemListener, MemSink, MemSource, Offer, Placed,
};
use std::alloc::{AllocError, Global};
use std::test::Fail;

fn piece(alloc: Global, text: &[u8]) -> Result<LinkStep, AllocError> {
    Ok(LinkStep::Piece(text.to_vec(alloc)?))
}

// A flag that is set, as a link is to wait for.
fn set_flag(alloc: Global) -> Result<LinkStep, AllocError> {
    let flag = Flag::new(alloc)?;
    flag.set();
    Ok(LinkStep::Hold(flag))
}

#[derive(Clone, Copy)]
enum Scripted {
    Piece(&'static [u8]),
    Quiet,
    Fail,
    // for a flag that is set
    Hold,
}

const SCRIPT: [Scripted; 6] = [
    Scripted::Piece(b"abcd"),
    Scripted::Quiet,
    Scripted::Piece(b""),
    Scripted::Fail,
    Scripted::Hold,
    Scripted::Piece(b"e"),
];

fn step_of(alloc: Global, scripted: Scripted) -> Result<LinkStep, AllocError> {
    match scripted {
        Scripted::Piece(text) => piece(alloc, text),
        Scripted::Quiet => Ok(LinkStep::Quiet),
        Scripted::Fail => Ok(LinkStep::Fail),
        Scripted::Hold => set_flag(alloc),
    }
}

fn script(alloc: Global) -> Result<Vec<LinkStep>, AllocError> {
    let mut steps = Vec::new(alloc);
    for scripted in &SCRIPT {
        steps.push(step_of(alloc, *scripted)?)?;
    }
    Ok(steps)
}

// What reads of three bytes answer by that script.
const READS: [Result<LinkRead, Failed>; 9] = [
    Ok(LinkRead::Got(3)),
    Ok(LinkRead::Got(1)),
    Ok(LinkRead::Quiet),
    Ok(LinkRead::Quiet),
    Err(Failed),
    Ok(LinkRead::Quiet),
    Ok(LinkRead::Got(1)),
    Ok(LinkRead::End),
    Ok(LinkRead::End),
];

#[test]
fn a_link_reads_by_its_script(rt: HostRuntime) -> Result<(), Fail> {
    let mut link = MemLink::new(rt.alloc(), script(rt.alloc())?);
    let mut into = [0u8; 3];
    for (row, want) in READS.iter().enumerate() {
        let want = *want;
        assert!(rt; link.read(&mut into) == want, "row {row}");
    }
    assert!(rt; link.gave() == b"abcde".as_slice());
    assert!(rt; (link.faults(), link.waits()) == (1, 3));
    Ok(())
}

// Writes, and how many bytes each takes.
const WRITES: [(&[u8], Result<usize, Failed>); 4] = [
    (b"abc", Ok(2)),
    (b"cde", Ok(3)),
    (b"f", Err(Failed)),
    (b"f", Ok(1)),
];

// A link that takes two bytes and then up to nine at a time, whose third write fails, and that sets the flag.
fn taking_link(alloc: Global, flag: &Flag) -> Result<MemLink, AllocError> {
    let pieces = [2, 9].as_slice().to_vec(alloc)?;
    let fails = [2].as_slice().to_vec(alloc)?;
    let link = MemLink::new(alloc, Vec::new(alloc)).setting(flag.handle()?);
    Ok(link.in_pieces(pieces).failing_at(fails))
}

// The place of the first write that is answered otherwise.
fn first_other_write(link: &mut MemLink) -> Option<usize> {
    for (row, (bytes, want)) in WRITES.iter().enumerate() {
        if link.write(bytes) != *want {
            return Some(row);
        }
    }
    None
}

#[test]
fn a_link_takes_pieces_and_fails_where_chosen(rt: HostRuntime) -> Result<(), Fail> {
    let flag = Flag::new(rt.alloc())?;
    let mut link = taking_link(rt.alloc(), &flag)?;
    assert!(rt; !flag.is_set());
    let wrong = first_other_write(&mut link);
    assert!(rt; wrong.is_none(), "{wrong:?}");
    assert!(rt; link.took() == b"abcdef".as_slice());
    assert!(rt; (link.faults(), flag.is_set()) == (1, true));
    Ok(())
}

// A link with this one piece.
fn link_of(alloc: Global, text: &[u8]) -> Result<MemLink, AllocError> {
    let mut steps = Vec::new(alloc);
    steps.push(piece(alloc, text)?)?;
    Ok(MemLink::new(alloc, steps))
}

// What an accept gave: the first byte of a link, which is given back, or none.
fn accepted(listener: &mut MemListener) -> Result<Option<u8>, Failed>
    ensures { listener_endpoint listener.new ≡ listener_endpoint listener.old }
{
    let Some(mut link) = listener.accept()? else {
        return Ok(None);
    };
    let mut into = [0u8; 1];
    let read = link.read(&mut into);
    let byte = into[0];
    listener.keep(link);
    read?;
    Ok(Some(byte))
}

// A link with the piece.
fn offer_of(alloc: Global, scripted: Scripted) -> Result<Offer, AllocError> {
    match scripted {
        Scripted::Piece(text) => Ok(Offer::Link(link_of(alloc, text)?)),
        Scripted::Fail => Ok(Offer::Fail),
        _ => Ok(Offer::Quiet),
    }
}

const OFFERS: [Scripted; 4] = [
    Scripted::Piece(b"a"),
    Scripted::Quiet,
    Scripted::Fail,
    Scripted::Piece(b"b"),
];

fn offers(alloc: Global) -> Result<Vec<Offer>, AllocError> {
    let mut offers = Vec::new(alloc);
    for scripted in &OFFERS {
        offers.push(offer_of(alloc, *scripted)?)?;
    }
    Ok(offers)
}

// What the accepts of a listener with these offers give.
const ACCEPTS: [Result<Option<u8>, Failed>; 5] = [
    Ok(Some(b'a')),
    Ok(None),
    Err(Failed),
    Ok(Some(b'b')),
    Ok(None),
];

#[test]
fn a_listener_gives_links_and_takes_them_back(rt: HostRuntime) -> Result<(), Fail> {
    let mut listener = MemListener::new(rt.alloc(), offers(rt.alloc())?);
    for (row, want) in ACCEPTS.iter().enumerate() {
        let want = *want;
        assert!(rt; accepted(&mut listener) == want, "row {row}");
    }
    assert!(rt; (listener.back().len(), listener.faults(), listener.waits()) == (2, 1, 2));
    Ok(())
}

// What a dial gave: the first byte of a link, which is given back.
fn dialled(dialer: &mut MemDialer) -> Result<u8, Failed>
    ensures { dialer_endpoint dialer.new ≡ dialer_endpoint dialer.old }
{
    let mut link = dialer.dial()?;
    let mut into = [0u8; 1];
    let read = link.read(&mut into);
    let byte = into[0];
    dialer.keep(link);
    read?;
    Ok(byte)
}

fn dials(alloc: Global) -> Result<Vec<Option<MemLink>>, AllocError> {
    let mut links = Vec::new(alloc);
    links.push(Some(link_of(alloc, b"a")?))?;
    links.push(None)?;
    links.push(Some(link_of(alloc, b"b")?))?;
    Ok(links)
}

// What the dials of a dialer with these links give.
const DIALS: [Result<u8, Failed>; 4] = [Ok(b'a'), Err(Failed), Ok(b'b'), Err(Failed)];

#[test]
fn a_dialer_gives_links_and_takes_them_back(rt: HostRuntime) -> Result<(), Fail> {
    let mut dialer = MemDialer::new(rt.alloc(), dials(rt.alloc())?);
    for (row, want) in DIALS.iter().enumerate() {
        let want = *want;
        assert!(rt; dialled(&mut dialer) == want, "row {row}");
    }
    assert!(rt; (dialer.back().len(), dialer.faults()) == (2, 2));
    Ok(())
}

// A link whose read waits for a flag that nobody sets.
fn held_link(alloc: Global) -> Result<MemLink, AllocError> {
    let mut steps = Vec::new(alloc);
    steps.push(LinkStep::Hold(Flag::new(alloc)?.looked_at(1_000)))?;
    Ok(MemLink::new(alloc, steps))
}

// Who waits on one thread waits in vain, and fails.
#[test]
fn a_held_read_fails_on_one_thread(rt: HostRuntime) -> Result<(), Fail> {
    let mut link = held_link(rt.alloc())?;
    assert!(rt; link.read(&mut [0u8; 1]) == Err(Failed));
    Ok(())
}

fn listeners(alloc: Global) -> Result<Vec<Placed<MemListener>>, AllocError> {
    let mut listeners = Vec::new(alloc);
    let listener = MemListener::new(alloc, offers(alloc)?);
    listeners.push(Placed::new(String::from_str(alloc, "a")?, 1, listener))?;
    Ok(listeners)
}

fn dialers(alloc: Global) -> Result<Vec<Placed<MemDialer>>, AllocError> {
    let mut dialers = Vec::new(alloc);
    let dialer = MemDialer::new(alloc, dials(alloc)?);
    dialers.push(Placed::new(String::from_str(alloc, "a")?, 1, dialer))?;
    Ok(dialers)
}

// A host with a name, whose opening number 2 fails, and number 4 has no memory.
fn named_host(alloc: Global) -> Result<MemHost, AllocError> {
    let fails = [2].as_slice().to_vec(alloc)?;
    let lacks = [4].as_slice().to_vec(alloc)?;
    let name = String::from_str(alloc, "box")?;
    let address = String::from_str(alloc, "10.0.0.1")?;
    let input = MemSource::new(alloc, Vec::new(alloc));
    let host = MemHost::new(alloc, input, MemSink::new(alloc), Vec::new(alloc));
    Ok(
        host.named(name, address)
            .failing_opens(fails)
            .lacking_opens(lacks),
    )
}

// Such a host with one listener and one dialer of the address `a` and port 1.
fn host(alloc: Global) -> Result<MemHost, AllocError> {
    let listeners = listeners(alloc)?;
    let dialers = dialers(alloc)?;
    Ok(
        named_host(alloc)?
            .with_listeners(listeners)
            .with_dialers(dialers),
    )
}

// What the first accept of a listener gives that a host hands out, and takes back.
fn heard(host: &mut MemHost, bind: &str, port: u16) -> Result<Option<u8>, NameRefused> {
    let mut listener = host.listen(bind, port)?;
    let found = accepted(&mut listener);
    host.keep_listener(bind, port, listener);
    match found {
        Ok(byte) => Ok(byte),
        Err(_) => Ok(Some(b'!')),
    }
}

// What the first dial of a dialer gives that a host hands out, and takes back; 0 where it fails.
fn called(host: &mut MemHost, address: &str, port: u16) -> Option<u8> {
    let Ok(mut dialer) = host.dialer(address, port) else {
        return None;
    };
    let found = dialled(&mut dialer);
    host.keep_dialer(address, port, dialer);
    match found {
        Ok(byte) => Some(byte),
        Err(_) => Some(0),
    }
}

// Addresses at which a host listens one after the other, and what comes first.
const HEARD: [(&str, u16, Result<Option<u8>, NameRefused>); 6] = [
    ("b", 1, Ok(None)),
    ("a", 1, Ok(Some(b'a'))),
    ("a", 1, Err(NameRefused::Failed)),
    ("a", 1, Ok(None)),
    ("a", 1, Err(NameRefused::NoMemory)),
    ("a", 2, Ok(None)),
];

#[test]
fn a_host_hands_listeners_out(rt: HostRuntime) -> Result<(), Fail> {
    let mut host = host(rt.alloc())?;
    for (row, case) in HEARD.iter().enumerate() {
        let (bind, port, want) = *case;
        assert!(rt; heard(&mut host, bind, port) == want, "row {row}");
    }
    assert!(rt; (host.listeners().len(), host.faults(), host.opens()) == (4, 1, 6));
    Ok(())
}

// Addresses of dialers that are handed out one after the other, and what comes first.
const CALLED: [(&str, u8); 3] = [("b", 0), ("a", b'a'), ("a", 0)];

// Whether the address is asked for, and what the host then is named.
const NAMES: [(bool, &str); 2] = [(false, "box"), (true, "10.0.0.1")];

fn is_named(host: &mut MemHost, use_ip: bool, name: &str) -> bool {
    match host.host_name(use_ip) {
        Ok(found) => found.as_str() == name,
        Err(_) => false,
    }
}

fn has_no_name(host: &mut MemHost) -> bool {
    matches!(host.host_name(false), Err(NameRefused::Failed))
}

#[test]
fn a_host_hands_dialers_and_names_out(rt: HostRuntime) -> Result<(), Fail> {
    let mut host = host(rt.alloc())?;
    for (row, case) in CALLED.iter().enumerate() {
        let (address, byte) = *case;
        assert!(rt; called(&mut host, address, 1) == Some(byte), "row {row}");
    }
    for case in &NAMES {
        let (use_ip, name) = *case;
        assert!(rt; is_named(&mut host, use_ip, name), "{name}");
    }
    assert!(rt; has_no_name(&mut host));
    assert!(rt; (host.dialers().len(), host.faults()) == (3, 1));
    Ok(())
}

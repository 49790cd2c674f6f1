// Deliveries of an Avro sink over scripted links: what each answers, what it sent, and whether its link went back.
use crate::packs::add_packs;
use crate::script::{Script, add_step, empty, link_of};
use avro_ends::{AvroSink, DeliverRefused};
use event_core::Batch;
use host_memory::{MemDialer, MemLink};
use plug_in::EventSink;
use scenarios::{Scene, number_of, pass, word_and_rest};
use std::alloc::Global;
use std::mem;
use std::test::Fail;
use test_fixtures::batch;

// Each batch has the bodies `x` and `y`. Where a link stays open, a further delivery takes it, and finds its end; where it went back,
// that dials anew, and there is no further link.
const DELIVERIES: &str = r#"The reply is OK.
reads-packs ok
link
dialer
delivers ok
faults 0
delivers ended
close
sent first text first-end second

OK comes in pieces, between reads that wait.
waits 50
reads \x00\x00\x00\x01\x00\x00\x00\x01\x00
waits 49
reads \x00\x00\x07\x00\x00\x00\x00\x00\x00\x00
link
dialer
delivers ok
faults 0
delivers ended
close
sent first text first-end second

Bytes come after OK.
reads \x00\x00\x00\x01\x00\x00\x00\x01\x00\x00\x00\x07\x00\x00\x00\x00\x00\x00\x00\x00
link
dialer
delivers ok
faults 0
delivers link-fault
close
sent first text first-end

The reply is FAILED.
reads \x00\x00\x00\x01\x00\x00\x00\x01\x00\x00\x00\x07\x00\x00\x00\x00\x00\x00\x02
link
dialer
delivers refused 1
faults 1
delivers link-fault
close
sent first text first-end

The reply is UNKNOWN.
reads \x00\x00\x00\x01\x00\x00\x00\x01\x00\x00\x00\x07\x00\x00\x00\x00\x00\x00\x04
link
dialer
delivers refused 2
faults 1
delivers link-fault
close
sent first text first-end

OK comes under another serial.
reads \x00\x00\x00\x02\x00\x00\x00\x01\x00\x00\x00\x07\x00\x00\x00\x00\x00\x00\x00
link
dialer
delivers wrong-serial 2 1
faults 1
delivers link-fault
close
sent first text first-end

The match is NONE.
reads \x00\x00\x00\x01\x00\x00\x00\x01\x00\x00\x00\x07\x04\x00\x00\x00\x00\x00\x00
link
dialer
delivers bad-reply 0
faults 1
delivers link-fault
close
sent first text first-end

The error flag is true.
reads \x00\x00\x00\x01\x00\x00\x00\x01\x00\x00\x00\x07\x00\x00\x00\x00\x00\x01\x00
link
dialer
delivers bad-reply 5
faults 1
delivers link-fault
close
sent first text first-end

A byte comes after the status.
reads \x00\x00\x00\x01\x00\x00\x00\x01\x00\x00\x00\x08\x00\x00\x00\x00\x00\x00\x00\x00
link
dialer
delivers bad-reply 7
faults 1
delivers link-fault
close
sent first text first-end

There are 65,537 buffers.
reads \x00\x00\x00\x01\x00\x01\x00\x01
link
dialer
delivers bad-reply 0
faults 1
delivers link-fault
close
sent first text first-end

There is no reply.
link
dialer
delivers ended
faults 1
delivers link-fault
close
sent first text first-end

A reply breaks off.
reads \x00\x00\x00\x01\x00\x00\x00\x01\x00\x00\x00\x07\x00\x00\x00\x00\x00\x00
link
dialer
delivers ended
faults 1
delivers link-fault
close
sent first text first-end

A hundred reads wait in vain.
waits 100
reads-packs ok
link
dialer
delivers silent
faults 1
delivers link-fault
close
sent first text first-end

A read fails.
breaks
reads-packs ok
link
dialer
delivers link-fault
faults 1
delivers link-fault
close
sent first text first-end

A read fails within the reply.
reads \x00\x00\x00\x01\x00
breaks
reads-packs ok
link
dialer
delivers link-fault
faults 1
delivers link-fault
close
sent first text first-end

A write fails.
reads-packs ok
writes-fail 0
link
dialer
delivers link-fault
faults 1
delivers link-fault
close
sent

The first dial fails: the batch is refused, which is counted, and the next delivery of it goes over a new link, as does the one after it.
no-link
reads-packs ok
reads-packs second-ok
link
dialer
delivers link-fault
faults 1
delivers ok
delivers ok
faults 1
close
sent first text first-end second

So it is where the write of the first link fails.
reads-packs ok
writes-fail 0
link
reads-packs ok
reads-packs second-ok
link
dialer
delivers link-fault
faults 1
delivers ok
delivers ok
faults 1
close
sent first text first-end second

So it is where its first read fails.
breaks
reads-packs ok
link
reads-packs ok
reads-packs second-ok
link
dialer
delivers link-fault
faults 1
delivers ok
delivers ok
faults 1
close
sent first text first-end second

So it is where its second read fails.
reads \x00\x00\x00\x01
breaks
link
reads-packs ok
reads-packs second-ok
link
dialer
delivers link-fault
faults 1
delivers ok
delivers ok
faults 1
close
sent first text first-end second"#;

// A sink, and the dialer that it gave back.
#[derive(Drop)]
struct Deliveries {
    alloc: Global,
    script: Script,
    dials: Vec<Option<MemLink>>,
    sink: Option<AvroSink<MemDialer>>,
    dialer: Option<MemDialer>,
    has_tried: bool,
}

fn add_link(scene: &mut Deliveries) -> bool {
    let link = link_of(&mut scene.script);
    scene.dials.push(Some(link)).is_ok()
}

// Begins a sink over a dialer of these links.
fn begin_sink(scene: &mut Deliveries) -> bool {
    let dials = mem::replace(&mut scene.dials, Vec::new(scene.alloc));
    scene.sink = AvroSink::new(scene.alloc, MemDialer::new(scene.alloc, dials)).ok();
    scene.sink.is_some()
}

// An answer as a word and its numbers.
fn said_of(answer: Result<(), DeliverRefused>) -> (&'static str, u64, u64) {
    match answer {
        Ok(()) => ("ok", 0, 0),
        Err(DeliverRefused::LinkFault) => ("link-fault", 0, 0),
        Err(DeliverRefused::Ended) => ("ended", 0, 0),
        Err(DeliverRefused::Silent) => ("silent", 0, 0),
        Err(DeliverRefused::Refused { status }) => ("refused", u64::from(status), 0),
        Err(DeliverRefused::WrongSerial { got, want }) => {
            ("wrong-serial", u64::from(got), u64::from(want))
        }
        Err(DeliverRefused::BadReply { at }) => ("bad-reply", at, 0),
        Err(_) => ("other", 0, 0),
    }
}

fn answer(sink: &mut AvroSink<MemDialer>, batch: &Batch) -> (&'static str, u64, u64) {
    said_of(sink.deliver(batch))
}

// Whether a delivery is answered so, as `wrong-serial 2 1`.
fn is_answered(scene: &mut Deliveries, want: &str) -> bool {
    scene.has_tried = true;
    let (word, rest) = word_and_rest(want);
    let (first, second) = word_and_rest(rest);
    let want = (
        word,
        number_of(first).unwrap_or(0),
        number_of(second).unwrap_or(0),
    );
    match (&mut scene.sink, batch(scene.alloc, &[b"x", b"y"])) {
        (Some(sink), Ok(batch)) => answer(sink, &batch) == want,
        _ => false,
    }
}

fn has_faults(scene: &Deliveries, count: &str) -> bool {
    match &scene.sink {
        Some(sink) => number_of(count) == Some(EventSink::faults(sink)),
        None => false,
    }
}

fn close(scene: &mut Deliveries) -> bool {
    scene.dialer = match scene.sink.take() {
        Some(sink) => Some(sink.close()),
        None => None,
    };
    scene.dialer.is_some()
}

// The last link that came back.
fn last_link(dialer: &Option<MemDialer>) -> Option<&MemLink> {
    match dialer {
        Some(dialer) => dialer.back().last(),
        None => None,
    }
}

// Whether it took just these packs.
fn is_sent(scene: &Deliveries, names: &str) -> bool {
    let mut want = Vec::new(scene.alloc);
    if !add_packs(&mut want, names) {
        return false;
    }
    match last_link(&scene.dialer) {
        Some(link) => link.took() == want.as_slice(),
        None => false,
    }
}

impl Scene for Deliveries {
    fn begin(alloc: Global) -> Deliveries {
        Deliveries {
            alloc,
            script: empty(alloc),
            dials: Vec::new(alloc),
            sink: None,
            dialer: None,
            has_tried: false,
        }
    }

    fn holds(&mut self, word: &str, rest: &str) -> bool {
        match word {
            "link" => add_link(self),
            "no-link" => self.dials.push(None).is_ok(),
            "dialer" => begin_sink(self),
            "delivers" => is_answered(self, rest),
            "faults" => has_faults(self, rest),
            "close" => close(self),
            "sent" => is_sent(self, rest),
            _ => add_step(&mut self.script, word, rest),
        }
    }

    fn has_tried(&self) -> bool {
        self.has_tried
    }
}

#[test]
fn deliveries_are_answered(rt: HostRuntime) -> Result<(), Fail> {
    pass::<Deliveries>(rt.alloc(), DELIVERIES)
}

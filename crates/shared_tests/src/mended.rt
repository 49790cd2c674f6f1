// A channel that breaks and is mended, by a port and through a pass; and what its tickets and tokens say meanwhile.
ghost use Rattle.std.specs.Prelude.{◌≡◌, ◌<◌};

use crate::sharing::LIMITS;
use crate::staged::{one_on, put_by_port, stage};
use channel_face::{
    BeginRefused, Channel, FaceRefused, FlushRefused, OpenCause, PutRefused, PutTxn, Reopen,
    Settled, Ticket,
};
use event_core::Event;
use flume_host::Steps;
use host_memory::MemDisk;
use shared_channel::{Pass, Port, Shared};
use std::alloc::Global;
use std::marker::Brand;
use std::sync::Wait;
use std::sync::ledger::{Blank, Ledger};
use std::test::Fail;
use test_fixtures::{disk_failing_in_flush, event};

fn mend_by_port<R: Wait, C: Reopen, L: Ledger>(
    rt: &R,
    shared: &Shared<C>,
    pass: Pass,
    steps: &mut Steps<L>,
) -> (Pass, Result<bool, OpenCause>)
    requires { pass.table_id ≡ shared.now.turn.table.shared.table_id }
    ensures { result.0.table_id ≡ pass.table_id }
{
    let mut port = Port::new(rt, shared, pass);
    let answer = port.mend(steps);
    (port.give_back(), answer)
}

// Whether the first put is in doubt, the next one refused, a mend by a port reopens, a token from before is then stale, and the
// pass has seen the calls of these and the reopening.
fn breaks_and_is_mended<R: Wait, C: Reopen, L: Ledger>(
    rt: &R,
    alloc: Global,
    shared: &Shared<C>,
    mut pass: Pass,
    steps: &mut Steps<L>,
) -> (Pass, bool)
    requires { pass.table_id ≡ shared.now.turn.table.shared.table_id }
    ensures { result.0.table_id ≡ pass.table_id }
{
    let Ok(token) = shared.begin_put(rt, &mut pass) else {
        return (pass, false);
    };
    let (pass, doubtful) = put_by_port(rt, alloc, shared, pass);
    let (pass, refused) = put_by_port(rt, alloc, shared, pass);
    let (mut pass, mended) = mend_by_port(rt, shared, pass, steps);
    let is_stale = !shared.rollback_put(rt, &mut pass, token);
    let is_so = doubtful == Some(Err(FaceRefused::InDoubt))
        && refused == Some(Err(FaceRefused::Begin(BeginRefused::Broken)))
        && mended == Ok(true)
        && is_stale;
    // a begin; a begin, a put, a stage and a flush; a refused begin; a reopening
    let seen = pass.seen();
    (pass, is_so && seen == 7)
}

// Whether a sound channel is put to, is not reopened by a mend, and has the event whose flush failed, or not.
fn is_sound<R: Wait, C: Reopen, L: Ledger>(
    rt: &R,
    alloc: Global,
    shared: &Shared<C>,
    pass: Pass,
    steps: &mut Steps<L>,
) -> (Pass, bool)
    requires { pass.table_id ≡ shared.now.turn.table.shared.table_id }
    ensures { result.0.table_id ≡ pass.table_id }
{
    let (mut pass, put) = put_by_port(rt, alloc, shared, pass);
    let before = pass.seen();
    let mended = shared.mend(rt, &mut pass, steps);
    let size = shared.size(rt, &mut pass);
    let is_one_of_two = (size == 1 && put == Some(Ok(0))) || (size == 2 && put == Some(Ok(1)));
    let is_so = mended == Ok(false) && pass.seen() == before && is_one_of_two;
    (pass, is_so)
}

// Whether a reopening of a sound channel makes a token stale, and is counted.
fn is_reopened<R: Wait, C: Reopen, L: Ledger>(
    rt: &R,
    shared: &Shared<C>,
    mut pass: Pass,
    steps: &mut Steps<L>,
) -> (Pass, bool)
    requires { pass.table_id ≡ shared.now.turn.table.shared.table_id }
    ensures { result.0.table_id ≡ pass.table_id }
{
    let before = pass.seen();
    let Ok(token) = shared.begin_put(rt, &mut pass) else {
        return (pass, false);
    };
    let reopened = shared.reopen(rt, &mut pass, steps);
    let is_stale = !shared.rollback_put(rt, &mut pass, token);
    let is_so = reopened == Ok(()) && is_stale && pass.seen() == before.saturating_add(2);
    (pass, is_so)
}

// The three, one after another.
fn all_in<R: Wait, C: Reopen, L: Ledger>(
    rt: &R,
    alloc: Global,
    shared: &Shared<C>,
    pass: Pass,
    steps: &mut Steps<L>,
) -> (bool, bool, bool)
    requires { pass.table_id ≡ shared.now.turn.table.shared.table_id }
{
    let (pass, mended) = breaks_and_is_mended(rt, alloc, shared, pass, steps);
    let (pass, sound) = is_sound(rt, alloc, shared, pass, steps);
    let (_, reopened) = is_reopened(rt, shared, pass, steps);
    (mended, sound, reopened)
}

fn all_of_it<R: Wait, L: Ledger>(
    rt: &R,
    alloc: Global,
    blank: Blank,
    disk: MemDisk,
) -> (bool, bool, bool)
    requires name { blank.name ≡ L.name }
    requires parts { blank.parts ≡ L.parts }
    requires some { 0 < L.parts }
{
    let mut steps = Steps::<L>::new(blank);
    match one_on(alloc, disk) {
        Some((shared, pass)) => all_in(rt, alloc, &shared, pass, &mut steps),
        None => (false, false, false),
    }
}

#[test]
fn a_mend_reopens_what_is_broken(rt: HostRuntime) -> Result<(), Fail> {
    let alloc = rt.alloc();
    let disk = disk_failing_in_flush(alloc, LIMITS)?;
    let answers = all_of_it::<HostRuntime, Brand>(&rt, alloc, Blank::new(1), disk);
    assert!(rt; answers == (true, true, true));
    Ok(())
}

// Whether a flush fails, the ticket of what was staged is in doubt, a put of an open transaction is refused as broken, and a rollback
// ends that one.
fn breaks_in_flush<R: Wait, C: Channel>(
    rt: &R,
    shared: &Shared<C>,
    pass: &mut Pass,
    ticket: &Ticket,
    mut open: PutTxn,
    event: &Event,
) -> bool
    requires { pass.old.table_id ≡ shared.now.turn.table.shared.table_id }
    ensures { pass.new.table_id ≡ pass.old.table_id }
{
    let flushed = shared.flush(rt, pass);
    let settled = shared.settled(rt, pass, ticket);
    let put = shared.put(rt, pass, &mut open, event);
    let is_ended = shared.rollback_put(rt, pass, open);
    flushed == Err(FlushRefused::DiskFault)
        && settled == Settled::InDoubt
        && matches!(put, Err(PutRefused::Broken))
        && is_ended
}

// Whether it is so beside an open transaction, and the ticket is in doubt still once the channel is opened anew.
fn stays_in_doubt<R: Wait, C: Reopen, L: Ledger>(
    rt: &R,
    shared: &Shared<C>,
    mut pass: Pass,
    event: &Event,
    steps: &mut Steps<L>,
) -> bool
    requires { pass.table_id ≡ shared.now.turn.table.shared.table_id }
{
    let Ok(open) = shared.begin_put(rt, &mut pass) else {
        return false;
    };
    let Some(ticket) = stage(rt, shared, &mut pass, event) else {
        shared.rollback_put(rt, &mut pass, open);
        return false;
    };
    let is_so = breaks_in_flush(rt, shared, &mut pass, &ticket, open, event);
    let reopened = shared.reopen(rt, &mut pass, steps);
    let settled = shared.settled(rt, &mut pass, &ticket);
    is_so && reopened == Ok(()) && settled == Settled::InDoubt
}

fn doubt_on<R: Wait, L: Ledger>(
    rt: &R,
    alloc: Global,
    blank: Blank,
    disk: MemDisk,
    event: &Event,
) -> bool
    requires name { blank.name ≡ L.name }
    requires parts { blank.parts ≡ L.parts }
    requires some { 0 < L.parts }
{
    let mut steps = Steps::<L>::new(blank);
    match one_on(alloc, disk) {
        Some((shared, pass)) => stays_in_doubt(rt, &shared, pass, event, &mut steps),
        None => false,
    }
}

#[test]
fn a_ticket_stays_in_doubt(rt: HostRuntime) -> Result<(), Fail> {
    let alloc = rt.alloc();
    let disk = disk_failing_in_flush(alloc, LIMITS)?;
    let event = event(alloc, b"a")?;
    assert!(rt; doubt_on::<HostRuntime, Brand>(&rt, alloc, Blank::new(1), disk, &event));
    Ok(())
}

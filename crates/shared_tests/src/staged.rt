// Staged transactions of two passes, which one flush settles, and what a port does then; and a sync that fails.
ghost use Rattle.std.specs.Prelude.{◌≡◌, All, IfSome};

use crate::many::{last, pair};
use crate::sharing::{LIMITS, Opened, on_disk};
use crate::work::batch_of;
use channel_face::{BeginRefused, Channel, FaceRefused, PutFace, Settled, StageRefused, Ticket};
use event_core::Event;
use file_channel::FileChannel;
use host_memory::MemDisk;
use shared_channel::{Pass, Port, Shared};
use std::alloc::Global;
use std::sync::Wait;
use std::test::Fail;
use test_fixtures::{disk_after_opening, disk_failing_in_flush, event};

type OnDisk = Shared<FileChannel<MemDisk>>;

/// Stages a transaction with this event.
pub fn stage<C: Channel, R: Wait>(
    rt: &R,
    shared: &Shared<C>,
    pass: &mut Pass,
    event: &Event,
) -> Option<Ticket>
    requires { pass.old.table_id ≡ shared.now.turn.table.shared.table_id }
    ensures { pass.new.table_id ≡ pass.old.table_id }
{
    let Ok(mut txn) = shared.begin_put(rt, pass) else {
        return None;
    };
    let put = shared.put(rt, pass, &mut txn, event);
    match shared.stage_put(rt, pass, txn) {
        Ok(ticket) => { if put.is_ok() { Some(ticket) } else { None } }
        Err(StageRefused { txn, cause: _ }) => {
            shared.rollback_put(rt, pass, txn);
            None
        }
    }
}

fn both_staged<R: Wait>(
    rt: &R,
    shared: &OnDisk,
    a: &mut Pass,
    b: &mut Pass,
    event: &Event,
) -> Option<(Ticket, Ticket)>
    requires { (a.old.table_id ≡ shared.now.turn.table.shared.table_id) ×
        (b.old.table_id ≡ shared.now.turn.table.shared.table_id) }
    ensures { (a.new.table_id ≡ a.old.table_id) × (b.new.table_id ≡ b.old.table_id) }
{
    let one = stage(rt, shared, a, event)?;
    let other = stage(rt, shared, b, event)?;
    Some((one, other))
}

// Whether a flush of the one settles the tickets of both.
fn one_flush_settles<R: Wait>(
    rt: &R,
    shared: &OnDisk,
    a: &mut Pass,
    b: &mut Pass,
    tickets: &(Ticket, Ticket),
) -> bool
    requires { (a.old.table_id ≡ shared.now.turn.table.shared.table_id) ×
        (b.old.table_id ≡ shared.now.turn.table.shared.table_id) }
    ensures { (a.new.table_id ≡ a.old.table_id) × (b.new.table_id ≡ b.old.table_id) }
{
    let before = shared.settled(rt, b, &tickets.1);
    let flushed = shared.flush(rt, a).is_ok();
    let one = shared.settled(rt, a, &tickets.0);
    let other = shared.settled(rt, b, &tickets.1);
    flushed && before == Settled::No && one == Settled::Yes && other == Settled::Yes
}

// How many syncs the disk of a channel made, whose passes are these.
fn syncs_of<R: Wait>(rt: &R, shared: OnDisk, a: Pass, b: Pass) -> u64
    requires { (a.table_id ≡ shared.turn.table.shared.table_id) ×
        (b.table_id ≡ shared.turn.table.shared.table_id) }
{
    let mut a = a;
    shared.join_pass(&mut a, b);
    shared.close(rt, a).channel.close().syncs()
}

/// Puts an event by a port.
pub fn put_by_port<C: Channel, R: Wait>(
    rt: &R,
    alloc: Global,
    shared: &Shared<C>,
    pass: Pass,
) -> (Pass, Option<Result<u64, FaceRefused>>)
    requires { pass.table_id ≡ shared.now.turn.table.shared.table_id }
    ensures { result.0.table_id ≡ pass.table_id }
{
    let Ok(batch) = batch_of(alloc, 7) else {
        return (pass, None);
    };
    let mut port = Port::new(rt, shared, pass);
    let reply = port.put_batch(&batch, &[0]);
    (port.give_back(), Some(reply))
}

/// A channel that was shared, with one of its passes.
pub fn with_pass<C: Channel + Drop>(opened: Opened<C>) -> Option<(Shared<C>, Pass)>
    requires { IfSome opened (λ r. All (λ p. p.table_id ≡ r.0.turn.table.shared.table_id)
        r.1.items) }
    ensures { IfSome result (λ r. r.1.table_id ≡ r.0.turn.table.shared.table_id) }
{
    let (shared, mut passes) = opened?;
    let pass = last(&shared, &mut passes)?;
    Some((shared, pass))
}

/// A channel in a folder of this disk, with one pass.
pub fn one_on(alloc: Global, disk: MemDisk) -> Option<(OnDisk, Pass)>
    ensures { IfSome result (λ r. r.1.table_id ≡ r.0.turn.table.shared.table_id) }
{
    with_pass(on_disk(alloc, disk, 1))
}

// The same with two passes.
fn two_on(alloc: Global, disk: MemDisk) -> Option<(OnDisk, Pass, Pass)>
    ensures { IfSome result (λ r. (r.1.table_id ≡ r.0.turn.table.shared.table_id) ×
        (r.2.table_id ≡ r.0.turn.table.shared.table_id)) }
{
    let (shared, mut passes) = on_disk(alloc, disk, 2)?;
    let (b, a) = pair(&shared, &mut passes)?;
    Some((shared, a, b))
}

// How many syncs the disk has made once a flush of the one has settled what both staged.
fn syncs_of_a_flush<R: Wait>(
    rt: &R,
    shared: OnDisk,
    mut a: Pass,
    mut b: Pass,
    event: &Event,
) -> Option<u64>
    requires { (a.table_id ≡ shared.turn.table.shared.table_id) ×
        (b.table_id ≡ shared.turn.table.shared.table_id) }
{
    let tickets = both_staged(rt, &shared, &mut a, &mut b, event)?;
    if one_flush_settles(rt, &shared, &mut a, &mut b, &tickets) {
        Some(syncs_of(rt, shared, a, b))
    } else {
        None
    }
}

#[test]
fn one_flush_settles_what_two_staged(rt: HostRuntime) -> Result<(), Fail> {
    let alloc = rt.alloc();
    let before = disk_after_opening(alloc, LIMITS)?.syncs();
    let event = event(alloc, b"a")?;
    let syncs = match two_on(alloc, MemDisk::new(alloc)) {
        Some((shared, a, b)) => syncs_of_a_flush(&rt, shared, a, b, &event),
        None => None,
    };
    assert!(rt; syncs == Some(before.saturating_add(2)));
    Ok(())
}

// How many syncs the disk has made once a port of the one has settled what the other staged.
fn syncs_of_a_port<R: Wait>(
    rt: &R,
    alloc: Global,
    shared: OnDisk,
    mut a: Pass,
    b: Pass,
    event: &Event,
) -> Option<u64>
    requires { (a.table_id ≡ shared.turn.table.shared.table_id) ×
        (b.table_id ≡ shared.turn.table.shared.table_id) }
{
    let one = stage(rt, &shared, &mut a, event)?;
    let (b, reply) = put_by_port(rt, alloc, &shared, b);
    let settled = shared.settled(rt, &mut a, &one);
    // a begin, a put, a stage and a flush, after the three of the other pass
    if reply == Some(Ok(1)) && b.seen() == 7 && settled == Settled::Yes {
        Some(syncs_of(rt, shared, a, b))
    } else {
        None
    }
}

#[test]
fn a_port_settles_what_another_staged(rt: HostRuntime) -> Result<(), Fail> {
    let alloc = rt.alloc();
    let before = disk_after_opening(alloc, LIMITS)?.syncs();
    let event = event(alloc, b"a")?;
    let syncs = match two_on(alloc, MemDisk::new(alloc)) {
        Some((shared, a, b)) => syncs_of_a_port(&rt, alloc, shared, a, b, &event),
        None => None,
    };
    assert!(rt; syncs == Some(before.saturating_add(2)));
    Ok(())
}

// Whether the first put is in doubt, and the next one refused.
fn is_in_doubt<R: Wait>(rt: &R, alloc: Global, shared: &OnDisk, pass: Pass) -> bool
    requires { pass.table_id ≡ shared.now.turn.table.shared.table_id }
{
    let (pass, doubtful) = put_by_port(rt, alloc, shared, pass);
    let (pass, refused) = put_by_port(rt, alloc, shared, pass);
    // of the second transaction a refused begin alone
    doubtful == Some(Err(FaceRefused::InDoubt))
        && refused == Some(Err(FaceRefused::Begin(BeginRefused::Broken)))
        && pass.seen() == 5
}

#[test]
fn a_failed_sync_leaves_a_commit_in_doubt(rt: HostRuntime) -> Result<(), Fail> {
    let alloc = rt.alloc();
    let disk = disk_failing_in_flush(alloc, LIMITS)?;
    let is_so = match one_on(alloc, disk) {
        Some((shared, pass)) => is_in_doubt(&rt, alloc, &shared, pass),
        None => false,
    };
    assert!(rt; is_so);
    Ok(())
}

// Threads that put and take in one channel. What comes back is a legal history by the contract of `close`; these tests look
// at the events: each is there once, and the counts are the sums of what the threads did.
ghost use Rattle.std.specs.Prelude.{◌≡◌, All, IfSome};

use crate::in_memory::{in_memory, plain};
use crate::sharing::{Opened, on_disk};
use crate::work::{Work, number_in, put_and_take};
use channel_face::{Channel, TakeTxn, Taken};
use host_memory::MemDisk;
use shared_channel::{Closed, Pass, Shared};
use std::alloc::Global;
use std::sync::Wait;
use std::thread::{Threads, join};

const EVENTS: u32 = 40;

type Four = ((Pass, Pass), (Pass, Pass));

// The work of both.
fn both<C: Channel>(shared: &Shared<C>, one: Work, other: Work) -> Work
    requires { (one.pass.table_id ≡ shared.now.turn.table.shared.table_id) ×
        (other.pass.table_id ≡ shared.now.turn.table.shared.table_id) }
    ensures { result.pass.table_id ≡ one.pass.table_id }
{
    let Work {
        mut pass,
        mut put,
        mut taken,
    } = one;
    let Work {
        pass: from,
        put: other_put,
        taken: other_taken,
    } = other;
    shared.join_pass(&mut pass, from);
    let _ = put.extend_from_slice(&other_put);
    let _ = taken.extend_from_slice(&other_taken);
    Work { pass, put, taken }
}

fn two<C: Channel + Drop + Send, R: Threads + Wait + Sync>(
    rt: &R,
    alloc: Global,
    shared: &Shared<C>,
    passes: (Pass, Pass),
    first: u64,
) -> Work
    requires { (passes.0.table_id ≡ shared.now.turn.table.shared.table_id) ×
        (passes.1.table_id ≡ shared.now.turn.table.shared.table_id) }
    ensures { result.pass.table_id ≡ shared.now.turn.table.shared.table_id }
{
    let (a, b) = passes;
    let (one, other) = join(
        rt,
        move || -> Work
            requires { a.table_id ≡ shared.now.turn.table.shared.table_id }
            ensures { result.pass.table_id ≡ a.table_id }
        { put_and_take(rt, alloc, shared, a, first, EVENTS) },
        move || -> Work
            requires { b.table_id ≡ shared.now.turn.table.shared.table_id }
            ensures { result.pass.table_id ≡ b.table_id }
        { put_and_take(rt, alloc, shared, b, first.wrapping_add(1000), EVENTS) },
    );
    both(shared, one, other)
}

fn four<C: Channel + Drop + Send, R: Threads + Wait + Sync>(
    rt: &R,
    alloc: Global,
    shared: &Shared<C>,
    one: (Pass, Pass),
    other: (Pass, Pass),
    first: u64,
) -> Work
    requires one { (one.0.table_id ≡ shared.now.turn.table.shared.table_id) ×
        (one.1.table_id ≡ shared.now.turn.table.shared.table_id) }
    requires other { (other.0.table_id ≡ shared.now.turn.table.shared.table_id) ×
        (other.1.table_id ≡ shared.now.turn.table.shared.table_id) }
    ensures { result.pass.table_id ≡ shared.now.turn.table.shared.table_id }
{
    let (a, b) = join(
        rt,
        move || -> Work
            requires { (one.0.table_id ≡ shared.now.turn.table.shared.table_id) ×
                (one.1.table_id ≡ shared.now.turn.table.shared.table_id) }
            ensures { result.pass.table_id ≡ shared.entry.now.turn.table.shared.table_id }
        { two(rt, alloc, shared, one, first) },
        move || -> Work
            requires { (other.0.table_id ≡ shared.now.turn.table.shared.table_id) ×
                (other.1.table_id ≡ shared.now.turn.table.shared.table_id) }
            ensures { result.pass.table_id ≡ shared.entry.now.turn.table.shared.table_id }
        { two(rt, alloc, shared, other, first.wrapping_add(10_000)) },
    );
    both(shared, a, b)
}

/// The last pass of those that are left.
pub fn last<C: Channel>(shared: &Shared<C>, passes: &mut Vec<Pass>) -> Option<Pass>
    requires { All (λ p. p.table_id ≡ shared.now.turn.table.shared.table_id) passes.old.items }
    ensures { All (λ p. p.table_id ≡ shared.now.turn.table.shared.table_id) passes.new.items ×
        IfSome result (λ p. p.table_id ≡ shared.now.turn.table.shared.table_id) }
{
    let _ = shared;
    passes.pop()
}

/// Two passes of those that are left.
pub fn pair<C: Channel>(shared: &Shared<C>, passes: &mut Vec<Pass>) -> Option<(Pass, Pass)>
    requires { All (λ p. p.table_id ≡ shared.now.turn.table.shared.table_id) passes.old.items }
    ensures left { All (λ p. p.table_id ≡ shared.now.turn.table.shared.table_id) passes.new.items }
    ensures pair { IfSome result (λ r. (r.0.table_id ≡ shared.now.turn.table.shared.table_id) ×
        (r.1.table_id ≡ shared.now.turn.table.shared.table_id)) }
{
    let one = last(shared, passes)?;
    let other = last(shared, passes)?;
    Some((one, other))
}

// Four passes of those that are left.
fn fours<C: Channel>(shared: &Shared<C>, passes: &mut Vec<Pass>) -> Option<Four>
    requires { All (λ p. p.table_id ≡ shared.now.turn.table.shared.table_id) passes.old.items }
    ensures left { All (λ p. p.table_id ≡ shared.now.turn.table.shared.table_id) passes.new.items }
    ensures one { IfSome result (λ r. (r.0.0.table_id ≡ shared.now.turn.table.shared.table_id) ×
        (r.0.1.table_id ≡ shared.now.turn.table.shared.table_id)) }
    ensures other { IfSome result (λ r. (r.1.0.table_id ≡ shared.now.turn.table.shared.table_id) ×
        (r.1.1.table_id ≡ shared.now.turn.table.shared.table_id)) }
{
    let one = pair(shared, passes)?;
    let other = pair(shared, passes)?;
    Some((one, other))
}

// The number of the next event that is left.
fn next_number<C: Channel>(channel: &mut C, txn: &mut TakeTxn) -> Option<u64> {
    match channel.take(txn) {
        Ok(
            Taken {
                event: Some(event),
                spilled: _,
            },
        ) => Some(number_in(&event)),
        _ => None,
    }
}

// The numbers of the events that are left, which stay there: all of them, where there is memory for these.
fn left_in<C: Channel>(channel: &mut C, left: &mut Vec<u64>) {
    let Ok(mut txn) = channel.begin_take() else {
        return;
    };
    for _ in 0..1000 {
        match next_number(channel, &mut txn) {
            Some(number) if left.push(number).is_ok() => {}
            _ => break,
        }
    }
    channel.rollback_take(txn);
}

// Whether these are the same numbers, in whatever order.
fn are_same(mut found: Vec<u64>, mut put: Vec<u64>) -> bool {
    found.sort().is_ok() && put.sort().is_ok() && found == put
}

// Whether each event that was put is taken or left, once, and the counts are the sums of what was done.
fn is_whole<C: Channel + Drop, R: Wait>(
    rt: &R,
    alloc: Global,
    shared: Shared<C>,
    work: Work,
    attempts: u64,
) -> bool
    requires { work.pass.table_id ≡ shared.turn.table.shared.table_id }
{
    let Work { pass, put, taken } = work;
    let Closed {
        mut channel,
        pass: _,
    } = shared.close(rt, pass);
    let counts = channel.counts();
    let mut found = Vec::new(alloc);
    left_in(&mut channel, &mut found);
    let is_counted = counts.put_attempts == attempts
        && counts.put_successes == put.len() as u64
        && counts.take_successes == taken.len() as u64
        && counts.size == found.len() as u64;
    let is_joined = found.extend_from_slice(&taken).is_ok();
    let is_same = are_same(found, put);
    is_counted && is_joined && is_same
}

fn two_are_whole<C: Channel + Drop + Send, R: Threads + Wait + Sync>(
    rt: &R,
    alloc: Global,
    opened: Opened<C>,
) -> bool
    requires { IfSome opened (λ r. All (λ p. p.table_id ≡ r.0.turn.table.shared.table_id)
        r.1.items) }
{
    let Some((shared, mut passes)) = opened else {
        return false;
    };
    match pair(&shared, &mut passes) {
        Some(both) => {
            let work = two(rt, alloc, &shared, both, 0);
            is_whole(rt, alloc, shared, work, 2 * u64::from(EVENTS))
        }
        None => false,
    }
}

fn eight<C: Channel + Drop + Send, R: Threads + Wait + Sync>(
    rt: &R,
    alloc: Global,
    shared: &Shared<C>,
    one: Four,
    other: Four,
) -> Work
    requires a { (one.0.0.table_id ≡ shared.now.turn.table.shared.table_id) ×
        (one.0.1.table_id ≡ shared.now.turn.table.shared.table_id) }
    requires b { (one.1.0.table_id ≡ shared.now.turn.table.shared.table_id) ×
        (one.1.1.table_id ≡ shared.now.turn.table.shared.table_id) }
    requires c { (other.0.0.table_id ≡ shared.now.turn.table.shared.table_id) ×
        (other.0.1.table_id ≡ shared.now.turn.table.shared.table_id) }
    requires d { (other.1.0.table_id ≡ shared.now.turn.table.shared.table_id) ×
        (other.1.1.table_id ≡ shared.now.turn.table.shared.table_id) }
    ensures { result.pass.table_id ≡ shared.now.turn.table.shared.table_id }
{
    let (a, b) = one;
    let (c, d) = other;
    let (first, second) = join(
        rt,
        move || -> Work
            requires one { (a.0.table_id ≡ shared.now.turn.table.shared.table_id) ×
                (a.1.table_id ≡ shared.now.turn.table.shared.table_id) }
            requires other { (b.0.table_id ≡ shared.now.turn.table.shared.table_id) ×
                (b.1.table_id ≡ shared.now.turn.table.shared.table_id) }
            ensures { result.pass.table_id ≡ shared.entry.now.turn.table.shared.table_id }
        { four(rt, alloc, shared, a, b, 0) },
        move || -> Work
            requires one { (c.0.table_id ≡ shared.now.turn.table.shared.table_id) ×
                (c.1.table_id ≡ shared.now.turn.table.shared.table_id) }
            requires other { (d.0.table_id ≡ shared.now.turn.table.shared.table_id) ×
                (d.1.table_id ≡ shared.now.turn.table.shared.table_id) }
            ensures { result.pass.table_id ≡ shared.entry.now.turn.table.shared.table_id }
        { four(rt, alloc, shared, c, d, 100_000) },
    );
    both(shared, first, second)
}

// The work of eight threads, through these passes.
fn eight_by<C: Channel + Drop + Send, R: Threads + Wait + Sync>(
    rt: &R,
    alloc: Global,
    shared: &Shared<C>,
    passes: &mut Vec<Pass>,
) -> Option<Work>
    requires { All (λ p. p.table_id ≡ shared.now.turn.table.shared.table_id) passes.old.items }
    ensures { IfSome result (λ work. work.pass.table_id ≡ shared.now.turn.table.shared.table_id) }
{
    let one = fours(shared, passes)?;
    let other = fours(shared, passes)?;
    Some(eight(rt, alloc, shared, one, other))
}

fn eight_are_whole<C: Channel + Drop + Send, R: Threads + Wait + Sync>(
    rt: &R,
    alloc: Global,
    opened: Opened<C>,
) -> bool
    requires { IfSome opened (λ r. All (λ p. p.table_id ≡ r.0.turn.table.shared.table_id)
        r.1.items) }
{
    let Some((shared, mut passes)) = opened else {
        return false;
    };
    match eight_by(rt, alloc, &shared, &mut passes) {
        Some(work) => is_whole(rt, alloc, shared, work, 8 * u64::from(EVENTS)),
        None => false,
    }
}

#[test]
fn two_threads_lose_and_double_nothing(rt: HostRuntime) {
    let alloc = rt.alloc();
    assert!(rt;
        two_are_whole(&rt, alloc, on_disk(alloc, MemDisk::new(alloc), 2)),
        "on a disk"
    );
    assert!(rt; two_are_whole(&rt, alloc, in_memory(alloc, 2)), "in memory");
    assert!(rt; two_are_whole(&rt, alloc, plain(alloc, 2)), "plain");
}

#[test]
fn eight_threads_lose_and_double_nothing(rt: HostRuntime) {
    let alloc = rt.alloc();
    assert!(rt;
        eight_are_whole(&rt, alloc, on_disk(alloc, MemDisk::new(alloc), 8)),
        "on a disk"
    );
    assert!(rt;
        eight_are_whole(&rt, alloc, in_memory(alloc, 8)),
        "in memory"
    );
    assert!(rt; eight_are_whole(&rt, alloc, plain(alloc, 8)), "plain");
}

// Batches of a source that two threads accept beside each other, each through an intake of its own ports to the same two channels.
ghost use Rattle.std.specs.Prelude.{◌≡◌, All, IfSome};

use crate::in_memory::in_memory;
use crate::many::{last, pair};
use crate::sharing::Opened;
use crate::work::batch_of;
use channel_face::{Channel, PutFace};
use selectors::Selector;
use shared_channel::{Closed, Pass, Port, Shared};
use source_put::{Chain, HostNames, Intake, Verdict};
use std::alloc::Global;
use std::sync::Wait;
use std::thread::{Threads, join};

const BATCHES: u32 = 40;

// An intake whose events go to both ports.
fn intake_of<F: PutFace + Drop>(alloc: Global, one: F, other: F) -> Option<Intake<F>> {
    let mut ports = Vec::with_capacity(alloc, 2).ok()?;
    ports.push_reserved(one);
    ports.push_reserved(other);
    let selector = Selector::Replicating {
        channels: 2,
        optional: Vec::new(alloc),
    };
    let host = HostNames {
        name: String::new(alloc),
        address: String::new(alloc),
    };
    let chain = Chain {
        links: Vec::new(alloc),
    };
    Intake::new(alloc, chain, selector, host, ports).ok()
}

// How many batches of one event were taken, whose numbers begin with this one.
fn taken<F: PutFace + Drop>(alloc: Global, intake: &mut Intake<F>, first: u64) -> u32 {
    let mut taken = 0u32;
    for i in 0..BATCHES {
        if let Ok(batch) = batch_of(alloc, first.wrapping_add(u64::from(i))) {
            if intake.accept(batch, 0) == Verdict::Taken {
                taken = taken.saturating_add(1);
            }
        }
    }
    taken
}

// The same through ports of these passes, one of each channel.
fn accepted<C: Channel, R: Wait>(
    rt: &R,
    alloc: Global,
    one: (&Shared<C>, Pass),
    other: (&Shared<C>, Pass),
    first: u64,
) -> u32
    requires one { one.1.table_id ≡ one.0.now.turn.table.shared.table_id }
    requires other { other.1.table_id ≡ other.0.now.turn.table.shared.table_id }
{
    let a = Port::new(rt, one.0, one.1);
    let b = Port::new(rt, other.0, other.1);
    match intake_of(alloc, a, b) {
        Some(mut intake) => taken(alloc, &mut intake, first),
        None => 0,
    }
}

// How many batches two threads have taken together.
fn both<C: Channel + Drop + Send, R: Threads + Wait + Sync>(
    rt: &R,
    alloc: Global,
    one: &Shared<C>,
    other: &Shared<C>,
    passes: ((Pass, Pass), (Pass, Pass)),
) -> u32
    requires a { (passes.0.0.table_id ≡ one.now.turn.table.shared.table_id) ×
        (passes.0.1.table_id ≡ one.now.turn.table.shared.table_id) }
    requires b { (passes.1.0.table_id ≡ other.now.turn.table.shared.table_id) ×
        (passes.1.1.table_id ≡ other.now.turn.table.shared.table_id) }
{
    let ((a, b), (c, d)) = passes;
    let (first, second) = join(
        rt,
        move || -> u32
            requires { (a.table_id ≡ one.now.turn.table.shared.table_id) ×
                (c.table_id ≡ other.now.turn.table.shared.table_id) }
        { accepted(rt, alloc, (one, a), (other, c), 0) },
        move || -> u32
            requires { (b.table_id ≡ one.now.turn.table.shared.table_id) ×
                (d.table_id ≡ other.now.turn.table.shared.table_id) }
        { accepted(rt, alloc, (one, b), (other, d), 1000) },
    );
    first.saturating_add(second)
}

// How many events a channel holds in the end.
fn held<C: Channel + Drop, R: Wait>(rt: &R, shared: Shared<C>, pass: Pass) -> u64
    requires { pass.table_id ≡ shared.turn.table.shared.table_id }
{
    let Closed { channel, pass: _ } = shared.close(rt, pass);
    channel.counts().size
}

// A channel that was shared, with two of its passes, and one more.
fn with_three<C: Channel + Drop>(opened: Opened<C>) -> Option<(Shared<C>, (Pass, Pass), Pass)>
    requires { IfSome opened (λ r. All (λ p. p.table_id ≡ r.0.turn.table.shared.table_id)
        r.1.items) }
    ensures both { IfSome result (λ r. (r.1.0.table_id ≡ r.0.turn.table.shared.table_id) ×
        (r.1.1.table_id ≡ r.0.turn.table.shared.table_id)) }
    ensures other { IfSome result (λ r. r.2.table_id ≡ r.0.turn.table.shared.table_id) }
{
    let (shared, mut passes) = opened?;
    let both = pair(&shared, &mut passes)?;
    let other = last(&shared, &mut passes)?;
    Some((shared, both, other))
}

// How many batches two threads have taken, and how many events each of the two channels then holds.
fn counted<C: Channel + Drop + Send, R: Threads + Wait + Sync>(
    rt: &R,
    alloc: Global,
    one: Opened<C>,
    other: Opened<C>,
) -> Option<(u32, u64, u64)>
    requires one { IfSome one (λ r. All (λ p. p.table_id ≡ r.0.turn.table.shared.table_id)
        r.1.items) }
    requires other { IfSome other (λ r. All (λ p. p.table_id ≡ r.0.turn.table.shared.table_id)
        r.1.items) }
{
    match (with_three(one), with_three(other)) {
        (Some((one, a, c)), Some((other, b, d))) => {
            let taken = both(rt, alloc, &one, &other, (a, b));
            Some((taken, held(rt, one, c), held(rt, other, d)))
        }
        _ => None,
    }
}

#[test]
fn two_threads_put_batches_into_two_channels(rt: HostRuntime) {
    let alloc = rt.alloc();
    let found = counted(&rt, alloc, in_memory(alloc, 3), in_memory(alloc, 3));
    let all = 2 * u64::from(BATCHES);
    assert!(rt; found == Some((2 * BATCHES, all, all)));
}

// A disk whose sync waits for a commit of another channel: the turn of one channel does not hold another up.
ghost use Rattle.std.specs.Prelude.{◌≡◌, IfSome};

use crate::sharing::{LIMITS, on_disk_by};
use crate::staged::{one_on, put_by_port, with_pass};
use channel_face::{Channel, FaceRefused};
use file_channel::FileChannel;
use host_memory::{DiskCall, Flag, HeldDisk, MemDisk};
use shared_channel::{Pass, Shared};
use std::alloc::Global;
use std::marker::Brand;
use std::sync::Wait;
use std::sync::ledger::Blank;
use std::test::Fail;
use std::thread::{Threads, join};

// What a put through a port answered, where there was memory for it.
type Answer = Option<Result<u64, FaceRefused>>;

// Where the two threads are: a sync waits, and the other commit was answered.
#[derive(Drop)]
struct Gate {
    waits: Flag,
    answered: Flag,
}

// A channel on such a disk, which no call has been made of, with a pass.
fn opened(alloc: Global, disk: HeldDisk) -> Option<(Shared<FileChannel<HeldDisk>>, Pass)>
    ensures { IfSome result (λ r. r.1.table_id ≡ r.0.turn.table.shared.table_id) }
{
    with_pass(on_disk_by::<HeldDisk, Brand>(alloc, Blank::new(1), disk, LIMITS, 1))
}

// Puts once a sync of the other channel waits, and lets that go on. Where none came in time there is no answer.
fn put_meanwhile<C: Channel, R: Wait>(
    rt: &R,
    alloc: Global,
    gate: &Gate,
    shared: &Shared<C>,
    pass: Pass,
) -> Answer
    requires { pass.table_id ≡ shared.now.turn.table.shared.table_id }
{
    let has_come = gate.waits.wait();
    let (_, reply) = put_by_port(rt, alloc, shared, pass);
    gate.answered.set();
    if has_come { reply } else { None }
}

// A put in the one channel, and beside its sync a put in the other.
fn puts_beside_a_sync<A: Channel + Drop + Send, B: Channel + Drop + Send, R: Threads + Wait + Sync>(
    rt: &R,
    alloc: Global,
    gate: &Gate,
    one: &Shared<A>,
    a: Pass,
    two: &Shared<B>,
    b: Pass,
) -> (Answer, Answer)
    requires a { a.table_id ≡ one.now.turn.table.shared.table_id }
    requires b { b.table_id ≡ two.now.turn.table.shared.table_id }
{
    join(
        rt,
        move || -> Answer
            requires { a.table_id ≡ one.now.turn.table.shared.table_id }
        { put_by_port(rt, alloc, one, a).1 },
        move || -> Answer
            requires { b.table_id ≡ two.now.turn.table.shared.table_id }
        { put_meanwhile(rt, alloc, gate, two, b) },
    )
}

// Two flags that are not set.
fn new_gate(alloc: Global) -> Result<Gate, Fail> {
    let waits = Flag::new(alloc)?;
    let answered = Flag::new(alloc)?;
    Ok(Gate { waits, answered })
}

// A disk whose syncs wait at a gate. A sync that waits in vain fails.
fn held_disk(alloc: Global, gate: &Gate) -> Result<HeldDisk, Fail> {
    let begun = gate.waits.handle()?;
    let until = gate.answered.handle()?;
    Ok(HeldDisk::new(MemDisk::new(alloc), DiskCall::Sync, begun, until))
}

// The same in two channels, each with a pass.
fn puts_in<A: Channel + Drop + Send, B: Channel + Drop + Send, R: Threads + Wait + Sync>(
    rt: &R,
    alloc: Global,
    gate: &Gate,
    one: Option<(Shared<A>, Pass)>,
    other: Option<(Shared<B>, Pass)>,
) -> (Answer, Answer)
    requires one { IfSome one (λ r. r.1.table_id ≡ r.0.turn.table.shared.table_id) }
    requires other { IfSome other (λ r. r.1.table_id ≡ r.0.turn.table.shared.table_id) }
{
    match (one, other) {
        (Some((one, a)), Some((other, b))) => {
            puts_beside_a_sync(rt, alloc, gate, &one, a, &other, b)
        }
        _ => (None, None),
    }
}

// The same in a channel on a disk whose syncs wait at the gate, and in another.
fn answers<R: Threads + Wait + Sync>(
    rt: &R,
    alloc: Global,
    gate: &Gate,
    disk: HeldDisk,
) -> (Answer, Answer) {
    // no sync of the opening waits
    gate.answered.set();
    let held = opened(alloc, disk);
    gate.answered.clear();
    puts_in(rt, alloc, gate, held, one_on(alloc, MemDisk::new(alloc)))
}

#[test]
fn gate_sync(rt: HostRuntime) -> Result<(), Fail> {
    let alloc = rt.alloc();
    let gate = new_gate(alloc)?;
    let disk = held_disk(alloc, &gate)?;
    assert!(rt; answers(&rt, alloc, &gate, disk) == (Some(Ok(0)), Some(Ok(0))));
    Ok(())
}

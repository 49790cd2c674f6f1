// Worked examples of channels, by two who share one: a full channel, and commits and rollbacks the other way round.
ghost use Rattle.std.specs.Prelude.{◌≡◌, All, IfSome};

use crate::in_memory::{in_memory, plain};
use crate::many::pair;
use crate::sharing::{LIMITS, Opened, on_disk_by};
use channel_face::{
    BeginRefused, Channel, CommitRefused, Limits, PutRefused, PutTxn, StageRefused, TakeRefused,
    TakeTxn, Taken, Ticket,
};
use event_core::Event;
use file_channel::FileChannel;
use host_memory::MemDisk;
use scenarios::{value_of, word_and_rest};
use shared_channel::{Pass, Shared};
use std::alloc::Global;
use std::marker::Brand;
use std::sync::Wait;
use std::sync::ledger::Blank;
use test_fixtures::event;

// A channel with room for two events is full, until a taker has committed. Each line says who makes a call, and what it answers.
const FULL: &str = "a begin-put > token 1
a put 1 a > done
a put 1 b > done
a put 1 c > full 2
a commit-put 1 > first 0
b begin-take > token 2
b take 2 > event a
a begin-put > token 3
a put 3 c > full 2
b commit-take 2 > first 0
a put 3 c > done
b size > count 1";

// Two put and commit the other way round; each takes one event, and they roll back the other way round.
const TURNED: &str = "a begin-put > token 1
b begin-put > token 2
a put 1 x > done
b put 2 y > done
b commit-put 2 > first 0
a commit-put 1 > first 1
a begin-take > token 3
b begin-take > token 4
a take 3 > event y
b take 4 > event x
a take 3 > no-event
b rollback-take 4 > ended
a rollback-take 3 > ended
b take 4 > stale
a begin-take > token 5
a take 5 > event y
a take 5 > event x
b size > count 2
a commit-take 5 > first 0
b size > count 0";

// A call. Its token is of the channel's first life, and named by the number of its transaction. The value is a byte.
#[derive(Clone, Copy)]
struct Call<'a> {
    word: &'a str,
    number: u64,
    value: u64,
}

// What a call answered: a word, and its number, which is 0 where it has none.
type Said = (&'static str, u64);

const OTHER: Said = ("other", 0);

fn call_of(text: &str) -> Call<'_> {
    let (word, rest) = word_and_rest(text);
    let (number, value) = word_and_rest(rest);
    Call {
        word,
        number: value_of(number),
        value: value_of(value),
    }
}

fn is_said(said: Said, want: &str) -> bool {
    let (word, number) = word_and_rest(want);
    said.0 == word && said.1 == value_of(number)
}

fn said_of_begin(reply: Result<(u64, u64), BeginRefused>) -> Said {
    match reply {
        Ok((_, number)) => ("token", number),
        Err(_) => OTHER,
    }
}

fn begin_put<C: Channel, R: Wait>(rt: &R, shared: &Shared<C>, pass: &mut Pass) -> Said
    requires { pass.old.table_id ≡ shared.now.turn.table.shared.table_id }
    ensures { pass.new.table_id ≡ pass.old.table_id }
{
    said_of_begin(match shared.begin_put(rt, pass) {
        Ok(txn) => Ok(txn.into_numbers()),
        Err(refused) => Err(refused),
    })
}

fn begin_take<C: Channel, R: Wait>(rt: &R, shared: &Shared<C>, pass: &mut Pass) -> Said
    requires { pass.old.table_id ≡ shared.now.turn.table.shared.table_id }
    ensures { pass.new.table_id ≡ pass.old.table_id }
{
    said_of_begin(match shared.begin_take(rt, pass) {
        Ok(txn) => Ok(txn.into_numbers()),
        Err(refused) => Err(refused),
    })
}

fn said_of_put(reply: Result<channel_face::Put, PutRefused>) -> Said {
    match reply {
        Ok(_) => ("done", 0),
        Err(PutRefused::Stale) => ("stale", 0),
        Err(PutRefused::Full { count }) => ("full", u64::from(count)),
        Err(_) => OTHER,
    }
}

fn put_event<C: Channel, R: Wait>(
    rt: &R,
    shared: &Shared<C>,
    pass: &mut Pass,
    number: u64,
    event: &Event,
) -> Said
    requires { pass.old.table_id ≡ shared.now.turn.table.shared.table_id }
    ensures { pass.new.table_id ≡ pass.old.table_id }
{
    let mut txn = PutTxn::new(1, number);
    let reply = shared.put(rt, pass, &mut txn, event);
    let _ended = txn.into_numbers();
    said_of_put(reply)
}

// Puts an event of this one byte.
fn put<C: Channel, R: Wait>(
    rt: &R,
    alloc: Global,
    shared: &Shared<C>,
    pass: &mut Pass,
    call: Call<'_>,
) -> Said
    requires { pass.old.table_id ≡ shared.now.turn.table.shared.table_id }
    ensures { pass.new.table_id ≡ pass.old.table_id }
{
    match event(alloc, &[(call.value % 256) as u8]) {
        Ok(event) => put_event(rt, shared, pass, call.number, &event),
        Err(_) => OTHER,
    }
}

fn said_of_event(event: &Option<Event>) -> Said {
    match event {
        Some(event) => match event.body() {
            [byte] => ("event", u64::from(*byte)),
            _ => OTHER,
        },
        None => ("no-event", 0),
    }
}

fn said_of_take(reply: &Result<Taken, TakeRefused>) -> Said {
    match reply {
        Ok(taken) => said_of_event(&taken.event),
        Err(TakeRefused::Stale) => ("stale", 0),
        Err(_) => OTHER,
    }
}

fn take<C: Channel, R: Wait>(rt: &R, shared: &Shared<C>, pass: &mut Pass, number: u64) -> Said
    requires { pass.old.table_id ≡ shared.now.turn.table.shared.table_id }
    ensures { pass.new.table_id ≡ pass.old.table_id }
{
    let mut txn = TakeTxn::new(1, number);
    let reply = shared.take(rt, pass, &mut txn);
    let _ended = txn.into_numbers();
    said_of_take(&reply)
}

fn said_of_put_commit(reply: Result<Ticket, CommitRefused<PutTxn>>) -> Said {
    match reply {
        Ok(ticket) => ("first", ticket.first),
        Err(CommitRefused::Stage(StageRefused { txn, cause: _ })) => {
            let _ended = txn.into_numbers();
            OTHER
        }
        Err(CommitRefused::InDoubt) => OTHER,
    }
}

fn said_of_take_commit(reply: Result<Ticket, CommitRefused<TakeTxn>>) -> Said {
    match reply {
        Ok(ticket) => ("first", ticket.first),
        Err(CommitRefused::Stage(StageRefused { txn, cause: _ })) => {
            let _ended = txn.into_numbers();
            OTHER
        }
        Err(CommitRefused::InDoubt) => OTHER,
    }
}

fn said_of_end(is_ended: bool) -> Said {
    if is_ended { ("ended", 0) } else { OTHER }
}

// Makes a call through a pass.
fn made<C: Channel, R: Wait>(
    rt: &R,
    alloc: Global,
    shared: &Shared<C>,
    pass: &mut Pass,
    call: Call<'_>,
) -> Said
    requires { pass.old.table_id ≡ shared.now.turn.table.shared.table_id }
    ensures { pass.new.table_id ≡ pass.old.table_id }
{
    let number = call.number;
    match call.word {
        "begin-put" => begin_put(rt, shared, pass),
        "begin-take" => begin_take(rt, shared, pass),
        "put" => put(rt, alloc, shared, pass, call),
        "take" => take(rt, shared, pass, number),
        "commit-put" => said_of_put_commit(shared.commit_put(rt, pass, PutTxn::new(1, number))),
        "commit-take" => said_of_take_commit(shared.commit_take(rt, pass, TakeTxn::new(1, number))),
        "rollback-take" => said_of_end(shared.rollback_take(rt, pass, TakeTxn::new(1, number))),
        _ => ("count", shared.size(rt, pass)),
    }
}

// Makes a call through the pass of the one who makes it.
fn made_by<C: Channel, R: Wait>(
    rt: &R,
    alloc: Global,
    shared: &Shared<C>,
    a: &mut Pass,
    b: &mut Pass,
    by: &str,
    call: Call<'_>,
) -> Said
    requires { (a.old.table_id ≡ shared.now.turn.table.shared.table_id) ×
        (b.old.table_id ≡ shared.now.turn.table.shared.table_id) }
    ensures { (a.new.table_id ≡ a.old.table_id) × (b.new.table_id ≡ b.old.table_id) }
{
    match by {
        "a" => made(rt, alloc, shared, a, call),
        _ => made(rt, alloc, shared, b, call),
    }
}

// Whether a call answers as its line has it, as `a put 1 x > done`.
fn holds<C: Channel, R: Wait>(
    rt: &R,
    alloc: Global,
    shared: &Shared<C>,
    a: &mut Pass,
    b: &mut Pass,
    line: &str,
) -> bool
    requires { (a.old.table_id ≡ shared.now.turn.table.shared.table_id) ×
        (b.old.table_id ≡ shared.now.turn.table.shared.table_id) }
    ensures { (a.new.table_id ≡ a.old.table_id) × (b.new.table_id ≡ b.old.table_id) }
{
    let (by, rest) = word_and_rest(line);
    let (call, want) = rest.split_once(" > ").unwrap_or((rest, ""));
    is_said(made_by(rt, alloc, shared, a, b, by, call_of(call)), want)
}

// The first line that does not hold, if there is one.
fn first_wrong<C: Channel, R: Wait>(
    rt: &R,
    alloc: Global,
    shared: &Shared<C>,
    mut a: Pass,
    mut b: Pass,
    lines: &'static str,
) -> &'static str
    requires { (a.table_id ≡ shared.now.turn.table.shared.table_id) ×
        (b.table_id ≡ shared.now.turn.table.shared.table_id) }
{
    for line in lines.lines() {
        if !holds(rt, alloc, shared, &mut a, &mut b, line) {
            return line;
        }
    }
    ""
}

// The same of a channel that was just shared with two passes.
fn first_wrong_in<C: Channel + Drop, R: Wait>(
    rt: &R,
    alloc: Global,
    opened: Opened<C>,
    lines: &'static str,
) -> &'static str
    requires { IfSome opened (λ r. All (λ p. p.table_id ≡ r.0.turn.table.shared.table_id)
        r.1.items) }
{
    let Some((shared, mut passes)) = opened else {
        return "no channel";
    };
    match pair(&shared, &mut passes) {
        Some((b, a)) => first_wrong(rt, alloc, &shared, a, b, lines),
        None => "no pass",
    }
}

// With room for two events.
const TWO: Limits = Limits {
    capacity: 2,
    txn_capacity: 10,
    max_file: 1_000_000,
};

// A channel in a new folder, with two passes.
fn on_disk(alloc: Global, limits: Limits) -> Opened<FileChannel<MemDisk>>
    ensures { IfSome result (λ r. All (λ p. p.table_id ≡ r.0.turn.table.shared.table_id)
        r.1.items) }
{
    on_disk_by::<MemDisk, Brand>(alloc, Blank::new(1), MemDisk::new(alloc), limits, 2)
}

#[test]
fn a_channel_is_full_for_all_who_share_it(rt: HostRuntime) {
    let wrong = first_wrong_in(&rt, rt.alloc(), on_disk(rt.alloc(), TWO), FULL);
    assert!(rt; wrong.is_empty(), "{wrong}");
}

#[test]
fn commits_and_rollbacks_are_turned_round(rt: HostRuntime) {
    let alloc = rt.alloc();
    let wrong = first_wrong_in(&rt, alloc, on_disk(alloc, LIMITS), TURNED);
    assert!(rt; wrong.is_empty(), "on a disk: {wrong}");
    let wrong = first_wrong_in(&rt, alloc, plain(alloc, 2), TURNED);
    assert!(rt; wrong.is_empty(), "plain: {wrong}");
    let wrong = first_wrong_in(&rt, alloc, in_memory(alloc, 2), TURNED);
    assert!(rt; wrong.is_empty(), "in memory: {wrong}");
}

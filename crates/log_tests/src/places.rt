// Rows of calls on what a channel keeps, each with what it answers: bodies are known by the offsets of their records.
ghost use Rattle.std.specs.Prelude.{◌≡◌, IfOk};

use channel_face::{
    BeginRefused, Limits, PutRefused, PutTxn, Settled, StageCause, TakeRefused, TakeTxn, Ticket,
};
use channel_places::Held;
use event_core::NoMemory;
use event_ring::Ring;
use record_form::Pointer;
use std::alloc::Global;
use std::test::Fail;

// A call. Tokens are of the first life, and named by the number of their transaction.
#[derive(Clone, Copy, Debug)]
enum Step {
    BeginPut,
    BeginTake,
    // An event whose record stands at this offset.
    Put(u64, u64),
    Take(u64),
    StagePut(u64),
    StageTake(u64),
    RollbackPut(u64),
    RollbackTake(u64),
    Flush,
    Break,
    // What the ticket of the last stage is.
    Asked,
    Size,
}

// What a call answered.
#[derive(Clone, Copy, Debug, PartialEq, Eq)]
enum Said {
    Token(u64),
    Done,
    // The first number of a ticket.
    First(u64),
    // The number of an event and the offset of its record.
    Event(u64, u64),
    NoEvent,
    Ended(bool),
    Number(usize),
    Is(Settled),
    Full(u32),
    Stale,
    Broken,
    Other,
}

type Row = (Step, Said);

// A full channel, until a taker has committed.
const FULL: [Row; 16] = [
    (Step::BeginPut, Said::Token(1)),
    (Step::Put(1, 30), Said::Done),
    (Step::Put(1, 60), Said::Done),
    (Step::Put(1, 90), Said::Full(2)),
    (Step::StagePut(1), Said::First(0)),
    (Step::Asked, Said::Is(Settled::No)),
    (Step::Flush, Said::Done),
    (Step::Asked, Said::Is(Settled::Yes)),
    (Step::BeginTake, Said::Token(2)),
    (Step::Take(2), Said::Event(0, 30)),
    (Step::BeginPut, Said::Token(3)),
    (Step::Put(3, 90), Said::Full(2)),
    (Step::StageTake(2), Said::First(0)),
    (Step::Flush, Said::Done),
    (Step::Put(3, 90), Said::Done),
    (Step::Size, Said::Number(1)),
];

// Two transactions that commit the other way round, and two takers that roll back the other way round.
const TURNED: [Row; 22] = [
    (Step::BeginPut, Said::Token(1)),
    (Step::BeginPut, Said::Token(2)),
    (Step::Put(1, 30), Said::Done),
    (Step::Put(2, 60), Said::Done),
    (Step::StagePut(2), Said::First(0)),
    (Step::StagePut(1), Said::First(1)),
    (Step::Flush, Said::Done),
    (Step::BeginTake, Said::Token(3)),
    (Step::BeginTake, Said::Token(4)),
    (Step::Take(3), Said::Event(0, 60)),
    (Step::Take(4), Said::Event(1, 30)),
    (Step::Take(3), Said::NoEvent),
    (Step::RollbackTake(4), Said::Ended(true)),
    (Step::RollbackTake(3), Said::Ended(true)),
    (Step::Take(4), Said::Stale),
    (Step::BeginTake, Said::Token(5)),
    (Step::Take(5), Said::Event(0, 60)),
    (Step::Take(5), Said::Event(1, 30)),
    (Step::StageTake(5), Said::First(0)),
    (Step::Size, Said::Number(2)),
    (Step::Flush, Said::Done),
    (Step::Size, Said::Number(0)),
];

// A flush fails: what was staged is in doubt, and no call but a rollback goes on.
const FAILED: [Row; 12] = [
    (Step::BeginPut, Said::Token(1)),
    (Step::BeginPut, Said::Token(2)),
    (Step::Put(1, 30), Said::Done),
    (Step::Put(2, 60), Said::Done),
    (Step::StagePut(1), Said::First(0)),
    (Step::Break, Said::Done),
    (Step::Asked, Said::Is(Settled::InDoubt)),
    (Step::Put(2, 90), Said::Broken),
    (Step::StagePut(2), Said::Broken),
    (Step::BeginTake, Said::Broken),
    (Step::RollbackPut(2), Said::Ended(true)),
    (Step::RollbackPut(2), Said::Ended(false)),
];

fn said_of_begin(reply: Result<(u64, u64), BeginRefused>) -> Said {
    match reply {
        Ok((_, number)) => Said::Token(number),
        Err(BeginRefused::Broken) => Said::Broken,
        Err(_) => Said::Other,
    }
}

fn begin_put(held: &mut Held) -> Said {
    said_of_begin(match held.begin_put() {
        Ok(txn) => Ok(txn.into_numbers()),
        Err(refused) => Err(refused),
    })
}

fn begin_take(held: &mut Held) -> Said {
    said_of_begin(match held.begin_take() {
        Ok(txn) => Ok(txn.into_numbers()),
        Err(refused) => Err(refused),
    })
}

fn put(held: &mut Held, txn: &PutTxn, at: u64) -> Said {
    match held.put_refusal(txn, 9) {
        None => {
            held.put(
                txn,
                Pointer {
                    file: 1,
                    at,
                    length: 9,
                },
            );
            Said::Done
        }
        Some(PutRefused::Stale) => Said::Stale,
        Some(PutRefused::Broken) => Said::Broken,
        Some(PutRefused::Full { count }) => Said::Full(count),
        Some(_) => Said::Other,
    }
}

fn take(held: &mut Held, txn: &TakeTxn) -> Said {
    match held.take_refusal(txn) {
        None => {
            let found = held.first_free();
            held.take(txn);
            match found {
                Some((number, pointer)) => Said::Event(number, pointer.at),
                None => Said::NoEvent,
            }
        }
        Some(TakeRefused::Stale) => Said::Stale,
        Some(TakeRefused::Broken) => Said::Broken,
        Some(_) => Said::Other,
    }
}

fn said_of_stage(cause: StageCause) -> Said {
    match cause {
        StageCause::Stale => Said::Stale,
        StageCause::Broken => Said::Broken,
        _ => Said::Other,
    }
}

fn stage_put(held: &mut Held, txn: &PutTxn, ticket: &mut Ticket) -> Said {
    match held.stage_put_refusal(txn) {
        None => {
            *ticket = held.put_ticket(txn);
            held.stage(txn.number());
            Said::First(ticket.first)
        }
        Some(cause) => said_of_stage(cause),
    }
}

fn stage_take(held: &mut Held, txn: &TakeTxn, ticket: &mut Ticket) -> Said {
    match held.stage_take_refusal(txn) {
        None => {
            *ticket = held.take_ticket(txn);
            held.stage(txn.number());
            Said::First(ticket.first)
        }
        Some(cause) => said_of_stage(cause),
    }
}

fn roll_back_put(held: &mut Held, txn: &PutTxn) -> Said {
    let is_open = held.has_puts(txn);
    if is_open {
        held.drop_puts(txn.number());
    }
    Said::Ended(is_open)
}

fn roll_back_take(held: &mut Held, txn: &TakeTxn) -> Said {
    let is_open = held.has_takes(txn);
    if is_open {
        held.drop_takes(txn.number());
    }
    Said::Ended(is_open)
}

// A call by a token of puts.
fn by_puts(held: &mut Held, number: u64, step: Step, ticket: &mut Ticket) -> Said {
    let txn = PutTxn::new(1, number);
    let said = match step {
        Step::Put(_, at) => put(held, &txn, at),
        Step::StagePut(_) => stage_put(held, &txn, ticket),
        Step::RollbackPut(_) => roll_back_put(held, &txn),
        _ => Said::Other,
    };
    let _numbers = txn.into_numbers();
    said
}

// A call by a token of takes.
fn by_takes(held: &mut Held, number: u64, step: Step, ticket: &mut Ticket) -> Said {
    let txn = TakeTxn::new(1, number);
    let said = match step {
        Step::Take(_) => take(held, &txn),
        Step::StageTake(_) => stage_take(held, &txn, ticket),
        Step::RollbackTake(_) => roll_back_take(held, &txn),
        _ => Said::Other,
    };
    let _numbers = txn.into_numbers();
    said
}

fn answer(held: &mut Held, step: Step, ticket: &mut Ticket) -> Said {
    match step {
        Step::BeginPut => begin_put(held),
        Step::BeginTake => begin_take(held),
        Step::Put(number, _) | Step::StagePut(number) | Step::RollbackPut(number) => {
            by_puts(held, number, step, ticket)
        }
        Step::Take(number) | Step::StageTake(number) | Step::RollbackTake(number) => {
            by_takes(held, number, step, ticket)
        }
        Step::Flush => {
            held.settle();
            Said::Done
        }
        Step::Break => {
            held.set_broken();
            Said::Done
        }
        Step::Asked => Said::Is(held.settled(ticket)),
        Step::Size => Said::Number(held.size()),
    }
}

// What an empty channel of this capacity keeps.
fn fresh(alloc: Global, capacity: u32) -> Result<Held, NoMemory>
    ensures { IfOk result (λ held. (held.numbers.rules.limits.capacity ≡ capacity)
        × (held.numbers.life ≡ 1)) }
{
    let limits = Limits {
        capacity,
        txn_capacity: 10,
        max_file: 1_000,
    };
    let ring = Ring::make(alloc, capacity)?;
    let held = Held::open(alloc, ring, limits, 0, 1)?;
    Ok(held)
}

struct Example {
    name: &'static str,
    capacity: u32,
    rows: &'static [Row],
}

const EXAMPLES: [Example; 3] = [
    Example {
        name: "full",
        capacity: 2,
        rows: &FULL,
    },
    Example {
        name: "turned",
        capacity: 10,
        rows: &TURNED,
    },
    Example {
        name: "failed",
        capacity: 10,
        rows: &FAILED,
    },
];

#[test]
fn calls_answer_as_the_rows_say(rt: HostRuntime) -> Result<(), Fail> {
    for example in &EXAMPLES {
        let name = example.name;
        let mut held = fresh(rt.alloc(), example.capacity)?;
        let mut ticket = Ticket {
            life: 0,
            frame: 0,
            first: 0,
            count: 0,
        };
        for row in example.rows {
            let (step, said) = *row;
            assert!(rt;
                answer(&mut held, step, &mut ticket) == said,
                "{name}: {step:?}"
            );
        }
    }
    Ok(())
}

// What a channel keeps in its second life, in which the event of number 4 is left.
fn second_life(alloc: Global) -> Result<Held, NoMemory> {
    let mut held = fresh(alloc, 2)?;
    let mut ring = Ring::make(alloc, 2)?;
    ring.push(
        4,
        Pointer {
            file: 1,
            at: 30,
            length: 9,
        },
    );
    let ends = held.next_ends()?;
    held.renew(ends, ring, 5, 9);
    Ok(held)
}

#[test]
fn a_new_life_has_what_its_ring_has(rt: HostRuntime) -> Result<(), Fail> {
    let mut held = second_life(rt.alloc())?;
    assert!(rt; held.life() == 2 && held.size() == 1);
    let old = PutTxn::new(1, 1);
    assert!(rt; put(&mut held, &old, 60) == Said::Stale);
    let _numbers = old.into_numbers();
    assert!(rt; begin_take(&mut held) == Said::Token(9));
    let new = TakeTxn::new(2, 9);
    assert!(rt; take(&mut held, &new) == Said::Event(4, 30));
    assert!(rt; take(&mut held, &new) == Said::NoEvent);
    let _numbers = new.into_numbers();
    Ok(())
}

// Calls of a channel as lines of a text, each with what it answers after a `>`, as in `put 1 a > done`.
use channel_face::{
    BeginRefused, Channel, CommitRefused, Counter, Counts, FlushRefused, PutRefused, PutTxn,
    Settled, StageCause, StageRefused, TakeRefused, TakeTxn, Taken, Ticket,
};
use event_core::Event;
use scenarios::{value_of, word_and_rest};
use std::alloc::Global;
use test_fixtures::event;

/// A call: its token is of a life, and named by the number of its transaction. The value is a byte or a count.
#[derive(Clone, Copy)]
pub struct Call<'a> {
    pub word: &'a str,
    pub life: u64,
    pub number: u64,
    pub value: u64,
}

/// What a call answered: a word, and its number, which is 0 where it has none.
pub type Said = (&'static str, u64);

/// What no line expects.
pub const OTHER: Said = ("other", 0);

const DONE: Said = ("done", 0);

/// Whether this is what a line expects.
pub fn is_said(said: Said, want: &str) -> bool {
    let (word, number) = word_and_rest(want);
    said.0 == word && said.1 == value_of(number)
}

fn said_of_begin(reply: Result<(u64, u64), BeginRefused>) -> Said {
    match reply {
        Ok((_, number)) => ("token", number),
        Err(BeginRefused::Broken) => ("broken", 0),
        Err(BeginRefused::TooManyOpen { held }) => ("too-many-open", u64::from(held)),
        Err(_) => OTHER,
    }
}

// Begins a transaction of puts, whose token is then made again by its number.
fn begin_put<C: Channel>(channel: &mut C) -> Said {
    said_of_begin(match channel.begin_put() {
        Ok(txn) => Ok(txn.into_numbers()),
        Err(refused) => Err(refused),
    })
}

fn begin_take<C: Channel>(channel: &mut C) -> Said {
    said_of_begin(match channel.begin_take() {
        Ok(txn) => Ok(txn.into_numbers()),
        Err(refused) => Err(refused),
    })
}

// Begins so many transactions of puts, up to the first that has not the next number.
fn begin_puts<C: Channel>(channel: &mut C, count: u64) -> Said {
    for begun in 0..count {
        let said = begin_put(channel);
        if said != ("token", begun.saturating_add(1)) {
            return said;
        }
    }
    DONE
}

fn said_of_put(reply: Result<channel_face::Put, PutRefused>) -> Said {
    match reply {
        Ok(_) => DONE,
        Err(PutRefused::Stale) => ("stale", 0),
        Err(PutRefused::Broken) => ("broken", 0),
        Err(
            PutRefused::Spent {
                counter: Counter::File,
            },
        ) => ("spent-file", 0),
        Err(PutRefused::TooLarge { size }) => ("too-large", size),
        Err(PutRefused::Full { count }) => ("full", u64::from(count)),
        Err(PutRefused::DiskFault) => ("disk-fault", 0),
        Err(_) => OTHER,
    }
}

fn put_event<C: Channel>(channel: &mut C, call: Call<'_>, event: &Event) -> Said {
    let mut txn = PutTxn::new(call.life, call.number);
    let reply = channel.put(&mut txn, event);
    let _ended = txn.into_numbers();
    said_of_put(reply)
}

// An event whose body is so many times this byte.
fn event_of(alloc: Global, byte: u64, size: u64) -> Option<Event> {
    let byte = u8::try_from(byte).ok()?;
    let body = vec![in alloc; byte; size as usize].ok()?;
    event(alloc, &body).ok()
}

// Puts an event whose body is so many times this byte.
fn put<C: Channel>(alloc: Global, channel: &mut C, call: Call<'_>, byte: u64, size: u64) -> Said {
    match event_of(alloc, byte, size) {
        Some(event) => put_event(channel, call, &event),
        None => OTHER,
    }
}

fn said_of_event(event: &Option<Event>) -> Said {
    match event {
        Some(event) => match event.body() {
            [byte] => ("event", u64::from(*byte)),
            _ => OTHER,
        },
        None => ("no-event", 0),
    }
}

fn said_of_take(reply: &Result<Taken, TakeRefused>) -> Said {
    match reply {
        Ok(taken) => said_of_event(&taken.event),
        Err(TakeRefused::Stale) => ("stale", 0),
        Err(TakeRefused::Broken) => ("broken", 0),
        Err(
            TakeRefused::Spent {
                counter: Counter::File,
            },
        ) => ("spent-file", 0),
        Err(TakeRefused::DiskFault) => ("disk-fault", 0),
        Err(TakeRefused::ReadFault) => ("read-fault", 0),
        Err(_) => OTHER,
    }
}

fn take<C: Channel>(channel: &mut C, life: u64, number: u64) -> Said {
    let mut txn = TakeTxn::new(life, number);
    let said = said_of_take(&channel.take(&mut txn));
    let _ended = txn.into_numbers();
    said
}

// Takes so many events of one byte, up to the first that is none.
fn take_many<C: Channel>(channel: &mut C, call: Call<'_>) -> Said {
    for _ in 0..call.value {
        let said = take(channel, call.life, call.number);
        if said.0 != "event" {
            return said;
        }
    }
    DONE
}

fn said_of_stage(cause: StageCause) -> Said {
    match cause {
        StageCause::Stale => ("stale", 0),
        StageCause::Broken => ("broken", 0),
        StageCause::Full { count } => ("full", u64::from(count)),
        StageCause::Spent {
            counter: Counter::Number,
        } => ("spent-number", 0),
        StageCause::Spent { .. } => OTHER,
    }
}

// What was said in place of a ticket, where the token that was handed back is that of the call. The token ends.
fn put_not_staged(refused: StageRefused<PutTxn>, call: Call<'_>) -> Said {
    let StageRefused { txn, cause } = refused;
    if txn.into_numbers() != (call.life, call.number) {
        return OTHER;
    }
    said_of_stage(cause)
}

fn take_not_staged(refused: StageRefused<TakeTxn>, call: Call<'_>) -> Said {
    let StageRefused { txn, cause } = refused;
    if txn.into_numbers() != (call.life, call.number) {
        return OTHER;
    }
    said_of_stage(cause)
}

// Keeps a ticket, and says its first number.
fn keep(kept: &mut Ticket, ticket: Ticket) -> Said {
    *kept = ticket;
    ("first", ticket.first)
}

fn stage_put<C: Channel>(channel: &mut C, kept: &mut Ticket, call: Call<'_>) -> Said {
    match channel.stage_put(PutTxn::new(call.life, call.number)) {
        Ok(ticket) => keep(kept, ticket),
        Err(refused) => put_not_staged(refused, call),
    }
}

fn stage_take<C: Channel>(channel: &mut C, kept: &mut Ticket, call: Call<'_>) -> Said {
    match channel.stage_take(TakeTxn::new(call.life, call.number)) {
        Ok(ticket) => keep(kept, ticket),
        Err(refused) => take_not_staged(refused, call),
    }
}

fn commit_put<C: Channel>(channel: &mut C, kept: &mut Ticket, call: Call<'_>) -> Said {
    match channel.commit_put(PutTxn::new(call.life, call.number)) {
        Ok(ticket) => keep(kept, ticket),
        Err(CommitRefused::Stage(refused)) => put_not_staged(refused, call),
        Err(CommitRefused::InDoubt) => ("in-doubt", 0),
    }
}

fn commit_take<C: Channel>(channel: &mut C, kept: &mut Ticket, call: Call<'_>) -> Said {
    match channel.commit_take(TakeTxn::new(call.life, call.number)) {
        Ok(ticket) => keep(kept, ticket),
        Err(CommitRefused::Stage(refused)) => take_not_staged(refused, call),
        Err(CommitRefused::InDoubt) => ("in-doubt", 0),
    }
}

fn said_of_flush(reply: Result<(), FlushRefused>) -> Said {
    match reply {
        Ok(()) => DONE,
        Err(FlushRefused::Broken) => ("broken", 0),
        Err(FlushRefused::DiskFault) => ("disk-fault", 0),
        Err(_) => OTHER,
    }
}

fn said_of_end(is_ended: bool) -> Said {
    if is_ended {
        ("ended", 0)
    } else {
        ("not-open", 0)
    }
}

fn said_of_ticket(settled: Settled) -> Said {
    match settled {
        Settled::Yes => ("settled", 0),
        Settled::No => ("not-settled", 0),
        Settled::InDoubt => ("in-doubt", 0),
    }
}

fn counted(counts: &Counts, word: &str) -> Said {
    match word {
        "put-attempts" => ("count", counts.put_attempts),
        "put-successes" => ("count", counts.put_successes),
        "take-attempts" => ("count", counts.take_attempts),
        "take-successes" => ("count", counts.take_successes),
        _ => OTHER,
    }
}

// What a call answers that only looks.
fn seen<C: Channel>(channel: &mut C, kept: &Ticket, word: &str) -> Said {
    match word {
        "asked" => said_of_ticket(channel.settled(kept)),
        "size" => ("count", channel.size()),
        "capacity" => ("count", channel.capacity()),
        _ => counted(&channel.counts(), word),
    }
}

/// Makes a call. The ticket is that of the last stage or commit.
pub fn said<C: Channel>(alloc: Global, channel: &mut C, kept: &mut Ticket, call: Call<'_>) -> Said {
    let Call {
        word,
        life,
        number,
        value,
    } = call;
    match word {
        "begin-put" => begin_put(channel),
        "begin-take" => begin_take(channel),
        "begin-puts" => begin_puts(channel, number),
        "put" => put(alloc, channel, call, value, 1),
        "put-bytes" => put(alloc, channel, call, u64::from(b'a'), value),
        "take" => take(channel, life, number),
        "take-many" => take_many(channel, call),
        "stage-put" => stage_put(channel, kept, call),
        "stage-take" => stage_take(channel, kept, call),
        "commit-put" => commit_put(channel, kept, call),
        "commit-take" => commit_take(channel, kept, call),
        "rollback-put" => said_of_end(channel.rollback_put(PutTxn::new(life, number))),
        "rollback-take" => said_of_end(channel.rollback_take(TakeTxn::new(life, number))),
        "flush" => said_of_flush(channel.flush()),
        _ => seen(channel, kept, word),
    }
}

// Whether a taker finds these events of one byte, and no more.
fn finds<C: Channel>(channel: &mut C, txn: &mut TakeTxn, bodies: &str) -> bool {
    for byte in bodies.bytes() {
        if said_of_take(&channel.take(txn)) != ("event", u64::from(byte)) {
            return false;
        }
    }
    said_of_take(&channel.take(txn)) == ("no-event", 0)
}

/// Whether a channel gives these events of one byte, in order, and no more. It keeps them.
pub fn gives<C: Channel>(channel: &mut C, bodies: &str) -> bool {
    let Ok(mut txn) = channel.begin_take() else {
        return false;
    };
    let are_found = finds(channel, &mut txn, bodies);
    channel.rollback_take(txn) && are_found
}

// What is counted of a channel's calls.
ghost use Rattle.std.specs.Prelude.{◌≡◌};
ghost use Rattle.txn_core.specs.Noted.{noted, one_for_put, one_for_take, quiet};

use channel_face::Counts;

/// A call that changes a channel.
#[derive(Clone, Copy)]
pub enum Call {
    BeginPut,
    BeginTake,
    Put,
    Take,
    StagePut,
    StageTake,
    Flush,
    RollbackPut,
    RollbackTake,
    Checkpoint,
    Prune,
    Reopen,
}

/// What a call did, as far as it is counted.
#[derive(Clone, Copy)]
pub struct Reply {
    /// The call answered `Ok`.
    pub done: bool,
    /// How many put events it settled.
    pub settled_puts: u64,
    /// How many taken events it settled.
    pub settled_takes: u64,
}

impl Reply {
    /// The reply of a call that settled nothing.
    pub fn quiet(done: bool) -> Reply
        ensures { result ≡ quiet done }
    {
        Reply {
            done,
            settled_puts: 0,
            settled_takes: 0,
        }
    }
}

/// Counts a call: puts and takes as attempts, whatever they answered, and the settled events as successes. Each count stops
/// at 2^64 - 1. The size and the capacity stay.
pub fn note(counts: &mut Counts, call: Call, reply: Reply)
    ensures noted { counts.new ≡ noted counts.old call reply }
    ensures nothing { one_for_put call ≡ 0 → one_for_take call ≡ 0 → reply.settled_puts ≡ 0
        → reply.settled_takes ≡ 0 → counts.new ≡ counts.old }
{
    let (puts, takes) = match call {
        Call::Put => (1, 0),
        Call::Take => (0, 1),
        _ => (0, 0),
    };
    counts.put_attempts = counts.put_attempts.saturating_add(puts);
    counts.put_successes = counts.put_successes.saturating_add(reply.settled_puts);
    counts.take_attempts = counts.take_attempts.saturating_add(takes);
    counts.take_successes = counts.take_successes.saturating_add(reply.settled_takes);
}

// How a run of the generator is counted, and what is said of it.
ghost use Rattle.std.specs.Prelude.{◌≡◌, ◌+◌, ◌*◌, ◌<◌, ◌≤◌, ◌-◌, ◌^◌, [], ◌∷◌, ◌++◌, IfOk, List, ℕ, not, string_bytes};
ghost use Rattle.md5.specs.Md5.{Holds};
ghost use Rattle.event_core.specs.Content.{Content};
ghost use Rattle.load_gen.specs.Counted.{CountsSame, IsCounted, Tells};
ghost use Rattle.load_gen.specs.Runs.{goes_back, said, summary};

use crate::tally::Tally;
use md5::{Digest, Md5};
use std::alloc::{AllocError, Global};

// The lines of a summary.
fn say(
    alloc: Global,
    n: u32,
    batches: u32,
    committed: u32,
    taken: u64,
    left: u64,
    digest: &str,
) -> Result<String, AllocError>
    ensures { IfOk result (λ text. string_bytes text ≡ said n batches committed taken left
        digest.now) }
{
    let front = format!(in alloc; "events {n}\nbatches {batches}\ncommitted takes {committed}\n")?;
    let text = format!(in alloc; "{front}taken {taken}\nleft {left}\ndigest {digest}\n")?;
    Ok(text)
}

impl Tally {
    /// Nothing yet.
    pub(crate) fn new() -> Tally
        ensures { Tells [] result }
    {
        Tally {
            batches: 0,
            committed: 0,
            taken: 0,
            digest: Md5::new(),
        }
    }

    /// Whether what is taken after the next batch is to be committed: it is rolled back where 7 divides the batch's number.
    pub(crate) fn keeps_next(&self) -> bool
        requires { self.now.batches < 2 ^ 32 - 1 }
        ensures { result ≡ not (goes_back (self.now.batches + 1)) }
    {
        (self.batches + 1) % 7 != 0
    }

    /// Adds the body of an event to the digest, as a line.
    pub(crate) fn add_line(&mut self, body: &[u8])
        ensures same { CountsSame self.old self.new }
        ensures digest { (m : List ℕ) → Holds self.old.digest m → Holds self.new.digest
            (m ++ (body.now ++ 10 ∷ [])) }
    {
        self.digest.update(body);
        self.digest.update(b"\n");
    }

    /// Counts a batch, after which so many events were taken, which are in the digest where they were committed.
    pub(crate) fn add_batch(&mut self, kept: bool, count: u32)
        requires few { self.old.batches < 2 ^ 32 - 1 }
        requires most { count ≤ 50 }
        ensures { IsCounted kept count self.old self.new }
    {
        self.batches += 1;
        if kept {
            self.committed += 1;
            self.taken += u64::from(count);
        }
    }

    /// What is said of a run of `n` events, which left so many.
    pub(crate) fn summary(self, alloc: Global, n: u32, left: u64) -> Result<String, AllocError>
        ensures { IfOk result (λ text. (takes : List (List Content)) → Tells takes self →
            string_bytes text ≡ summary n takes left) }
    {
        let Tally {
            batches,
            committed,
            taken,
            digest,
        } = self;
        match hex::encode(alloc, digest.finalize()) {
            Ok(digest) => say(alloc, n, batches, committed, taken, left, digest.as_str()),
            Err(refused) => Err(refused),
        }
    }
}

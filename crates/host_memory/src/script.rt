// Which calls of an object are to fail.
ghost use Rattle.std.specs.Prelude.{◌≡◌, ◌≤◌, ◌<◌, ◌+◌, ◌-◌, ◌*◌, ◌%◌, ◌^◌, ◌↔◌, [], ℕ, min, Contains, IsTrue, length};
ghost use Rattle.flume_host.specs.Causes.{HasCause};
ghost use Rattle.host_memory.specs.Stream.{piece_of};

use flume_host::Failed;
use std::alloc::Global;

/// The calls that are to fail, by their numbers. The first call has the number 0.
#[derive(Drop)]
pub struct Script {
    pub fails: Vec<u64>,
    pub calls: u64,
}

impl Script {
    /// No call is to fail.
    pub fn new(alloc: Global) -> Self
        ensures { (result.fails.items ≡ []) × (result.calls ≡ 0) }
    {
        Script {
            fails: Vec::new(alloc),
            calls: 0,
        }
    }

    /// Counts a call, and says whether it is to fail.
    pub fn next_fails(&mut self) -> bool
        ensures due { IsTrue result ↔ Contains self.old.fails.items self.old.calls }
        ensures counted { self.new.calls ≡ min (self.old.calls + 1) (2 ^ 64 - 1) }
    {
        let fails = self.fails.contains(&self.calls);
        self.calls = self.calls.saturating_add(1);
        fails
    }
}

/// The answer, where a failure raises the count of faults.
pub fn counted<T>(faults: &mut u64, answer: Result<T, Failed>) -> Result<T, Failed>
    ensures cause { HasCause faults.old faults.new result }
    ensures same { result ≡ answer }
{
    if answer.is_err() {
        *faults = faults.saturating_add(1);
    }
    answer
}

/// The most that this call gives or takes: the numbers go round, a 0 counts as 1, and without numbers there is no bound.
pub fn piece_at(pieces: &[usize], call: u64) -> usize
    ensures turn { result ≡ piece_of pieces.now call }
    ensures some { 1 ≤ result }
{
    if pieces.is_empty() {
        return usize::MAX;
    }
    let turn = call % pieces.len() as u64;
    pieces[turn as usize].max(1)
}

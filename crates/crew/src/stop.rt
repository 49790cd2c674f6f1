// What tells workers to stop.
ghost use Rattle.std.specs.Prelude.{◌≡◌, ◌≤◌, IsFalse, IsTrue};
ghost use Rattle.flume_host.specs.Causes.{Rose};

use flume_host::Halt;
use std::sync::atomic::AtomicU64;
use std::sync::atomic::Ordering::SeqCst;

/// The stop of a run: set once, and looked at by any thread. No clause says whether it is set, since another thread may set
/// it at any time.
#[derive(Drop)]
pub struct Stop {
    word: AtomicU64,
}

impl Stop {
    /// A stop that is not set. It takes no memory.
    pub fn new() -> Stop {
        Stop {
            word: AtomicU64::new(0),
        }
    }

    /// Sets it, for good.
    pub fn set(&self) {
        self.word.store(1, SeqCst);
    }

    /// Whether it is set.
    pub fn is_set(&self) -> bool {
        self.word.load(SeqCst) != 0
    }
}

/// One worker's look at the stop. It counts how often the stop was found set.
#[derive(Drop)]
pub struct Watch<'a> {
    stop: &'a Stop,
    yes: u64,
}

impl<'a> Watch<'a> {
    /// A look at this stop, which has found nothing yet. It takes no memory.
    pub fn new(stop: &'a Stop) -> Watch<'a>
        ensures { result.yes ≡ 0 }
    {
        Watch { stop, yes: 0 }
    }
}

impl<'a> Halt for Watch<'a> {
    ghost yes = { λ w. w.yes };

    fn asked(&mut self) -> bool
        ensures cause { IsTrue result → Rose self.old.yes self.new.yes }
        ensures still { IsFalse result → self.new.yes ≡ self.old.yes }
        ensures later { self.old.yes ≤ self.new.yes }
    {
        let set = self.stop.is_set();
        if set {
            self.yes = self.yes.saturating_add(1);
        }
        set
    }

    fn yes(&self) -> u64
        ensures { result ≡ self.now.yes }
    {
        self.yes
    }
}

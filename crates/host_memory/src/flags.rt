// Flags by which one call waits for another.
use std::alloc::{AllocError, Global};
use std::sync::Arc;
use std::sync::atomic::AtomicBool;
use std::sync::atomic::Ordering::SeqCst;
use std::thread;

// How often a flag is looked at.
const LOOKS: u32 = 1_000_000_000;

// After so many looks another thread may run.
const LOOKS_A_TURN: u32 = 1_000_000;

/// A flag that is not set, or is set once for all who have a handle of it. No clause speaks of it.
#[derive(Drop)]
pub struct Flag {
    set: Arc<AtomicBool>,
    looks: u32,
}

impl Flag {
    /// A flag that isn't set.
    pub fn new(alloc: Global) -> Result<Flag, AllocError> {
        let set = Arc::new(alloc, AtomicBool::new(false))?;
        Ok(Flag { set, looks: LOOKS })
    }

    /// Who waits for it from now on looks at it so many times, and not 1,000,000,000.
    pub fn looked_at(mut self, looks: u32) -> Flag {
        self.looks = looks;
        self
    }

    /// A further handle of the flag.
    pub fn handle(&self) -> Result<Flag, AllocError> {
        let set = Arc::clone(&self.set)?;
        Ok(Flag {
            set,
            looks: self.looks,
        })
    }

    /// Sets it.
    pub fn set(&self) {
        self.set.store(true, SeqCst);
    }

    /// Makes it a flag that isn't set.
    pub fn clear(&self) {
        self.set.store(false, SeqCst);
    }

    /// Whether it is set.
    pub fn is_set(&self) -> bool {
        self.set.load(SeqCst)
    }

    /// Waits until it is set: looks at it 1,000,000,000 times at most, or as often as was said, and
    /// tells whether it was.
    pub fn wait(&self) -> bool {
        for look in 0..self.looks {
            if self.set.load(SeqCst) {
                return true;
            }
            if look % LOOKS_A_TURN == 0 {
                thread::yield_now();
            }
        }
        false
    }
}

/// A call sets the one flag, and waits for the other.
#[derive(Drop)]
pub struct Held {
    /// Is set before the call waits.
    pub begun: Flag,
    /// The call waits until it is set.
    pub until: Flag,
}

/// Waits where a call is held, and says whether the flag was set in time.
pub fn passes(held: &Option<Held>) -> bool {
    match held {
        Some(held) => {
            held.begun.set();
            held.until.wait()
        }
        None => true,
    }
}

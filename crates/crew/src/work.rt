// What a worker is.
use crate::stop::Stop;
use std::sync::Wait;

/// A worker: it is run once, in a thread of its own where one can be made, and is there afterwards with what it did. So
/// what it was given, a channel's pass or a sink, say, comes back inside it, and a run has no other result.
pub trait Work {
    /// It can be run.
    ghost ready: { Self → Type 0 };

    /// The second is what the first became by its run.
    ghost ran: { Self → Self → Type 0 };

    /// Runs to its end, or until it finds the stop set.
    fn work<R: Wait>(&mut self, rt: &R, stop: &Stop)
        requires { ready self.old }
        ensures { ran self.old self.new };
}

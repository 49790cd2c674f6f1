// A halt in memory.
ghost use Rattle.std.specs.Prelude.{◌≡◌, ◌-◌, ◌↔◌, IsTrue, IsFalse};

use flume_host::Halt;

/// Does not ask to stop for so many times, and from then on does.
#[derive(Clone, Copy, Debug)]
pub struct MemHalt {
    /// How many times more it does not.
    pub after: u64,
    /// How often it did.
    pub yes: u64,
}

impl Halt for MemHalt {
    ghost use Rattle.std.specs.Prelude.{◌≤◌};
    ghost use Rattle.flume_host.specs.Causes.{Rose};

    ghost yes = { λ h. h.yes };

    fn asked(&mut self) -> bool
        ensures cause { IsTrue result → Rose self.old.yes self.new.yes }
        ensures still { IsFalse result → self.new.yes ≡ self.old.yes }
        ensures later { self.old.yes ≤ self.new.yes }
        ensures turn { IsTrue result ↔ (self.old.after ≡ 0) }
        ensures after { self.new.after ≡ self.old.after - 1 }
    {
        if self.after > 0 {
            self.after -= 1;
            return false;
        }
        self.yes = self.yes.saturating_add(1);
        true
    }

    fn yes(&self) -> u64 {
        self.yes
    }
}

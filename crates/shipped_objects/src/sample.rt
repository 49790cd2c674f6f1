// An interceptor that keeps every other event.
ghost use Rattle.std.specs.Prelude.{◌≡◌, not};
ghost use Rattle.shipped_objects.specs.Samples.{IsSampled};

use event_core::Event;
use plug_in::{Intercepted, Interceptor};

/// Keeps the first event that it is handed, the third, the fifth and so on, as they are, and drops the others.
#[derive(Debug, Drop)]
pub struct Sample {
    /// Whether it drops the next event.
    pub drops: bool,
}

impl Interceptor for Sample {
    ghost intercepts = { λ old event moment answer new.
        IsSampled old.drops event answer × (new.drops ≡ not old.drops) };

    fn intercept(&mut self, event: Event, _moment: u64) -> Intercepted {
        let drops = self.drops;
        self.drops = !drops;
        if drops {
            Intercepted::Dropped
        } else {
            Intercepted::Keep(event)
        }
    }
}

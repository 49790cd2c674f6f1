// A step of an interceptor chain that was handed in.
ghost use Rattle.event_core.specs.Content.{Content};
ghost use Rattle.plug_in.specs.declared.step.Intercepted.{Intercepted};
ghost use Rattle.std.specs.Prelude.{◌≡◌, ℕ};

use event_core::Event;

/// What a step made of an event.
#[derive(Drop)]
pub enum Intercepted {
    /// This event goes on in its place.
    Keep(Event),
    /// No event goes on.
    Dropped,
    /// Out of memory.
    NoMemory,
}

/// Changes or drops events on their way into the channels (Flume User Guide, "Flume Interceptors").
pub trait Interceptor: Drop {
    /// What a step means: the interceptor before it, the event, its moment in milliseconds since 1970, the answer, and the
    /// interceptor after it.
    ghost intercepts: { Self → Content → ℕ → Intercepted → Self → Type 0 };

    /// Takes an event, and answers what goes on in its place.
    fn intercept(&mut self, event: Event, moment: u64) -> Intercepted
        ensures { intercepts self.old event moment result self.new };
}

/// A boxed interceptor's answer and change are those of the object in it, and the box stays as it is.
impl Interceptor for Box<dyn Interceptor + Send> {
    ghost intercepts = { λ b event moment result c. (object : _) × (c ≡ record b { value = object })
        × (Interceptor-box b).intercepts b.value event moment result object };

    fn intercept(&mut self, event: Event, moment: u64) -> Intercepted {
        (**self).intercept(event, moment)
    }
}

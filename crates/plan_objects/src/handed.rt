// What is handed in to an agent.
ghost use Rattle.std.specs.Prelude.{◌≡◌, ◌+◌, [], length};
ghost use Rattle.plan_objects.specs.Handed.{Adds, IsRoom};
ghost use Rattle.plan_objects.specs.Named.{Claims};

use crate::named::{Named, claim, join};
use plug_in::{EventSink, Interceptor};
use std::alloc::Global;

/// Why an object was not added. It is dropped.
#[derive(Clone, Copy, Debug, PartialEq, Eq)]
pub enum PluginsRefused {
    /// As many are held as may be.
    TooMany,
    /// Out of memory.
    NoMemory,
}

/// How many objects may be held, interceptors and sinks together.
pub const MAX_PLUGINS: usize = 64;

/// The interceptors and the sinks that are handed in to an agent, by the names with which its configuration asks for them. Their types are
/// parameters, so that contracts can name what a call of one means.
#[derive(Drop)]
pub struct HandedIn<K: Drop, B: Drop> {
    steps: Vec<Named<K>>,
    sinks: Vec<Named<B>>,
}

/// Boxed interceptors and sinks that are handed in to an agent.
pub type Plugins = HandedIn<Box<dyn Interceptor + Send>, Box<dyn EventSink + Send>>;

impl<K: Drop, B: Drop> HandedIn<K, B> {
    /// No objects.
    pub fn new(alloc: Global) -> HandedIn<K, B>
        ensures steps { result.steps.items ≡ [] }
        ensures sinks { result.sinks.items ≡ [] }
    {
        HandedIn {
            steps: Vec::new(alloc),
            sinks: Vec::new(alloc),
        }
    }

    /// How many interceptors are held.
    pub(crate) fn many_steps(&self) -> usize
        ensures { result ≡ length self.now.steps.items }
    {
        self.steps.len()
    }

    // Whether one more may be held.
    fn has_room(&self) -> Result<(), PluginsRefused>
        ensures { IsRoom (length self.now.steps.items + length self.now.sinks.items) result }
    {
        if self.steps.len() + self.sinks.len() >= MAX_PLUGINS {
            Err(PluginsRefused::TooMany)
        } else {
            Ok(())
        }
    }

    /// Adds an interceptor; where it is refused, it is dropped. `TooMany` comes exactly where 64 objects are held.
    pub fn add_step(&mut self, name: String, step: K) -> Result<(), PluginsRefused>
        ensures steps { Adds (record { name = name; object = step })
            (length self.old.steps.items + length self.old.sinks.items)
            result self.old.steps.items self.new.steps.items }
        ensures sinks { self.new.sinks.items ≡ self.old.sinks.items }
    {
        self.has_room()?;
        match join(&mut self.steps, name, step) {
            Ok(()) => Ok(()),
            Err(_) => Err(PluginsRefused::NoMemory),
        }
    }

    /// Adds a sink; where it is refused, it is dropped. `TooMany` comes exactly where 64 objects are held.
    pub fn add_sink(&mut self, name: String, sink: B) -> Result<(), PluginsRefused>
        ensures sinks { Adds (record { name = name; object = sink })
            (length self.old.steps.items + length self.old.sinks.items)
            result self.old.sinks.items self.new.sinks.items }
        ensures steps { self.new.steps.items ≡ self.old.steps.items }
    {
        self.has_room()?;
        match join(&mut self.sinks, name, sink) {
            Ok(()) => Ok(()),
            Err(_) => Err(PluginsRefused::NoMemory),
        }
    }

    /// Hands out the first interceptor of a name that was added, or none where none of that name is left. It takes no memory.
    pub fn claim_step(&mut self, name: &str) -> Option<K>
        ensures steps { Claims name.now self.old.steps.items result self.new.steps.items }
        ensures sinks { self.new.sinks.items ≡ self.old.sinks.items }
    {
        claim(&mut self.steps, name)
    }

    /// Hands out the first sink of a name that was added, or none where none of that name is left. It takes no memory.
    pub fn claim_sink(&mut self, name: &str) -> Option<B>
        ensures sinks { Claims name.now self.old.sinks.items result self.new.sinks.items }
        ensures steps { self.new.steps.items ≡ self.old.steps.items }
    {
        claim(&mut self.sinks, name)
    }
}

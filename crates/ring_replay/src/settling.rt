// What the end of a transaction does to a ring.
ghost use Rattle.std.specs.Prelude.{◌≡◌, ◌<◌, ◌≤◌, ◌+◌, ◌^◌, length};
ghost use Rattle.std.specs.List.{AllByRecursion};
ghost use Rattle.event_ring.specs.Slots.{IsLive};
ghost use Rattle.channel_replay.specs.Start.{AreApart};
ghost use Rattle.ring_replay.specs.Indexing.{IsAppended, freed, lacking};

use event_ring::Ring;
use record_form::Pointer;

/// Holds events no longer. It takes no memory.
pub fn free_all(ring: &mut Ring, numbers: &[u64])
    requires { AllByRecursion (λ n. IsLive ring.old.live n) numbers.now }
    ensures { ring.new ≡ record ring.old { live = freed numbers.now ring.old.live } }
{
    for place in 0..numbers.len() {
        ring.free(numbers[place]);
    }
}

/// Takes events out, of which none is named twice. It takes no memory.
pub fn remove_all(ring: &mut Ring, numbers: &[u64])
    requires live { AllByRecursion (λ n. IsLive ring.old.live n) numbers.now }
    requires apart { AreApart numbers.now }
    ensures { ring.new ≡ record ring.old { live = lacking numbers.now ring.old.live } }
{
    for place in 0..numbers.len() {
        ring.gone(numbers[place]);
    }
}

/// Adds events of these places, with numbers from this one on. It takes no memory.
pub fn append(ring: &mut Ring, pointers: &[Pointer], first: u64)
    requires above { ring.old.top ≤ first }
    requires low { first + length pointers.now < 2 ^ 64 }
    requires room { length ring.old.live + length pointers.now ≤ ring.old.slots }
    ensures { IsAppended first pointers.now ring.old ring.new }
{
    for place in 0..pointers.len() {
        ring.push(first + place as u64, pointers[place]);
    }
}

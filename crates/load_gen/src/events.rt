// The events of a run, made one after another.
ghost use Rattle.std.specs.Prelude.{◌≡◌, ◌+◌, ◌*◌, ◌%◌, ◌^◌, ◌<◌, ◌≤◌, IfOk, OnErr, OnOk, string_bytes};
ghost use Rattle.event_core.specs.Content.{size};
ghost use Rattle.load_gen.specs.Events.{body, event, hex, seed};

use event_core::{Event, Headers, NoMemory};
use hex::encode_to_slice;
use std::alloc::{AllocError, Global};

/// The events of a run that are still to be made.
#[derive(Drop)]
pub(crate) struct Events {
    alloc: Global,
    // How many there are in all, and the number of the next one.
    n: u32,
    next: u32,
    // The number in the text of the next one.
    x: u64,
    ghost within: { next ≤ n },
    ghost here: { x ≡ seed n next },
}

// Knuth's linear congruence for numbers of 64 bits.
fn next_seed(x: u64) -> u64
    ensures { result ≡ (x * 6364136223846793005 + 1442695040888963407) % 2 ^ 64 }
{
    x.wrapping_mul(6_364_136_223_846_793_005)
        .wrapping_add(1_442_695_040_888_963_407)
}

// A number in 16 hexadecimal digits.
fn digits(x: u64) -> [u8; 16]
    ensures { result ≡ hex x }
{
    let mut text = [b'0'; 16];
    let Ok(()) = encode_to_slice(&x.to_be_bytes(), &mut text) else {
        unreachable!()
    };
    text
}

// The body of an event.
fn body(alloc: Global, number: u32, x: u64) -> Result<Vec<u8>, AllocError>
    ensures { IfOk result (λ bytes. bytes.items ≡ body number x) }
{
    let text = format!(in alloc; "event {number} ")?;
    let mut bytes = text.into_bytes();
    bytes.extend_from_slice(&digits(x))?;
    Ok(bytes)
}

impl Events {
    /// All events of a run of so many.
    pub(crate) fn new(alloc: Global, n: u32) -> Events
        ensures { (result.n ≡ n) × (result.next ≡ 0) }
    {
        Events {
            alloc,
            n,
            next: 0,
            x: u64::from(n),
        }
    }

    /// How many are still to be made.
    pub(crate) fn left(&self) -> u32
        ensures { result + self.now.next ≡ self.now.n }
    {
        self.n - self.next
    }

    /// Makes the next one.
    pub(crate) fn make(&mut self) -> Result<Event, NoMemory>
        requires { self.old.next < self.old.n }
        ensures event { IfOk result (λ e. e ≡ event self.old.n self.old.next) }
        ensures same { self.new.n ≡ self.old.n }
        ensures next { OnOk result (self.new.next ≡ self.old.next + 1) }
    {
        let bytes = body(self.alloc, self.next, self.x)?;
        let Ok(event) = Event::new(Headers::new(self.alloc), bytes) else {
            // no such text is too large for an event
            return Err(NoMemory);
        };
        self.next += 1;
        self.x = next_seed(self.x);
        Ok(event)
    }
}

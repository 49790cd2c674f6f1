// Events and batches of events.
ghost use Rattle.std.specs.Prelude.{◌≡◌, [], ◌∷◌, IfOk, length};
ghost use Rattle.event_core.specs.Content.{content};

use event_core::{Batch, Event, EventRefused, Headers, NoMemory};
use std::alloc::Global;

/// An event of this body, without headers.
pub fn event(alloc: Global, body: &[u8]) -> Result<Event, EventRefused>
    ensures { IfOk result (λ event. event ≡ content [] body.now) }
{
    let body = body.to_vec(alloc)?;
    Event::new(Headers::new(alloc), body)
}

/// The headers of these keys and values, set in this order: a key that stands twice has its last value. No clause says so.
pub fn headers_of(alloc: Global, pairs: &[(&str, &str)]) -> Result<Headers, NoMemory> {
    let mut headers = Headers::new(alloc);
    for i in 0..pairs.len() {
        let (key, value) = pairs[i];
        headers.set(key, value)?;
    }
    Ok(headers)
}

/// An event of this body with these headers. A key that stands twice has its last value. The contract speaks of the body alone.
pub fn event_with(
    alloc: Global,
    headers: &[(&str, &str)],
    body: &[u8],
) -> Result<Event, EventRefused>
    ensures { IfOk result (λ event. event.body ≡ body.now) }
{
    let headers = headers_of(alloc, headers)?;
    let body = body.to_vec(alloc)?;
    Event::new(headers, body)
}

/// A batch of this one event.
pub fn one(alloc: Global, event: Event) -> Result<Batch, NoMemory>
    ensures event { IfOk result (λ batch. batch ≡ event ∷ []) }
    ensures length { IfOk result (λ batch. length batch ≡ 1) }
{
    let mut batch = Batch::new(alloc);
    match batch.push(event) {
        Ok(()) => Ok(batch),
        Err(_event) => Err(NoMemory),
    }
}

/// A batch of events of these bodies, without headers. The contract speaks of their number alone.
pub fn batch(alloc: Global, bodies: &[&[u8]]) -> Result<Batch, EventRefused>
    ensures { IfOk result (λ batch. length batch ≡ length bodies.now) }
{
    let mut batch = Batch::new(alloc);
    for body in bodies {
        let event = event(alloc, body)?;
        if batch.push(event).is_err() {
            return Err(EventRefused::NoMemory);
        }
    }
    Ok(batch)
}

// One step of a chain of interceptors.
ghost use Rattle.std.specs.Prelude.{◌≡◌, IfOk, OnOk, IfErr, ◌≤◌};
ghost use Rattle.event_core.specs.Content.{Content, content, size, value_of};
ghost use Rattle.event_core.specs.Refusals.{IsRefusalOfEvent, IsTooLarge};
ghost use Rattle.interceptors.specs.Steps.{applied, set_unless, without_all};

use event_core::{Event, EventRefused, MAX_EVENT_SIZE};

/// What an interceptor does with each event (Flume User Guide, "Flume Interceptors"). A header that is there is kept where
/// `preserve` says so, and else gets the new value.
#[derive(Debug, Drop)]
pub enum Step {
    /// The moment as text, in milliseconds since 1970.
    Timestamp {
        /// The header's key.
        header: String,
        /// Whether a value that is there stays.
        preserve: bool,
    },
    /// The name of this host, or its address.
    Host {
        /// The address is wanted.
        use_ip: bool,
        /// The header's key.
        header: String,
        /// Whether a value that is there stays.
        preserve: bool,
    },
    /// A fixed value.
    Static {
        /// The header's key.
        key: String,
        /// Its value.
        value: String,
        /// Whether a value that is there stays.
        preserve: bool,
    },
    /// The headers of these keys are removed.
    Remove {
        /// The keys.
        names: Vec<String>,
    },
}

// Sets a header, unless it is there and stays.
fn set(event: Event, key: &str, value: &str, preserve: bool) -> Result<Event, EventRefused>
    ensures ok { IfOk result (λ e. e ≡ set_unless preserve event key.now value.now) }
    ensures fits { OnOk result (size (set_unless preserve event key.now value.now) ≤
        MAX_EVENT_SIZE) }
    ensures err { IfErr result (IsRefusalOfEvent (set_unless preserve event key.now value.now)) }
{
    if preserve && event.headers().get(key).is_some() {
        let _size = event.size();
        return Ok(event);
    }
    event.with(key, value)
}

// Removes the headers of these keys.
fn remove(event: Event, names: &[String]) -> Result<Event, EventRefused>
    ensures ok { IfOk result (λ e. e ≡ content (without_all names.now event.headers) event.body) }
    ensures fits { OnOk result (size (content (without_all names.now event.headers) event.body) ≤
        MAX_EVENT_SIZE) }
    ensures err { IfErr result (IsTooLarge (content (without_all names.now event.headers)
        event.body)) }
{
    let (mut headers, body) = event.into_parts();
    for name in names {
        headers.remove(name.as_str());
    }
    Event::new(headers, body)
}

/// The event after a step, at a moment in milliseconds since 1970, on a host of this name or address. Besides being out of memory
/// it is refused exactly where its size then passes `MAX_EVENT_SIZE`.
pub fn apply(step: &Step, event: Event, moment: u64, host: &str) -> Result<Event, EventRefused>
    ensures ok { IfOk result (λ e. e ≡ applied step.now moment host.now event) }
    ensures fits { OnOk result (size (applied step.now moment host.now event) ≤ MAX_EVENT_SIZE) }
    ensures err { IfErr result (IsRefusalOfEvent (applied step.now moment host.now event)) }
{
    match step {
        Step::Timestamp { header, preserve } => {
            let mut digits = itoa::Buffer::new();
            set(event, header.as_str(), digits.format(moment), *preserve)
        }
        Step::Host {
            use_ip: _,
            header,
            preserve,
        } => set(event, header.as_str(), host, *preserve),
        Step::Static {
            key,
            value,
            preserve,
        } => set(event, key.as_str(), value.as_str(), *preserve),
        Step::Remove { names } => remove(event, names),
    }
}

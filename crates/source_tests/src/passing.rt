// An interceptor and an event, on which the lines of a scenario work.
use crate::events::is_shown;
use crate::links::{date_step, keys_of, link_of};
use event_core::{Event, EventRefused, Headers};
use interceptors::apply;
use regex_steps::{BuildRefused, RegexStep};
use scenarios::{Scene, add_text, number_of, owned, word_and_rest};
use source_put::ChainLink;
use std::alloc::Global;
use test_fixtures::event;

/// What an event is made of, and the interceptor that it passes.
#[derive(Drop)]
pub struct Passing {
    alloc: Global,
    headers: Headers,
    body: Vec<u8>,
    moment: u64,
    host: String,
    link: Option<ChainLink>,
    has_tried: bool,
}

fn set_header(headers: &mut Headers, pair: &str) -> bool {
    let (key, value) = word_and_rest(pair);
    headers.set(key, value).is_ok()
}

fn set_body(scene: &mut Passing, text: &str) -> bool {
    scene.body = Vec::new(scene.alloc);
    add_text(&mut scene.body, text)
}

fn set_moment(scene: &mut Passing, moment: &str) -> bool {
    match number_of(moment) {
        Some(moment) => {
            scene.moment = moment;
            true
        }
        None => false,
    }
}

fn set_host(scene: &mut Passing, name: &str) -> bool {
    match owned(scene.alloc, name) {
        Some(name) => {
            scene.host = name;
            true
        }
        None => false,
    }
}

fn set_link(scene: &mut Passing, text: &str) -> bool {
    scene.link = link_of(scene.alloc, text);
    scene.link.is_some()
}

fn event_of(scene: &Passing) -> Option<Event> {
    let headers = scene.headers.copy().ok()?;
    let body = scene.body.to_vec(scene.alloc).ok()?;
    Event::new(headers, body).ok()
}

// What becomes of an event: nothing, where it is dropped.
fn made(
    link: &mut ChainLink,
    event: Event,
    moment: u64,
    host: &str,
) -> Result<Option<Event>, EventRefused> {
    match link {
        ChainLink::Step(step) => match apply(step, event, moment, host) {
            Ok(event) => Ok(Some(event)),
            Err(refused) => Err(refused),
        },
        ChainLink::Regex(step) => step.run(event),
        ChainLink::Boxed(_) => Err(EventRefused::NoMemory),
    }
}

fn passed(scene: &mut Passing, event: Option<Event>) -> Result<Option<Event>, EventRefused> {
    match (&mut scene.link, event) {
        (Some(link), Some(event)) => made(link, event, scene.moment, scene.host.as_str()),
        _ => Err(EventRefused::NoMemory),
    }
}

fn becomes(scene: &mut Passing, text: &str) -> bool {
    let event = event_of(scene);
    match passed(scene, event) {
        Ok(Some(event)) => is_shown(scene.alloc, &event, text),
        _ => false,
    }
}

fn is_dropped(scene: &mut Passing) -> bool {
    let event = event_of(scene);
    matches!(passed(scene, event), Ok(None))
}

// An event with the headers, whose body is so many times the same letter.
fn large(scene: &Passing, letter: &str, count: &str) -> Option<Event> {
    let byte = letter.bytes().next()?;
    let count = count.parse::<usize>().ok()?;
    let headers = scene.headers.copy().ok()?;
    Event::new(headers, vec![in scene.alloc; byte; count].ok()?).ok()
}

// The size for which an event is too large, as `too-large 33554433`.
fn size_of(want: &str) -> Option<u64> {
    number_of(want.strip_prefix("too-large ")?)
}

// Whether such an event passes, or would grow to a size that is too large, as `a 33554424 too-large 33554433`.
fn is_large(scene: &mut Passing, row: &str) -> bool {
    let (letter, rest) = word_and_rest(row);
    let (count, want) = word_and_rest(rest);
    let event = large(scene, letter, count);
    match passed(scene, event) {
        Ok(Some(_)) => want == "passes",
        Err(EventRefused::TooLarge { size }) => size_of(want) == Some(size),
        _ => false,
    }
}

// Whether a step over a pattern is refused for this, or built.
fn is_built(alloc: Global, text: &str, want: Option<BuildRefused>) -> bool {
    match keys_of(alloc, text) {
        Some(keys) => RegexStep::build(alloc, &keys).err() == want,
        None => false,
    }
}

// An event of this body after it was read as a date of this pattern.
fn dated(alloc: Global, pattern: &str, body: &str) -> Option<Event> {
    let mut step = date_step(alloc, pattern)?;
    let mut bytes = Vec::new(alloc);
    if !add_text(&mut bytes, body) {
        return None;
    }
    step.run(event(alloc, &bytes).ok()?).ok()?
}

// Whether it then has these milliseconds under the key `at`, or no such header where they are left out.
fn has_millis(alloc: Global, pattern: &str, body: &str, millis: &str) -> bool {
    let want = if millis.is_empty() {
        None
    } else {
        Some(millis)
    };
    match dated(alloc, pattern, body) {
        Some(event) => event.headers().get("at") == want,
        None => false,
    }
}

// A pattern of dates, a body, and its milliseconds, or nothing where the body is no such date, as `HHmm|1847|67620000`.
fn is_date(alloc: Global, row: &str) -> bool {
    match row.split_once('|') {
        Some((pattern, rest)) => match rest.split_once('|') {
            Some((body, millis)) => has_millis(alloc, pattern, body, millis),
            None => false,
        },
        None => false,
    }
}

// Of what becomes of the event, and of steps that are built.
fn is_tried(scene: &mut Passing, word: &str, rest: &str) -> bool {
    scene.has_tried = true;
    match word {
        "becomes" => becomes(scene, rest),
        "dropped" => is_dropped(scene),
        "large" => is_large(scene, rest),
        "no-pattern" => is_built(scene.alloc, rest, Some(BuildRefused::BadPattern)),
        "no-room" => is_built(scene.alloc, rest, Some(BuildRefused::NoMemory)),
        "built" => is_built(scene.alloc, rest, None),
        "date" => is_date(scene.alloc, rest),
        _ => false,
    }
}

impl Scene for Passing {
    fn begin(alloc: Global) -> Passing {
        Passing {
            alloc,
            headers: Headers::new(alloc),
            body: Vec::new(alloc),
            moment: 0,
            host: String::new(alloc),
            link: None,
            has_tried: false,
        }
    }

    fn holds(&mut self, word: &str, rest: &str) -> bool {
        match word {
            "header" => set_header(&mut self.headers, rest),
            "body" => set_body(self, rest),
            "moment" => set_moment(self, rest),
            "host" => set_host(self, rest),
            "link" => set_link(self, rest),
            _ => is_tried(self, word, rest),
        }
    }

    fn has_tried(&self) -> bool {
        self.has_tried
    }
}

// Events, their headers, and batches.
use event_core::{Batch, Event, EventRefused, Headers, MAX_EVENT_SIZE, Numbers};
use scenarios::{Scene, number_of, pass, two_numbers, word_and_rest};
use std::alloc::Global;
use std::test::Fail;
use test_fixtures::event;

const EVENTS: &str = "Headers are in the order of their bytes.
set é 4
set b 1
set Z 2
set b 3
copy
joined Z2b3é4
remove b
get Z 2
headers 2

A key stands once among pairs.
pairs b=1 a=1 c=1
headers 3
repeats a b=1 a=1 c=1 a=2

A size counts each length.
event alpha
size 13
with host a1
size 27
parts 14 5

An event has a greatest size.
zeros 33554424
largest
size 33554432
too-large 33554440

A batch hands its events over in order.
event one
push
event three
push
batch-copy
batch 2
first 11
hands 11
batch 1

Numbers keep their order.
number 7
number 3
numbers 7 3
contains 3";

// What was made, headers, an event, a batch and numbers.
#[derive(Drop)]
struct Made {
    alloc: Global,
    headers: Headers,
    event: Option<Event>,
    batch: Batch,
    numbers: Numbers,
    has_tried: bool,
}

fn set(headers: &mut Headers, pair: &str) -> bool {
    let (key, value) = word_and_rest(pair);
    headers.set(key, value).is_ok()
}

fn copy(headers: &mut Headers) -> bool {
    match headers.copy() {
        Ok(copied) => {
            *headers = copied;
            true
        }
        Err(_) => false,
    }
}

// Whether the keys and values, one after another, are this text.
fn are_joined(headers: &Headers, text: &str) -> bool {
    let mut rest = text;
    for (key, value) in headers.iter() {
        match rest.strip_prefix(key) {
            Some(after) => rest = after.strip_prefix(value).unwrap_or("wrong"),
            None => return false,
        }
    }
    rest.is_empty()
}

fn gets(headers: &Headers, pair: &str) -> bool {
    let (key, value) = word_and_rest(pair);
    headers.get(key) == Some(value)
}

fn pair_of(alloc: Global, pair: &str) -> Option<(String, String)> {
    let (key, value) = pair.split_once('=')?;
    let key = String::from_str(alloc, key).ok()?;
    match String::from_str(alloc, value) {
        Ok(value) => Some((key, value)),
        Err(_) => None,
    }
}

fn pairs_of(alloc: Global, words: &str) -> Option<Vec<(String, String)>> {
    let mut pairs = Vec::new(alloc);
    for word in words.split(' ') {
        if pairs.push(pair_of(alloc, word)?).is_err() {
            return None;
        }
    }
    Some(pairs)
}

fn from_pairs(alloc: Global, words: &str) -> Option<Result<Headers, EventRefused>> {
    let pairs = pairs_of(alloc, words)?;
    Some(Headers::from_pairs(alloc, &pairs))
}

fn set_pairs(made: &mut Made, words: &str) -> bool {
    match from_pairs(made.alloc, words) {
        Some(Ok(headers)) => {
            made.headers = headers;
            true
        }
        _ => false,
    }
}

// Whether pairs are refused for this key.
fn repeats(alloc: Global, row: &str) -> bool {
    let (want, words) = word_and_rest(row);
    match from_pairs(alloc, words) {
        Some(Err(EventRefused::RepeatedKey { key })) => key.as_str() == want,
        _ => false,
    }
}

fn set_event(made: &mut Made, body: &[u8]) -> bool {
    made.event = event(made.alloc, body).ok();
    made.event.is_some()
}

fn set_zeros(made: &mut Made, count: &str) -> bool {
    let Ok(count) = count.parse::<usize>() else {
        return false;
    };
    match vec![in made.alloc; 0u8; count] {
        Ok(body) => set_event(made, &body),
        Err(_) => false,
    }
}

fn is_of_size(event: &Option<Event>, size: Option<u64>) -> bool {
    match event {
        Some(event) => size == Some(event.size()),
        None => false,
    }
}

// A copy of the event with a header more.
fn with(event: &Option<Event>, pair: &str) -> Option<Result<Event, EventRefused>> {
    let (key, value) = word_and_rest(pair);
    let copied = event.as_ref()?.copy().ok()?;
    Some(copied.with(key, value))
}

fn set_with(made: &mut Made, pair: &str) -> bool {
    match with(&made.event, pair) {
        Some(Ok(event)) => {
            made.event = Some(event);
            true
        }
        _ => false,
    }
}

// Whether the event with one more header of an empty key and value is too large, with this size.
fn is_too_large(event: &Option<Event>, want: &str) -> bool {
    match with(event, "") {
        Some(Err(EventRefused::TooLarge { size })) => number_of(want) == Some(size),
        _ => false,
    }
}

// Whether the headers and the body have these sizes.
fn has_parts(event: Option<Event>, sizes: &str) -> bool {
    match event {
        Some(event) => {
            let (headers, body) = event.into_parts();
            two_numbers(sizes) == Some((headers.size(), body.len() as u64))
        }
        None => false,
    }
}

fn push(made: &mut Made) -> bool {
    match made.event.take() {
        Some(event) => made.batch.push(event).is_ok(),
        None => false,
    }
}

fn copy_batch(batch: &mut Batch) -> bool {
    match batch.copy() {
        Ok(copied) => {
            *batch = copied;
            true
        }
        Err(_) => false,
    }
}

fn is_first(batch: &Batch, size: Option<u64>) -> bool {
    batch.len() > 0 && size == Some(batch.get(0).size())
}

fn add_number(numbers: &mut Numbers, number: &str) -> bool {
    match number_of(number) {
        Some(number) => numbers.push(number).is_ok(),
        None => false,
    }
}

// Whether a copy of the numbers has these two, and no more.
fn are_numbers(numbers: &Numbers, want: &str) -> bool {
    let Some((first, second)) = two_numbers(want) else {
        return false;
    };
    match numbers.copy() {
        Ok(copied) => { copied.as_slice() == [first, second].as_slice() && numbers.len() == 2 }
        Err(_) => false,
    }
}

fn is_contained(numbers: &Numbers, number: &str) -> bool {
    match number_of(number) {
        Some(number) => numbers.contains(number),
        None => false,
    }
}

// Of batches and numbers.
fn is_many(made: &mut Made, word: &str, rest: &str) -> bool {
    match word {
        "push" => push(made),
        "batch-copy" => copy_batch(&mut made.batch),
        "batch" => number_of(rest) == Some(made.batch.len() as u64),
        "first" => is_first(&made.batch, number_of(rest)),
        "hands" => is_of_size(&made.batch.take_first(), number_of(rest)),
        "number" => add_number(&mut made.numbers, rest),
        "numbers" => are_numbers(&made.numbers, rest),
        "contains" => is_contained(&made.numbers, rest),
        _ => false,
    }
}

// Of one event.
fn is_one(made: &mut Made, word: &str, rest: &str) -> bool {
    match word {
        "event" => set_event(made, rest.as_bytes()),
        "zeros" => set_zeros(made, rest),
        "size" => is_of_size(&made.event, number_of(rest)),
        "largest" => is_of_size(&made.event, Some(MAX_EVENT_SIZE)),
        "with" => set_with(made, rest),
        "too-large" => is_too_large(&made.event, rest),
        "parts" => has_parts(made.event.take(), rest),
        _ => is_many(made, word, rest),
    }
}

impl Scene for Made {
    fn begin(alloc: Global) -> Made {
        Made {
            alloc,
            headers: Headers::new(alloc),
            event: None,
            batch: Batch::new(alloc),
            numbers: Numbers::new(alloc),
            has_tried: false,
        }
    }

    fn holds(&mut self, word: &str, rest: &str) -> bool {
        self.has_tried = true;
        match word {
            "set" => set(&mut self.headers, rest),
            "copy" => copy(&mut self.headers),
            "joined" => are_joined(&self.headers, rest),
            "remove" => self.headers.remove(rest),
            "get" => gets(&self.headers, rest),
            "headers" => number_of(rest) == Some(self.headers.len() as u64),
            "pairs" => set_pairs(self, rest),
            "repeats" => repeats(self.alloc, rest),
            _ => is_one(self, word, rest),
        }
    }

    fn has_tried(&self) -> bool {
        self.has_tried
    }
}

#[test]
fn events_are_made_of_their_parts(rt: HostRuntime) -> Result<(), Fail> {
    pass::<Made>(rt.alloc(), EVENTS)
}

// Events and their headers, and bytes for which room was made before.
ghost use Rattle.std.specs.Prelude.{◌≡◌, ◌≤◌, IfOk, OnOk, IfErr, ◌+◌, ◌^◌, [], length, is_some, OnErr, option_copied, ◌++◌, vec_len, vec_capacity};
ghost use Rattle.event_core.specs.Content.{AreHeaders, content, size, with_header, HaveDistinctKeys, value_of, without_header, headers_size};
ghost use Rattle.event_core.specs.Refusals.{IsRefusalOfEvent, IsTooLarge, IsRefusalOfPairs};
ghost use Rattle.std.specs.Iterator.{at_most};
ghost use Rattle.std.specs.List.Sorted.{IsPermutation};
ghost use Rattle.std.specs.Map.Iter.{TakesFirst, deref_pair};
ghost use Rattle.event_core.specs.Texts.{pairs_bytes};

use crate::{EventRefused, NoMemory};
use std::alloc::Global;
use std::collections::BTreeMap;
use std::collections::btree_map::Iter;
use std::marker::Model;

/// The greatest size of an event, in bytes.
pub const MAX_EVENT_SIZE: u64 = 33_554_432;

/// The greatest size of an event that a channel on a disk keeps, in bytes.
pub const MAX_KEPT_SIZE: u64 = 1_048_576;

/// A body of bytes with headers (Flume Developer Guide, "Events").
#[derive(Drop)]
pub struct Event {
    headers: Headers,
    body: Vec<u8>,
}

impl Model for Event {
    ghost use Rattle.std.specs.Prelude.{◌≤◌};
    ghost use Rattle.event_core.specs.Content as spec;
    ghost use Rattle.event_core.specs.Content.{Content, content};

    ghost Value = { Content };

    ghost view = { λ e. content e.headers e.body.items };

    ghost invariant = { λ e. spec.size (content e.headers e.body.items) ≤ 33_554_432 };
}

impl Event {
    /// An event of these headers and this body. It is refused exactly where its size passes
    /// `MAX_EVENT_SIZE`.
    pub fn new(headers: Headers, body: Vec<u8>) -> Result<Event, EventRefused>
        ensures ok { IfOk result (λ event. event ≡ content headers body.items) }
        ensures fits { OnOk result (size (content headers body.items) ≤ MAX_EVENT_SIZE) }
        ensures err { IfErr result (IsTooLarge (content headers body.items)) }
    {
        let size = headers.size() + body.len() as u64 + 8;
        if size > MAX_EVENT_SIZE {
            return Err(EventRefused::TooLarge { size });
        }
        Ok(Event { headers, body })
    }

    /// The headers.
    pub fn headers(&self) -> &Headers
        ensures { result.now ≡ self.now.headers }
    {
        &self.headers
    }

    /// The body.
    pub fn body(&self) -> &[u8]
        ensures { result.now ≡ self.now.body }
    {
        &self.body
    }

    /// The size in bytes: four bytes for the count of headers, each key and each value with four
    /// bytes of length, and the body with four bytes of length.
    pub fn size(&self) -> u64
        ensures size { result ≡ size self.now }
        ensures bound { size self.now ≤ MAX_EVENT_SIZE }
        ensures well_formed { AreHeaders self.now.headers }
    {
        self.headers.size() + self.body.len() as u64 + 8
    }

    /// The same event once more.
    pub fn copy(&self) -> Result<Event, NoMemory>
        ensures { IfOk result (λ event. event ≡ self.now) }
    {
        let headers = self.headers.copy()?;
        let body = self.body.clone()?;
        Ok(Event { headers, body })
    }

    /// The event with this header added, or with its value replaced. Besides being out of memory it is
    /// refused exactly where its size then passes `MAX_EVENT_SIZE`.
    pub fn with(self, key: &str, value: &str) -> Result<Event, EventRefused>
        ensures ok { IfOk result (λ event. event
            ≡ content (with_header self.headers key.now value.now) self.body) }
        ensures fits { OnOk result (size (content (with_header self.headers key.now value.now)
            self.body) ≤ MAX_EVENT_SIZE) }
        ensures err { IfErr result (IsRefusalOfEvent
            (content (with_header self.headers key.now value.now) self.body)) }
    {
        let (mut headers, body) = self.into_parts();
        headers.set(key, value)?;
        Event::new(headers, body)
    }

    /// The headers and the body. It takes no memory.
    pub fn into_parts(self) -> (Headers, Vec<u8>)
        ensures headers { result.0 ≡ self.headers }
        ensures body { result.1.items ≡ self.body }
    {
        let Event { headers, body } = self;
        (headers, body)
    }
}

// More bytes than any memory has. A sum up to here fits its type.
const MOST_BYTES: u64 = 1 << 62;

/// The headers of an event: a text under each of some keys, in the order of the keys' bytes
/// (Flume Developer Guide, "Events").
#[derive(Drop)]
pub struct Headers {
    entries: BTreeMap<String, String>,
    size: u64,
    alloc: Global,
}

impl Model for Headers {
    ghost use Rattle.std.specs.Prelude.{◌≡◌, ◌≤◌, ◌^◌, ℕ, List};
    ghost use Rattle.event_core.specs.Content.{headers_size};
    ghost use Rattle.event_core.specs.Texts.{pairs_bytes};

    ghost Value = { List (List ℕ × List ℕ) };

    ghost view = { λ h. pairs_bytes h.entries.entries };

    ghost invariant = { λ h. (h.size ≡ headers_size (pairs_bytes h.entries.entries))
        × (h.size ≤ 2 ^ 62) };
}

// The length of a text's bytes with their count.
fn text_size(text: &str) -> u64
    ensures { result ≡ length text.now + 4 }
{
    text.len() as u64 + 4
}

impl Headers {
    /// No headers.
    pub fn new(alloc: Global) -> Headers
        ensures { result ≡ [] }
    {
        Headers {
            entries: BTreeMap::new(alloc),
            size: 0,
            alloc,
        }
    }

    /// How many headers there are.
    pub fn len(&self) -> usize
        ensures { result ≡ length self.now }
    {
        self.entries.len()
    }

    /// The length of their bytes in an event.
    pub fn size(&self) -> u64
        ensures size { result ≡ headers_size self.now }
        ensures bound { result ≤ 2 ^ 62 }
        ensures well_formed { AreHeaders self.now }
    {
        let _len = self.entries.len();
        self.size
    }

    /// The value of the key.
    pub fn get(&self, key: &str) -> Option<&str>
        ensures { option_copied result ≡ value_of self.now key.now }
    {
        match self.entries.get(key) {
            Some(value) => Some(value.as_str()),
            None => None,
        }
    }

    /// Adds a header, or replaces the value of its key.
    pub fn set(&mut self, key: &str, value: &str) -> Result<(), NoMemory>
        ensures ok { OnOk result (self.new ≡ with_header self.old key.now value.now) }
        ensures err { OnErr result (self.new ≡ self.old) }
    {
        let grown = self
            .size
            .saturating_add(text_size(key))
            .saturating_add(text_size(value));
        if grown > MOST_BYTES {
            return Err(NoMemory);
        }
        let new_key = String::from_str(self.alloc, key)?;
        let new_value = String::from_str(self.alloc, value)?;
        let replaced = self.entries.insert(new_key, new_value)?;
        self.size = match replaced {
            Some(old) => grown - text_size(key) - text_size(old.as_str()),
            None => grown,
        };
        Ok(())
    }

    /// Removes the header of the key. The answer is true where there was one.
    pub fn remove(&mut self, key: &str) -> bool
        ensures answer { result ≡ is_some (value_of self.old key.now) }
        ensures removed { self.new ≡ without_header self.old key.now }
    {
        match self.entries.remove(key) {
            Some(old) => {
                self.size -= text_size(key) + text_size(old.as_str());
                true
            }
            None => false,
        }
    }

    /// Headers of these pairs. `RepeatedKey` comes exactly where a key stands twice, and has the
    /// first key that repeats an earlier one.
    pub fn from_pairs(alloc: Global, pairs: &[(String, String)]) -> Result<Headers, EventRefused>
        ensures ok { IfOk result (IsPermutation (pairs_bytes pairs.now)) }
        ensures distinct { OnOk result (HaveDistinctKeys (pairs_bytes pairs.now)) }
        ensures err { IfErr result (IsRefusalOfPairs (pairs_bytes pairs.now)) }
    {
        let mut headers = Headers::new(alloc);
        for pair in pairs {
            let key = pair.0.as_str();
            if headers.get(key).is_some() {
                let key = String::from_str(alloc, key)?;
                return Err(EventRefused::RepeatedKey { key });
            }
            headers.set(key, pair.1.as_str())?;
        }
        Ok(headers)
    }

    /// The headers in the order of their keys.
    pub fn iter(&self) -> HeaderPairs<'_>
        ensures all { result ≡ self.now }
        ensures well_formed { AreHeaders self.now }
    {
        HeaderPairs {
            rest: self.entries.iter(),
        }
    }

    /// The same headers once more.
    pub fn copy(&self) -> Result<Headers, NoMemory>
        ensures { IfOk result (λ headers. headers ≡ self.now) }
    {
        let entries = self.entries.clone()?;
        Ok(Headers {
            entries,
            size: self.size,
            alloc: self.alloc,
        })
    }
}

/// Headers in the order of their keys, each as its key and its value.
#[derive(Drop)]
pub struct HeaderPairs<'a> {
    rest: Iter<'a, String, String>,
}

impl<'a> Model for HeaderPairs<'a> {
    ghost use Rattle.std.specs.Prelude.{ℕ, List};
    ghost use Rattle.event_core.specs.Texts.{pairs_bytes};

    ghost Value = { List (List ℕ × List ℕ) };

    ghost view = { λ a. pairs_bytes a.rest };
}

impl<'a> Iterator for HeaderPairs<'a> {
    type Item = (&'a str, &'a str);

    ghost next_gives = { TakesFirst deref_pair };

    ghost remaining = { λ s. at_most (length s) };

    fn next(&mut self) -> Option<(&'a str, &'a str)> {
        match self.rest.next() {
            Some((key, value)) => Some((key.as_str(), value.as_str())),
            None => None,
        }
    }
}

/// Adds bytes for which there is room. So it takes no memory.
pub fn put(into: &mut Vec<u8>, bytes: &[u8])
    requires { vec_len into.old + length bytes.now ≤ vec_capacity into.old }
    ensures items { into.new.items ≡ into.old.items ++ bytes.now }
    ensures len { vec_len into.new ≡ vec_len into.old + length bytes.now }
    ensures room { vec_capacity into.old ≤ vec_capacity into.new }
{
    if into.extend_from_slice(bytes).is_err() {
        unreachable!();
    }
}

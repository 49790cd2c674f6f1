// A selector and an intake over three channels, on which the lines of a scenario work.
use crate::events::is_shown;
use crate::links::link_of;
use crate::setup::{accept, intake_over, next_at, size_at};
use channel_face::{Channel, FaceRefused, Kind, Limits, OwnFace, PutRefused, StageCause};
use event_core::{Batch, Event, Headers};
use file_channel::FileChannel;
use host_memory::MemDisk;
use memory_channel::MemoryChannel;
use plug_in::{Intercepted, Interceptor};
use scenarios::{
    Scene, are_numbers, number_of, numbers_of, owned, word_and_numbers, word_and_rest,
};
use selectors::{Choice, Selector, select};
use source_put::{ChainLink, Intake, Verdict};
use std::alloc::Global;
use std::mem;
use test_fixtures::{channel_on, event_with};
use txn_core::Machine;

// What an intake is over.
#[derive(Drop)]
enum Over {
    Nothing,
    Memory(Intake<OwnFace<MemoryChannel>>),
    Plain(Intake<OwnFace<Machine>>),
    Disk(Intake<OwnFace<FileChannel<MemDisk>>>),
}

/// A selector, and an intake.
#[derive(Drop)]
pub struct Intakes {
    alloc: Global,
    txn_capacity: u32,
    links: Vec<ChainLink>,
    selector: Selector,
    // of an event whose channels are chosen
    headers: Headers,
    // of the next put
    batch: Batch,
    over: Over,
    has_tried: bool,
}

// Each of three channels.
fn all_three(alloc: Global) -> Selector {
    Selector::Replicating {
        channels: 3,
        optional: Vec::new(alloc),
    }
}

// Each of so many channels, and which of them may miss an event, as `4 2 0`.
fn replicating(alloc: Global, words: &str) -> Option<Selector> {
    let (channels, optional) = word_and_rest(words);
    let channels = channels.parse::<u32>().ok()?;
    Some(Selector::Replicating {
        channels,
        optional: numbers_of(alloc, optional)?,
    })
}

// By the header `state`, no value of which was said yet.
fn by_state(alloc: Global) -> Option<Selector> {
    Some(Selector::Multiplexing {
        header: owned(alloc, "state")?,
        mapping: Vec::new(alloc),
        default: Vec::new(alloc),
        optional: Vec::new(alloc),
    })
}

fn set_selector(scene: &mut Intakes, selector: Option<Selector>) -> bool {
    match selector {
        Some(selector) => {
            scene.selector = selector;
            true
        }
        None => false,
    }
}

fn pair_of(alloc: Global, value: &str, places: &str) -> Option<(String, Vec<u32>)> {
    let places = numbers_of(alloc, places)?;
    match owned(alloc, value) {
        Some(value) => Some((value, places)),
        None => None,
    }
}

// Adds a value and its channels, as `CZ 0 1`.
fn add_pair(alloc: Global, pairs: &mut Vec<(String, Vec<u32>)>, row: &str) -> bool {
    let (value, places) = word_and_rest(row);
    match pair_of(alloc, value, places) {
        Some(pair) => pairs.push(pair).is_ok(),
        None => false,
    }
}

fn add_mapped(alloc: Global, selector: &mut Selector, row: &str) -> bool {
    match selector {
        Selector::Multiplexing { mapping, .. } => add_pair(alloc, mapping, row),
        _ => false,
    }
}

fn add_optional(alloc: Global, selector: &mut Selector, row: &str) -> bool {
    match selector {
        Selector::Multiplexing { optional, .. } => add_pair(alloc, optional, row),
        _ => false,
    }
}

fn set_default(alloc: Global, selector: &mut Selector, places: &str) -> bool {
    match (selector, numbers_of(alloc, places)) {
        (Selector::Multiplexing { default, .. }, Some(places)) => {
            *default = places;
            true
        }
        _ => false,
    }
}

fn choice_of(scene: &Intakes) -> Option<Choice> {
    select(scene.alloc, &scene.selector, &scene.headers).ok()
}

fn are_required(scene: &Intakes, places: &str) -> bool {
    match choice_of(scene) {
        Some(choice) => are_numbers(choice.required.as_slice(), places),
        None => false,
    }
}

fn are_optional(scene: &Intakes, places: &str) -> bool {
    match choice_of(scene) {
        Some(choice) => are_numbers(choice.optional.as_slice(), places),
        None => false,
    }
}

fn add_link(scene: &mut Intakes, text: &str) -> bool {
    match link_of(scene.alloc, text) {
        Some(link) => scene.links.push(link).is_ok(),
        None => false,
    }
}

// Keeps the first event that it sees, and drops the others.
#[derive(Drop)]
struct FirstOnly {
    seen: bool,
}

impl Interceptor for FirstOnly {
    ghost use Rattle.std.specs.Prelude.{◌≡◌, true};

    ghost intercepts = { λ old event moment answer new. new.seen ≡ true };

    fn intercept(&mut self, event: Event, _moment: u64) -> Intercepted {
        if self.seen {
            return Intercepted::Dropped;
        }
        self.seen = true;
        Intercepted::Keep(event)
    }
}

fn first_only(alloc: Global) -> Option<Box<dyn Interceptor + Send>> {
    let object: Box<dyn Interceptor + Send> = Box::new(alloc, FirstOnly { seen: false }).ok()?;
    Some(object)
}

fn add_first_only(scene: &mut Intakes) -> bool {
    match first_only(scene.alloc) {
        Some(object) => scene.links.push(ChainLink::Boxed(object)).is_ok(),
        None => false,
    }
}

fn limits(capacity: u32, txn_capacity: u32, max_file: u64) -> Limits {
    Limits {
        capacity,
        txn_capacity,
        max_file,
    }
}

// Channels in memory of these capacities.
fn in_memory(alloc: Global, capacities: &[u32], most: u32) -> Option<Vec<MemoryChannel>> {
    let mut channels = Vec::new(alloc);
    for capacity in capacities {
        let channel = MemoryChannel::new(alloc, limits(*capacity, most, 0)).ok()?;
        channels.push(channel).ok()?;
    }
    Some(channels)
}

// The same, plain ones.
fn plain(alloc: Global, capacities: &[u32], most: u32) -> Option<Vec<Machine>> {
    let mut channels = Vec::new(alloc);
    for capacity in capacities {
        let limits = limits(*capacity, most, 1_000_000);
        channels
            .push(Machine::new(alloc, limits, Kind::File).ok()?)
            .ok()?;
    }
    Some(channels)
}

// The same, in folders that hold nothing.
fn on_disk(alloc: Global, capacities: &[u32], most: u32) -> Option<Vec<FileChannel<MemDisk>>> {
    let mut channels = Vec::new(alloc);
    for capacity in capacities {
        let limits = limits(*capacity, most, 1_000_000);
        channels
            .push(channel_on(alloc, MemDisk::new(alloc), limits).ok()?)
            .ok()?;
    }
    Some(channels)
}

// Begins an intake over these channels, with the links and the selector that were said.
fn begun<C: Channel + Drop>(
    scene: &mut Intakes,
    channels: Option<Vec<C>>,
) -> Option<Intake<OwnFace<C>>> {
    let alloc = scene.alloc;
    let links = mem::replace(&mut scene.links, Vec::new(alloc));
    let selector = mem::replace(&mut scene.selector, all_three(alloc));
    intake_over(alloc, links, selector, channels?)
}

// Begins an intake of a kind over channels of these capacities.
fn intake_on(scene: &mut Intakes, word: &str, capacities: &[u32]) -> Option<Over> {
    let (alloc, most) = (scene.alloc, scene.txn_capacity);
    match word {
        "in-memory" => Some(Over::Memory(begun(scene, in_memory(alloc, capacities, most))?)),
        "plain" => Some(Over::Plain(begun(scene, plain(alloc, capacities, most))?)),
        _ => Some(Over::Disk(begun(scene, on_disk(alloc, capacities, most))?)),
    }
}

fn begin_over(scene: &mut Intakes, word: &str, capacities: &str) -> bool {
    let Some(capacities) = numbers_of(scene.alloc, capacities) else {
        return false;
    };
    match intake_on(scene, word, capacities.as_slice()) {
        Some(begun) => {
            scene.over = begun;
            true
        }
        None => false,
    }
}

fn set_most(scene: &mut Intakes, most: &str) -> bool {
    match most.parse::<u32>() {
        Ok(most) => {
            scene.txn_capacity = most;
            true
        }
        Err(_) => false,
    }
}

// Adds an event of a state and a body to the next batch.
fn add_event(scene: &mut Intakes, row: &str) -> bool {
    let (state, body) = word_and_rest(row);
    match event_with(scene.alloc, &[("state", state)], body.as_bytes()) {
        Ok(event) => scene.batch.push(event).is_ok(),
        Err(_) => false,
    }
}

// An event without headers, of so many zeros.
fn zeros(alloc: Global, count: &str) -> Option<Event> {
    let count = count.parse::<usize>().ok()?;
    let body = vec![in alloc; 0u8; count].ok()?;
    Event::new(Headers::new(alloc), body).ok()
}

fn add_zeros(scene: &mut Intakes, count: &str) -> bool {
    match zeros(scene.alloc, count) {
        Some(event) => scene.batch.push(event).is_ok(),
        None => false,
    }
}

// A verdict as a word, the place of the channel, and a number.
fn said_of(verdict: Verdict) -> (&'static str, u64, u64) {
    match verdict {
        Verdict::Taken => ("taken", 0, 0),
        Verdict::TooLarge { size } => ("too-large", size, 0),
        Verdict::Refused { channel, cause } => said_of_refusal(u64::from(channel), cause),
        Verdict::NoMemory => ("no-memory", 0, 0),
    }
}

fn said_of_refusal(channel: u64, cause: FaceRefused) -> (&'static str, u64, u64) {
    match cause {
        FaceRefused::Put(PutRefused::Full { count }) => ("full", channel, u64::from(count)),
        FaceRefused::Put(PutRefused::TxnFull { count }) => {
            ("txn-full", channel, u64::from(count))
        }
        FaceRefused::Stage(StageCause::Full { count }) => {
            ("stage-full", channel, u64::from(count))
        }
        _ => ("other", 0, 0),
    }
}

// Puts the batch.
fn verdict_on(over: &mut Over, batch: Batch) -> Verdict {
    match over {
        Over::Memory(intake) => accept(intake, batch),
        Over::Plain(intake) => accept(intake, batch),
        Over::Disk(intake) => accept(intake, batch),
        Over::Nothing => Verdict::NoMemory,
    }
}

fn is_put(scene: &mut Intakes, want: &str) -> bool {
    let batch = mem::replace(&mut scene.batch, Batch::new(scene.alloc));
    said_of(verdict_on(&mut scene.over, batch)) == word_and_numbers(want)
}

fn next(over: &mut Over, place: u32, stays: bool) -> Option<Option<Event>> {
    match over {
        Over::Memory(intake) => next_at(intake, place, stays),
        Over::Plain(intake) => next_at(intake, place, stays),
        Over::Disk(intake) => next_at(intake, place, stays),
        Over::Nothing => None,
    }
}

// Whether a channel has this event next, as `0 [state=CZ]x`.
fn gives(scene: &mut Intakes, row: &str, stays: bool) -> bool {
    let (place, text) = word_and_rest(row);
    let Ok(place) = place.parse::<u32>() else {
        return false;
    };
    match next(&mut scene.over, place, stays) {
        Some(Some(event)) => is_shown(scene.alloc, &event, text),
        _ => false,
    }
}

// Whether a channel gives no event.
fn is_empty(scene: &mut Intakes, place: &str) -> bool {
    match place.parse::<u32>() {
        Ok(place) => matches!(next(&mut scene.over, place, false), Some(None)),
        Err(_) => false,
    }
}

fn size_of(over: &mut Over, place: u32) -> Option<u64> {
    match over {
        Over::Memory(intake) => size_at(intake, place),
        Over::Plain(intake) => size_at(intake, place),
        Over::Disk(intake) => size_at(intake, place),
        Over::Nothing => None,
    }
}

fn is_size(scene: &mut Intakes, place: u32, size: &str) -> bool {
    match size_of(&mut scene.over, place) {
        Some(found) => number_of(size) == Some(found),
        None => false,
    }
}

// Whether the channels hold so many events.
fn are_sizes(scene: &mut Intakes, sizes: &str) -> bool {
    let (first, rest) = word_and_rest(sizes);
    let (second, third) = word_and_rest(rest);
    is_size(scene, 0, first) && is_size(scene, 1, second) && is_size(scene, 2, third)
}

// Of an event with this header alone, whose value is `state`.
fn set_state(scene: &mut Intakes, state: &str) -> bool {
    scene.headers = Headers::new(scene.alloc);
    scene.headers.set("state", state).is_ok()
}

fn set_no_state(scene: &mut Intakes) -> bool {
    scene.headers = Headers::new(scene.alloc);
    true
}

// Of what is found.
fn is_found(scene: &mut Intakes, word: &str, rest: &str) -> bool {
    scene.has_tried = true;
    match word {
        "required" => are_required(scene, rest),
        "optional" => are_optional(scene, rest),
        "put" => is_put(scene, rest),
        "gives" => gives(scene, rest, false),
        "shows" => gives(scene, rest, true),
        "empty" => is_empty(scene, rest),
        "sizes" => are_sizes(scene, rest),
        _ => false,
    }
}

// Of selectors.
fn is_chosen(scene: &mut Intakes, word: &str, rest: &str) -> bool {
    let alloc = scene.alloc;
    match word {
        "replicating" => set_selector(scene, replicating(alloc, rest)),
        "by-state" => set_selector(scene, by_state(alloc)),
        "mapped" => add_mapped(alloc, &mut scene.selector, rest),
        "default" => set_default(alloc, &mut scene.selector, rest),
        "may-get" => add_optional(alloc, &mut scene.selector, rest),
        "state" => set_state(scene, rest),
        "no-state" => set_no_state(scene),
        _ => is_found(scene, word, rest),
    }
}

impl Scene for Intakes {
    fn begin(alloc: Global) -> Intakes {
        Intakes {
            alloc,
            txn_capacity: 10,
            links: Vec::new(alloc),
            selector: all_three(alloc),
            headers: Headers::new(alloc),
            batch: Batch::new(alloc),
            over: Over::Nothing,
            has_tried: false,
        }
    }

    fn holds(&mut self, word: &str, rest: &str) -> bool {
        match word {
            "most" => set_most(self, rest),
            "link" => add_link(self, rest),
            "first-only" => add_first_only(self),
            "in-memory" | "plain" | "on-disk" => begin_over(self, word, rest),
            "event" => add_event(self, rest),
            "zeros" => add_zeros(self, rest),
            _ => is_chosen(self, word, rest),
        }
    }

    fn has_tried(&self) -> bool {
        self.has_tried
    }
}

// Sinks, groups of them and a channel that they empty, on which the lines of a scenario work.
use channel_face::{BeginRefused, Channel, FaceRefused, Limits, OwnFace, TakeFace, TakeRefused};
use event_core::{Batch, Event};
use file_channel::FileChannel;
use host_memory::{MemDisk, MemRandom, MemRoll, Part};
use memory_channel::MemoryChannel;
use plug_in::{EventSink, SinkRefused};
use roll_sink::RollSink;
use scenarios::{
    Scene, are_numbers, is_text, number_of, numbers_of, two_numbers, word_and_numbers,
    word_and_rest,
};
use sink_groups::{GroupKind, GroupRefused, GroupRules, GroupRun, GroupSink};
use sink_runner::{NullSink, Turn, TurnCause, commits_what_it_delivered, drain_turn};
use std::alloc::Global;
use std::mem;
use test_fixtures::{channel_on, disk_failing_at, event, put};

/// A sink into a folder in memory.
pub type Rolls = RollSink<MemRoll>;

// What is delivered to.
#[derive(Drop)]
enum Sink {
    Nothing,
    Null,
    Roll(Rolls),
    Group(GroupRun<Rolls>),
    GroupSink(GroupSink<Rolls, MemRandom>),
    Boxed(Box<dyn EventSink + Send>),
}

// What events are taken from.
#[derive(Drop)]
enum From {
    Nothing,
    Memory(OwnFace<MemoryChannel>),
    Disk(OwnFace<FileChannel<MemDisk>>),
}

/// A sink, and a channel.
#[derive(Drop)]
pub struct Sinks {
    alloc: Global,
    // the members of the next group
    members: Vec<Rolls>,
    backoff: bool,
    sink: Sink,
    from: From,
    has_tried: bool,
}

// The calls of a folder that fail, as `0 4`.
fn calls_of(alloc: Global, words: &str) -> Option<Vec<u64>> {
    let mut calls = Vec::new(alloc);
    if !words.is_empty() {
        for word in words.split(' ') {
            calls.push(number_of(word)?).ok()?;
        }
    }
    Some(calls)
}

/// A sink into a folder of which these calls fail, which begins a file after so many seconds.
pub fn rolls(alloc: Global, fails: &str, interval: u32) -> Option<Rolls> {
    let calls = calls_of(alloc, fails)?;
    let folder = MemRoll::new(alloc).failing_at(calls);
    Some(RollSink::new(alloc, folder, interval))
}

// A sink of an interval, into a folder of which calls fail, as `30 4`.
fn rolls_of(alloc: Global, words: &str) -> Option<Rolls> {
    let (interval, fails) = word_and_rest(words);
    rolls(alloc, fails, interval.parse::<u32>().ok()?)
}

fn set_roll(scene: &mut Sinks, words: &str) -> bool {
    match rolls_of(scene.alloc, words) {
        Some(sink) => {
            scene.sink = Sink::Roll(sink);
            true
        }
        None => false,
    }
}

fn set_null(scene: &mut Sinks) -> bool {
    scene.sink = Sink::Null;
    true
}

fn add_member(scene: &mut Sinks, fails: &str) -> bool {
    match rolls(scene.alloc, fails, 0) {
        Some(member) => scene.members.push(member).is_ok(),
        None => false,
    }
}

/// What a kind of group is called.
pub fn kind_of(word: &str) -> Option<GroupKind> {
    match word {
        "single" => Some(GroupKind::Single),
        "failover" => Some(GroupKind::Failover),
        "round-robin" => Some(GroupKind::RoundRobin),
        "random" => Some(GroupKind::Random),
        _ => None,
    }
}

/// A group of members by some rules, where these are of as many.
pub fn group_by<S: EventSink + Drop>(
    alloc: Global,
    members: Vec<S>,
    rules: GroupRules,
) -> Option<GroupRun<S>> {
    let count = members.len();
    let is_single = rules.kind == GroupKind::Single;
    if count == 0 || count > 100 || count != rules.priorities.len() || (is_single && count != 1) {
        return None;
    }
    GroupRun::new(alloc, members, rules).ok()
}

// A group of a kind and of priorities, as `failover 5 10`, whose members are left alone for 30 seconds at most.
fn rules_of(alloc: Global, words: &str, backoff: bool) -> Option<GroupRules> {
    let (kind, priorities) = word_and_rest(words);
    let kind = kind_of(kind)?;
    Some(GroupRules {
        kind,
        priorities: numbers_of(alloc, priorities)?,
        penalty: 30_000,
        backoff,
    })
}

// The group of the members that were said.
fn group_of(scene: &mut Sinks, words: &str) -> Option<GroupRun<Rolls>> {
    let rules = rules_of(scene.alloc, words, scene.backoff)?;
    let members = mem::replace(&mut scene.members, Vec::new(scene.alloc));
    group_by(scene.alloc, members, rules)
}

fn boxed(alloc: Global, sink: GroupSink<Rolls, MemRandom>) -> Option<Box<dyn EventSink + Send>> {
    let object: Box<dyn EventSink + Send> = Box::new(alloc, sink).ok()?;
    Some(object)
}

// The group as what a word says.
fn sink_of(alloc: Global, word: &str, run: GroupRun<Rolls>) -> Option<Sink> {
    match word {
        "group" => Some(Sink::Group(run)),
        "group-sink" => {
            let random = MemRandom { number: 5, step: 3 };
            Some(Sink::GroupSink(GroupSink::new(run, random)))
        }
        _ => {
            let random = MemRandom { number: 0, step: 0 };
            Some(Sink::Boxed(boxed(alloc, GroupSink::new(run, random))?))
        }
    }
}

fn set_group(scene: &mut Sinks, word: &str, words: &str) -> bool {
    let Some(run) = group_of(scene, words) else {
        return false;
    };
    match sink_of(scene.alloc, word, run) {
        Some(sink) => {
            scene.sink = sink;
            true
        }
        None => false,
    }
}

fn set_backoff(scene: &mut Sinks) -> bool {
    scene.backoff = true;
    true
}

// A batch of events of these bodies, with a bar between each two.
fn batch_of(alloc: Global, bodies: &str) -> Option<Batch> {
    let mut batch = Batch::new(alloc);
    for body in bodies.split('|') {
        if batch.push(event(alloc, body.as_bytes()).ok()?).is_err() {
            return None;
        }
    }
    Some(batch)
}

fn delivered<S: EventSink>(sink: &mut S, batch: &Batch, moment: u64) -> Result<(), SinkRefused> {
    sink.deliver(batch, moment)
}

// What a sink answers to a batch. Other answers are taken for `NoMemory`.
fn answer(sink: &mut Sink, batch: &Batch, moment: u64) -> Result<(), SinkRefused> {
    match sink {
        Sink::Roll(sink) => delivered(sink, batch, moment),
        Sink::GroupSink(sink) => delivered(sink, batch, moment),
        _ => Err(SinkRefused::NoMemory),
    }
}

// Whether a sink answers so to a batch at a moment, as `5000 x|y`.
fn is_answered(scene: &mut Sinks, row: &str, want: Result<(), SinkRefused>) -> bool {
    let (moment, bodies) = word_and_rest(row);
    match (number_of(moment), batch_of(scene.alloc, bodies)) {
        (Some(moment), Some(batch)) => answer(&mut scene.sink, &batch, moment) == want,
        _ => false,
    }
}

// What a group answers to a batch of one event.
fn group_answer(scene: &mut Sinks, moment: u64) -> Option<Result<u32, GroupRefused>> {
    let batch = batch_of(scene.alloc, "e")?;
    match &mut scene.sink {
        Sink::Group(group) => Some(group.deliver(&batch, moment, 0)),
        _ => None,
    }
}

// Whether this member took it, as `1000 0`.
fn took(scene: &mut Sinks, row: &str) -> bool {
    let Some((moment, member)) = two_numbers(row) else {
        return false;
    };
    match group_answer(scene, moment) {
        Some(Ok(found)) => u64::from(found) == member,
        _ => false,
    }
}

// Whether these members were tried, and all failed, as `3000 1 0`.
fn all_failed(scene: &mut Sinks, row: &str) -> bool {
    let (moment, members) = word_and_rest(row);
    let Some(moment) = number_of(moment) else {
        return false;
    };
    match group_answer(scene, moment) {
        Some(Err(GroupRefused::AllFailed { tried })) => are_numbers(tried.as_slice(), members),
        _ => false,
    }
}

fn faults_of<S: EventSink>(sink: &S) -> u64 {
    sink.faults()
}

fn faults(sink: &Sink) -> Option<u64> {
    match sink {
        Sink::Roll(sink) => Some(faults_of(sink)),
        Sink::GroupSink(sink) => Some(faults_of(sink)),
        Sink::Boxed(sink) => Some(faults_of(sink)),
        _ => None,
    }
}

fn are_faults(sink: &Sink, count: &str) -> bool {
    match faults(sink) {
        Some(found) => number_of(count) == Some(found),
        None => false,
    }
}

// Adds the files of a sink: each name, a colon and its bytes.
fn add_files(text: &mut Vec<u8>, sink: Rolls) -> Option<()> {
    let folder = sink.close();
    for file in folder.files() {
        text.extend_from_slice(file.name.as_str().as_bytes()).ok()?;
        text.push(b':').ok()?;
        text.extend_from_slice(&file.bytes).ok()?;
    }
    Some(())
}

// The same of members, with a semicolon after each.
fn files_of(alloc: Global, members: Vec<Rolls>) -> Option<Vec<u8>> {
    let mut text = Vec::new(alloc);
    for member in members {
        add_files(&mut text, member)?;
        text.push(b';').ok()?;
    }
    Some(text)
}

fn files(alloc: Global, sink: Sink) -> Option<Vec<u8>> {
    match sink {
        Sink::Roll(sink) => {
            let mut text = Vec::new(alloc);
            add_files(&mut text, sink)?;
            Some(text)
        }
        Sink::Group(group) => files_of(alloc, group.into_members()),
        Sink::GroupSink(sink) => files_of(alloc, sink.close()),
        _ => None,
    }
}

// Closes the sink. Whether its folders hold these files.
fn are_files(scene: &mut Sinks, want: &str) -> bool {
    let sink = mem::replace(&mut scene.sink, Sink::Nothing);
    match files(scene.alloc, sink) {
        Some(found) => is_text(scene.alloc, &found, want),
        None => false,
    }
}

fn limits(txn_capacity: u32, max_file: u64) -> Limits {
    Limits {
        capacity: 10,
        txn_capacity,
        max_file,
    }
}

// An empty channel in memory, whose transactions have so many events at most.
fn set_in_memory(scene: &mut Sinks, most: &str) -> bool {
    let Ok(most) = most.parse::<u32>() else {
        return false;
    };
    match MemoryChannel::new(scene.alloc, limits(most, 0)) {
        Ok(channel) => {
            scene.from = From::Memory(OwnFace::new(channel));
            true
        }
        Err(_) => false,
    }
}

fn put_body(from: &mut From, event: &Event) -> bool {
    match from {
        From::Memory(face) => put(&mut face.channel, event),
        From::Disk(face) => put(&mut face.channel, event),
        From::Nothing => false,
    }
}

fn is_put(scene: &mut Sinks, body: &str) -> bool {
    match event(scene.alloc, body.as_bytes()) {
        Ok(event) => put_body(&mut scene.from, &event),
        Err(_) => false,
    }
}

// An event of so many bytes `x`.
fn large(alloc: Global, count: &str) -> Option<Event> {
    let count = count.parse::<usize>().ok()?;
    let body = vec![in alloc; b'x'; count].ok()?;
    event(alloc, &body).ok()
}

fn is_put_large(scene: &mut Sinks, count: &str) -> bool {
    match large(scene.alloc, count) {
        Some(event) => put_body(&mut scene.from, &event),
        None => false,
    }
}

// A channel that was put two events.
fn two_on_disk(alloc: Global, disk: MemDisk) -> Option<FileChannel<MemDisk>> {
    let (a, b) = (event(alloc, b"a").ok()?, event(alloc, b"b").ok()?);
    let mut channel = channel_on(alloc, disk, limits(10, 1_000_000)).ok()?;
    if put(&mut channel, &a) && put(&mut channel, &b) {
        Some(channel)
    } else {
        None
    }
}

// The same, where the last sync of the next commit fails, which writes, syncs, writes and syncs.
fn failing(alloc: Global) -> Option<FileChannel<MemDisk>> {
    let calls = two_on_disk(alloc, MemDisk::new(alloc))?.close().calls();
    let disk = disk_failing_at(alloc, calls.saturating_add(3), Part::Nothing).ok()?;
    two_on_disk(alloc, disk)
}

fn set_failing(scene: &mut Sinks) -> bool {
    match failing(scene.alloc) {
        Some(channel) => {
            scene.from = From::Disk(OwnFace::new(channel));
            true
        }
        None => false,
    }
}

// A turn of so many events at most.
fn turn<T: TakeFace, S: EventSink>(
    alloc: Global,
    face: &mut T,
    sink: &mut S,
    moment: u64,
    most: u32,
) -> Turn {
    drain_turn(alloc, face, sink, most.max(1), moment)
}

fn turn_from<S: EventSink>(
    alloc: Global,
    from: &mut From,
    sink: &mut S,
    moment: u64,
    most: u32,
) -> Turn {
    match from {
        From::Memory(face) => turn(alloc, face, sink, moment, most),
        From::Disk(face) => turn(alloc, face, sink, moment, most),
        From::Nothing => Turn::NoMemory,
    }
}

fn turn_of(scene: &mut Sinks, moment: u64, most: u32) -> Turn {
    let alloc = scene.alloc;
    match &mut scene.sink {
        Sink::Roll(sink) => turn_from(alloc, &mut scene.from, sink, moment, most),
        Sink::Boxed(sink) => turn_from(alloc, &mut scene.from, sink, moment, most),
        Sink::Null => turn_from(alloc, &mut scene.from, &mut NullSink, moment, most),
        _ => Turn::NoMemory,
    }
}

// A turn as a word and its number.
fn said_of(turn: Turn) -> (&'static str, u64, u64) {
    match turn {
        Turn::Delivered { n } => ("delivered", u64::from(n), 0),
        Turn::Empty => ("empty", 0, 0),
        Turn::Failed {
            cause: TurnCause::Sink,
        } => ("refused", 0, 0),
        Turn::Failed {
            cause: TurnCause::Channel(cause),
        } => said_of_channel(cause),
        Turn::InDoubt => ("in-doubt", 0, 0),
        Turn::NoMemory => ("no-memory", 0, 0),
    }
}

fn said_of_channel(cause: FaceRefused) -> (&'static str, u64, u64) {
    match cause {
        FaceRefused::Take(TakeRefused::TxnFull { count }) => ("txn-full", u64::from(count), 0),
        FaceRefused::Begin(BeginRefused::Broken) => ("broken", 0, 0),
        _ => ("other", 0, 0),
    }
}

// Whether a turn at a moment, of so many events at most, comes to this, as `7 2 delivered 1`.
fn is_turned(scene: &mut Sinks, row: &str) -> bool {
    let (moment, rest) = word_and_rest(row);
    let (most, want) = word_and_rest(rest);
    match (number_of(moment), most.parse::<u32>()) {
        (Some(moment), Ok(most)) => {
            said_of(turn_of(scene, moment, most)) == word_and_numbers(want)
        }
        _ => false,
    }
}

// How many events a channel in memory has, of whose turns the law holds.
fn size_in_memory(face: &OwnFace<MemoryChannel>) -> u64 {
    commits_what_it_delivered::<OwnFace<MemoryChannel>, NullSink>(face);
    face.channel.size()
}

// Whether the channel has so many events.
fn is_left(from: &From, count: &str) -> bool {
    match from {
        From::Memory(face) => number_of(count) == Some(size_in_memory(face)),
        From::Disk(face) => number_of(count) == Some(face.channel.size()),
        From::Nothing => false,
    }
}

// Of what comes of it.
fn is_found(scene: &mut Sinks, word: &str, rest: &str) -> bool {
    scene.has_tried = true;
    match word {
        "delivers" => is_answered(scene, rest, Ok(())),
        "refuses" => is_answered(scene, rest, Err(SinkRefused::Refused)),
        "took" => took(scene, rest),
        "all-failed" => all_failed(scene, rest),
        "turn" => is_turned(scene, rest),
        "left" => is_left(&scene.from, rest),
        "faults" => are_faults(&scene.sink, rest),
        "files" => are_files(scene, rest),
        _ => false,
    }
}

impl Scene for Sinks {
    fn begin(alloc: Global) -> Sinks {
        Sinks {
            alloc,
            members: Vec::new(alloc),
            backoff: false,
            sink: Sink::Nothing,
            from: From::Nothing,
            has_tried: false,
        }
    }

    fn holds(&mut self, word: &str, rest: &str) -> bool {
        match word {
            "roll" => set_roll(self, rest),
            "null" => set_null(self),
            "member" => add_member(self, rest),
            "backoff" => set_backoff(self),
            "group" | "group-sink" | "boxed-group" => set_group(self, word, rest),
            "in-memory" => set_in_memory(self, rest),
            "failing-on-disk" => set_failing(self),
            "put" => is_put(self, rest),
            "put-large" => is_put_large(self, rest),
            _ => is_found(self, word, rest),
        }
    }

    fn has_tried(&self) -> bool {
        self.has_tried
    }
}

// What a link in memory does, as lines of a scenario: its reads, and the writes that fail.
use crate::packs::add_packs;
use host_memory::{Flag, LinkStep, MemLink};
use scenarios::{add_text, number_of};
use std::alloc::Global;
use std::mem;

/// What the next link does.
#[derive(Drop)]
pub struct Script {
    alloc: Global,
    steps: Vec<LinkStep>,
    // the writes that fail
    fails: Vec<u64>,
    // is set by the first write
    flag: Option<Flag>,
}

/// A link that gives nothing.
pub fn empty(alloc: Global) -> Script {
    Script {
        alloc,
        steps: Vec::new(alloc),
        fails: Vec::new(alloc),
        flag: None,
    }
}

// A read gives the bytes of a text.
fn add_read(script: &mut Script, text: &str) -> bool {
    let mut bytes = Vec::new(script.alloc);
    add_text(&mut bytes, text) && script.steps.push(LinkStep::Piece(bytes)).is_ok()
}

// A read gives so many times `a`.
fn add_many(script: &mut Script, count: &str) -> bool {
    let Ok(count) = count.parse::<usize>() else {
        return false;
    };
    match vec![in script.alloc; b'a'; count] {
        Ok(bytes) => script.steps.push(LinkStep::Piece(bytes)).is_ok(),
        Err(_) => false,
    }
}

// A read gives the bytes of packs.
fn add_pack(script: &mut Script, names: &str) -> bool {
    let mut bytes = Vec::new(script.alloc);
    add_packs(&mut bytes, names) && script.steps.push(LinkStep::Piece(bytes)).is_ok()
}

// So many reads wait in vain.
fn add_waits(steps: &mut Vec<LinkStep>, count: &str) -> bool {
    for _ in 0..number_of(count).unwrap_or(0) {
        if steps.push(LinkStep::Quiet).is_err() {
            return false;
        }
    }
    true
}

fn add_fail(script: &mut Script, write: &str) -> bool {
    match number_of(write) {
        Some(write) => script.fails.push(write).is_ok(),
        None => false,
    }
}

// A read waits until the link has an answer, and else fails.
fn hold(alloc: Global, steps: &mut Vec<LinkStep>) -> Option<Flag> {
    let answered = Flag::new(alloc).ok()?;
    let handle = answered.handle().ok()?;
    steps.push(LinkStep::Hold(handle)).ok()?;
    Some(answered)
}

fn add_hold(script: &mut Script) -> bool {
    script.flag = hold(script.alloc, &mut script.steps);
    script.flag.is_some()
}

// Adds the pieces of a text, cut after each byte whose place is in a number's binary digits.
fn cut(alloc: Global, steps: &mut Vec<LinkStep>, text: &[u8], cuts: u32) -> Option<()> {
    let mut piece = Vec::new(alloc);
    for (place, byte) in text.iter().enumerate() {
        piece.push(*byte).ok()?;
        if place < 32 && cuts >> (place as u32) & 1 == 1 {
            let whole = mem::replace(&mut piece, Vec::new(alloc));
            steps.push(LinkStep::Piece(whole)).ok()?;
        }
    }
    steps.push(LinkStep::Piece(piece)).ok()
}

/// The link gives a text, cut after each byte whose place is in a number's binary digits.
pub fn add_cut(script: &mut Script, text: &[u8], cuts: u32) -> bool {
    cut(script.alloc, &mut script.steps, text, cuts).is_some()
}

/// Adds to the script what a line says.
pub fn add_step(script: &mut Script, word: &str, rest: &str) -> bool {
    match word {
        "reads" => add_read(script, rest),
        "reads-many" => add_many(script, rest),
        "reads-packs" => add_pack(script, rest),
        "waits" => add_waits(&mut script.steps, rest),
        "waits-for-an-answer" => add_hold(script),
        "breaks" => script.steps.push(LinkStep::Fail).is_ok(),
        "writes-fail" => add_fail(script, rest),
        _ => false,
    }
}

/// The link of a script, which is then empty.
pub fn link_of(script: &mut Script) -> MemLink {
    let alloc = script.alloc;
    let steps = mem::replace(&mut script.steps, Vec::new(alloc));
    let fails = mem::replace(&mut script.fails, Vec::new(alloc));
    let link = MemLink::new(alloc, steps).failing_at(fails);
    match script.flag.take() {
        Some(flag) => link.setting(flag),
        None => link,
    }
}

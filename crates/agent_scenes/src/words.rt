// The words that say what the next run is given.
use crate::bytes::parts_of;
use crate::made::only;
use crate::own_host::Gate;
use crate::scene::{Given, Scene};
use crate::texts::TEXTS;
use flume_host::FileName;
use host_memory::{DiskFault, LinkStep, MemDisk, MemFile, MemLink, MemRoll, Named, Offer, Part};
use scenarios::{add_text, number_of};
use std::alloc::Global;

// Adds the configuration of a name.
fn add_named(text: &mut Vec<u8>, name: &str) -> bool {
    for (other, lines) in &TEXTS {
        if *other == name {
            return text.extend_from_slice(lines.as_bytes()).is_ok();
        }
    }
    false
}

/// Adds a line to the configuration.
pub fn add_line(text: &mut Vec<u8>, line: &str) -> bool {
    add_text(text, line) && text.push(b'\n').is_ok()
}

// The configuration with one text in place of another.
fn swapped(alloc: Global, text: &[u8], swap: &str) -> Option<Vec<u8>> {
    let (from, to) = swap.split_once(" => ")?;
    let whole = str::from_utf8(text).ok()?.replace(alloc, from, to).ok()?;
    let mut bytes = Vec::new(alloc);
    if add_text(&mut bytes, whole.as_str()) {
        Some(bytes)
    } else {
        None
    }
}

fn swap(scene: &mut Scene, swap: &str) -> bool {
    match swapped(scene.alloc, scene.given.text.as_slice(), swap) {
        Some(text) => {
            scene.given.text = text;
            true
        }
        None => false,
    }
}

// Adds a byte up to this length.
fn fill(bytes: &mut Vec<u8>, byte: u8, length: Option<u64>) -> bool {
    let Some(length) = length else {
        return false;
    };
    for _ in bytes.len() as u64..length {
        if bytes.push(byte).is_err() {
            return false;
        }
    }
    true
}

// Adds so many bytes `x`.
fn add_many(bytes: &mut Vec<u8>, count: &str) -> bool {
    let length = bytes.len() as u64;
    match number_of(count) {
        Some(count) => fill(bytes, b'x', Some(length.saturating_add(count))),
        None => false,
    }
}

fn set_number(number: &mut u64, word: &str) -> bool {
    match number_of(word) {
        Some(found) => {
            *number = found;
            true
        }
        None => false,
    }
}

fn add_numbers(numbers: &mut Vec<u64>, words: &str) -> bool {
    for word in words.split(' ') {
        let Some(number) = number_of(word) else {
            return false;
        };
        if numbers.push(number).is_err() {
            return false;
        }
    }
    true
}

fn add_size(sizes: &mut Vec<usize>, word: &str) -> bool {
    match word.parse::<usize>() {
        Ok(size) => sizes.push(size).is_ok(),
        Err(_) => false,
    }
}

fn add_faults(faults: &mut Vec<DiskFault>, part: Part, calls: &str) -> bool {
    for word in calls.split(' ') {
        let Some(call) = number_of(word) else {
            return false;
        };
        if faults.push(DiskFault { call, part }).is_err() {
            return false;
        }
    }
    true
}

// The call after those that were noted fails.
fn fail_behind_noted(scene: &mut Scene) -> bool {
    let fault = DiskFault {
        call: scene.noted.saturating_add(1),
        part: Part::Nothing,
    };
    scene.given.disk_faults.push(fault).is_ok()
}

/// The name of a file of a folder, as `log 1` or `check 3`.
pub fn name_of(name: &str) -> Option<FileName> {
    let (kind, number) = name.split_once(' ')?;
    let number = number.parse::<u32>().ok()?;
    match kind {
        "log" => Some(FileName::Log(number)),
        "check" => Some(FileName::Check(number)),
        _ => None,
    }
}

// A folder of one file, as `log 1 = BYTES`.
fn folder_of(alloc: Global, file: &str) -> Option<MemDisk> {
    let (name, bytes) = file.split_once(" = ")?;
    let name = name_of(name)?;
    let bytes = parts_of(alloc, bytes)?;
    let files = only(alloc, MemFile { name, bytes })?;
    MemDisk::with_files(alloc, files).ok()
}

fn set_folder(scene: &mut Scene, file: &str) -> bool {
    scene.given.disk = folder_of(scene.alloc, file);
    scene.given.disk.is_some()
}

// A folder of rolled files of which calls fail, as `o1 0 3`.
fn add_roll(scene: &mut Scene, roll: &str) -> bool {
    let Some((path, calls)) = roll.split_once(' ') else {
        return false;
    };
    let Some(path) = String::from_str(scene.alloc, path).ok() else {
        return false;
    };
    let mut fails = Vec::new(scene.alloc);
    if !add_numbers(&mut fails, calls) {
        return false;
    }
    let object = Some(MemRoll::new(scene.alloc).failing_at(fails));
    scene.given.rolls.push(Named { path, object }).is_ok()
}

// Two flags, as `0 1`.
fn set_held(scene: &mut Scene, flags: &str) -> bool {
    let Some((begun, until)) = flags.split_once(' ') else {
        return false;
    };
    if let (Some(begun), Some(until)) = (scene.flag(begun), scene.flag(until)) {
        scene.given.held = Some((begun, until));
        return true;
    }
    false
}

fn set_flushed(scene: &mut Scene, flag: &str) -> bool {
    scene.given.flushed = scene.flag(flag);
    scene.given.flushed.is_some()
}

fn set_slow(scene: &mut Scene, flag: &str) -> bool {
    scene.given.slow = scene.flag(flag);
    scene.given.slow.is_some()
}

// The first call that waits; the flags are 0 before a sync waits, 1 that ends it, and 2 where it has waited in vain.
fn set_gate(scene: &mut Scene, from: &str) -> bool {
    let Some(from) = number_of(from) else {
        return false;
    };
    if let (Some(begun), Some(until), Some(given_up)) = (
        scene.flag("0"),
        scene.flag("1"),
        scene.flag("2"),
    ) {
        scene.given.gate = Some(Gate {
            from,
            begun,
            until,
            given_up,
        });
        return true;
    }
    false
}

fn add_port(scene: &mut Scene, port: &str) -> bool {
    match port.parse::<u16>() {
        Ok(port) => scene
            .given
            .ports
            .push((port, Vec::new(scene.alloc)))
            .is_ok(),
        Err(_) => false,
    }
}

// What the port that was said last does at its next accept.
fn add_offer(given: &mut Given, offer: Offer) -> bool {
    match given.ports.last_mut() {
        Some((_, offers)) => offers.push(offer).is_ok(),
        None => false,
    }
}

// A step of a link: it waits in vain, or for a flag, as `wait:1`, or gives bytes.
fn step_of(scene: &Scene, word: &str) -> Option<LinkStep> {
    if word == "quiet" {
        return Some(LinkStep::Quiet);
    }
    match word.strip_prefix("wait:") {
        Some(flag) => Some(LinkStep::Hold(scene.flag(flag)?)),
        None => Some(LinkStep::Piece(parts_of(scene.alloc, word)?)),
    }
}

fn steps_of(scene: &Scene, words: &str) -> Option<Vec<LinkStep>> {
    let mut steps = Vec::new(scene.alloc);
    if words.is_empty() {
        return Some(steps);
    }
    for word in words.split(' ') {
        if steps.push(step_of(scene, word)?).is_err() {
            return None;
        }
    }
    Some(steps)
}

// A link of these steps, which sets a flag once it was written to, as in `x\n sets 1`.
fn link_of(scene: &Scene, words: &str) -> Option<MemLink> {
    let (words, flag) = words.split_once(" sets ").unwrap_or((words, ""));
    let link = MemLink::new(scene.alloc, steps_of(scene, words)?);
    if flag.is_empty() {
        Some(link)
    } else {
        Some(link.setting(scene.flag(flag)?))
    }
}

fn add_link(scene: &mut Scene, words: &str) -> bool {
    match link_of(scene, words) {
        Some(link) => add_offer(&mut scene.given, Offer::Link(link)),
        None => false,
    }
}

fn add_hold(scene: &mut Scene, flag: &str) -> bool {
    match scene.flag(flag) {
        Some(flag) => add_offer(&mut scene.given, Offer::Hold(flag)),
        None => false,
    }
}

fn add_dial(scene: &mut Scene, words: &str) -> bool {
    match link_of(scene, words) {
        Some(link) => scene.given.dials.push(Some(link)).is_ok(),
        None => false,
    }
}

// Of streams and openings.
fn is_given_stream(given: &mut Given, word: &str, rest: &str) -> bool {
    match word {
        "input" => add_text(&mut given.input, rest),
        "many" => add_many(&mut given.input, rest),
        "more" => set_number(&mut given.more, rest),
        "draw" => set_number(&mut given.draw, rest),
        "input-in" => add_size(&mut given.input_pieces, rest),
        "output-in" => add_size(&mut given.output_pieces, rest),
        "input-fails" => add_numbers(&mut given.input_fails, rest),
        "output-fails" => add_numbers(&mut given.output_fails, rest),
        "rolls-fail" => add_numbers(&mut given.rolls_fail, rest),
        "opens-fail" => add_numbers(&mut given.opens_fail, rest),
        "opens-lack" => add_numbers(&mut given.opens_lack, rest),
        "fails" => add_faults(&mut given.disk_faults, Part::Nothing, rest),
        "fails-with-1" => add_faults(&mut given.disk_faults, Part::Front(1), rest),
        _ => false,
    }
}

/// Makes a word that gives something, and says whether it is one, and reads so.
pub fn is_given(scene: &mut Scene, word: &str, rest: &str) -> bool {
    match word {
        "use" => add_named(&mut scene.given.text, rest),
        "text" => add_text(&mut scene.given.text, rest),
        "swap" => swap(scene, rest),
        "fill" => fill(&mut scene.given.text, b'#', number_of(rest)),
        "fails-behind-noted" => fail_behind_noted(scene),
        "folder" => set_folder(scene, rest),
        "roll" => add_roll(scene, rest),
        "input-held" => set_held(scene, rest),
        "flush-sets" => set_flushed(scene, rest),
        "gate" => set_gate(scene, rest),
        "long-pause-sets" => set_slow(scene, rest),
        "listen" => add_port(scene, rest),
        "hold" => add_hold(scene, rest),
        "link" => add_link(scene, rest),
        "dial" => add_dial(scene, rest),
        _ => is_given_stream(&mut scene.given, word, rest),
    }
}

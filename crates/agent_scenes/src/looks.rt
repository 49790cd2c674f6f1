// The words that look at what came of a run.
use crate::bytes::{are_parts, has_end, has_front, is_like};
use crate::crashes::folder_at;
use crate::ended::{are_numbered, is_worker};
use crate::left::left;
use crate::scene::Scene;
use crate::words::name_of;
use flume_host::{FileName, Host, RollDir};
use host_memory::{MemHost, MemRoll, RolledFile};
use scenarios::{number_of, word_and_rest};
use std::alloc::Global;

// What the last run has written.
fn written(scene: &Scene) -> &[u8] {
    let Some(host) = scene.host() else {
        return b"";
    };
    match host.output() {
        Some(sink) => sink.bytes().get(scene.written..).unwrap_or(b""),
        None => b"not given back",
    }
}

// Whether the last run has said this line alone, or none where it is empty.
fn is_said(scene: &Scene, line: &str) -> bool {
    let Some(host) = scene.host() else {
        return false;
    };
    match host.said().get(scene.said..) {
        Some([]) => line.is_empty(),
        Some([only]) => only.as_str() == line,
        _ => false,
    }
}

fn file_of(scene: &Scene, name: FileName) -> Option<&[u8]> {
    scene.host()?.disk("d")?.file(name)
}

// Whether a file of `d` is so, as `log 1 = BYTES`, is there, as `log 1 = some`, or is not, as `log 1 = none`.
fn is_file(scene: &Scene, file: &str) -> bool {
    let Some((name, bytes)) = file.split_once(" = ") else {
        return false;
    };
    let Some(name) = name_of(name) else {
        return false;
    };
    match file_of(scene, name) {
        Some(found) => bytes == "some" || are_parts(scene.alloc, found, bytes),
        None => bytes == "none",
    }
}

// Whether the second log file has this length, and these bytes from 48 on, where the number of its first event stands.
fn is_second_log(scene: &Scene, length: &str, bytes: &str) -> bool {
    match file_of(scene, FileName::Log(2)) {
        Some(found) => {
            number_of(length) == Some(found.len() as u64)
                && are_parts(scene.alloc, found.get(48..56).unwrap_or(b""), bytes)
        }
        None => false,
    }
}

// A folder of rolled files.
fn roll_in<'a>(scene: &'a Scene, path: &str) -> Option<&'a MemRoll> {
    scene.host()?.roll(path)
}

fn is_rolled_file(alloc: Global, file: &RolledFile, want: &str) -> bool {
    match want.split_once('=') {
        Some((name, bytes)) => {
            file.name.as_str() == name && are_parts(alloc, file.bytes.as_slice(), bytes)
        }
        None => false,
    }
}

// Whether these are the rolled files, each as `NAME=BYTES`.
fn are_rolled(alloc: Global, files: &[RolledFile], want: &str) -> bool {
    if want.is_empty() {
        return files.is_empty();
    }
    let mut at: usize = 0;
    for word in want.split(' ') {
        match files.get(at) {
            Some(file) if is_rolled_file(alloc, file, word) => at = at.saturating_add(1),
            _ => return false,
        }
    }
    at == files.len()
}

// Whether the folder `out` came back with these files.
fn is_rolled(scene: &Scene, want: &str) -> bool {
    match roll_in(scene, "out") {
        Some(roll) => are_rolled(scene.alloc, roll.files(), want),
        None => false,
    }
}

// Whether another folder has these files; one that nobody opened has none.
fn is_rolled_in(scene: &Scene, path: &str, want: &str) -> bool {
    match roll_in(scene, path) {
        Some(roll) => are_rolled(scene.alloc, roll.files(), want),
        None => want.is_empty(),
    }
}

// The bodies of the events that are left in `d`, each with a newline: of the folder that is given after a crash, or as reads of the
// host's give them.
fn bodies_left(scene: &Scene) -> Option<Vec<u8>> {
    let disk = match &scene.given.disk {
        Some(disk) => disk.stopped_at(0, &[]).ok()?,
        None => folder_at(scene, "end:new")?,
    };
    left(scene.alloc, disk)
}

// Whether one of these words is what is left.
fn is_left(scene: &Scene, words: &str) -> bool {
    let Some(bodies) = bodies_left(scene) else {
        return false;
    };
    for word in words.split(' ') {
        if are_parts(scene.alloc, bodies.as_slice(), word) {
            return true;
        }
    }
    false
}

// Whether the run has written this, where so much is left.
fn is_like_where_left(scene: &Scene, left: &str, text: &str) -> bool {
    !is_left(scene, left) || is_like(scene.alloc, written(scene), text)
}

// Whether a line of this one byte is among these.
fn has_line(text: &[u8], line: u8) -> bool {
    for at in 1..text.len() {
        if text[at - 1] == line && text[at] == b'\n' {
            return true;
        }
    }
    false
}

fn is_line_rolled(scene: &Scene, line: u8) -> bool {
    let Some(roll) = roll_in(scene, "out") else {
        return false;
    };
    for file in roll.files() {
        if has_line(file.bytes.as_slice(), line) {
            return true;
        }
    }
    false
}

// Whether each line of one of these bytes is left or is in a rolled file.
fn are_somewhere(scene: &Scene, lines: &str) -> bool {
    let Some(left) = bodies_left(scene) else {
        return false;
    };
    for line in lines.bytes() {
        if !has_line(left.as_slice(), line) && !is_line_rolled(scene, line) {
            return false;
        }
    }
    true
}

// What a line may be answered where the disk fails in its commit, or in that of the sink before it.
const ANSWERS: [&[u8]; 3] = [
    b"OK\n",
    b"FAILED: channel in doubt\n",
    b"FAILED: channel refused\n",
];

// What is written after the first answer, if one stands there.
fn behind_answer(text: &[u8]) -> Option<&[u8]> {
    for answer in &ANSWERS {
        if let Some(rest) = text.strip_prefix(*answer) {
            return Some(rest);
        }
    }
    None
}

// Whether the lines `x` and `y` were answered in front of the report, and each that was answered well is left or rolled.
fn are_answered_there(scene: &Scene) -> bool {
    let text = written(scene);
    let Some(rest) = behind_answer(text) else {
        return false;
    };
    let Some(report) = behind_answer(rest) else {
        return false;
    };
    report.starts_with(b"{\"CHANNEL.c1\":")
        && (!text.starts_with(b"OK") || are_somewhere(scene, "x"))
        && (!rest.starts_with(b"OK") || are_somewhere(scene, "y"))
}

// Whether the links of the listeners at a port took these bytes, each a word.
fn are_taken(alloc: Global, host: &MemHost, port: u64, words: &str) -> bool {
    let mut want = words.split(' ');
    for placed in host.listeners() {
        if u64::from(placed.at.port) == port {
            for link in placed.object.back() {
                match want.next() {
                    Some(word) if are_parts(alloc, link.took(), word) => {}
                    _ => return false,
                }
            }
        }
    }
    want.next().is_none()
}

fn is_port_taken(scene: &Scene, port: &str, words: &str) -> bool {
    match (scene.host(), number_of(port)) {
        (Some(host), Some(port)) => are_taken(scene.alloc, host, port, words),
        _ => false,
    }
}

// Whether the links of the dialer took these bytes, each a word.
fn are_dialed(scene: &Scene, words: &str) -> bool {
    let Some(host) = scene.host() else {
        return false;
    };
    let [only] = host.dialers() else {
        return false;
    };
    let links = only.object.back();
    if words.is_empty() {
        return links.is_empty();
    }
    let mut at: usize = 0;
    for word in words.split(' ') {
        match links.get(at) {
            Some(link) if are_parts(scene.alloc, link.took(), word) => at = at.saturating_add(1),
            _ => return false,
        }
    }
    at == links.len()
}

// How often the folder of rolled files failed.
fn roll_faults(host: &MemHost) -> u64 {
    match host.roll("out") {
        Some(roll) => roll.faults(),
        None => u64::MAX,
    }
}

// How many calls were made of the disk of `d`.
fn disk_calls(host: &MemHost) -> u64 {
    match host.disk("d") {
        Some(disk) => disk.calls(),
        None => 0,
    }
}

fn host_number(host: &MemHost, word: &str) -> Option<u64> {
    match word {
        "disk-faults" => Some(host.disk_faults()),
        "roll-faults" => Some(roll_faults(host)),
        "last-opened" => host.opens().checked_sub(1),
        "listeners" => Some(host.listeners().len() as u64),
        _ => None,
    }
}

// What a word with a number tells.
fn number(scene: &Scene, word: &str) -> Option<u64> {
    match word {
        "status" => Some(u64::from(scene.ended.status)),
        "calls" => Some(scene.ended.seen()),
        "workers" => Some(scene.ended.workers()),
        "channels" => Some(scene.ended.channels()),
        _ => host_number(scene.host()?, word),
    }
}

// Whether a flag was not set.
fn is_unset(scene: &Scene, flag: &str) -> bool {
    match scene.flag(flag) {
        Some(flag) => !flag.is_set(),
        None => false,
    }
}

/// Notes how many calls were made of the disk.
pub fn note(scene: &mut Scene) -> bool {
    match scene.host() {
        Some(host) => {
            scene.noted = disk_calls(host);
            true
        }
        None => false,
    }
}

// Whether the number that was noted is one of these, as in `17 60`.
fn is_noted_in(noted: u64, range: &str) -> bool {
    let Some((least, greatest)) = range.split_once(' ') else {
        return false;
    };
    match (number_of(least), number_of(greatest)) {
        (Some(least), Some(greatest)) => least <= noted && noted <= greatest,
        _ => false,
    }
}

// What stands after `if-sound`, as in `if-sound left -`, is so, where no call of the rolled files failed.
fn is_so_if_sound(scene: &Scene, line: &str) -> bool {
    let (word, rest) = word_and_rest(line);
    match number(scene, "roll-faults") {
        Some(0) => is_seen_in(scene, word, rest),
        Some(_) => true,
        None => false,
    }
}

// Whether fewer calls than so many of the rolled files failed.
fn has_fewer_roll_faults(scene: &Scene, most: &str) -> bool {
    match (number(scene, "roll-faults"), number_of(most)) {
        (Some(faults), Some(most)) => faults < most,
        _ => false,
    }
}

// What has a first word of its own.
fn is_pair(scene: &Scene, word: &str, rest: &str) -> bool {
    let (first, second) = word_and_rest(rest);
    match word {
        "links" => is_port_taken(scene, first, second),
        "log-2" => is_second_log(scene, first, second),
        "rolled-in" => is_rolled_in(scene, first, second),
        "where-left" => is_like_where_left(scene, first, second),
        _ => false,
    }
}

// Of folders, rolled files and links.
fn is_seen_in(scene: &Scene, word: &str, rest: &str) -> bool {
    match word {
        "file" => is_file(scene, rest),
        "objects" => scene.notes.are(rest),
        "rolled" => is_rolled(scene, rest),
        "left" => is_left(scene, rest),
        "there" => are_somewhere(scene, rest),
        "answered-there" => are_answered_there(scene),
        "dialed" => are_dialed(scene, rest),
        "unset" => is_unset(scene, rest),
        "numbered" => are_numbered(&scene.ended),
        "worker" => is_worker(&scene.ended, rest),
        "noted-in" => is_noted_in(scene.noted, rest),
        "roll-faults-below" => has_fewer_roll_faults(scene, rest),
        _ => is_pair(scene, word, rest),
    }
}

/// Whether a word that looks is one, and what it says is so.
pub fn is_seen(scene: &Scene, word: &str, rest: &str) -> bool {
    match word {
        "said" => is_said(scene, rest),
        "writes" => is_like(scene.alloc, written(scene), rest),
        "begins" => has_front(scene.alloc, written(scene), rest),
        "begins-not" => !has_front(scene.alloc, written(scene), rest),
        "ends" => has_end(scene.alloc, written(scene), rest),
        "if-sound" => is_so_if_sound(scene, rest),
        _ => match number(scene, word) {
            Some(number) => number_of(rest) == Some(number),
            None => is_seen_in(scene, word, rest),
        },
    }
}

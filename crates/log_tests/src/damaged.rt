// A log file and a checkpoint of it: each is cut at each length, and has each byte set to ff. What is read of them is given by rows,
// each up to a length or an offset, and by a slow reading; a channel that opens the log file has to find the same.
use crate::logs::leaves;
use crate::slow::said_by;
use checkpoint_reading::{CheckReadRefused, newest};
use flume_host::FileName;
use host_memory::{MemDisk, MemFile};
use scenarios::{Scene, add_text, number_of, pass, spelled, word_and_rest};
use std::alloc::Global;
use std::test::Fail;

// What is left of two lines.
const LOG: &str = r#"A log file is cut at each length, and each byte of it is changed.
log header 1 1 1, gate 1, put 1 a, commit-put 1 0 1, end 2, gate 1, put 2 b, commit-put 2 1 1, end 2, gate 0
whole 115
cut-to 17 left 0 1
cut-to 65 bad 1 16
cut-to 114 bad 1 65
cut-to 115 left 2 3 0:a 1:b
whole 115
changed-to 15 bad 1 0
changed-to 16 left 0 1
changed-to 17 bad 1 16
changed-to 25 bad 1 39
changed-to 37 bad 1 16
changed-to 38 left 2 3 0:\xff 1:b
changed-to 39 bad 1 16
changed-to 59 bad 1 39
changed-to 64 bad 1 16
changed-to 65 left 1 2 0:a
changed-to 66 bad 1 65
changed-to 74 bad 1 88
changed-to 86 bad 1 65
changed-to 87 left 2 3 0:a 1:\xff
changed-to 88 bad 1 65
changed-to 108 bad 1 88
changed-to 113 bad 1 65
changed-to 114 left 2 3 0:a 1:b"#;

// A cut field is at fault where it begins. A greater next number is right, and so is a greater next transaction; a greater count of
// events has a third one begin where those end.
const CHECK: &str = r#"A checkpoint is cut at each length, and each byte of it is changed.
log header 1 1 1, gate 1, put 1 a, commit-put 1 0 1, end 2, gate 1, put 2 b, commit-put 2 1 1, end 2, gate 0
check \x01\x46\x4c\x55\x4d\x45\x43\x48\x4b\x00\x00\x00\x01\x00\x00\x00
check \x01\x00\x00\x00\x00\x00\x00\x00\x72\x00\x00\x00\x00\x00\x00\x00
check \x02\x00\x00\x00\x00\x00\x00\x00\x03\x00\x00\x00\x02\x00\x00\x00
check \x00\x00\x00\x00\x00\x00\x00\x00\x01\x00\x00\x00\x00\x00\x00\x00
check \x11\x00\x00\x00\x09\x00\x00\x00\x00\x00\x00\x00\x01\x00\x00\x00
check \x01\x00\x00\x00\x00\x00\x00\x00\x42\x00\x00\x00\x09\x00\x00\x00
check \x00\x00\x00\x00\x00
whole 101
cut-to 1 none
cut-to 8 bad 1
cut-to 12 bad 9
cut-to 16 bad 13
cut-to 24 bad 17
cut-to 32 bad 25
cut-to 40 bad 33
cut-to 44 bad 41
cut-to 68 bad 45
cut-to 92 bad 69
cut-to 96 bad 93
cut-to 100 bad 97
cut-to 101 right 2 3
whole 101
changed-to 0 none
changed-to 8 bad 1
changed-to 12 bad 9
changed-to 16 bad 13
changed-to 24 bad 17
changed-to 25 right 18374686479671623682 3
changed-to 26 right 71776119061217282 3
changed-to 27 right 280375465082882 3
changed-to 28 right 1095216660482 3
changed-to 29 right 4278190082 3
changed-to 30 right 16711682 3
changed-to 31 right 65282 3
changed-to 32 right 255 3
changed-to 33 right 2 18374686479671623683
changed-to 34 right 2 71776119061217283
changed-to 35 right 2 280375465082883
changed-to 36 right 2 1095216660483
changed-to 37 right 2 4278190083
changed-to 38 right 2 16711683
changed-to 39 right 2 65283
changed-to 40 right 2 255
changed-to 44 bad 93
changed-to 68 bad 45
changed-to 92 bad 69
changed-to 96 bad 97
changed-to 100 bad 101"#;

#[test]
fn a_log_file_is_damaged(rt: HostRuntime) -> Result<(), Fail> {
    pass::<Damaged>(rt.alloc(), LOG)
}

#[test]
fn a_checkpoint_is_damaged(rt: HostRuntime) -> Result<(), Fail> {
    pass::<Damaged>(rt.alloc(), CHECK)
}

// Log file 1 and checkpoint 1 of a folder, of which the checkpoint is edited, and where there is none the log file.
#[derive(Drop)]
struct Damaged {
    alloc: Global,
    log: Vec<u8>,
    check: Vec<u8>,
    // the least length or offset that was not tried yet
    next: usize,
    has_tried: bool,
}

// A folder of the log file, and of a checkpoint of these bytes.
fn folder(scene: &Damaged, check: Vec<u8>) -> Option<MemDisk> {
    let mut files = Vec::new(scene.alloc);
    let log = MemFile {
        name: FileName::Log(1),
        bytes: scene.log.to_vec(scene.alloc).ok()?,
    };
    let check = MemFile {
        name: FileName::Check(1),
        bytes: check,
    };
    if files.push(log).is_err() || files.push(check).is_err() {
        return None;
    }
    MemDisk::with_files(scene.alloc, files).ok()
}

// What is read of a folder, as a word and its numbers: the next numbers of a checkpoint that is right, or the offset of the first fault.
fn read(scene: &Damaged, check: Vec<u8>) -> (&'static str, u64, u64) {
    let Some(mut disk) = folder(scene, check) else {
        return ("other", 0, 0);
    };
    match newest(scene.alloc, &mut disk) {
        Ok(Some(check)) => ("right", check.next.number, check.next.txn),
        Ok(None) => ("none", 0, 0),
        Err(CheckReadRefused::BadCheck { file: 1, at }) => ("bad", at, 0),
        Err(_) => ("other", 0, 0),
    }
}

// Whether this is read of a folder whose checkpoint has these bytes, and a slow reading gives the same.
fn reads(scene: &Damaged, check: Vec<u8>, want: &str) -> bool {
    let (word, numbers) = word_and_rest(want);
    let (first, second) = word_and_rest(numbers);
    let want = (
        word,
        number_of(first).unwrap_or(0),
        number_of(second).unwrap_or(0),
    );
    said_by(&check, &scene.log) == want && read(scene, check) == want
}

// What is edited.
fn edits(scene: &Damaged) -> &[u8] {
    if scene.check.is_empty() {
        &scene.log
    } else {
        &scene.check
    }
}

// Its first bytes, or all of them with the byte ff in a place.
fn edited(scene: &Damaged, place: usize, changes: bool) -> Option<Vec<u8>> {
    if !changes {
        return edits(scene).get(..place)?.to_vec(scene.alloc).ok();
    }
    let mut bytes = edits(scene).to_vec(scene.alloc).ok()?;
    *bytes.as_mut_slice().get_mut(place)? = 255;
    Some(bytes)
}

fn is_read_so(scene: &Damaged, place: usize, changes: bool, want: &str) -> bool {
    match edited(scene, place, changes) {
        Some(bytes) => {
            if scene.check.is_empty() {
                leaves(scene.alloc, bytes, want)
            } else {
                reads(scene, bytes, want)
            }
        }
        None => false,
    }
}

// Whether this is read at each length, or with a change at each offset, from those that were tried up to this one.
fn are_read_so(scene: &mut Damaged, row: &str, changes: bool) -> bool {
    let (last, want) = word_and_rest(row);
    let Ok(last) = last.parse::<usize>() else {
        return false;
    };
    for place in scene.next..last.saturating_add(1) {
        if !is_read_so(scene, place, changes, want) {
            return false;
        }
    }
    scene.next = last.saturating_add(1);
    // the last length is that of all bytes, and the last offset is below it
    scene.has_tried = scene.next == edits(scene).len().saturating_add(usize::from(!changes));
    true
}

// Begins anew with the least length or offset, once all were tried. Whether what is edited has so many bytes.
fn is_whole(scene: &mut Damaged, length: &str) -> bool {
    let are_done = scene.next == 0 || scene.has_tried;
    scene.next = 0;
    are_done && number_of(length) == Some(edits(scene).len() as u64)
}

fn set_log(scene: &mut Damaged, pieces: &str) -> bool {
    match spelled(scene.alloc, pieces) {
        Some(bytes) => {
            scene.log = bytes;
            true
        }
        None => false,
    }
}

impl Scene for Damaged {
    fn begin(alloc: Global) -> Damaged {
        Damaged {
            alloc,
            log: Vec::new(alloc),
            check: Vec::new(alloc),
            next: 0,
            has_tried: false,
        }
    }

    fn holds(&mut self, word: &str, rest: &str) -> bool {
        match word {
            "log" => set_log(self, rest),
            "check" => add_text(&mut self.check, rest),
            "whole" => is_whole(self, rest),
            "cut-to" => are_read_so(self, rest, false),
            "changed-to" => are_read_so(self, rest, true),
            _ => false,
        }
    }

    fn has_tried(&self) -> bool {
        self.has_tried
    }
}

// A channel that broke is opened anew on a disk that is full: no log file is left of an opening that could not begin one.
use crate::crashes::logs_of;
use crate::scene::{Channels, calls, fault, has, is_answered, is_closed};
use host_memory::DiskFault;
use scenarios::{Scene, three_numbers, word_and_rest};
use std::alloc::Global;

// One event is settled, and the write of the next one's frame fails, which is the fifth call after the opening.
const BROKEN: &str = "limits 10 10 1000000
fails 4
on-disk
begin-put > token 1
put 1 a > done
commit-put 1 > first 0
begin-put > token 2
put 2 b > done
commit-put 2 > in-doubt";

// How many openings in a row cannot write the header of their log file, whether the file cannot be removed either (1), and how
// many log files there are then.
const REFUSED: &str = "1 0 1
5 0 1
1 1 2
3 1 4";

// Breaks a channel, and opens it so many times in vain.
fn is_broken(scene: &mut Channels, faults: &[DiskFault], refused: u64) -> bool {
    if scene.faults.extend_from_slice(faults).is_err() {
        return false;
    }
    for line in BROKEN.lines() {
        let (word, rest) = word_and_rest(line);
        if !scene.holds(word, rest) {
            return false;
        }
    }
    for _ in 0..refused {
        if !is_answered(scene, "reopen", "> disk-fault") {
            return false;
        }
    }
    true
}

// How many calls of the disk there are once one more opening went well.
fn calls_of(scene: &mut Channels, faults: &[DiskFault], refused: u64) -> Option<u64> {
    if is_broken(scene, faults, refused)
        && is_answered(scene, "reopen", "> done")
        && is_closed(scene)
    {
        Some(calls(scene))
    } else {
        None
    }
}

fn calls_after(alloc: Global, faults: &[DiskFault], refused: u64) -> Option<u64> {
    calls_of(&mut Channels::begin(alloc), faults, refused)
}

// The write of the header in each refused opening fails; it comes before the sync, the last call of an opening that goes well.
// Where the file cannot be removed, its removal fails, before which its name is looked for.
fn faults_of(alloc: Global, refused: u64, stays: bool) -> Option<Vec<DiskFault>> {
    let mut faults = Vec::new(alloc);
    for row in 0..refused {
        let calls = calls_after(alloc, &faults, row)?;
        faults.push(fault(calls.saturating_sub(2))).ok()?;
        if stays {
            faults.push(fault(calls)).ok()?;
        }
    }
    Some(faults)
}

// Whether there are so many log files after some openings that are refused.
fn leaves_files(scene: &mut Channels, faults: &[DiskFault], refused: u64, files: u64) -> bool {
    is_broken(scene, faults, refused)
        && is_closed(scene)
        && match &scene.disk {
            Some(disk) => {
                logs_of(scene.alloc, disk).is_ok_and(|logs| logs.len() as u64 == files)
            }
            None => false,
        }
}

fn has_files(alloc: Global, faults: &[DiskFault], refused: u64, files: u64) -> bool {
    leaves_files(&mut Channels::begin(alloc), faults, refused, files)
}

// Whether one more opening then goes well, and the channel gives all that was settled.
fn mends(scene: &mut Channels, faults: &[DiskFault], refused: u64) -> bool {
    is_broken(scene, faults, refused) && is_answered(scene, "reopen", "> done") && has(scene, "a")
}

fn is_mended(alloc: Global, faults: &[DiskFault], refused: u64) -> bool {
    mends(&mut Channels::begin(alloc), faults, refused)
}

fn is_right(alloc: Global, row: &str) -> bool {
    let Some((refused, stays, files)) = three_numbers(row) else {
        return false;
    };
    match faults_of(alloc, refused, stays == 1) {
        Some(faults) => {
            has_files(alloc, &faults, refused, files) && is_mended(alloc, &faults, refused)
        }
        None => false,
    }
}

#[test]
fn no_file_is_left_of_an_opening_that_could_not_begin_one(rt: HostRuntime) {
    for row in REFUSED.lines() {
        assert!(rt; is_right(rt.alloc(), row), "{row}");
    }
}

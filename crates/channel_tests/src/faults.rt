// Each call of the disk in a run fails in turn, from the first on, up to the first run without a fault. The line in which it fails
// answers by its cause, and what the channel and the folder then have is what was settled. Runs are those of crashes.
use crate::crashes::{
    ALL, CHECKPOINTS, Either, PRUNES, TAKES, TWO_FRAMES, disk_after, due, has_either, is_left_at,
    lines_of, made,
};
use crate::scene::{Channels, Over, fault, is_answered, is_closed, is_opened};
use channel_face::Channel;
use flume_host::Disk;
use scenarios::{Scene, word_and_rest};
use std::alloc::Global;
use std::test::Fail;

// A call of the disk that fails within a line of a run, and how many calls of that line there are from it on.
#[derive(Clone, Copy)]
struct Failing<'a> {
    run: &'a str,
    line: usize,
    call: u64,
    rest: u64,
}

// The word of a line.
fn word_at(run: &str, line: usize) -> &str {
    for (count, text) in lines_of(run).lines().enumerate() {
        if count == line {
            return word_and_rest(text).0;
        }
    }
    ""
}

// What the line answers in which a call fails, and what the channel then is. A checkpoint's own file takes seven calls: it is
// made, and three times written and synced.
fn answer_of(failing: Failing<'_>) -> (&'static str, &'static str) {
    match word_at(failing.run, failing.line) {
        "on-disk" => ("disk-fault", "closed"),
        "commit-put" | "commit-take" => ("in-doubt", "broken"),
        "take" => ("read-fault", "whole"),
        "prune" => ("disk-fault", "whole"),
        "checkpoint" if failing.rest <= 7 => ("check-fault", "whole"),
        _ => ("disk-fault", "broken"),
    }
}

fn state_of(scene: &Channels) -> &'static str {
    match &scene.over {
        Over::Disk(channel) => {
            if channel.is_broken() {
                "broken"
            } else {
                "whole"
            }
        }
        _ => "closed",
    }
}

// Makes a run up to the call that fails. Whether its line is the first that does not hold, and answers so.
fn is_told(scene: &mut Channels, failing: Failing<'_>) -> bool {
    let is_set = scene.faults.push(fault(failing.call)).is_ok();
    let count = made(scene, failing.run, usize::MAX);
    is_set && count == failing.line && (scene.said.0, state_of(scene)) == answer_of(failing)
}

// What may be left then: a read that fails takes nothing, and before a checkpoint's own file all that was staged was settled.
fn left_of(failing: Failing<'_>) -> Either<'_> {
    let Either { before, after } = due(failing.run, failing.line);
    match answer_of(failing).0 {
        "read-fault" => Either {
            before,
            after: before,
        },
        "check-fault" => Either {
            before: after,
            after,
        },
        _ => Either { before, after },
    }
}

// What a broken channel answers.
const BROKEN: &str = "begin-put > broken
begin-take > broken
flush > broken
checkpoint > broken
prune > broken";

// Whether the channel is opened anew. Before that a broken one refuses what is asked.
fn is_opened_anew(scene: &mut Channels) -> bool {
    if state_of(scene) == "closed" {
        return is_opened(scene);
    }
    if state_of(scene) == "broken" {
        for line in BROKEN.lines() {
            let (word, rest) = word_and_rest(line);
            if !is_answered(scene, word, rest) {
                return false;
            }
        }
    }
    is_answered(scene, "reopen", "> done")
}

// The recorded calls of an opening: it settles the disk, makes a log file, writes its header and syncs it.
const OPENING: u64 = 4;

// Whether the disk counted the one fault, and each image of a crash before the channel was opened anew leaves what it must.
fn is_kept(scene: &Channels, failing: Failing<'_>) -> bool {
    match &scene.disk {
        Some(disk) => {
            let moment = disk.moments().saturating_sub(OPENING);
            disk.faults() == 1 && is_left_at(scene.alloc, disk, moment, left_of(failing))
        }
        None => false,
    }
}

// Whether the channel has what it must once it is opened anew, and so has its folder.
fn is_mended(scene: &mut Channels, failing: Failing<'_>) -> bool {
    is_told(scene, failing)
        && is_opened_anew(scene)
        && has_either(scene, left_of(failing))
        && is_closed(scene)
        && is_kept(scene, failing)
        && is_opened(scene)
        && has_either(scene, left_of(failing))
}

// Whether a line holds. How many files a removal finds depends on what was done before.
fn holds_again(scene: &mut Channels, line: &str) -> bool {
    match word_and_rest(line) {
        ("prune", _) => is_answered(scene, "prune-rest", "> done"),
        (word, rest) => scene.holds(word, rest),
    }
}

// Whether the line holds when it is made once more, and so do those after it.
fn goes_on(scene: &mut Channels, failing: Failing<'_>) -> bool {
    if !is_told(scene, failing) {
        return false;
    }
    for (count, line) in lines_of(failing.run).lines().enumerate() {
        if count >= failing.line && !holds_again(scene, line) {
            return false;
        }
    }
    true
}

// Whether the line can be made once more: it did not break a channel that had transactions.
fn may_go_on(failing: Failing<'_>) -> bool {
    answer_of(failing).1 != "broken" || word_at(failing.run, failing.line) == "reopen"
}

fn is_safe(alloc: Global, failing: Failing<'_>) -> bool {
    is_mended(&mut Channels::begin(alloc), failing)
        && (!may_go_on(failing) || goes_on(&mut Channels::begin(alloc), failing))
}

// How many calls of the disk there are once so many lines were made.
fn calls_after(alloc: Global, run: &str, count: usize) -> Option<u64> {
    match disk_after(alloc, run, count) {
        Some(disk) => Some(disk.calls()),
        None => None,
    }
}

// The first of a line's calls whose failure is not answered so, or loses something, if there is one.
fn wrong_within(alloc: Global, run: &str, line: usize, from: u64, to: u64) -> Option<u64> {
    for call in from..to {
        let rest = to.saturating_sub(call);
        if !is_safe(
            alloc,
            Failing {
                run,
                line,
                call,
                rest,
            },
        ) {
            return Some(call);
        }
    }
    None
}

// How many lines of a run come before its end.
fn count_of(run: &str) -> usize {
    let mut count: usize = 0;
    for line in lines_of(run).lines() {
        if line == "close" {
            return count;
        }
        count = count.saturating_add(1);
    }
    count
}

// Whether nothing fails where this call of the disk would.
fn is_without_fault(scene: &mut Channels, run: &str, call: u64) -> bool {
    let count = count_of(run);
    scene.faults.push(fault(call)).is_ok()
        && made(scene, run, count) == count
        && is_closed(scene)
        && match &scene.disk {
            Some(disk) => disk.calls() == call && disk.faults() == 0,
            None => false,
        }
}

// The first call of the disk whose failure is not answered as it must be, or loses something, if there is one.
fn wrong_call(alloc: Global, run: &str) -> Option<u64> {
    let mut from = 0;
    // the opening is the second line
    for line in 1..count_of(run) {
        let Some(to) = calls_after(alloc, run, line.saturating_add(1)) else {
            return Some(from);
        };
        let wrong = wrong_within(alloc, run, line, from, to);
        if wrong.is_some() {
            return wrong;
        }
        from = to;
    }
    if is_without_fault(&mut Channels::begin(alloc), run, from) {
        None
    } else {
        Some(from)
    }
}

// Passes where the failure of each call of a run is answered as it must be, and loses nothing.
fn fail_well(alloc: Global, run: &str) -> Result<(), Fail> {
    match wrong_call(alloc, run) {
        Some(call) => Err(Fail::new(format_args!("call {call}"))),
        None => Ok(()),
    }
}

#[test]
fn each_call_of_all_fails(rt: HostRuntime) -> Result<(), Fail> {
    fail_well(rt.alloc(), ALL)
}

#[test]
fn each_call_fails_among_takes_across_files(rt: HostRuntime) -> Result<(), Fail> {
    fail_well(rt.alloc(), TAKES)
}

#[test]
fn each_call_fails_in_files_of_two_frames(rt: HostRuntime) -> Result<(), Fail> {
    fail_well(rt.alloc(), TWO_FRAMES)
}

#[test]
fn each_call_fails_among_checkpoints(rt: HostRuntime) -> Result<(), Fail> {
    fail_well(rt.alloc(), CHECKPOINTS)
}

#[test]
fn each_call_fails_while_files_are_removed(rt: HostRuntime) -> Result<(), Fail> {
    fail_well(rt.alloc(), PRUNES)
}

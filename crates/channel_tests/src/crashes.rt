// What a crash leaves of a channel that goes on in further log files in the middle of open transactions: at each moment, and in
// each image of it. A run is a scenario whose lines `left` tell what is settled by then: the bodies that are left, in order. Between
// two of them a crash leaves the one list or the other.
use crate::scene::{Channels, has, is_closed, is_opened};
use channel_replay::{WholeFile, recover};
use flume_host::FileName;
use host_memory::{MemDisk, Stood};
use scenarios::{Scene, pass, word_and_rest};
use std::alloc::{AllocError, Global};
use std::test::Fail;

/// An opening, two transactions that interleave, a further file, takes, a checkpoint with something staged, a removal, an opening anew,
/// and last of all, as it writes a mebibyte, a spill.
pub const ALL: &str = r#"Each call that a channel makes of its disk comes.
limits 10 10 66
on-disk
left
begin-put > token 1
begin-put > token 2
put 1 a > done
put 2 b > done
commit-put 2 > first 0
left b
put 1 c > done
commit-put 1 > first 1
left bac
begin-take > token 3
take 3 > event b
take 3 > event a
stage-take 3 > first 0
begin-put > token 4
put 4 d > done
checkpoint > done
asked > settled
left c
prune > count 1
left c
reopen > done
life 2
left c
begin-take > token 5
take 5 > event c
take 5 > no-event
rollback-take 5 > ended
begin-put > token 6
put-bytes 6 1048568 > done
begin-put > token 7
put 7 e > done
stage-put 7 > first 3
put-bytes 6 1048568 > done
asked > settled
left ce
close
long 1 none
holds 2 0 FLUMELOG
on-disk
gives ce"#;

const PUTS: &str = r#"Puts are open while the log goes on in two further files.
limits 10 10 66
on-disk
left
begin-put > token 1
put 1 a > done
commit-put 1 > first 0
left a
begin-put > token 2
put 2 b > done
begin-put > token 3
put 3 c > done
commit-put 2 > first 1
left ab
put 3 d > done
commit-put 3 > first 2
left abcd
begin-take > token 4
take 4 > event a
take 4 > event b
take 4 > event c
take 4 > event d
rollback-take 4 > ended
left abcd
close
holds 3 0 FLUMELOG
long 4 none"#;

/// Takes that are open or staged while the log goes on in further files.
pub const TAKES: &str =
    r#"One take is open while the log goes on in two further files and ends in a third, and one is staged as it goes on.
limits 10 10 66
on-disk
left
begin-put > token 1
put 1 a > done
put 1 b > done
put 1 c > done
commit-put 1 > first 0
left abc
begin-take > token 2
take 2 > event a
begin-take > token 3
take 3 > event b
stage-take 3 > first 0
asked > not-settled
begin-put > token 4
put 4 d > done
commit-put 4 > first 3
left acd
size > count 3
begin-put > token 5
put 5 e > done
commit-put 5 > first 4
left acde
take 2 > event c
commit-take 2 > first 0
left de
begin-take > token 6
take 6 > event d
take 6 > event e
take 6 > no-event
rollback-take 6 > ended
begin-put > token 7
put 7 f > done
commit-put 7 > first 5
left def
close
holds 5 0 FLUMELOG
long 6 none"#;

/// A file has room for two frames of a put.
pub const TWO_FRAMES: &str =
    r#"Some files have two frames. A flush of two stages begins the second one, with a take that is still open.
limits 10 10 115
on-disk
left
begin-put > token 1
put 1 a > done
commit-put 1 > first 0
left a
begin-put > token 2
begin-take > token 3
take 3 > event a
put 2 b > done
stage-put 2 > first 1
begin-put > token 4
put 4 c > done
stage-put 4 > first 2
flush > done
left abc
asked > settled
begin-put > token 5
put 5 d > done
commit-put 5 > first 3
left abcd
commit-take 3 > first 0
left bcd
begin-put > token 6
put 6 e > done
commit-put 6 > first 4
left bcde
begin-put > token 7
put 7 f > done
commit-put 7 > first 5
left bcdef
close
holds 4 0 FLUMELOG
long 5 none"#;

const GIVEN_UP: &str = r#"A put and a take that began in earlier files are given up.
limits 10 10 66
on-disk
left
begin-put > token 1
put 1 a > done
begin-put > token 2
put 2 b > done
commit-put 2 > first 0
left b
begin-take > token 3
take 3 > event b
begin-put > token 4
put 4 c > done
commit-put 4 > first 1
left bc
rollback-put 1 > ended
rollback-take 3 > ended
begin-put > token 5
put 5 d > done
commit-put 5 > first 2
left bcd
begin-take > token 6
take 6 > event b
take 6 > event c
commit-take 6 > first 0
left d
close
holds 4 0 FLUMELOG
long 5 none"#;

/// Checkpoints while transactions are open or staged.
pub const CHECKPOINTS: &str =
    r#"Checkpoints are laid while a put and a take are open, and while something is staged.
limits 10 10 66
on-disk
left
begin-put > token 1
put 1 a > done
begin-put > token 2
put 2 b > done
commit-put 2 > first 0
left b
begin-take > token 3
take 3 > event b
checkpoint > done
left b
begin-put > token 4
put 4 c > done
stage-put 4 > first 1
checkpoint > done
left bc
commit-put 1 > first 2
left bca
stage-take 3 > first 0
checkpoint > done
left ca
begin-put > token 5
put 5 d > done
commit-put 5 > first 3
left cad
close
on-disk
gives cad"#;

/// Old files are removed while a put is open.
pub const PRUNES: &str =
    r#"Old files are removed while a put is open whose record is in a file that the newest checkpoint needs.
limits 10 10 66
on-disk
left
begin-put > token 1
put 1 a > done
commit-put 1 > first 0
left a
begin-put > token 2
put 2 b > done
commit-put 2 > first 1
left ab
begin-take > token 3
take 3 > event a
commit-take 3 > first 0
left b
checkpoint > done
left b
prune > count 1
left b
begin-put > token 4
put 4 c > done
begin-put > token 5
put 5 d > done
commit-put 5 > first 2
left bd
begin-take > token 6
take 6 > event b
commit-take 6 > first 0
left d
checkpoint > done
left d
prune > count 3
left d
commit-put 4 > first 3
left dc
close
long check-1 none
long 3 none
holds 4 0 FLUMELOG"#;

// What may stand of a call that nothing made stable. A file is begun with three recorded calls, and each of its frames takes
// four, so that of two choices that take turns each is of the writes of every other file, where each has one frame.
const STOOD: [Stood; 4] = [Stood::Old, Stood::New, Stood::Garbage(1), Stood::Front(20)];

// Of an image that a channel opens beside those that are read.
const BETWEEN: [Stood; 2] = [Stood::New, Stood::Garbage(1)];

/// Two lists of bodies, one of which is found.
#[derive(Clone, Copy)]
pub struct Either<'a> {
    pub before: &'a str,
    pub after: &'a str,
}

/// The log files of a folder.
pub fn logs_of(alloc: Global, disk: &MemDisk) -> Result<Vec<WholeFile>, AllocError> {
    let mut files = Vec::new(alloc);
    for number in 1..10 {
        if let Some(bytes) = disk.file(FileName::Log(number)) {
            let bytes = bytes.to_vec(alloc)?;
            files.push(WholeFile { number, bytes })?;
        }
    }
    Ok(files)
}

// The bodies that some files leave, in order.
fn recovered(alloc: Global, files: &[WholeFile]) -> Option<Vec<u8>> {
    let left = recover(alloc, files).ok()?;
    let mut found = Vec::new(alloc);
    for item in left.items.iter() {
        found.extend_from_slice(item.1.body()).ok()?;
    }
    Some(found)
}

// Whether some files leave one of two lists.
fn leave_either(alloc: Global, files: &[WholeFile], either: Either<'_>) -> bool {
    match recovered(alloc, files) {
        Some(found) => {
            found.as_slice() == either.before.as_bytes()
                || found.as_slice() == either.after.as_bytes()
        }
        None => false,
    }
}

/// Whether the channel gives one of two lists. It keeps them.
pub fn has_either(scene: &mut Channels, either: Either<'_>) -> bool {
    has(scene, either.before) || has(scene, either.after)
}

// Whether a channel that opens these files gives one of two lists.
fn gives_either(scene: &mut Channels, image: MemDisk, either: Either<'_>) -> bool {
    scene.disk = Some(image);
    is_opened(scene) && has_either(scene, either)
}

// Whether log files alone tell what is left: none of them was removed.
fn is_whole(disk: &MemDisk) -> bool {
    disk.file(FileName::Log(1)).is_some()
}

// Whether an image leaves one of two lists: by a slow reading of its log files, or where some were removed by opening it.
fn is_left(
    alloc: Global,
    disk: &MemDisk,
    moment: u64,
    stood: [Stood; 2],
    either: Either<'_>,
) -> bool {
    let Ok(image) = disk.stopped_at(moment, &stood) else {
        return false;
    };
    if !is_whole(disk) || !is_whole(&image) {
        return gives_either(&mut Channels::begin(alloc), image, either);
    }
    match logs_of(alloc, &image) {
        Ok(files) => leave_either(alloc, &files, either),
        Err(_) => false,
    }
}

// Whether a channel that opens an image gives one of two lists.
fn is_given(
    alloc: Global,
    disk: &MemDisk,
    moment: u64,
    stood: [Stood; 2],
    either: Either<'_>,
) -> bool {
    match disk.stopped_at(moment, &stood) {
        Ok(image) => gives_either(&mut Channels::begin(alloc), image, either),
        Err(_) => false,
    }
}

// Whether a folder has a checkpoint.
fn has_check(disk: &MemDisk) -> bool {
    for number in 1..10 {
        if disk.file(FileName::Check(number)).is_some() {
            return true;
        }
    }
    false
}

// Whether each image of a moment leaves one of two lists. Once there is a checkpoint, images are opened too, as a channel opens a
// folder. Those that are opened are fewer, since that takes long: of each, what may stand is one for all calls.
fn is_always_left(alloc: Global, disk: &MemDisk, moment: u64, either: Either<'_>) -> bool {
    let is_read = is_whole(disk);
    let is_opened_too = is_read && has_check(disk);
    for (at, one) in STOOD.iter().enumerate() {
        for (beside, other) in STOOD.iter().enumerate() {
            let stood = [*one, *other];
            if (is_read || at == beside) && !is_left(alloc, disk, moment, stood, either) {
                return false;
            }
            if is_opened_too && at == beside && !is_given(alloc, disk, moment, stood, either) {
                return false;
            }
        }
    }
    is_given(alloc, disk, moment, BETWEEN, either)
}

/// Whether each image of a moment, of which what may stand is one for all calls, leaves one of two lists.
pub fn is_left_at(alloc: Global, disk: &MemDisk, moment: u64, either: Either<'_>) -> bool {
    for stood in &STOOD {
        if !is_left(alloc, disk, moment, [*stood, *stood], either) {
            return false;
        }
    }
    true
}

/// The lines of a run after its name.
pub fn lines_of(run: &str) -> &str {
    match run.split_once('\n') {
        Some((_, lines)) => lines,
        None => "",
    }
}

/// Makes so many lines of a run, up to the first that does not hold, and tells how many did.
pub fn made(scene: &mut Channels, run: &str, most: usize) -> usize {
    let mut count: usize = 0;
    for line in lines_of(run).lines() {
        let (word, rest) = word_and_rest(line);
        if count >= most || !scene.holds(word, rest) {
            return count;
        }
        count = count.saturating_add(1);
    }
    count
}

// Makes so many lines of a run, and hands the disk out.
fn disk_of(scene: &mut Channels, run: &str, count: usize) -> Option<MemDisk> {
    if made(scene, run, count) == count && is_closed(scene) {
        scene.disk.take()
    } else {
        None
    }
}

/// A disk on which so many lines of a run were made.
pub fn disk_after(alloc: Global, run: &str, count: usize) -> Option<MemDisk> {
    disk_of(&mut Channels::begin(alloc), run, count)
}

// The first of some moments of which an image leaves what it must not, if there is one. At the last one, which stands between two
// calls, a channel gives just what is settled.
fn wrong_between(alloc: Global, disk: &MemDisk, from: u64, either: Either<'_>) -> Option<u64> {
    let to = disk.moments();
    for moment in from..to {
        if !is_always_left(alloc, disk, moment, either) {
            return Some(moment);
        }
    }
    let settled = Either {
        before: either.after,
        after: either.after,
    };
    if is_given(alloc, disk, to, BETWEEN, settled) {
        None
    } else {
        Some(to)
    }
}

/// What is left once so many lines were made, and what the next one may have settled.
pub fn due(run: &str, made: usize) -> Either<'_> {
    let mut before = "";
    for (count, line) in lines_of(run).lines().enumerate() {
        let (word, after) = word_and_rest(line);
        if word == "left" {
            if made < count {
                return Either { before, after };
            }
            before = after;
        }
    }
    Either {
        before,
        after: before,
    }
}

// The number of the first line of a run before which an image leaves what it must not, if there is one.
fn wrong_line(alloc: Global, run: &str) -> Option<usize> {
    let mut from = 0;
    for (count, line) in lines_of(run).lines().enumerate() {
        if word_and_rest(line).0 == "left" {
            let Some(disk) = disk_after(alloc, run, count) else {
                return Some(count);
            };
            let either = due(run, count.saturating_sub(1));
            if wrong_between(alloc, &disk, from, either).is_some() {
                return Some(count);
            }
            from = disk.moments();
        }
    }
    None
}

// Passes where each line of a run holds and each image of each moment leaves what it must, and names what does not.
fn survive(alloc: Global, run: &str) -> Result<(), Fail> {
    match wrong_line(alloc, run) {
        Some(line) => Err(Fail::new(format_args!("before line {line}"))),
        None => pass::<Channels>(alloc, run),
    }
}

#[test]
fn a_crash_leaves_what_is_settled_in_each_call(rt: HostRuntime) -> Result<(), Fail> {
    survive(rt.alloc(), ALL)
}

#[test]
fn a_crash_leaves_puts_across_files(rt: HostRuntime) -> Result<(), Fail> {
    survive(rt.alloc(), PUTS)
}

#[test]
fn a_crash_leaves_takes_across_files(rt: HostRuntime) -> Result<(), Fail> {
    survive(rt.alloc(), TAKES)
}

#[test]
fn a_crash_leaves_what_is_settled_in_files_of_two_frames(rt: HostRuntime) -> Result<(), Fail> {
    survive(rt.alloc(), TWO_FRAMES)
}

#[test]
fn a_crash_leaves_what_was_given_up_across_files(rt: HostRuntime) -> Result<(), Fail> {
    survive(rt.alloc(), GIVEN_UP)
}

#[test]
fn a_crash_leaves_what_is_settled_among_checkpoints(rt: HostRuntime) -> Result<(), Fail> {
    survive(rt.alloc(), CHECKPOINTS)
}

#[test]
fn a_crash_leaves_what_is_settled_while_files_are_removed(rt: HostRuntime) -> Result<(), Fail> {
    survive(rt.alloc(), PRUNES)
}

// An image that a crash at a past moment may have left.
ghost use Rattle.std.specs.Prelude.{◌≡◌, None, Some, OnOk, IfOk};
ghost use Rattle.flume_host.specs.Folder.{with_at};
ghost use Rattle.flume_host.specs.Told.{IsLeftAt, Make, Write, file_after, read_by};
ghost use Rattle.host_memory.specs.Parts.{call_of, files_of, part_after, part_read, told_of};
ghost use Rattle.host_memory.specs.Stops.{chosen, image_by, image_chosen, image_kept, image_torn, reads_by, stood_of};

use crate::parts::{MemCall, MemFile, Outcome, Recorded, copy_files, over_bytes, place_of};
use flume_host::FileName;
use std::alloc::{AllocError, Global};

/// What a crash leaves of a call that no sync or settle has made stable, or that was under way or failed.
#[derive(Clone, Copy, Debug, PartialEq, Eq)]
pub enum Stood {
    /// All is as it was before the call.
    Old,
    /// All is as the call makes it.
    New,
    /// The first bytes of a write stand, at most this many. A make or a remove is as the call makes it.
    Front(usize),
    /// Such bytes stand in the place of those of a write. A make or a remove is as the call makes it.
    Garbage(u8),
}

// Gives a file of this name these bytes, where it is there or not.
fn put_file(
    alloc: Global,
    files: &mut Vec<MemFile>,
    name: FileName,
    bytes: &[u8],
) -> Result<(), AllocError>
    ensures { OnOk result (files_of files.new.items ≡ with_at (files_of files.old.items) name
        (Some bytes.now)) }
{
    let bytes = bytes.to_vec(alloc)?;
    match place_of(files, name) {
        Some(index) => files[index].bytes = bytes,
        None => files.push(MemFile { name, bytes })?,
    }
    Ok(())
}

fn drop_file(files: &mut Vec<MemFile>, name: FileName)
    ensures { files_of files.new.items ≡ with_at (files_of files.old.items) name None }
{
    files.retain(|file| !name.is_same(file.name));
}

// Writes over a file, if it is there.
fn write_file(
    alloc: Global,
    files: &mut Vec<MemFile>,
    name: FileName,
    at: u64,
    bytes: &[u8],
) -> Result<(), AllocError>
    ensures { OnOk result (files_of files.new.items ≡ with_at (files_of files.old.items) name
        (file_after (Write at bytes.now) (files_of files.old.items name))) }
{
    if let Some(index) = place_of(files, name) {
        let was = &files[index].bytes;
        let at = at.min(was.len() as u64) as usize;
        files[index].bytes = over_bytes(alloc, was, at, bytes)?;
    }
    Ok(())
}

// The bytes that stand of a write.
fn stood_bytes(alloc: Global, stood: Stood, bytes: &[u8]) -> Result<Vec<u8>, AllocError>
    ensures { IfOk result (λ v. v.items ≡ stood_of stood bytes.now) }
{
    match stood {
        Stood::Old => Ok(Vec::new(alloc)),
        Stood::New => bytes.to_vec(alloc),
        Stood::Front(n) => bytes[..n.min(bytes.len())].to_vec(alloc),
        Stood::Garbage(byte) => vec![in alloc; byte; bytes.len()],
    }
}

// Makes an empty file, if none is there.
fn make_if_absent(alloc: Global, files: &mut Vec<MemFile>, name: FileName) -> Result<(), AllocError>
    ensures { OnOk result (files_of files.new.items ≡ with_at (files_of files.old.items) name
        (part_after 0 Make (files_of files.old.items name))) }
{
    match place_of(files, name) {
        Some(_) => Ok(()),
        None => put_file(alloc, files, name, &[]),
    }
}

// The image after a call that was under way or failed.
fn tear(
    alloc: Global,
    image: &mut Vec<MemFile>,
    change: &Recorded,
    stood: Stood,
) -> Result<(), AllocError>
    ensures { OnOk result (files_of image.new.items ≡ image_torn stood (call_of change.now)
        (files_of image.old.items)) }
{
    match change {
        Recorded::Wrote(name, at, bytes) => {
            let bytes = stood_bytes(alloc, stood, bytes)?;
            write_file(alloc, image, *name, *at, &bytes)
        }
        Recorded::Made(name) => match stood {
            Stood::Old => Ok(()),
            _ => make_if_absent(alloc, image, *name),
        },
        Recorded::Removed(name) => {
            if let Stood::Old = stood {
                return Ok(());
            }
            drop_file(image, *name);
            Ok(())
        }
        Recorded::Synced(_) => Ok(()),
        Recorded::Settled => Ok(()),
    }
}

// The image after a call that answered Ok, where reads gave these files before it.
fn keep(
    alloc: Global,
    image: &mut Vec<MemFile>,
    files: &Vec<MemFile>,
    change: &Recorded,
    stood: Stood,
) -> Result<(), AllocError>
    ensures { OnOk result (files_of image.new.items ≡ image_kept stood (call_of change.now)
        (files_of files.now.items) (files_of image.old.items)) }
{
    match change {
        Recorded::Made(name) => put_file(alloc, image, *name, &[]),
        Recorded::Wrote(name, at, bytes) => {
            let bytes = stood_bytes(alloc, stood, bytes)?;
            write_file(alloc, image, *name, *at, &bytes)
        }
        Recorded::Synced(name) => match place_of(files, *name) {
            Some(index) => put_file(alloc, image, *name, &files[index].bytes),
            None => Ok(()),
        },
        Recorded::Removed(name) => {
            drop_file(image, *name);
            Ok(())
        }
        Recorded::Settled => {
            *image = copy_files(alloc, files)?;
            Ok(())
        }
    }
}

// What reads give after a change that was done.
fn redo(alloc: Global, files: &mut Vec<MemFile>, change: &Recorded) -> Result<(), AllocError>
    ensures { OnOk result (files_of files.new.items ≡ read_by (call_of change.now)
        (files_of files.old.items)) }
{
    match change {
        Recorded::Made(name) => put_file(alloc, files, *name, &[]),
        Recorded::Wrote(name, at, bytes) => write_file(alloc, files, *name, *at, bytes),
        Recorded::Removed(name) => {
            drop_file(files, *name);
            Ok(())
        }
        Recorded::Synced(_) => Ok(()),
        Recorded::Settled => Ok(()),
    }
}

// What reads give after a change of which a part was done.
fn redo_part(
    alloc: Global,
    files: &mut Vec<MemFile>,
    change: &Recorded,
    count: usize,
) -> Result<(), AllocError>
    ensures { OnOk result (files_of files.new.items ≡ part_read count (call_of change.now)
        (files_of files.old.items)) }
{
    match change {
        Recorded::Made(name) => make_if_absent(alloc, files, *name),
        Recorded::Wrote(name, at, bytes) => {
            write_file(alloc, files, *name, *at, &bytes[..count.min(bytes.len())])
        }
        Recorded::Removed(name) => {
            drop_file(files, *name);
            Ok(())
        }
        Recorded::Synced(_) => Ok(()),
        Recorded::Settled => Ok(()),
    }
}

// What reads give after a recorded call.
fn reread(alloc: Global, files: &mut Vec<MemFile>, call: &MemCall) -> Result<(), AllocError>
    ensures { OnOk result (files_of files.new.items ≡ reads_by call.now.outcome
        (call_of call.now.change) (files_of files.old.items)) }
{
    match call.outcome {
        Outcome::Whole => redo(alloc, files, &call.change),
        Outcome::Partly(count) => redo_part(alloc, files, &call.change, count),
        Outcome::Nothing => Ok(()),
    }
}

// The image after a recorded call.
fn leave(
    alloc: Global,
    image: &mut Vec<MemFile>,
    files: &Vec<MemFile>,
    call: &MemCall,
    stood: Stood,
) -> Result<(), AllocError>
    ensures { OnOk result (files_of image.new.items ≡ image_by call.now.outcome stood
        (call_of call.now.change) (files_of files.now.items) (files_of image.old.items)) }
{
    match call.outcome {
        Outcome::Whole => keep(alloc, image, files, &call.change, stood),
        Outcome::Partly(_) => tear(alloc, image, &call.change, stood),
        Outcome::Nothing => tear(alloc, image, &call.change, stood),
    }
}

// The choices go round, and without any all is as it was.
fn choice_at(choices: &[Stood], i: usize) -> Stood
    ensures { result ≡ chosen choices.now i }
{
    if choices.is_empty() {
        Stood::Old
    } else {
        choices[i % choices.len()]
    }
}

/// The files that a crash at this moment may leave, by a choice for each call: of a disk that had the first files and
/// whose calls were these.
pub fn image_at(
    alloc: Global,
    first: &[MemFile],
    calls: &[MemCall],
    moment: u64,
    choices: &[Stood],
) -> Result<Vec<MemFile>, AllocError>
    ensures left { IfOk result (λ image. IsLeftAt (told_of first.now calls.now) moment
        (files_of image.items)) }
    ensures chosen { IfOk result (λ image. files_of image.items ≡ image_chosen (chosen choices.now)
        first.now calls.now moment) }
{
    let mut files = copy_files(alloc, first)?;
    let mut image = copy_files(alloc, first)?;
    let done = moment.min(calls.len() as u64) as usize;
    for i in 0..done {
        let call = &calls[i];
        leave(alloc, &mut image, &files, call, choice_at(choices, i))?;
        reread(alloc, &mut files, call)?;
    }
    if done < calls.len() {
        tear(
            alloc,
            &mut image,
            &calls[done].change,
            choice_at(choices, done),
        )?;
    }
    Ok(image)
}

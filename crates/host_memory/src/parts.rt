// What a disk in memory is made of.
ghost use Rattle.std.specs.Prelude.{◌≡◌, ◌≤◌, ◌-◌, ◌++◌, length, min, take, drop, IfOk, IfSome};
ghost use Rattle.flume_host.specs.Folder.{over, IsAbove, IsNext};
ghost use Rattle.host_memory.specs.Parts.{place, files_of, better_of, front_of};

use flume_host::FileName;
use std::alloc::{AllocError, Global};

/// A file by its name.
#[derive(Drop)]
pub struct MemFile {
    /// Its name.
    pub name: FileName,
    /// All that it holds.
    pub bytes: Vec<u8>,
}

/// What a call that fails has done before.
#[derive(Clone, Copy, Debug, PartialEq, Eq)]
pub enum Part {
    /// Nothing that reads give.
    Nothing,
    /// A write has written this many of its bytes from the front, or all of fewer. A make has made its file, and a
    /// remove has removed it.
    Front(usize),
}

/// A call that was recorded.
#[derive(Drop)]
pub enum Recorded {
    Made(FileName),
    Wrote(FileName, u64, Vec<u8>),
    Synced(FileName),
    Settled,
    Removed(FileName),
}

/// How much of a recorded call was done. Only a whole one answered Ok.
#[derive(Clone, Copy)]
pub enum Outcome {
    Whole,
    Partly(usize),
    Nothing,
}

/// A call that was made, and how it ended.
#[derive(Drop)]
pub struct MemCall {
    pub change: Recorded,
    pub outcome: Outcome,
}

/// Where the first file of this name is.
pub fn place_of(files: &[MemFile], name: FileName) -> Option<usize>
    ensures { result ≡ place files.now name }
{
    for i in 0..files.len() {
        if name.is_same(files[i].name) {
            return Some(i);
        }
    }
    None
}

/// A copy of these files.
pub fn copy_files(alloc: Global, files: &[MemFile]) -> Result<Vec<MemFile>, AllocError>
    ensures { IfOk result (λ copies. files_of copies.items ≡ files_of files.now) }
{
    let mut copies = Vec::new(alloc);
    for i in 0..files.len() {
        let file = MemFile {
            name: files[i].name,
            bytes: files[i].bytes.to_vec(alloc)?,
        };
        copies.push(file)?;
    }
    Ok(copies)
}

/// The bytes that such a write has written.
pub fn front(outcome: Outcome, bytes: &[u8]) -> &[u8]
    ensures { result.now ≡ front_of outcome bytes.now }
{
    match outcome {
        Outcome::Whole => bytes,
        Outcome::Partly(n) => &bytes[..n.min(bytes.len())],
        Outcome::Nothing => &[],
    }
}

/// The bytes with others written over them.
pub fn over_bytes(alloc: Global, was: &[u8], at: usize, bytes: &[u8]) -> Result<Vec<u8>, AllocError>
    requires { at ≤ length was.now }
    ensures { IfOk result (λ next. next.items ≡ over was.now at bytes.now) }
{
    let mut next = was[..at].to_vec(alloc)?;
    next.extend_from_slice(bytes)?;
    if bytes.len() < was.len() - at {
        next.extend_from_slice(&was[at + bytes.len()..])?;
    }
    Ok(next)
}

/// Copies what stands from the offset on, as far as there is room.
pub fn read_bytes(bytes: &[u8], at: usize, into: &mut [u8]) -> usize
    ensures count { result ≡ min (length into.old) (length bytes.now - at) }
    ensures bytes { into.new ≡ take result (drop at bytes.now) ++ drop result into.old }
{
    let from = at.min(bytes.len());
    let count = into.len().min(bytes.len() - from);
    into[..count].copy_from_slice(&bytes[from..from + count]);
    count
}

/// The least name above another, or the least of all.
pub fn least_above(files: &[MemFile], after: Option<FileName>) -> Option<FileName>
    ensures next { IsNext (files_of files.now) after result }
    ensures above { IfSome result (λ n. IsAbove after n) }
{
    let mut best: Option<FileName> = None;
    for i in 0..files.len() {
        best = better(files[i].name, after, best);
    }
    best
}

// The lesser of the two, where the new name is above.
fn better(name: FileName, after: Option<FileName>, best: Option<FileName>) -> Option<FileName>
    ensures { result ≡ better_of name after best }
{
    let above = match after {
        Some(after) => after.is_below(name),
        None => true,
    };
    if !above {
        return best;
    }
    match best {
        Some(least) => {
            if name.is_below(least) {
                Some(name)
            } else {
                Some(least)
            }
        }
        None => Some(name),
    }
}

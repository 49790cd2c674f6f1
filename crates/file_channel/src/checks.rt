// What a channel knows of its checkpoints, and the buffer in which one is spelled.
ghost use Rattle.std.specs.Prelude.{◌≡◌, ◌≤◌, ◌+◌, IfOk, IfSome};
ghost use Rattle.flume_host.specs.Causes.{HasCause};
ghost use Rattle.flume_host.specs.Told.{WhereTold};
ghost use Rattle.file_channel.specs.Laid.{IsNextCheck, check_name};

use channel_log::LAST_FILE;
use checkpoint_opening::NewestCheck;
use flume_host::{Disk, Failed, FileName};
use std::alloc::{AllocError, Global};
use std::marker::Model;

/// The length of the buffer in which a checkpoint is spelled.
const BUFFER: usize = 65_536;

/// The number of the next checkpoint, the newest that was laid or read at the opening, and the buffer in which one is spelled.
#[derive(Drop)]
pub(crate) struct Checks {
    pub(crate) next: u64,
    pub(crate) laid: Option<NewestCheck>,
    pub(crate) buffer: Vec<u8>,
}

impl Model for Checks {
    ghost use Rattle.std.specs.Prelude.{◌≡◌, ◌≤◌, [], ℕ, vec_capacity};
    ghost use Rattle.file_channel.specs.Laid.{CheckState};

    // The number, and the newest checkpoint.
    ghost Value = { CheckState };

    ghost view = { λ c. record { next = c.next; laid = c.laid } };

    // The buffer is empty, and has its room.
    ghost invariant = { λ c. (c.buffer.items ≡ []) × (65_536 ≤ vec_capacity c.buffer) };
}

impl Checks {
    /// The next checkpoint has this number, and the newest is this one.
    pub(crate) fn from(
        alloc: Global,
        next: u64,
        laid: Option<NewestCheck>,
    ) -> Result<Checks, AllocError>
        ensures { IfOk result (λ c. c ≡ record { next = next; laid = laid }) }
    {
        let buffer = Vec::with_capacity(alloc, BUFFER)?;
        Ok(Checks { next, laid, buffer })
    }
}

// The name after which the next checkpoint is looked for: that of this one, or of the last log file, which stands before all of them.
fn check_name(number: Option<u32>) -> FileName
    ensures { result ≡ check_name number }
{
    match number {
        Some(number) => FileName::Check(number),
        None => FileName::Log(LAST_FILE),
    }
}

// The number after this one, or 1.
fn number_after(last: Option<u32>) -> u64
    ensures none { last ≡ None → result ≡ 1 }
    ensures some { IfSome last (λ n. result ≡ n + 1) }
{
    match last {
        Some(number) => u64::from(number) + 1,
        None => 1,
    }
}

/// The number of the checkpoint after those that are there: one above the greatest, or 1.
pub(crate) fn next_check<D: Disk>(disk: &mut D) -> Result<u64, Failed>
    ensures next { IfOk result (λ next. WhereTold (D.told disk.old)
        (λ t. IsNextCheck t.reads next)) }
    ensures same { D.told disk.new ≡ D.told disk.old }
    ensures cause { HasCause (D.faults disk.old) (D.faults disk.new) result }
{
    let mut last = None;
    loop {
        match disk.next_name(Some(check_name(last))) {
            Ok(Some(FileName::Check(number))) => last = Some(number),
            // No log file stands after the last one.
            Ok(Some(FileName::Log(_))) => return Ok(number_after(last)),
            Ok(None) => return Ok(number_after(last)),
            Err(failed) => return Err(failed),
        }
    }
}

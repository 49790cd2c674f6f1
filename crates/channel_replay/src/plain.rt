// Recovers whole log files, as plainly as it can be done.
ghost use Rattle.std.specs.Prelude.{◌≡◌, ◌∷◌, [], ℕ, List, IfOk, IfErr, OnOk};
ghost use Rattle.channel_replay.specs.Recover.{HasFault, LogFile, IsBad, StandsFor, empty_base, lines};
ghost use Rattle.channel_replay.specs.Plain.{AreOf, WhereBad, base_of};
ghost use Rattle.channel_replay.specs.Recovery.{IsRecovered};

use crate::line::Line;
use crate::recovery::{Recovery, Replayed};
use crate::refused::RecoverRefused;
use crate::whole::add_file;
use event_core::NoMemory;
use std::alloc::Global;
use std::collections::VecDeque;

/// A log file as a whole: its number and its bytes.
#[derive(Drop)]
pub struct WholeFile {
    pub number: u32,
    pub bytes: Vec<u8>,
}

// What stands in these files, in order.
fn lines_of(alloc: Global, files: &[WholeFile]) -> Result<VecDeque<Line>, NoMemory>
    ensures { IfOk result (λ found. (logs : List LogFile) × AreOf files.now logs ×
        (found.items ≡ lines logs)) }
{
    let mut lines = VecDeque::new(alloc);
    for file in files {
        add_file(alloc, &file.bytes, file.number, &mut lines)?;
    }
    Ok(lines)
}

// Applies the lines up to the first fault.
fn apply_all(alloc: Global, mut lines: VecDeque<Line>) -> Result<Replayed, RecoverRefused>
    ensures ok { IfOk result (λ r. IsRecovered lines.items r) }
    ensures bad { IfErr result (λ e. WhereBad e (λ file at. HasFault empty_base [] lines.items file
        at)) }
{
    let mut recovery = Recovery::new(alloc);
    while let Some(line) = lines.pop_front() {
        recovery.apply_line(line)?;
    }
    Ok(recovery.finish())
}

/// Recovers whole log files, in the order of their numbers: the events that their committed transactions leave, in order,
/// with the next event number and the next transaction number; or the first fault. It holds all files and all their
/// records in memory, so it is for tests and small folders.
pub fn recover(alloc: Global, files: &[WholeFile]) -> Result<Replayed, RecoverRefused>
    ensures ok { IfOk result (λ r. (logs : List LogFile) × AreOf files.now logs × StandsFor logs
        (base_of r) r.next.txn) }
    ensures bad { IfErr result (λ e. WhereBad e (λ file at. (logs : List LogFile) × AreOf files.now
        logs × IsBad logs file at)) }
{
    match lines_of(alloc, files) {
        Ok(lines) => apply_all(alloc, lines),
        Err(_) => Err(RecoverRefused::NoMemory),
    }
}

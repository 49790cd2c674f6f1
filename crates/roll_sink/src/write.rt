// Writes the text of a batch to the file that was begun.
ghost use Rattle.std.specs.Prelude.{◌++◌, ◌∷◌, [], MatchResult};
ghost use Rattle.flume_host.specs.Causes.{HasCause};
ghost use Rattle.flume_host.specs.Told.{Tells};
ghost use Rattle.roll_sink.specs.Parts.{HandedOn};
ghost use Rattle.roll_sink.specs.Rolls.{roll_text, Stopped, Writes};

use event_core::Batch;
use flume_host::{Failed, RollDir};

// Writes all of the bytes.
fn write_all<D: RollDir>(dir: &mut D, bytes: &[u8]) -> Result<(), Failed>
    ensures done { Writes bytes.now result (D.rolled dir.old) (D.rolled dir.new) }
    ensures cause { HasCause (D.faults dir.old) (D.faults dir.new) result }
{
    let mut at = 0;
    while at < bytes.len() {
        at += dir.write(&bytes[at..])?;
    }
    Ok(())
}

// Writes a body and a newline.
fn write_line<D: RollDir>(dir: &mut D, body: &[u8]) -> Result<(), Failed>
    ensures done { Writes (body.now ++ 10 ∷ []) result (D.rolled dir.old) (D.rolled dir.new) }
    ensures cause { HasCause (D.faults dir.old) (D.faults dir.new) result }
{
    write_all(dir, body)?;
    write_all(dir, b"\n")
}

// Writes the body of each event and a newline.
fn write_batch<D: RollDir>(dir: &mut D, batch: &Batch) -> Result<(), Failed>
    ensures done { Writes (roll_text batch.now) result (D.rolled dir.old) (D.rolled dir.new) }
    ensures cause { HasCause (D.faults dir.old) (D.faults dir.new) result }
{
    for i in 0..batch.len() {
        write_line(dir, batch.get(i).body())?;
    }
    Ok(())
}

/// Writes a batch, and has it handed on.
pub fn write_and_flush<D: RollDir>(dir: &mut D, batch: &Batch) -> Result<(), Failed>
    ensures done { MatchResult result (λ _. Tells (D.rolled dir.old) (D.rolled dir.new)
        (HandedOn (roll_text batch.now)))
        (λ _. Tells (D.rolled dir.old) (D.rolled dir.new) (Stopped (roll_text batch.now))) }
    ensures cause { HasCause (D.faults dir.old) (D.faults dir.new) result }
{
    write_batch(dir, batch)?;
    dir.flush()
}

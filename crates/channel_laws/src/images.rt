// What a crash leaves of a folder whose channel was shared.
ghost use Rattle.std.specs.Prelude.{◌≡◌};
ghost use Rattle.channel_lock.specs.Calls.{Below};
ghost use Rattle.channel_lock.specs.Turns.{HasAll};
ghost use Rattle.channel_laws.specs.Images.{CountedCallsLeave, LeavesAtEach};

use file_channel::FileChannel;
use flume_host::Disk;
use shared_channel::{Closed, Pass, Shared};
use std::sync::Wait;

/// Of a file channel that was shared, the counted calls alone say what a crash may leave at each moment. The function does nothing:
/// it states a law.
pub fn counted_calls_leave()
    ensures { CountedCallsLeave }
{}

/// Hands a shared file channel back, as [`Shared::close`] does, and tells what a crash may leave of its folder. Whatever calls any
/// passes made since the opening, and at whatever moment since that opening had settled the folder, inside a call too, what a crash
/// then leaves opens to what is left after some front of the commits made up to that moment which has all that was settled by then.
/// The opening is that which [`Shared::new`] was given, and the calls are all that were counted.
pub fn close_channel<R: Wait, D: Disk + Drop>(
    rt: &R,
    shared: Shared<FileChannel<D>>,
    pass: Pass,
) -> Closed<FileChannel<D>>
    requires { pass.table_id ≡ shared.turn.table.shared.table_id }
    ensures same { (result.pass.table_id ≡ pass.table_id) × (result.pass.number ≡ pass.number) }
    // Each call carries the number of one of the passes.
    ensures owners { Below pass.view.passes result.pass.view.seen }
    ensures images { LeavesAtEach (D.told result.channel.0) pass.view.base result.pass.view.seen }
    ensures whole { HasAll pass.view → result.pass.view.seen ≡ pass.view.seen }
{
    shared.close(rt, pass)
}

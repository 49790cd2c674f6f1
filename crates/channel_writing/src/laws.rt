// Laws of the records that a channel writes, after any start.
ghost use Rattle.channel_writing.specs.Laws.{BeginIsMirrored, PutIsMirrored, TakeIsMirrored, RollbackIsMirrored, EndIsMirrored, StagePutIsMirrored, StageTakeIsMirrored, FlushIsMirrored, CheckpointIsMirrored, LaidGoesOn, LaidIsLogged, StartsLeaveTheSame, FramesRecover, FlushRecovers, FlushIsLogged};

/// A transaction that did nothing yet writes no record.
pub fn a_begin_is_mirrored()
    ensures { BeginIsMirrored }
{}

/// A transaction gains an event, and its PUT stands after the other records.
pub fn a_put_is_mirrored()
    ensures { PutIsMirrored }
{}

/// A transaction takes the first event that none holds, and its TAKE stands after the other records.
pub fn a_take_is_mirrored()
    ensures { TakeIsMirrored }
{}

/// A transaction that did something is given up, and its ROLLBACK stands after the other records.
pub fn a_rollback_is_mirrored()
    ensures { RollbackIsMirrored }
{}

/// A transaction that did nothing ends without a record.
pub fn an_end_is_mirrored()
    ensures { EndIsMirrored }
{}

/// Puts are staged, and their COMMIT_PUT stands after the other records.
pub fn a_staged_put_is_mirrored()
    ensures { StagePutIsMirrored }
{}

/// Takes are staged, and their COMMIT_TAKE stands after the other records.
pub fn a_staged_take_is_mirrored()
    ensures { StageTakeIsMirrored }
{}

/// What is staged is settled, and the records are those of a frame more.
pub fn a_flush_is_mirrored()
    ensures { FlushIsMirrored }
{}

/// A checkpoint's start mirrors the state.
pub fn a_checkpoint_is_mirrored()
    ensures { CheckpointIsMirrored }
{}

/// Logs after starts that mirror one state leave the same.
pub fn starts_leave_the_same()
    ensures { StartsLeaveTheSame }
{}

/// A log whose last file has some committed frames recovers to what they and the files before leave.
pub fn frames_recover()
    ensures { FramesRecover }
{}

/// While records are flushed as a frame more, a crash leaves what is settled, or that with what is staged.
pub fn a_flush_recovers()
    ensures { FlushRecovers }
{}

/// After a flush the log's frames are one more, and nothing waits.
pub fn a_flush_is_logged()
    ensures { FlushIsLogged }
{}

/// After the place of a folder's newest checkpoint the log goes on by the frames that come after it.
pub fn a_laid_log_goes_on()
    ensures { LaidGoesOn }
{}

/// From the checkpoint of a state on the log is the channel's.
pub fn a_laid_log_is_the_channels()
    ensures { LaidIsLogged }
{}

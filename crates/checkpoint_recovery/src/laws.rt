// Laws of what a folder recovers to from its newest checkpoint.
ghost use Rattle.checkpoint_recovery.specs.Laws.{FrontElsewhere, FrontIsBad, FrontRecovers, HasOneNewest, HasOneReading, HasSomeReading, LaidRecovers, OpenIsNewest, PassedIsNotNewest, PrunedRecovers, ReadsOn, ServesElsewhere};

/// From a place on a folder has one list of lines.
pub fn one_reading()
    ensures { HasOneReading }
{}

/// From a place in a log file a folder has some list of lines, whatever its files hold.
pub fn some_reading()
    ensures { HasSomeReading }
{}

/// From a place on a file has the frames up to a later commit byte, and then those from that byte on.
pub fn a_folder_reads_on()
    ensures { ReadsOn }
{}

/// A folder has one newest checkpoint that is not passed over, or none.
pub fn one_newest()
    ensures { HasOneNewest }
{}

/// A right checkpoint stands for the same in each folder that has the files that it names.
pub fn serves_elsewhere()
    ensures { ServesElsewhere }
{}

/// Without a checkpoint to be read the log files alone decide.
pub fn front_elsewhere()
    ensures { FrontElsewhere }
{}

/// A checkpoint that is passed over changes nothing.
pub fn passed_is_not_newest()
    ensures { PassedIsNotNewest }
{}

/// An open checkpoint above all others is the newest.
pub fn open_is_newest()
    ensures { OpenIsNewest }
{}

/// A folder without a checkpoint recovers to what its log files stand for from the front.
pub fn front_recovers()
    ensures { FrontRecovers }
{}

/// And its first fault is theirs.
pub fn front_is_bad()
    ensures { FrontIsBad }
{}

/// A folder recovers to the same, whatever is left of a checkpoint that is being laid.
pub fn laying_changes_nothing()
    ensures { LaidRecovers }
{}

/// And without the files that its newest checkpoint does not name.
pub fn pruning_changes_nothing()
    ensures { PrunedRecovers }
{}

// The law of what a replay begins with.
ghost use Rattle.checkpoint_replay.specs.Checked.{ChecksAreKept};

/// The ring and the table of a checkpoint are what a replay keeps at its start.
pub fn checks_are_kept()
    ensures { ChecksAreKept }
{}

// Laws of the channel machine.
ghost use Rattle.channel_face.specs.Laws.{NumbersRise, TakesLeast, StandsForJournal, CommitsAreWellFormed, CountsOneCall, CountStaysWithin};

/// In every state that a run leads to, the numbers of the events that are left rise, and the next number is above them.
pub fn numbers_rise()
    ensures { NumbersRise }
{}

/// A take gives the event of the least number that no transaction holds.
pub fn takes_least()
    ensures { TakesLeast }
{}

/// What is left, and the next number, are what the journal leaves of the base.
pub fn stands_for_journal()
    ensures { StandsForJournal }
{}

/// The commits are a well-formed journal of the base, and none is empty.
pub fn commits_are_well_formed()
    ensures { CommitsAreWellFormed }
{}

/// What is counted of a history goes on call by call.
pub fn counts_one_call()
    ensures { CountsOneCall }
{}

/// A channel never counts more events than its capacity: in a file those that are left, open and staged, in memory those that
/// are left and staged. It begins with no more, and no reopening reads its list from a disk that does not show its contents.
pub fn count_stays_within()
    ensures { CountStaysWithin }
{}

// Laws of what a port did in the history at the end. These functions do nothing: each states a law.
ghost use Rattle.channel_laws.specs.Fronts.{BatchIsOfTheEnd, CommitIsOfTheEnd, PutStaysInJournal, RollbackIsOfTheEnd, TakenStaysInJournal};

use channel_face::Channel;

/// A batch of a port is the same batch, word for word, in each history that begins with what its pass had seen.
pub fn batch_is_of_the_end<C: Channel>()
    ensures { BatchIsOfTheEnd C.stands }
{}

/// A commit of takes through a port is the same commit in each such history.
pub fn commit_is_of_the_end<C: Channel>()
    ensures { CommitIsOfTheEnd C.stands }
{}

/// A rollback of takes through a port is the same rollback in each such history.
pub fn rollback_is_of_the_end<C: Channel>()
    ensures { RollbackIsOfTheEnd C.stands }
{}

/// A batch that is in the journal stays there, as the same entry at the same place, whatever is called later.
pub fn put_stays_in_journal()
    ensures { PutStaysInJournal }
{}

/// So does what a transaction took.
pub fn taken_stays_in_journal()
    ensures { TakenStaysInJournal }
{}

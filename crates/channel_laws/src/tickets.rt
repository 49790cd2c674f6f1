// Laws of tickets. An empty entry's ticket has no frame and its entry stands nowhere, so they speak of the others.
ghost use Rattle.channel_laws.specs.Transactions.{AnsweredIsInJournal, CommittedIsInJournal, OwnAnsweredIsInJournal, OwnCommittedIsInJournal};
ghost use Rattle.channel_laws.specs.Tickets.{SettledIsInJournal, UnsettledIsStaged, SettlingSettles, StaysSettled, TicketsNumberPuts};

use channel_face::{Channel, PutFace, TakeFace};

/// Where the ticket of an entry is settled, the journal has this entry, right after all that was committed before it was staged.
pub fn settled_is_in_journal()
    ensures { SettledIsInJournal }
{}

/// Where the ticket of an entry is not settled, and in no doubt, the journal is as it was at the stage, and the entry is staged,
/// right after what was staged before it.
pub fn unsettled_is_staged()
    ensures { UnsettledIsStaged }
{}

/// In the life of the stage a call that settles what is staged, as a flush, leaves the ticket settled.
pub fn settling_settles()
    ensures { SettlingSettles }
{}

/// A ticket that is settled stays so, whatever is called, through each reopen.
pub fn stays_settled()
    ensures { StaysSettled }
{}

/// A ticket of puts has how many they are, and the number of the first: that of the next event after all that was committed before,
/// where no reopen before read its list from a disk that doesn't show its contents.
pub fn tickets_number_puts()
    ensures { TicketsNumberPuts }
{}

/// A batch that a face answered Ok is in the journal of a history at whose end the face left the channel, where no other call of the
/// history changed its puts: its events, if any, are one entry, right after what was committed before its stage. The number that
/// was answered is that of the next event when it was staged, and, where no reopen before read its list from a disk that doesn't
/// tell, of the next event after those commits.
pub fn answered_is_in_journal<P: PutFace>(face: &P)
    ensures { AnsweredIsInJournal (P.saw face.now) (P.seen face.now) }
{}

/// What a transaction had taken that a face committed with Ok is in that journal as taken, right after what was committed before
/// its stage.
pub fn committed_is_in_journal<T: TakeFace>(face: &T)
    ensures { CommittedIsInJournal (T.saw face.now) (T.seen face.now) }
{}

/// So is a batch that was answered Ok through a channel of one's own, where all that the channel stands for are runs to one state.
/// Nobody else calls it, so nothing is asked of other calls.
pub fn own_answered_is_in_journal<C: Channel>(channel: &C)
    ensures { OwnAnsweredIsInJournal (C.stands channel.now) }
{}

/// And so is what a transaction had taken that was committed there with Ok.
pub fn own_committed_is_in_journal<C: Channel>(channel: &C)
    ensures { OwnCommittedIsInJournal (C.stands channel.now) }
{}

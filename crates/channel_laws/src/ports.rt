// Laws of whole transactions through a port. These functions do nothing: each states a law.
ghost use Rattle.channel_laws.specs.Ports.{PortAnsweredIsInJournal, PortCommittedIsInJournal};

use channel_face::Channel;

/// A batch that a port answered Ok is in the journal of each history that begins with what its pass has seen, and so in that of the
/// history at the end, where no call that the pass has seen, with a number that is not its own, changed its puts: its events, if any, are one entry, right after what was committed before its stage. The number that was
/// answered is that of the next event when it was staged, and, where no reopen before read its list from a disk that doesn't show its contents,
/// of the next event after those commits.
pub fn port_answered_is_in_journal<C: Channel>()
    ensures { PortAnsweredIsInJournal C.stands C.tells }
{}

/// What a transaction had taken that a port committed with Ok is in those journals as taken, right after what was committed before
/// its stage, whatever others called.
pub fn port_committed_is_in_journal<C: Channel>()
    ensures { PortCommittedIsInJournal C.stands C.tells }
{}

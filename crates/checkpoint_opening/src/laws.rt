// Laws of what a folder recovers to.
ghost use Rattle.checkpoint_opening.specs.Laws.{BeginsAreStarts, GrownBegins, RecoversToOnce};

/// A folder that gains a log file begins where it did, and its lines go on with those of that file.
pub fn a_grown_folder_begins()
    ensures { GrownBegins }
{}

/// Where a folder begins is a start: its numbers are in order.
pub fn begins_are_starts()
    ensures { BeginsAreStarts }
{}

/// A folder recovers to one list.
pub fn recovers_to_once()
    ensures { RecoversToOnce }
{}

// Laws of what the log files of a folder stand for.
ghost use Rattle.channel_replay.specs.Laws.{HasOneFault, HasOneList, RecoversOnce, RecoversOrBad};

/// A folder has one list of log files, whatever they hold.
pub fn one_list()
    ensures { HasOneList }
{}

/// A folder that recovers does so to one list with its next number, and to one transaction number.
pub fn recovers_once()
    ensures { RecoversOnce }
{}

/// A folder that recovers has no fault.
pub fn no_fault_where_it_recovers()
    ensures { RecoversOrBad }
{}

/// The first fault of a folder is one.
pub fn one_fault()
    ensures { HasOneFault }
{}

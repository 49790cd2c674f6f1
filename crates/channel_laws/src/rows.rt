// Worked histories.
ghost use Rattle.event_core.specs.Content.{Content};
ghost use Rattle.channel_laws.specs.PortRows.{TwoPortsOneFlush};
ghost use Rattle.channel_laws.specs.Rows.{OneIsTaken, TwoBatchesOneFlush};

/// Two callers of one channel put a batch each, and the second flushes for both: all that the law of batches asks of the run and of
/// their calls holds of both, they are answered 0 and 1, and the journal and what is left are as computed by hand.
pub fn two_batches_and_one_flush()
    ensures { (e f : Content) → TwoBatchesOneFlush e f }
{}

/// Then a third takes the first event and commits: all that the law of takes asks of the run and of its calls holds, and the journal
/// and what is left are as computed by hand.
pub fn one_is_taken()
    ensures { (e f : Content) → OneIsTaken e f }
{}

/// Two ports put a batch each, and the second flushes for both: all that the law of batches asks for holds of both, who are answered
/// 0 and 1, over the definition of a channel.
pub fn two_ports_and_one_flush()
    ensures { (e f : Content) → TwoPortsOneFlush e f }
{}

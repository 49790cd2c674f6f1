// Laws of the delivery model. These functions do nothing: each states a law.
ghost use Rattle.world_laws.specs.Laws.{NewIsHeld, EachStepKeeps, EveryRunKeeps, AcknowledgedIsKept, AcknowledgedIsKeptDown, NothingIsTakenBack, NoDeliveryTwice, EachIsLeftOrTakenOnce};
ghost use Rattle.world_laws.specs.Rows.{CallsAreItsSteps, ReplyIsLost};

/// In a world of agents with new channels and nothing else, the accounting holds.
pub fn new_is_held()
    ensures { NewIsHeld }
{}

/// Where the accounting holds, it holds after each step, whether or not this can be taken.
pub fn each_step_keeps_the_accounting()
    ensures { EachStepKeeps }
{}

/// So it holds after every list of steps from a new world: over all losses, repeats, crashes and mends.
pub fn every_run_keeps_the_accounting()
    ensures { EveryRunKeeps }
{}

/// Over every list of steps from a world in which the accounting holds nothing is taken back: what was acknowledged, settled in a
/// channel, taken by a last sink or sent stays, and selectors and sinks are the same.
pub fn nothing_is_taken_back()
    ensures { NothingIsTakenBack }
{}

/// Where the accounting holds, and selectors name channels that are there, each event that the chain made of an acknowledged
/// batch is left in each channel that it has to reach; or a committed and settled take of it names an output place of the node
/// with it, which a last sink took, or an acknowledgement of a node to which the channel's sinks point, of a batch with it.
pub fn acknowledged_is_kept()
    ensures { AcknowledgedIsKept }
{}

/// And so on, down to the last hop. Over every list of steps from a new world whose links have no cycle, and whose selectors name
/// channels that are there, each acknowledged event is left in a channel of each path that it has to take, or was committed after
/// a delivery at the path's last sink; at each hop "event" is one that the node's chain made of the batch.
pub fn acknowledged_is_kept_down()
    ensures { AcknowledgedIsKeptDown }
{}

/// Where the accounting holds, no two commits name one acknowledgement, and no two of a node one output place.
pub fn no_delivery_is_named_twice()
    ensures { NoDeliveryTwice }
{}

/// Where it holds, each number that was put in a channel, and settled, is left with its event, or was taken by just one commit,
/// and not both.
pub fn each_is_left_or_taken_once()
    ensures { EachIsLeftOrTakenOnce }
{}

/// A worked world of two agents: a reply is lost, the first agent crashes and sends again. The second agent has the event twice,
/// and the first none left. The first reply in place of the second rolls the attempt back.
pub fn reply_is_lost()
    ensures { ReplyIsLost }
{}

/// The calls of a batch that this world's first agent answers, and of the sink run that sends the event on, are the steps of the worked
/// world by the relation of calls and steps.
pub fn calls_of_the_worked_world()
    ensures { CallsAreItsSteps }
{}

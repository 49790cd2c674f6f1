// Laws of drafts.
ghost use Rattle.agent_drafts.specs.Fits.{DraftsFit};
ghost use Rattle.agent_drafts.specs.Means.{ChainsAreAsPlanned, CopiesDoTheSame};

use plan_laws::{numbers_are_limited, sources_name_what_is_there};

/// A draft of a source of a plan that `plan_of` may answer has what its worker asks for: the limit of its lines is one, where it takes lines, its
/// channels are channels of the plan and fewer than 2^32, and its selector names these.
pub fn drafts_can_serve<B: Drop>()
    ensures { DraftsFit B }
{
    sources_name_what_is_there();
    numbers_are_limited();
}

/// A copy of a step makes the same of each event, and is told the same of the host by a copy of its names. What is built of a
/// copy of keys is what they say. A copy of a selector chooses the same channels for each event.
pub fn copies_do_the_same()
    ensures { CopiesDoTheSame }
{}

/// A chain that is built of a draft's plan has an interceptor for each of the source's, in order: one that does the same, or one
/// that is built of the same keys, or the object that was handed in for it.
pub fn chains_are_as_planned<B: Drop>()
    ensures { ChainsAreAsPlanned B }
{}

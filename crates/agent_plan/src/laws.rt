//! Laws of the definitions.

ghost use Rattle.agent_plan.specs.Laws.{FirstFaultIsFirst, LeastMissingIsLeast};

/// The first fault is on the least line, and on that line it is the first by rank.
pub fn first_fault_is_first()
    ensures { FirstFaultIsFirst }
{}

/// The missing key that is named is the least by bytes.
pub fn least_missing_is_least()
    ensures { LeastMissingIsLeast }
{}

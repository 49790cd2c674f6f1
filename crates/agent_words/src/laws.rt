//! A law of the options.

ghost use Rattle.agent_words.specs.Laws.{OneAsked};

/// The words of a command with options give one name and one file.
pub fn one_asked()
    ensures { OneAsked }
{}

// Laws of a plan.
ghost use Rattle.plan_laws.specs.Names.{GroupsNameWhatIsThere, SinksNameWhatIsThere, SourcesNameWhatIsThere};
ghost use Rattle.plan_laws.specs.Limits.{NumbersAreLimited};
ghost use Rattle.plan_laws.specs.Once.{SinksStandOnce};

/// In each plan that `plan_of` may answer, the channels of a source are channels of the plan, and those that its selector names are
/// channels of the source. So an intake over as many ports as the source has channels may be made without a further test.
pub fn sources_name_what_is_there()
    ensures { SourcesNameWhatIsThere }
{}

/// The channel of each sink is a channel of the plan.
pub fn sinks_name_what_is_there()
    ensures { SinksNameWhatIsThere }
{}

/// The sinks of a group are sinks of the plan; it has as many priorities as sinks, and one of the default processor has at most one
/// sink.
pub fn groups_name_what_is_there()
    ensures { GroupsNameWhatIsThere }
{}

/// The numbers of a plan are within the limits that channels, sink runs and sessions ask: a sink takes 1 to 10,000 events at once, a
/// channel holds 1 to 10,000,000, a transaction 1 to 100,000, and a longest line has 1 to 1,048,568 bytes.
pub fn numbers_are_limited()
    ensures { NumbersAreLimited }
{}

/// No sink of a plan stands in a group twice, or in two.
pub fn sinks_stand_once()
    ensures { SinksStandOnce }
{}

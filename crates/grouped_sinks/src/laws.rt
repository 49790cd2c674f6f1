// What follows for rows and their runners. These functions do nothing: each states a law.
ghost use Rattle.grouped_sinks.specs.Rows.{RowsAreApart};
ghost use Rattle.grouped_sinks.specs.Splits.{RunnersSplit};

use crate::runner::Runner;
use flume_host::Random;
use plug_in::EventSink;

/// Where no sink stands in groups twice, each sink of a plan is in one of its rows, once.
pub fn rows_are_apart()
    ensures { RowsAreApart }
{}

/// Whatever a runner was handed, each batch that it answered Ok was taken by one of its members, and each member took just its own, in
/// order. No member was handed another batch.
pub fn runners_split<S: EventSink, N: Random + Drop>()
    ensures { RunnersSplit S.delivers ⟦<Runner<S, N> as EventSink>⟧.delivers }
{}

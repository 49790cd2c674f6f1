// What follows for the scheduler, and over many deliveries. These functions do nothing: each states a law.
ghost use Rattle.sink_groups.specs.Laws.{TriesAllThatAreDue, LeavesAloneAfterAFailure};
ghost use Rattle.sink_groups.specs.Runs.{SinkTakenOnce, TakenOnce};

use crate::run::GroupRun;
use crate::sink::GroupSink;
use flume_host::Random;
use plug_in::EventSink;

/// A delivery tries each member that is not left alone, and each once.
pub fn tries_all_that_are_due()
    ensures { TriesAllThatAreDue }
{}

/// A member that failed is left alone for the time of its row of failures, at most the penalty, and is tried from then on.
pub fn leaves_alone_after_a_failure()
    ensures { LeavesAloneAfterAFailure }
{}

/// Over any list of deliveries by a group its members were handed batches one after another, and what they took is just what the
/// group answered Ok: each batch once, by the member that was named, in order. So no batch that was refused was taken.
pub fn each_batch_is_taken_once<S: EventSink>(group: &GroupRun<S>)
    ensures { TakenOnce S.delivers }
{}

/// The same of a group that is a sink: what its members took is just what it answered Ok, each batch once and in order.
pub fn each_batch_of_a_sink_is_taken_once<S: EventSink, N: Random + Drop>(group: &GroupSink<S, N>)
    ensures { SinkTakenOnce S.delivers }
{}

// Laws of transactions that are over once the calls of their workers are whole.
ghost use Rattle.shared_channel.specs.Ports.{Later, Saw};
ghost use Rattle.sink_worker.specs.Rounds.{told};
ghost use Rattle.two_channels.specs.Ports.{IsOnDisk, LaterPort, SawIn};
ghost use Rattle.whole_calls.specs.Leaving.{DrainsAreOver, PutsAreOver, RoundsAreOver};
ghost use Rattle.whole_calls.specs.Listening.{BatchesAreOver, ListensAreOver};
ghost use Rattle.whole_calls.specs.Over.{EachIsOver, NoneIsOpen, StayOver};

use channel_face::Channel;
use plug_in::{EventSink, Interceptor};
use shared_channel::{Carries, Port};
use std::sync::Wait;
use two_channels::EitherPort;

/// Where a pass had left no transaction open, a sink's runs and mends through its port leave none open. It is so of a port of a
/// channel on a disk, and of one that may be of either kind.
pub fn rounds_are_over<'a, R: Wait + 'a, A: Channel + 'a, B: Channel + 'a, S: EventSink>()
    ensures port { RoundsAreOver ⟦<Port<'a, R, A> as Carries>⟧.pass
        (λ p. Saw A.stands p.pass.view) (λ p q. Later p.pass q.pass)
        (λ p. Unit {0}) (told S.delivers S.faults) }
    ensures either { RoundsAreOver ⟦<EitherPort<'a, R, A, B> as Carries>⟧.pass
        (SawIn A.stands B.stands) LaterPort IsOnDisk (told S.delivers S.faults) }
{}

/// So it is with the runs of a sink that empty a channel.
pub fn drains_are_over<'a, R: Wait + 'a, A: Channel + 'a, B: Channel + 'a, S: EventSink>()
    ensures port { DrainsAreOver ⟦<Port<'a, R, A> as Carries>⟧.pass
        (λ p. Saw A.stands p.pass.view) (λ p q. Later p.pass q.pass) (told S.delivers S.faults) }
    ensures either { DrainsAreOver ⟦<EitherPort<'a, R, A, B> as Carries>⟧.pass
        (SawIn A.stands B.stands) LaterPort (told S.delivers S.faults) }
{}

/// So it is with a batch that is put.
pub fn puts_are_over<'a, R: Wait + 'a, A: Channel + 'a, B: Channel + 'a>()
    ensures port { PutsAreOver ⟦<Port<'a, R, A> as Carries>⟧.pass
        (λ p. Saw A.stands p.pass.view) (λ p q. Later p.pass q.pass) }
    ensures either { PutsAreOver ⟦<EitherPort<'a, R, A, B> as Carries>⟧.pass
        (SawIn A.stands B.stands) LaterPort }
{}

/// So it is with a batch of a source over all of its ports, whatever became of it.
pub fn batches_are_over<'a, R: Wait + 'a, A: Channel + 'a, B: Channel + 'a, I: Interceptor>()
    ensures port { BatchesAreOver ⟦<Port<'a, R, A> as Carries>⟧.pass
        (λ p. Saw A.stands p.pass.view) (λ p q. Later p.pass q.pass) I.intercepts }
    ensures either { BatchesAreOver ⟦<EitherPort<'a, R, A, B> as Carries>⟧.pass
        (SawIn A.stands B.stands) LaterPort I.intercepts }
{}

/// So it is with the rounds of a listener: the batch of each line or call, and the mends of its channels.
pub fn listens_are_over<'a, R: Wait + 'a, A: Channel + 'a, B: Channel + 'a, I: Interceptor>()
    ensures port { ListensAreOver ⟦<Port<'a, R, A> as Carries>⟧.pass
        (λ p. Saw A.stands p.pass.view) (λ p q. Later p.pass q.pass)
        (λ p. Unit {0}) I.intercepts }
    ensures either { ListensAreOver ⟦<EitherPort<'a, R, A, B> as Carries>⟧.pass
        (SawIn A.stands B.stands) LaterPort IsOnDisk I.intercepts }
{}

/// What a pass began and left over is over in each longer history with no further call of its numbers.
pub fn they_stay_over()
    ensures { StayOver }
{}

/// Where each number of a pass left no transaction open, the pass left none.
pub fn each_is_over()
    ensures { EachIsOver }
{}

/// Where a pass with all numbers left none open, none is open in the state that it has seen.
pub fn none_is_open()
    ensures { NoneIsOpen }
{}

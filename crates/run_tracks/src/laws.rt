// Laws of workers' calls in whole histories.
ghost use Rattle.shared_channel.specs.Ports.{Later, Saw};
ghost use Rattle.sink_worker.specs.Rounds.{told};
ghost use Rattle.two_channels.specs.Ports.{IsOnDisk, LaterPort, SawIn};
ghost use Rattle.run_tracks.specs.Dealt.{EveryNumberIsHome};
ghost use Rattle.run_tracks.specs.Dealing.{DealingBegins, DealingEnds, DealingGoesOn, DealsOne};
ghost use Rattle.run_tracks.specs.Listening.{ListenedHome, ListenedInTracks};
ghost use Rattle.run_tracks.specs.Drained.{DrainIsInTrack, EmptiedLeavesNone};
ghost use Rattle.run_tracks.specs.Found.{EmptyFoundNone};
ghost use Rattle.run_tracks.specs.Told.{BatchIsInTracks, RoundsAreHome, RoundsAreInTrack};

use channel_face::Channel;
use plug_in::{EventSink, Interceptor};
use shared_channel::{Carries, Port};
use std::sync::Wait;
use two_channels::EitherPort;

/// What a sink's worker did through its port is, in each track at which its pass is, all calls since the track before: its
/// rounds, in order and no others. So, once a new pass is at home, it is all calls with its number in the whole history of the
/// channel. It is so of a port of a channel on a disk, and of one that may be of either kind.
pub fn rounds_are_in_track<'a, R: Wait + 'a, A: Channel + 'a, B: Channel + 'a, S: EventSink>()
    ensures port { RoundsAreInTrack ⟦<Port<'a, R, A> as Carries>⟧.pass
        (λ p. Saw A.stands p.pass.view) (λ p q. Later p.pass q.pass)
        (λ p. Unit {0}) (told S.delivers S.faults) }
    ensures port_home { RoundsAreHome ⟦<Port<'a, R, A> as Carries>⟧.pass
        (λ p. Saw A.stands p.pass.view) (λ p q. Later p.pass q.pass)
        (λ p. Unit {0}) (told S.delivers S.faults) }
    ensures either { RoundsAreInTrack ⟦<EitherPort<'a, R, A, B> as Carries>⟧.pass
        (SawIn A.stands B.stands) LaterPort IsOnDisk (told S.delivers S.faults) }
    ensures either_home { RoundsAreHome ⟦<EitherPort<'a, R, A, B> as Carries>⟧.pass
        (SawIn A.stands B.stands) LaterPort IsOnDisk (told S.delivers S.faults) }
{}

/// What a sink did to empty its channel through a pass that has further numbers is, in each track at which the pass is, all calls
/// with that number since the track before: its runs, in order and no others. Where it ended with an empty channel, no event is
/// left in the state that the pass has seen. It is so of a port of a channel on a disk, and of one that may be of either kind.
pub fn drain_is_in_track<'a, R: Wait + 'a, A: Channel + 'a, B: Channel + 'a, S: EventSink>()
    ensures port { DrainIsInTrack ⟦<Port<'a, R, A> as Carries>⟧.pass
        (λ p. Saw A.stands p.pass.view) (λ p q. Later p.pass q.pass) (told S.delivers S.faults) }
    ensures port_none { EmptiedLeavesNone ⟦<Port<'a, R, A> as Carries>⟧.pass
        (λ p. Saw A.stands p.pass.view) (λ p q. Later p.pass q.pass) (told S.delivers S.faults) }
    ensures either { DrainIsInTrack ⟦<EitherPort<'a, R, A, B> as Carries>⟧.pass
        (SawIn A.stands B.stands) LaterPort (told S.delivers S.faults) }
    ensures either_none { EmptiedLeavesNone ⟦<EitherPort<'a, R, A, B> as Carries>⟧.pass
        (SawIn A.stands B.stands) LaterPort (told S.delivers S.faults) }
{}

/// Where a sink's run through a pass that has each number found no event, each that was left before it was held by a transaction
/// that was open, or staged and not settled; where none was held, none was left. It is so of a port of a channel on a disk, and of
/// one that may be of either kind.
pub fn empty_run_found_none<'a, R: Wait + 'a, A: Channel + 'a, B: Channel + 'a, S: EventSink>()
    ensures port { EmptyFoundNone ⟦<Port<'a, R, A> as Carries>⟧.pass
        (λ p. Saw A.stands p.pass.view) (λ p q. Later p.pass q.pass) (told S.delivers S.faults) }
    ensures either { EmptyFoundNone ⟦<EitherPort<'a, R, A, B> as Carries>⟧.pass
        (SawIn A.stands B.stands) LaterPort (told S.delivers S.faults) }
{}

/// What became of a batch at the ports of its channels is, read backwards from the end, what the worker called in their whole
/// histories. It says of one batch, and not that the worker called no other.
pub fn batch_is_in_tracks<'a, R: Wait + 'a, A: Channel + 'a, B: Channel + 'a, I: Interceptor>()
    ensures port { BatchIsInTracks ⟦<Port<'a, R, A> as Carries>⟧.pass
        (λ p. Saw A.stands p.pass.view) (λ p q. Later p.pass q.pass) I.intercepts }
    ensures either { BatchIsInTracks ⟦<EitherPort<'a, R, A, B> as Carries>⟧.pass
        (SawIn A.stands B.stands) LaterPort I.intercepts }
{}

/// Where each number of a channel was with the pass at home or with a worker, and each worker's number is at home, the passes
/// at home have each number: all calls are theirs, and a close sees no other.
pub fn every_number_is_home()
    ensures { EveryNumberIsHome }
{}

/// What a listener's worker did through its ports is, read backwards from the end, what it called in their whole histories:
/// where the ports stand at the tracks after its rounds, there are tracks before them that differ in their own calls alone, and
/// the rounds are from the ones to the others. So, once new passes are at home, it is all calls with their numbers in the whole
/// histories of the channels. It is so of ports of channels on a disk, and of ports that may be of either kind.
pub fn listening_is_in_tracks<'a, R: Wait + 'a, A: Channel + 'a, B: Channel + 'a, I: Interceptor>()
    ensures port { ListenedInTracks ⟦<Port<'a, R, A> as Carries>⟧.pass
        (λ p. Saw A.stands p.pass.view) (λ p q. Later p.pass q.pass)
        (λ p. Unit {0}) I.intercepts }
    ensures port_home { ListenedHome ⟦<Port<'a, R, A> as Carries>⟧.pass
        (λ p. Saw A.stands p.pass.view) (λ p q. Later p.pass q.pass)
        (λ p. Unit {0}) I.intercepts }
    ensures either { ListenedInTracks ⟦<EitherPort<'a, R, A, B> as Carries>⟧.pass
        (SawIn A.stands B.stands) LaterPort IsOnDisk I.intercepts }
    ensures either_home { ListenedHome ⟦<EitherPort<'a, R, A, B> as Carries>⟧.pass
        (SawIn A.stands B.stands) LaterPort IsOnDisk I.intercepts }
{}

/// Where a channel's first pass stays at home and the others are dealt to workers one by one, each number is with the pass at
/// home, with a worker, or with a pass that is still to be dealt; and so with one of the first two where none is left.
pub fn passes_are_dealt()
    ensures begins { DealingBegins }
    ensures goes_on { DealingGoesOn }
    ensures one { DealsOne }
    ensures ends { DealingEnds }
{}

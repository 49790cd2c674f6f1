// Laws of calls as steps of the world. These functions do nothing: each states a law.
ghost use Rattle.world_laws.specs.Agrees.{ReachedOn, SpillsAreSteps};
ghost use Rattle.world_laws.specs.Joins.{CallsAreSteps};
ghost use Rattle.world_laws.specs.MarkLaws.{BatchStores, TakesAreMarked};

use channel_face::{PutFace, TakeFace};

/// A batch that a face answered Ok, or that is in doubt, is one entry of its events, and a refused one is none. Beside it what is
/// staged settles, or the channel breaks, and nothing else is done.
pub fn batch_stores<P: PutFace>(face: &P)
    ensures { BatchStores (P.saw face.now) (P.seen face.now) }
{}

/// A begin of takes, a take and a commit that were answered Ok, or a commit in doubt, are just that; a refused commit and a
/// rollback give the transaction up, unless a reopening has ended it.
pub fn takes_are_marked<T: TakeFace>(face: &T)
    ensures { TakesAreMarked (T.saw face.now) (T.seen face.now) }
{}

/// Each call of a running file channel that is a step of the world is one that a channel of the world which agrees with it can
/// take, and then the two agree again: a stage of puts, a flush or a checkpoint, a begin of takes, a take that came to no flush,
/// a stage and a rollback of takes, and a reopening. They agree too after a call that is no step.
pub fn calls_are_steps()
    ensures { CallsAreSteps }
{}

/// A put that came to a flush is a flush and then a put that came to none, and so is a take that gave an event.
pub fn spills_are_steps()
    ensures { SpillsAreSteps }
{}

/// What a call of such a channel leads to is reached by calls again, so the laws speak of it too.
pub fn reached_goes_on()
    ensures { ReachedOn }
{}

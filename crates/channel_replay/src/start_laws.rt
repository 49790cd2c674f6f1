// Laws of replays that start at different places of a log.
ghost use Rattle.channel_replay.specs.StartLaws.{FaultIsOneForBoth, FollowingGoesOn, LaidFollows, NewLifeAgrees, StartsAgree};

/// Where a later start has what an earlier one leads to, the lines after are sound for both or for none, and leave the same.
pub fn starts_agree()
    ensures { StartsAgree }
{}

/// A fault after a later start is the first one of the earlier start too.
pub fn a_fault_is_one_for_both()
    ensures { FaultIsOneForBoth }
{}

/// A later start where a new life begins needs only to have what is left there, as what was open is dropped.
pub fn a_new_life_agrees()
    ensures { NewLifeAgrees }
{}

/// What follows a start that follows another follows that one.
pub fn following_goes_on()
    ensures { FollowingGoesOn }
{}

/// What a channel lays of its state follows each start that its log stands for.
pub fn what_is_laid_follows()
    ensures { LaidFollows }
{}

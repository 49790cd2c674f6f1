// Laws of the checkpoint of a channel's places.
ghost use Rattle.checkpoint_places.specs.Laws.{PlacesAreRight, PlacesAreSaid, StateHasStart};

/// A checkpoint says of ring and table of a channel's places just what its state has.
pub fn places_are_said()
    ensures { PlacesAreSaid }
{}

/// It is right for each folder in which the events stand at their pointers.
pub fn places_are_right()
    ensures { PlacesAreRight }
{}

/// It stands for a start that has what the state has.
pub fn a_state_has_a_start()
    ensures { StateHasStart }
{}

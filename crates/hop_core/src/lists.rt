// Lists of what a node has at hand.
ghost use Rattle.std.specs.Prelude.{◌≡◌, ◌<◌, ◌++◌, ◌∷◌, [], length, slice_set, vec_capacity, option_copied, None};
ghost use Rattle.event_core.specs.Journal as Face;
ghost use Rattle.world_laws.specs.World.{live};
ghost use Rattle.world_laws.specs.Steps.{ended};

/// The one of this number, unless it ended.
pub(crate) fn live<T>(list: &[Option<T>], number: u64) -> Option<&T>
    ensures { option_copied result ≡ live list.now number }
{
    let place = number as usize;
    if place < list.len() {
        list[place].as_ref()
    } else {
        None
    }
}

/// The one of this number ends, and is handed out.
pub(crate) fn end<T>(list: &mut [Option<T>], number: u64) -> Option<T>
    ensures one { result ≡ live list.old number }
    ensures rest { list.new ≡ slice_set list.old number None }
{
    let place = number as usize;
    if place < list.len() {
        list[place].take()
    } else {
        None
    }
}

/// The one of this number ends.
pub(crate) fn clear<T: Drop>(list: &mut [Option<T>], number: u64)
    ensures { list.new ≡ slice_set list.old number None }
{
    let place = number as usize;
    if place < list.len() {
        list[place] = None;
    }
}

/// All end.
pub(crate) fn end_all<T: Drop>(list: &mut [Option<T>])
    ensures { list.new ≡ ended list.old }
{
    for place in 0..list.len() {
        list[place] = None;
    }
}

/// Puts a value at the end, for which there is room.
pub(crate) fn push_within<T: Drop>(list: &mut Vec<T>, last: T)
    requires { length list.old.items < vec_capacity list.old }
    ensures { list.new.items ≡ list.old.items ++ last ∷ [] }
{
    if list.push(last).is_err() {
        return;
    }
}

/// Whether the number is among these.
pub(crate) fn is_among(numbers: &[u32], number: u64) -> bool
    ensures { result ≡ Face.is_among numbers.now number }
{
    for place in 0..numbers.len() {
        if u64::from(numbers[place]) == number {
            return true;
        }
    }
    false
}

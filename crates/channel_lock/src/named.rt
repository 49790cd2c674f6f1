//! An opening that no code holds, and that a proof names.
ghost use Rattle.std.specs.Prelude.{◌≡◌, [], ◌∷◌, IfOk};
ghost use Rattle.channel_face.specs.History.{Opening};
ghost use Rattle.channel_lock.specs.Views.{no_opening};

use atomic_table::{Badge, Play, Table, TableRule};
use std::alloc::{AllocError, Global};
use std::marker::{Brand, Model, PhantomData};

/// What contracts see as an opening. No value of it is made.
pub struct Opened {}

impl Model for Opened {
    ghost use Rattle.channel_face.specs.History.{Opening};
    ghost use Rattle.channel_lock.specs.Views.{no_opening};

    ghost Value = { Opening };

    ghost view = { λ _. no_opening };
}

/// Names an opening.
pub trait Opens {
    ghost opening: { Opening };
}

impl Opens for Brand {
    ghost opening = { no_opening };
}

// A table at which a seat may know anything.
struct Free;

impl TableRule<u64, Opened, u64> for Free {
    ghost holds = { λ k s. Unit {0} };

    ghost first = { λ k. no_opening };
}

struct Become<K> {
    opening: PhantomData<K>,
}

impl<K: Opens> Play<u64, Opened> for Become<K> {
    ghost then = { λ s m n w. w ≡ (K.opening, m.1) };
}

/// A token without bytes that knows the opening that K names. A seat at a table of its own learns it there.
pub fn named<K: Opens>(alloc: Global) -> Result<Badge<Opened>, AllocError>
    ensures { IfOk result (λ b. b.views ≡ K.opening ∷ []) }
{
    let (table, mut seat) = Table::<u64, Opened, u64, Free, Global>::of_words(alloc, &[0], &0)?;
    table.shared.load::<Become<K>>(&mut seat, 0);
    Ok(seat.into_badge())
}

//! What is shared, and how a call of it is named.
ghost use Rattle.std.specs.Prelude.{List, Ok};
ghost use Rattle.channel_face.specs.History.{Opening, Step};
ghost use Rattle.channel_face.specs.Machine.{Flush};

use std::marker::Brand;

/// A value that stands for an opening and the calls since.
pub trait Guarded {
    ghost stands: { Self → Opening → List Step → Type 0 };
}

/// Names a call with its reply, which the proof of the one who makes it picks.
pub trait Named {
    ghost entry: { Step };
}

/// Says which calls are meant, one of which is made.
pub trait Picked {
    ghost picks: { Step → Type 0 };
}

impl Picked for Brand {
    ghost picks = { λ e. Unit {0} };
}

impl Named for Brand {
    ghost entry = { record { pass = 0; call = Flush (Ok tt); moment = 0 } };
}

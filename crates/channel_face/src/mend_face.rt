// What those see of a channel who mend it.
ghost use Rattle.std.specs.Prelude.{◌≡◌, ◌<◌, ◌≤◌, ℕ, List, length};
ghost use Rattle.channel_face.specs.Faces.{Gains};
ghost use Rattle.channel_face.specs.History.{Opening, Step};
ghost use Rattle.channel_face.specs.Keeps.{IsLook, IsMend};
ghost use Rattle.channel_face.specs.Machine.{State};

use crate::{Face, OpenCause};
use flume_host::Steps;
use std::marker::Brand;
use std::sync::ledger::{Blank, Ledger};

/// What those see of a channel who mend it and ask how many events are left.
pub trait MendFace: Face {
    /// The channel is on a disk.
    ghost on_disk: { Self → Type 0 };

    /// Reopens the channel exactly where it is broken, and answers true after a reopening. False comes where it is not
    /// broken, or is not on a disk, and then it is no call. `steps` counts the records that a reopening reads.
    fn mend<L: Ledger>(&mut self, steps: &mut Steps<L>) -> Result<bool, OpenCause>
        ensures seen { Self.seen self.old ≤ Self.seen self.new }
        ensures kept { Self.kept self.old self.new }
        ensures calls { Gains (Self.own self.old) (Self.own self.new)
            (IsMend (on_disk self.old) (Self.saw self.new) (Self.seen self.new) result) };

    /// How many events are left. It is no call.
    fn size(&mut self) -> u64
        ensures seen { Self.seen self.old ≤ Self.seen self.new }
        ensures kept { Self.kept self.old self.new }
        ensures calls { Gains (Self.own self.old) (Self.own self.new)
            (IsLook (Self.saw self.new) (λ s. result ≡ length s.items)) };
}

fn mend_by<F: MendFace, L: Ledger>(blank: Blank, face: &mut F) -> Result<bool, OpenCause>
    requires name { blank.name ≡ L.name }
    requires parts { blank.parts ≡ L.parts }
    requires some { 0 < L.parts }
    ensures seen { F.seen face.old ≤ F.seen face.new }
    ensures kept { F.kept face.old face.new }
    ensures calls { Gains (F.own face.old) (F.own face.new)
        (IsMend (F.on_disk face.old) (F.saw face.new) (F.seen face.new) result) }
{
    let mut steps = Steps::<L>::new(blank);
    face.mend(&mut steps)
}

/// Mends a channel, as [`MendFace::mend`], for one who counts no steps.
pub fn mend<F: MendFace>(face: &mut F) -> Result<bool, OpenCause>
    ensures seen { F.seen face.old ≤ F.seen face.new }
    ensures kept { F.kept face.old face.new }
    ensures calls { Gains (F.own face.old) (F.own face.new)
        (IsMend (F.on_disk face.old) (F.saw face.new) (F.seen face.new) result) }
{
    mend_by::<F, Brand>(Blank::new(1), face)
}

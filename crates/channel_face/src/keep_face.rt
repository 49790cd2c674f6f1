// What those see of a channel who keep it in order.
ghost use Rattle.std.specs.Prelude.{◌≤◌, OnOk};
ghost use Rattle.channel_face.specs.Faces.{Gains};
ghost use Rattle.channel_face.specs.Keeps.{IsCheck, IsPrune};

use crate::{CheckRefused, MendFace, PruneRefused};

/// What those see of a channel who lay its checkpoints and remove its old files.
pub trait KeepFace: MendFace {
    /// A channel that stood for all that was seen had a checkpoint of just its state as the newest one of whatever a crash leaves.
    ghost saw_laid: { Self → Type 0 };

    /// A channel that stood for all that was seen had no file that its newest checkpoint does not need.
    ghost saw_pruned: { Self → Type 0 };

    /// Flushes, then lays a checkpoint, as [`Durable::checkpoint`](crate::Durable::checkpoint).
    fn checkpoint(&mut self) -> Result<(), CheckRefused>
        requires { Self.on_disk self.old }
        ensures seen { Self.seen self.old ≤ Self.seen self.new }
        ensures kept { Self.kept self.old self.new }
        ensures calls { Gains (Self.own self.old) (Self.own self.new)
            (λ earlier. IsCheck (Self.seen self.new) result) }
        ensures laid { OnOk result (Self.saw_laid self.new) };

    /// Removes the files that its newest checkpoint does not need, as [`Durable::prune`](crate::Durable::prune).
    fn prune(&mut self) -> Result<u64, PruneRefused>
        requires { Self.on_disk self.old }
        ensures seen { Self.seen self.old ≤ Self.seen self.new }
        ensures kept { Self.kept self.old self.new }
        ensures calls { Gains (Self.own self.old) (Self.own self.new)
            (λ earlier. IsPrune (Self.seen self.new) result) }
        ensures gone { OnOk result (Self.saw_pruned self.new) };
}

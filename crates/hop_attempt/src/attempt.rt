// What becomes of a delivery when a reply comes.
ghost use Rattle.std.specs.Prelude.{◌≡◌, ◌==◌, ◌&&◌, if◌then◌else◌};

/// What a sink does with its open take after a reply.
#[derive(Clone, Copy, Debug, PartialEq, Eq)]
pub enum Decision {
    /// The take is committed.
    Commit,
    /// The take is rolled back, so that its events are there again.
    Rollback,
}

/// A delivery to another agent, by the serial of its request.
#[derive(Drop)]
pub struct Attempt {
    pub serial: u32,
}

impl Attempt {
    /// Commit exactly where the reply has the serial of the request, and the status 0.
    pub fn on_reply(self, serial: u32, status: u8) -> Decision
        ensures { result
            ≡ (if (serial == self.serial) && (status == 0) then Decision.Commit else
            Decision.Rollback) }
    {
        if serial == self.serial && status == 0 {
            Decision::Commit
        } else {
            Decision::Rollback
        }
    }
}

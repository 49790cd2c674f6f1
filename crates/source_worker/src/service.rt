// What a worker holds while it serves.
use source_put::Intake;

/// Where the events go, and what is known of it.
#[derive(Drop)]
pub(crate) struct Service<F, B> {
    /// Takes the events.
    pub intake: Intake<F, B>,
    /// Its chain is the one that was planned. Else there was no memory for that, and no session begins.
    pub built: bool,
    /// A mend was refused, and is to be tried again.
    pub due: bool,
}

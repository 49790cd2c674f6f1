// A sink whose pass is at home.

/// What a sink has in place of a port once the pass of that is at home.
#[derive(Clone, Copy, Debug, PartialEq, Eq)]
pub struct AtHome {
    /// The number of the pass.
    pub number: u64,
}

// The open link of a sink.

/// A link on which each request was answered OK, with no byte after its reply.
#[derive(Drop)]
pub struct Open<L> {
    pub link: L,
    // that of the last request
    pub serial: u32,
}

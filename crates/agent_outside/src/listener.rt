// A listener of a source.

/// A listener, and the place of its source in the plan, from 0.
#[derive(Drop)]
pub struct SourceListener<L> {
    pub source: usize,
    pub listener: L,
}

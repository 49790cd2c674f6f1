// The rules of a listener's sessions, and what ended one.
use avro_ends::AvroEnd;
use netcat_source::{LineRules, SessionEnd};

/// What a source reads from its links, and by which rules.
#[derive(Clone, Copy, Debug, PartialEq, Eq)]
pub enum SessionRules {
    /// Lines: a netcat source.
    Lines(LineRules),
    /// Avro calls: an Avro source.
    Avro,
}

/// What ended a session, by what its source reads.
#[derive(Clone, Copy, Debug, PartialEq, Eq)]
pub enum LinkEnd {
    /// A session of lines.
    Lines(SessionEnd),
    /// A session of Avro calls.
    Avro(AvroEnd),
}

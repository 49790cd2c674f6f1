// This agent's protocol text.
ghost use Rattle.std.specs.Prelude.{◌≡◌};
ghost use Rattle.md5.specs.Md5.{md5};
ghost use Rattle.avro_hop.specs.Handshake.{own_text};

use md5::{Digest, Md5};

const PROTOCOL: &str =
    "{\"protocol\":\"AvroSourceProtocol\",\"namespace\":\"org.apache.flume.source.avro\",\"types\":[{\"type\":\"enum\",\"name\":\"Status\",\"symbols\":[\"OK\",\"FAILED\",\"UNKNOWN\"]},{\"type\":\"record\",\"name\":\"AvroFlumeEvent\",\"fields\":[{\"name\":\"headers\",\"type\":{\"type\":\"map\",\"values\":\"string\"}},{\"name\":\"body\",\"type\":\"bytes\"}]}],\"messages\":{\"append\":{\"request\":[{\"name\":\"event\",\"type\":\"AvroFlumeEvent\"}],\"response\":\"Status\"},\"appendBatch\":{\"request\":[{\"name\":\"events\",\"type\":{\"type\":\"array\",\"items\":\"AvroFlumeEvent\"}}],\"response\":\"Status\"}}}";

/// This agent's protocol text, in one line (Avro specification, "Protocol Declaration"). Its MD5 is
/// 30da54059df72d9584b867d5202e2069.
#[tactic(auto, unfolding(crate::specs::Handshake::own_text))]
pub fn protocol_text() -> &'static str
    ensures { result.now ≡ own_text }
{
    PROTOCOL
}

/// The hash of a protocol text (RFC 1321).
pub fn hash_of(text: &str) -> [u8; 16]
    ensures { result ≡ md5 text.now }
{
    let mut hasher = Md5::new();
    hasher.update(text.as_bytes());
    hasher.finalize()
}

// Writes whole pieces to a link, and to a sink of bytes.
ghost use Rattle.std.specs.Prelude.{◌≡◌, ◌≤◌, ◌<◌, ℕ, [], take, length, OnOk, OnErr};
ghost use Rattle.flume_host.specs.Causes.{HasCause};
ghost use Rattle.flume_host.specs.Told.{Tells};
ghost use Rattle.flume_host.specs.Links.{BreaksOff, Talks, Waited};
ghost use Rattle.flume_host.specs.Writes.{Fronts, WritesFront};
ghost use Rattle.std.specs.Io.KnownBytes.{Appends};

use crate::{Failed, Link, Sink};

/// Writes all of the bytes to a link, or a part of them until it fails.
pub fn write_all<L: Link>(link: &mut L, bytes: &[u8]) -> Result<(), Failed>
    ensures ok { OnOk result (Tells (L.told link.old) (L.told link.new) (Talks [] bytes.now 0)) }
    ensures part { OnErr result (BreaksOff bytes.now (L.told link.old) (L.told link.new)) }
    ensures waited { Tells (L.told link.old) (L.told link.new) (Waited 0) }
    ensures waits { L.waits link.old ≤ L.waits link.new }
    ensures cause { HasCause (L.faults link.old) (L.faults link.new) result }
{
    let mut at = 0;
    while at < bytes.len() {
        at += link.write(&bytes[at..])?;
    }
    Ok(())
}

/// Writes all of the bytes to a sink, or a front of them until it fails.
pub fn write_out<K: Sink>(sink: &mut K, bytes: &[u8]) -> Result<(), Failed>
    ensures ok { OnOk result (Appends (K.took sink.old) (K.took sink.new) bytes.now) }
    ensures part { OnErr result (WritesFront (K.took sink.old) (K.took sink.new) bytes.now) }
    ensures front { Fronts (K.took sink.old) (K.took sink.new) (K.faults sink.old)
        (K.faults sink.new) bytes.now }
    ensures cause { HasCause (K.faults sink.old) (K.faults sink.new) result }
{
    let mut at = 0;
    while at < bytes.len() {
        at += sink.write(&bytes[at..])?;
    }
    Ok(())
}

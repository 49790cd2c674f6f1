// Responses.
ghost use Rattle.std.specs.Prelude.{◌≡◌, ◌+◌, ◌++◌, length, OnOk, OnErr, pos};
ghost use Rattle.avro_hop.specs.Calls.{response, unknown_message, status_index};

use avro_binary::{write_bool, write_int, write_text};
use event_core::NoMemory;

/// What a call of events is answered.
#[derive(Clone, Copy, Debug, PartialEq, Eq)]
pub enum Status {
    Ok,
    Failed,
    Unknown,
}

fn index_of(status: Status) -> i32
    ensures { result ≡ pos (status_index status) }
{
    match status {
        Status::Ok => 0,
        Status::Failed => 1,
        Status::Unknown => 2,
    }
}

/// Adds the response of this status, three bytes: no metadata, no error, and the status. An `Err` adds nothing.
pub fn write_response(status: Status, into: &mut Vec<u8>) -> Result<(), NoMemory>
    ensures ok { OnOk result (into.new.items ≡ into.old.items ++ response status) }
    ensures length { OnOk result (length into.new.items ≡ length into.old.items + 3) }
    ensures err { OnErr result (into.new.items ≡ into.old.items) }
{
    let mut out = Vec::new(*into.allocator());
    add_response(status, &mut out)?;
    into.extend_from_slice(&out)?;
    Ok(())
}

/// Adds the response to a call: no metadata, no error, and the status (Avro specification, "Call Format").
pub fn add_response(status: Status, out: &mut Vec<u8>) -> Result<(), NoMemory>
    ensures { OnOk result (out.new.items ≡ out.old.items ++ response status) }
{
    out.push(0)?;
    write_bool(false, out)?;
    write_int(index_of(status), out)
}

/// The response to a message of unknown name.
pub fn add_unknown(out: &mut Vec<u8>) -> Result<(), NoMemory>
    ensures { OnOk result (out.new.items ≡ out.old.items ++ unknown_message) }
{
    out.push(0)?;
    write_bool(true, out)?;
    write_int(0, out)?;
    write_text("unknown message", out)?;
    Ok(())
}

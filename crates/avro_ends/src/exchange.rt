// A request and its reply.
ghost use Rattle.std.specs.Prelude.{◌≡◌, IfOk, IsErrOf};
ghost use Rattle.flume_host.specs.Causes.{Rose};
ghost use Rattle.avro_hop.specs.Calls.{status_index};
ghost use Rattle.avro_ends.specs.Deliveries.{Answered, Exchanged, Judges, request_pack};

use crate::hear::hear;
use crate::refused::DeliverRefused;
use avro_frame::{MAX_BYTES, begin_pack, end_pack};
use avro_hop::{Status, add_asking, read_reply};
use event_core::{Batch, NoMemory};
use flume_host::{Link, write_all};
use hop_attempt::{Attempt, Decision};
use std::alloc::Global;

/// The pack of a request, with no copy of its payload. One that fits no pack is out of memory.
pub fn request_of(alloc: Global, serial: u32, batch: &Batch) -> Result<Vec<u8>, NoMemory>
    ensures { IfOk result (λ bytes. bytes.items ≡ request_pack serial batch.now) }
{
    let mut bytes = Vec::new(alloc);
    begin_pack(serial, &mut bytes)?;
    add_asking(serial == 1, batch, &mut bytes)?;
    if bytes.len() as u64 > 12 + MAX_BYTES {
        return Err(NoMemory);
    }
    end_pack(&mut bytes);
    Ok(bytes)
}

fn number_of(status: Status) -> u8
    ensures { result ≡ status_index status }
{
    match status {
        Status::Ok => 0,
        Status::Failed => 1,
        Status::Unknown => 2,
    }
}

// What a reply of this serial and payload says of the request under the serial `want`.
fn judge(first: bool, want: u32, serial: u32, payload: &[u8]) -> Result<(), DeliverRefused>
    ensures { Judges first want serial payload.now result }
{
    if serial != want {
        return Err(DeliverRefused::WrongSerial { got: serial, want });
    }
    match read_reply(first, payload) {
        Ok(told) => {
            let status = number_of(told);
            match (Attempt { serial: want }).on_reply(serial, status) {
                Decision::Commit => Ok(()),
                Decision::Rollback => Err(DeliverRefused::Refused { status }),
            }
        }
        Err(at) => Err(DeliverRefused::BadReply { at }),
    }
}

// Reads the reply to a request of this serial. At Ok it tells whether the link gave bytes after it.
fn answer_to<L: Link>(
    alloc: Global,
    link: &mut L,
    first: bool,
    serial: u32,
) -> Result<bool, DeliverRefused>
    ensures answered { Answered first serial result (L.told link.old) (L.told link.new) }
    ensures fault { IsErrOf result DeliverRefused.LinkFault → Rose (L.faults link.old)
        (L.faults link.new) }
{
    let (message, more) = match hear(alloc, link) {
        Ok(heard) => heard,
        Err(e) => return Err(e),
    };
    match judge(first, serial, message.serial, message.payload.as_slice()) {
        Ok(()) => Ok(more),
        Err(e) => Err(e),
    }
}

/// Writes a request, and reads its reply.
pub fn exchange<L: Link>(
    alloc: Global,
    link: &mut L,
    request: &[u8],
    first: bool,
    serial: u32,
) -> Result<bool, DeliverRefused>
    ensures exchanged { Exchanged request.now first serial result (L.told link.old)
        (L.told link.new) }
    ensures fault { IsErrOf result DeliverRefused.LinkFault → Rose (L.faults link.old)
        (L.faults link.new) }
{
    match write_all(link, request) {
        Ok(()) => match answer_to(alloc, link, first, serial) {
            Ok(more) => Ok(more),
            Err(e) => Err(e),
        },
        Err(_) => Err(DeliverRefused::LinkFault),
    }
}

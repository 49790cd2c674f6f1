// The bytes of replies.
ghost use Rattle.std.specs.Prelude.{◌≡◌, ◌≤◌, ◌++◌, ◌∷◌, [], length, IfOk};
ghost use Rattle.avro_frame.specs.Pack.{pack, max_bytes};
ghost use Rattle.avro_hop.specs.Calls.{response};
ghost use Rattle.avro_ends.specs.Exchanges.{status_of};

use avro_frame::write_pack;
use avro_hop::{Status, write_response};
use event_core::NoMemory;
use source_put::Verdict;
use std::alloc::Global;

/// The pack of a payload.
pub fn packed(alloc: Global, serial: u32, payload: &[u8]) -> Result<Vec<u8>, NoMemory>
    requires { length payload.now ≤ max_bytes }
    ensures { IfOk result (λ bytes. bytes.items ≡ pack serial (payload.now ∷ [])) }
{
    let mut bytes = Vec::new(alloc);
    match write_pack(serial, payload, &mut bytes) {
        Ok(()) => Ok(bytes),
        Err(_) => Err(NoMemory),
    }
}

/// The pack of a call's reply.
pub fn answered(
    alloc: Global,
    serial: u32,
    front: &[u8],
    status: Status,
) -> Result<Vec<u8>, NoMemory>
    requires { length front.now ≤ 531 }
    ensures { IfOk result
        (λ bytes. bytes.items ≡ pack serial ((front.now ++ response status) ∷ [])) }
{
    let Ok(mut payload) = front.to_vec(alloc) else {
        return Err(NoMemory);
    };
    match write_response(status, &mut payload) {
        Ok(()) => packed(alloc, serial, payload.as_slice()),
        Err(_) => Err(NoMemory),
    }
}

/// What a verdict is answered; out of memory is not answered.
pub fn status_of(verdict: &Verdict) -> Option<Status>
    ensures { result ≡ status_of verdict.now }
{
    match verdict {
        Verdict::Taken => Some(Status::Ok),
        Verdict::Refused { .. } | Verdict::TooLarge { .. } => Some(Status::Failed),
        Verdict::NoMemory => None,
    }
}

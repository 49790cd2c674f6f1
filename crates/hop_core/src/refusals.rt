// Refusals of a channel's calls. A machine has no device and no files, so that besides its state only memory can be wanting.
ghost use Rattle.std.specs.Prelude.{◌≡◌};
ghost use Rattle.hop_core.specs.Refusals.{is_begin_refusal, is_put_refusal, is_take_refusal};

use channel_face::{BeginRefused, PutRefused, TakeRefused};

/// Whether the state refused the begin.
pub(crate) fn is_begin_refusal(refused: BeginRefused) -> bool
    ensures { result ≡ is_begin_refusal refused }
{
    match refused {
        BeginRefused::NoMemory => false,
        _ => true,
    }
}

/// Whether the state refused the put.
pub(crate) fn is_put_refusal(refused: PutRefused) -> bool
    ensures { result ≡ is_put_refusal refused }
{
    match refused {
        PutRefused::NoMemory => false,
        PutRefused::DiskFault => false,
        PutRefused::Spent { counter: _ } => false,
        _ => true,
    }
}

/// Whether the state refused the take.
pub(crate) fn is_take_refusal(refused: TakeRefused) -> bool
    ensures { result ≡ is_take_refusal refused }
{
    match refused {
        TakeRefused::Stale => true,
        TakeRefused::Broken => true,
        TakeRefused::TxnFull { count: _ } => true,
        _ => false,
    }
}

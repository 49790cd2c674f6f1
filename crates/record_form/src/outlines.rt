// The outline of the record that bytes spell: it takes no memory, and the event's headers and body are not read.
ghost use Rattle.record_form.specs.Grammar.{IsWhole, read_of};
ghost use Rattle.record_form.specs.Outlines.{IsOutlined};

use crate::fields::{u32_in, u64_in};
use crate::record::{COMMIT_PUT, COMMIT_TAKE, EVENT_AT, Outline, PUT, ROLLBACK, SIZE_AT, TAKE};

/// The outline of the record that the bytes begin with, and how many bytes the record has.
pub fn read_outline(bytes: &[u8]) -> (Outline, usize)
    requires { IsWhole (read_of bytes.now) }
    ensures { IsOutlined bytes.now result.0 result.1 }
{
    match bytes[0] {
        PUT => {
            let length = u32_in(bytes, SIZE_AT);
            let outline = Outline::Put {
                txn: u64_in(bytes, 1),
                length,
            };
            (outline, EVENT_AT + length as usize)
        }
        TAKE => {
            let outline = Outline::Take {
                txn: u64_in(bytes, 1),
                number: u64_in(bytes, 9),
            };
            (outline, 17)
        }
        ROLLBACK => {
            let outline = Outline::Rollback {
                txn: u64_in(bytes, 1),
            };
            (outline, 9)
        }
        COMMIT_PUT => {
            let outline = Outline::CommitPut {
                txn: u64_in(bytes, 1),
                first: u64_in(bytes, 9),
                count: u32_in(bytes, 17),
            };
            (outline, 21)
        }
        COMMIT_TAKE => {
            let outline = Outline::CommitTake {
                txn: u64_in(bytes, 1),
                count: u32_in(bytes, 9),
            };
            (outline, 13)
        }
        _ => {
            let outline = Outline::End {
                count: u32_in(bytes, 1),
            };
            (outline, 5)
        }
    }
}

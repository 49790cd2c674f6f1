// Reading what stands after an open commit byte.
ghost use Rattle.std.specs.Prelude.{◌≡◌, ◌≤◌, ◌+◌, length, take, drop};
ghost use Rattle.record_form.specs.Grammar.{u32_of};
ghost use Rattle.channel_log.specs.Scan.{IsScan};

use byteorder::{BigEndian, ByteOrder};
use record_form::{Read, read_record};

// The kind byte of END.
const END: u8 = 6;

/// What stands after an open commit byte.
#[derive(Clone, Copy, Debug, PartialEq, Eq)]
pub enum Scan {
    /// A frame of so many records, without its END, and so many bytes.
    Frame { count: u32, length: usize },
    /// No whole frame, though more bytes may make it one.
    Part,
    /// No frame, whatever follows.
    Bad,
}

fn u32_in(bytes: &[u8], at: usize) -> u32
    requires { at + 4 ≤ length bytes.now }
    ensures { result ≡ u32_of (take 4 (drop at bytes.now)) }
{
    BigEndian::read_u32(&bytes[at..at + 4])
}

/// What the bytes, which stand after an open commit byte, begin with. They are read record by record up to the first
/// END, whose count must be that of the records before it.
pub fn scan_frame(bytes: &[u8]) -> Scan
    ensures { IsScan result bytes.now }
{
    let mut at = 0;
    let mut count: usize = 0;
    loop {
        match read_record(&bytes[at..]) {
            Read::Whole { kind, length } => {
                let next = at + length as usize;
                if kind == END {
                    let told = u32_in(bytes, at + 1);
                    if told as usize == count {
                        return Scan::Frame {
                            count: told,
                            length: next,
                        };
                    }
                    return Scan::Bad;
                }
                at = next;
                count += 1;
            }
            Read::Part => return Scan::Part,
            Read::Bad { .. } => return Scan::Bad,
        }
    }
}

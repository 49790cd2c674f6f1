// Booleans, bytes, text and fixed.
ghost use Rattle.std.specs.Prelude.{◌≤◌, length};
ghost use Rattle.avro_binary.specs.Value.{IsBoolean, BooleanFault, IsBytes, BytesFault, IsText, TextFault, IsFixed, FixedFault};
ghost use Rattle.avro_binary.specs.Reading.{Reads, ReadsContent};

use crate::number::{Signed, signed_at};
use crate::refused::ValueRefused;
use std::str;

/// Reads a boolean: one byte, 0 or 1.
pub fn read_bool(bytes: &[u8], at: usize) -> Result<(bool, usize), ValueRefused>
    requires { at ≤ length bytes.now }
    ensures { Reads (λ b. b) IsBoolean BooleanFault bytes.now at result }
{
    if at == bytes.len() {
        return Err(ValueRefused::Short {
            at: at as u64,
            need: at as u64 + 1,
        });
    }
    let byte = bytes[at];
    if byte > 1 {
        return Err(ValueRefused::Bad { at: at as u64 });
    }
    Ok((byte == 1, at + 1))
}

/// Reads bytes after their length, and gives where they begin and end.
pub fn read_bytes(bytes: &[u8], at: usize) -> Result<(usize, usize), ValueRefused>
    requires { at ≤ length bytes.now }
    ensures { ReadsContent IsBytes BytesFault bytes.now at result }
{
    let (len, start) = signed_at(bytes, at)?;
    match len {
        Signed::Negative(_) => Err(ValueRefused::Bad { at: at as u64 }),
        Signed::Natural(len) => {
            if len > (bytes.len() - start) as u64 {
                return Err(ValueRefused::Short {
                    at: start as u64,
                    need: start as u64 + len,
                });
            }
            Ok((start, start + len as usize))
        }
    }
}

/// Reads a text after its length, and gives where it begins and ends.
pub fn read_text(bytes: &[u8], at: usize) -> Result<(usize, usize), ValueRefused>
    requires { at ≤ length bytes.now }
    ensures { ReadsContent IsText TextFault bytes.now at result }
{
    let (start, end) = read_bytes(bytes, at)?;
    match str::from_utf8(&bytes[start..end]) {
        Ok(_) => Ok((start, end)),
        Err(_) => Err(ValueRefused::Bad { at: start as u64 }),
    }
}

/// Reads the 16 bytes of a hash, and gives where they begin and end.
pub fn read_fixed(bytes: &[u8], at: usize) -> Result<(usize, usize), ValueRefused>
    requires { at ≤ length bytes.now }
    ensures { ReadsContent IsFixed FixedFault bytes.now at result }
{
    if bytes.len() - at < 16 {
        return Err(ValueRefused::Short {
            at: at as u64,
            need: at as u64 + 16,
        });
    }
    Ok((at, at + 16))
}

/// The text itself.
pub fn text_at(bytes: &[u8], at: usize) -> Result<(&str, usize), ValueRefused>
    requires { at ≤ length bytes.now }
    ensures { Reads (λ s. s.now) IsText TextFault bytes.now at result }
{
    let (start, end) = read_bytes(bytes, at)?;
    match str::from_utf8(&bytes[start..end]) {
        Ok(text) => Ok((text, end)),
        Err(_) => Err(ValueRefused::Bad { at: start as u64 }),
    }
}

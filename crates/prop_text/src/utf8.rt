//! The text that bytes are, or the place of the first byte with which they are none.

ghost use Rattle.std.specs.Prelude.{◌≡◌};
ghost use Rattle.std.specs.Int.{is_in_range};
ghost use Rattle.prop_text.specs.Reads.{IsTextOf};

use crate::fault::PropRefused;

/// A byte that begins a character of several bytes.
fn is_lead(byte: u8) -> bool
    ensures { result ≡ is_in_range 0xC2 0xF4 byte }
{
    0xC2 <= byte && byte <= 0xF4
}

/// The text that the bytes are.
pub fn text_of(bytes: &[u8]) -> Result<&str, PropRefused>
    ensures { IsTextOf bytes.now result }
{
    match str::from_utf8(bytes) {
        Ok(text) => Ok(text),
        Err(error) => {
            let valid = error.valid_up_to();
            let at = match error.error_len() {
                None => bytes.len(),
                // These bytes begin a character, and the one after them does not go on with it.
                Some(begun) if is_lead(bytes[valid]) => valid + begun,
                Some(_) => valid,
            };
            Err(PropRefused::NotUtf8 { at })
        }
    }
}

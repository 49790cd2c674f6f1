// Blocks of items.
ghost use Rattle.std.specs.Prelude.{◌≡◌, ◌≤◌, ◌<◌, length};
ghost use Rattle.avro_binary.specs.Items.{IsCount, CountFault, IsMeta, MetaFault};
ghost use Rattle.avro_binary.specs.Reading.{Reads, ReadsOver};
ghost use Rattle.avro_binary.specs.Blocks.{OpensBlock};

use crate::number::{Signed, signed_at};
use crate::refused::ValueRefused;
use crate::value::{read_bytes, read_text};

// The count of a block, and after a negative one the size.
fn count_at(bytes: &[u8], at: usize) -> Result<(u64, usize), ValueRefused>
    requires { at ≤ length bytes.now }
    ensures { Reads (λ n. n) IsCount CountFault bytes.now at result }
{
    let (count, behind) = signed_at(bytes, at)?;
    match count {
        Signed::Natural(count) => Ok((count, behind)),
        Signed::Negative(below) => {
            let (_, end) = signed_at(bytes, behind)?;
            Ok((below + 1, end))
        }
    }
}

/// Where the next item is, and how many of its block are left with it: where none is left, a count is read. There are
/// no more items where it is 0.
pub fn next_item(bytes: &[u8], at: usize, left: u64) -> Result<(u64, usize), ValueRefused>
    requires { at ≤ length bytes.now }
    ensures { OpensBlock left bytes.now at result }
{
    if left > 0 {
        return Ok((left, at));
    }
    count_at(bytes, at)
}

/// Reads over a map of bytes.
pub fn read_meta(bytes: &[u8], at: usize) -> Result<usize, ValueRefused>
    requires { at ≤ length bytes.now }
    ensures { ReadsOver IsMeta MetaFault bytes.now at result }
{
    let mut left = 0;
    let mut place = at;
    'entries: loop {
        let (todo, item) = next_item(bytes, place, left)?;
        if todo == 0 {
            return Ok(item);
        }
        let (_, key_end) = read_text(bytes, item)?;
        let (_, value_end) = read_bytes(bytes, key_end)?;
        place = value_end;
        left = todo - 1;
    }
}

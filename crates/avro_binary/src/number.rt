// Whole numbers.
ghost use Rattle.std.specs.Prelude.{◌≡◌, ◌+◌, ◌≤◌, ◌<◌, ◌^◌, length};
ghost use Rattle.avro_binary.specs.Number.{IsInt, IsLong, IsNumber, zigzag, IntFault, LongFault, NumberFault};
ghost use Rattle.avro_binary.specs.Reading.{Reads};
ghost use Rattle.avro_binary.specs.Groups.{GroupsAre};
ghost use Rattle.avro_binary.specs.Sign.{signed_value};

use crate::refused::ValueRefused;

/// What groups stand at the front of the bytes.
#[derive(Clone, Copy)]
pub enum Groups {
    Whole { number: u64, used: usize },
    // the bytes end before the last group
    Cut,
    // the last group that may stand there goes on
    TooLong,
    // the number is 2^64 or more
    TooWide,
}

// The groups at the front, at most so many.
fn read_groups(bytes: &[u8], most: u32) -> Groups
    requires { 0 < most }
    ensures { GroupsAre most bytes.now result }
{
    let Some((first, rest)) = bytes.split_first() else {
        return Groups::Cut;
    };
    let byte = *first;
    if byte < 128 {
        return Groups::Whole {
            number: u64::from(byte),
            used: 1,
        };
    }
    if most == 1 {
        return Groups::TooLong;
    }
    match read_groups(rest, most - 1) {
        Groups::Whole { number: high, used } => {
            if high >= 1 << 57 {
                return Groups::TooWide;
            }
            Groups::Whole {
                number: u64::from(byte) - 128 + 128 * high,
                used: used + 1,
            }
        }
        found => found,
    }
}

// The number at an offset, before its sign is taken out.
fn number_at(bytes: &[u8], at: usize, most: u32, max: u64) -> Result<(u64, usize), ValueRefused>
    requires at { at ≤ length bytes.now }
    requires most { 0 < most }
    ensures { Reads (λ n. n) (IsNumber most max) (NumberFault most max) bytes.now at result }
{
    match read_groups(&bytes[at..], most) {
        Groups::Whole { number, used } => {
            if number > max {
                return Err(ValueRefused::Bad { at: at as u64 });
            }
            Ok((number, at + used))
        }
        Groups::Cut => Err(ValueRefused::Short {
            at: at as u64,
            need: bytes.len() as u64 + 1,
        }),
        _ => Err(ValueRefused::Bad { at: at as u64 }),
    }
}

// The number of both signs.
fn with_sign(n: u64) -> i64
    ensures { zigzag result ≡ n }
{
    let half = (n / 2) as i64;
    if n % 2 == 0 { half } else { -1 - half }
}

/// A long by its sign.
#[derive(Clone, Copy)]
pub enum Signed {
    Natural(u64),
    // so far below -1
    Negative(u64),
}

/// A long, by its sign.
pub fn signed_at(bytes: &[u8], at: usize) -> Result<(Signed, usize), ValueRefused>
    requires { at ≤ length bytes.now }
    ensures { Reads signed_value IsLong LongFault bytes.now at result }
{
    let (n, end) = number_at(bytes, at, 10, u64::MAX)?;
    if n % 2 == 0 {
        Ok((Signed::Natural(n / 2), end))
    } else {
        Ok((Signed::Negative(n / 2), end))
    }
}

/// Reads an int: at most five groups.
pub fn read_int(bytes: &[u8], at: usize) -> Result<(i32, usize), ValueRefused>
    requires { at ≤ length bytes.now }
    ensures { Reads (λ z. z) IsInt IntFault bytes.now at result }
{
    let (n, end) = number_at(bytes, at, 5, u64::from(u32::MAX))?;
    Ok((with_sign(n) as i32, end))
}

/// Reads a long: at most ten groups.
pub fn read_long(bytes: &[u8], at: usize) -> Result<(i64, usize), ValueRefused>
    requires { at ≤ length bytes.now }
    ensures { Reads (λ z. z) IsLong LongFault bytes.now at result }
{
    let (n, end) = number_at(bytes, at, 10, u64::MAX)?;
    Ok((with_sign(n), end))
}

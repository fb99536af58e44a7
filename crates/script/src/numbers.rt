//! Numbers, decimal or hexadecimal, and the range of each.

ghost use Rattle.std.specs.Prelude.{◌≡◌, ◌≤◌, false};
ghost use Rattle.std.specs.Range.{range_inclusive_start, range_inclusive_end, range_inclusive_exhausted};
ghost use Rattle.script.specs.Numbers.{numeral_of, number_of, saturated, least_of, most_of, number_in};

use crate::mistake::{Flaw, Mistake, Place};
use std::ops::RangeInclusive;

/// The number that the digits write; one past `u32` stops there. (`from_str_radix` takes a sign, and at a number
/// past its type it does not look at the bytes that follow; a `try_fold` would say the same.)
fn numeral(base: u32, digits: &[u8]) -> Option<u32>
    requires base_low { 2 ≤ base }
    requires base_high { base ≤ 16 }
    ensures { result ≡ saturated (numeral_of base digits.now) }
{
    if digits.is_empty() {
        return None;
    }
    let mut number = 0u32;
    for byte in digits {
        let digit = char::from(*byte).to_digit(base)?;
        number = number.saturating_mul(base).saturating_add(digit);
    }
    Some(number)
}

fn number(bytes: &[u8]) -> Option<u32>
    ensures { result ≡ saturated (number_of bytes.now) }
{
    match bytes {
        [b'0', b'x', digits @ ..] => numeral(16, digits),
        _ => numeral(10, bytes),
    }
}

fn range(place: Place) -> RangeInclusive<u16>
    ensures start { range_inclusive_start result ≡ least_of place }
    ensures end { range_inclusive_end result ≡ most_of place }
    ensures whole { range_inclusive_exhausted result ≡ false }
{
    match place {
        Place::Signal => 0..=255,
        Place::Reading | Place::Offset | Place::Value => 0..=65535,
        Place::Times => 1..=64,
        Place::Length => 0..=64,
    }
}

/// The number that the bytes write, if it is in the range of its place.
pub(crate) fn number_in(place: Place, bytes: &[u8]) -> Result<u16, Mistake>
    ensures { result ≡ number_in place bytes.now }
{
    let number = number(bytes).ok_or(Mistake::Number(place, Flaw::NoNumber))?;
    match u16::try_from(number) {
        Ok(number) if range(place).contains(&number) => Ok(number),
        _ => Err(Mistake::Number(place, Flaw::OutOfRange)),
    }
}

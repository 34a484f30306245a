ghost use Rattle.std.specs.Prelude.{◌≡◌, ◌+◌, ◌*◌, ◌^◌, ◌<◌, ◌≤◌, ◌++◌, IsTrue, length, if◌then◌else◌};
ghost use Rattle.std.specs.Str.Parse.{digits_value};
ghost use Rattle.pit_num.specs.Decimal.{are_digits};
ghost use Rattle.pit_num.specs.Inside.Decimal.{below_limit};
ghost use Rattle.pit_num.specs.Rounding.{nearest};

use super::digits::digits_value;
use super::{DIGITS_MAX, EXPONENT_DIGITS_MAX};
use crate::limits::MICRO_LIMIT;

/// The limit of magnitudes, in the width of a significand.
const LIMIT: u128 = MICRO_LIMIT as u128;

/// The magnitude of a decimal's parts in millionths, where it is below the limit.
pub fn magnitude(whole: &[u8], fraction: &[u8], lowers: bool, exponent: &[u8]) -> Option<u64>
    requires whole { IsTrue (are_digits whole.now) }
    requires fraction { IsTrue (are_digits fraction.now) }
    requires exponent { IsTrue (are_digits exponent.now) }
    requires short { length whole.now + length fraction.now ≤ DIGITS_MAX }
    requires short_exponent { length exponent.now ≤ EXPONENT_DIGITS_MAX }
    ensures { let power = digits_value 10 exponent.now in
        result ≡ below_limit (nearest
        (digits_value 10 (whole.now ++ fraction.now) * 10 ^ (if lowers then 0 else power) * 10 ^ 6)
        (10 ^ (length fraction.now + (if lowers then power else 0)))) }
{
    let significand = significand_value(whole, fraction);
    let power = digits_value(exponent) as u32;
    let places = fraction.len() as u32;
    if lowers {
        scaled(significand, 0, places + power)
    } else {
        scaled(significand, power, places)
    }
}

/// The number that the digits of both write, one list behind the other.
fn significand_value(whole: &[u8], fraction: &[u8]) -> u128
    requires whole { IsTrue (are_digits whole.now) }
    requires fraction { IsTrue (are_digits fraction.now) }
    requires short { length whole.now + length fraction.now ≤ DIGITS_MAX }
    ensures value { result ≡ digits_value 10 (whole.now ++ fraction.now) }
    ensures bound { result < 10 ^ DIGITS_MAX }
{
    digits_value(whole) * 10u128.pow(fraction.len() as u32) + digits_value(fraction)
}

/// `n * 10^raises / 10^lowers` in millionths, where that is below the limit.
fn scaled(n: u128, raises: u32, lowers: u32) -> Option<u64>
    requires small { n < 10 ^ DIGITS_MAX }
    requires raises { raises < 10 ^ EXPONENT_DIGITS_MAX }
    requires lowers { lowers < DIGITS_MAX + 10 ^ EXPONENT_DIGITS_MAX }
    ensures { result ≡ below_limit (nearest (n * 10 ^ raises * 10 ^ 6) (10 ^ lowers)) }
{
    if lowers <= raises + 6 {
        raised(n, raises + 6 - lowers)
    } else {
        lowered(n, lowers - (raises + 6))
    }
}

/// The number with so many zeros behind it, where that is below the limit.
fn raised(n: u128, zeros: u32) -> Option<u64>
    requires { n < 10 ^ DIGITS_MAX }
    ensures { result ≡ below_limit (n * 10 ^ zeros) }
{
    let mut value = n;
    for _ in 0..zeros {
        if value >= LIMIT {
            return None;
        }
        value *= 10;
    }
    if value < LIMIT {
        Some(value as u64)
    } else {
        None
    }
}

/// The number over ten to `places`, a half upwards, where that is below the limit.
fn lowered(n: u128, places: u32) -> Option<u64>
    requires { n < 10 ^ DIGITS_MAX }
    ensures { result ≡ below_limit (nearest n (10 ^ places)) }
{
    if places as usize > DIGITS_MAX {
        return Some(0);
    }
    let unit = 10u128.pow(places);
    let value = (2 * n + unit) / (2 * unit);
    if value < LIMIT {
        Some(value as u64)
    } else {
        None
    }
}

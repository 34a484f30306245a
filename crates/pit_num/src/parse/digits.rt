ghost use Rattle.std.specs.Prelude.{◌≡◌, ◌*◌, ◌^◌, ◌<◌, ◌≤◌, IsTrue, length, take};
ghost use Rattle.std.specs.Str.Parse.{digits_value};
ghost use Rattle.std.specs.List.{prefix_len};
ghost use Rattle.std.specs.Char.{is_ascii_digit};
ghost use Rattle.pit_num.specs.Decimal.{are_digits};

use super::DIGITS_MAX;
use super::eight::{LANES, leading_in_lanes};

/// The greatest length of a text whose digits always write a number below 2^64.
pub const SHORT_MAX: usize = 19;

/// Whether each byte is a digit.
pub fn are_digits(text: &[u8]) -> bool
    ensures { result ≡ are_digits text.now }
{
    text.iter().all(|b| b.is_ascii_digit())
}

/// The number that the digits at the front of a short text write, and how many they are.
#[inline]
pub fn leading_digits(text: &[u8]) -> (u64, usize)
    requires { length text.now ≤ SHORT_MAX }
    ensures count { result.1 ≡ prefix_len is_ascii_digit text.now }
    ensures value { result.0 ≡ digits_value 10 (take result.1 text.now) }
    ensures bound { result.0 < 10 ^ result.1 }
{
    if text.len() < LANES {
        return leading_digits_from(text, 0, 0);
    }
    let (n, digits) = leading_in_lanes(text);
    if digits < LANES {
        return (n, digits);
    }
    leading_digits_from(text, n, LANES)
}

/// The same, where so many digits at the front are known to write this number.
fn leading_digits_from(text: &[u8], front: u64, digits: usize) -> (u64, usize)
    requires short { length text.now ≤ SHORT_MAX }
    requires digits { digits ≤ prefix_len is_ascii_digit text.now }
    requires front { front ≡ digits_value 10 (take digits text.now) }
    ensures count { result.1 ≡ prefix_len is_ascii_digit text.now }
    ensures value { result.0 ≡ digits_value 10 (take result.1 text.now) }
    ensures bound { result.0 < 10 ^ result.1 }
{
    let mut n = front;
    for i in digits..text.len() {
        let b = text[i];
        if !b.is_ascii_digit() {
            return (n, i);
        }
        n = n * 10 + u64::from(b - b'0');
    }
    (n, text.len())
}

/// The number that digits write.
pub fn digits_value(digits: &[u8]) -> u128
    requires digits { IsTrue (are_digits digits.now) }
    requires short { length digits.now ≤ DIGITS_MAX }
    ensures value { result ≡ digits_value 10 digits.now }
    ensures bound { result < 10 ^ length digits.now }
{
    if digits.len() <= SHORT_MAX {
        return u128::from(leading_digits(digits).0);
    }
    long_digits_value(digits)
}

fn long_digits_value(digits: &[u8]) -> u128
    requires digits { IsTrue (are_digits digits.now) }
    requires short { length digits.now ≤ DIGITS_MAX }
    ensures value { result ≡ digits_value 10 digits.now }
    ensures bound { result < 10 ^ length digits.now }
{
    let mut n = 0u128;
    for b in digits {
        n = n * 10 + u128::from(*b - b'0');
    }
    n
}

ghost use Rattle.std.specs.Prelude.{◌≡◌, ◌+◌, ◌-◌, ◌*◌, ◌^◌, ◌<◌, ◌≤◌, IfSome};
ghost use Rattle.pit_num.specs.Decimal.{micro_of, with_sign};
ghost use Rattle.pit_num.specs.Front.{IsMicroThen};
ghost use Rattle.pit_num.specs.Inside.Decimal.{IsFractionThen};

use super::digits::{SHORT_MAX, are_digits, leading_digits};
use super::parts::{after_front_point, split_exponent, split_minus, split_point, split_sign};
use super::scale::magnitude;
use super::{DIGITS_MAX, EXPONENT_DIGITS_MAX, NumError};
use crate::limits::MICRO_LIMIT;

/// The number that a decimal text stands for in millionths, a half away from zero. Takes no memory.
pub fn parse_micro(text: &str) -> Result<i64, NumError>
    ensures { result ≡ micro_of text.now }
{
    micro_from_bytes(text.as_bytes())
}

/// The same for a text that is held as bytes, which needn't be UTF-8.
#[inline]
pub fn micro_from_bytes(text: &[u8]) -> Result<i64, NumError>
    ensures { result ≡ micro_of text.now }
{
    let (negative, unsigned) = split_sign(text);
    if unsigned.len() > SHORT_MAX {
        return general_micro(text);
    }
    let (whole, digits) = leading_digits(unsigned);
    let behind = after_front_point(&unsigned[digits..]);
    let (fraction, places) = leading_digits(behind);
    if places < behind.len() || digits + places == 0 || digits > PLAIN_DIGITS || places > PLACES {
        return general_micro(text);
    }
    let magnitude = plain_magnitude(whole, fraction, places);
    Ok(with_sign(negative, magnitude))
}

/// The decimal that a text begins with, without a plus sign or an exponent, of at most 12 digits before its point and 6
/// behind it, where this byte follows, and what follows that byte. Takes no memory.
#[inline]
pub fn micro_before(text: &[u8], end: u8) -> Option<(i64, &[u8])>
    ensures { IfSome result (λ read. IsMicroThen text.now read.0 end read.1.now) }
{
    let (negative, unsigned) = split_minus(text);
    let (whole, digits) = leading_digits(&unsigned[..unsigned.len().min(PLAIN_DIGITS)]);
    let (fraction, places, behind) = leading_fraction(&unsigned[digits..]);
    if digits + places == 0 {
        return None;
    }
    let magnitude = plain_magnitude(whole, fraction, places);
    match behind {
        [b, rest @ ..] if *b == end => Some((with_sign(negative, magnitude), rest)),
        _ => None,
    }
}

/// The digits behind a point that a text begins with, at most `PLACES`, as a number; how many they are; and what follows.
/// Where no point stands there, none.
#[inline]
fn leading_fraction(text: &[u8]) -> (u64, usize, &[u8])
    ensures { IsFractionThen text.now result.0 result.1 result.2.now }
{
    match text {
        [b'.', behind @ ..] => {
            let (fraction, places) = leading_digits(&behind[..behind.len().min(PLACES)]);
            (fraction, places, &behind[places..])
        }
        _ => (0, 0, text),
    }
}

/// The decimal places of a number of millionths.
const PLACES: usize = 6;

/// A number of so many digits before its point and `PLACES` behind it is below the limit as it stands.
const PLAIN_DIGITS: usize = 12;

/// A whole number and a fraction of so many decimal places, in millionths.
#[inline]
fn plain_magnitude(whole: u64, fraction: u64, places: usize) -> u64
    requires whole { whole < 10 ^ PLAIN_DIGITS }
    requires fraction { fraction < 10 ^ places }
    requires places { places ≤ PLACES }
    ensures value { result ≡ whole * 10 ^ 6 + fraction * 10 ^ (6 - places) }
    ensures bound { result < MICRO_LIMIT }
{
    whole * 1_000_000 + fraction * place_value(places)
}

/// The value of the last of so many decimal places, in millionths.
#[inline]
fn place_value(places: usize) -> u64
    requires { places ≤ PLACES }
    ensures { result ≡ 10 ^ (6 - places) }
{
    match places {
        0 => 1_000_000,
        1 => 100_000,
        2 => 10_000,
        3 => 1000,
        4 => 100,
        5 => 10,
        _ => 1,
    }
}

/// A number below the limit, negated where it is to be negative.
#[inline]
fn with_sign(negative: bool, magnitude: u64) -> i64
    requires { magnitude < MICRO_LIMIT }
    ensures { result ≡ with_sign negative magnitude }
{
    let value = magnitude as i64;
    if negative { -value } else { value }
}

/// The same of a text of any length, with an exponent or more places.
#[tactic(auto, unfolding(crate::specs::Decimal::micro_of))]
fn general_micro(text: &[u8]) -> Result<i64, NumError>
    ensures { result ≡ micro_of text.now }
{
    let (negative, unsigned) = split_sign(text);
    let (mantissa, tail) = split_exponent(unsigned);
    let (whole, fraction) = split_point(mantissa);
    let (lowers, exponent) = split_sign(tail.unwrap_or(&[]));
    let digits = whole.len() + fraction.len();
    if !are_digits(whole) || !are_digits(fraction) || digits == 0 {
        return Err(NumError::Malformed);
    }
    if tail.is_some() && (!are_digits(exponent) || exponent.is_empty()) {
        return Err(NumError::Malformed);
    }
    if digits > DIGITS_MAX || exponent.len() > EXPONENT_DIGITS_MAX {
        return Err(NumError::TooLong);
    }
    match magnitude(whole, fraction, lowers, exponent) {
        Some(n) => Ok(with_sign(negative, n)),
        None => Err(NumError::TooLarge),
    }
}

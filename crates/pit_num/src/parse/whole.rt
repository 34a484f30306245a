ghost use Rattle.std.specs.Prelude.{◌≡◌, IfSome};
ghost use Rattle.pit_num.specs.Decimal.{whole_of};
ghost use Rattle.pit_num.specs.Front.{IsWholeThen};

use super::digits::{SHORT_MAX, are_digits, digits_value, leading_digits};
use super::{DIGITS_MAX, NumError};

/// The number that a text of digits writes. Takes no memory.
pub fn parse_whole(text: &str) -> Result<u32, NumError>
    ensures { result ≡ whole_of text.now }
{
    whole_from_bytes(text.as_bytes())
}

/// The same for a text that is held as bytes, which needn't be UTF-8.
#[inline]
#[tactic(auto, unfolding(crate::specs::Decimal::whole_of), using(crate::proofs::Leading::leading))]
pub fn whole_from_bytes(text: &[u8]) -> Result<u32, NumError>
    ensures { result ≡ whole_of text.now }
{
    if text.len() > SHORT_MAX {
        return long_whole(text);
    }
    let (n, digits) = leading_digits(text);
    if digits < text.len() || digits == 0 {
        return Err(NumError::Malformed);
    }
    match u32::try_from(n) {
        Ok(n) => Ok(n),
        Err(_) => Err(NumError::TooLarge),
    }
}

/// The same, of any length.
#[tactic(auto, unfolding(crate::specs::Decimal::whole_of))]
fn long_whole(digits: &[u8]) -> Result<u32, NumError>
    ensures { result ≡ whole_of digits.now }
{
    if !are_digits(digits) || digits.is_empty() {
        return Err(NumError::Malformed);
    }
    if digits.len() > DIGITS_MAX {
        return Err(NumError::TooLong);
    }
    match u32::try_from(digits_value(digits)) {
        Ok(n) => Ok(n),
        Err(_) => Err(NumError::TooLarge),
    }
}

/// So many digits write a number below 2^32.
const U32_DIGITS: usize = 9;

/// The number of at most 9 digits that a text begins with, where this byte follows them, and what follows that byte. Takes
/// no memory.
#[inline]
pub fn whole_before(text: &[u8], end: u8) -> Option<(u32, &[u8])>
    ensures { IfSome result (λ read. IsWholeThen text.now read.0 end read.1.now) }
{
    let (n, digits) = leading_digits(&text[..text.len().min(U32_DIGITS)]);
    if digits == 0 {
        return None;
    }
    match &text[digits..] {
        [b, rest @ ..] if *b == end => Some((n as u32, rest)),
        _ => None,
    }
}

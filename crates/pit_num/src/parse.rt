mod digits;
mod eight;
mod micro;
mod parts;
mod scale;
mod whole;

pub use micro::{micro_before, micro_from_bytes, parse_micro};
use std::fmt;
pub use whole::{parse_whole, whole_before, whole_from_bytes};

/// Why a text is no number. The first that applies, in this order.
#[derive(Clone, Copy, Debug, PartialEq, Eq)]
pub enum NumError {
    /// Another form.
    Malformed,
    /// More digits than `DIGITS_MAX`, or in an exponent than `EXPONENT_DIGITS_MAX`; leading zeros count.
    TooLong,
    /// A whole number of 2^32 or more; a decimal whose rounded magnitude is `MICRO_LIMIT` millionths or more.
    TooLarge,
}

impl fmt::Display for NumError {
    fn fmt<W: fmt::Write>(&self, f: &mut fmt::Formatter<W>) -> fmt::Result {
        f.write_str(match self {
            NumError::Malformed => "bad number",
            NumError::TooLong => "number too long",
            NumError::TooLarge => "number too large",
        })
    }
}

/// The greatest number of digits of a whole number, or of a decimal before and after its point together.
pub const DIGITS_MAX: usize = 38;

/// The greatest number of digits of an exponent.
pub const EXPONENT_DIGITS_MAX: usize = 3;

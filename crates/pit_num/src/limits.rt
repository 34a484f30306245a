//! The limits of numbers.
ghost use Rattle.std.specs.Prelude.{◌≡◌};
ghost use Rattle.pit_num.specs.declared.parse.TheConstants.{DIGITS_MAX, EXPONENT_DIGITS_MAX};

/// The greatest number of periods. There is at least one; they are numbered from 0.
pub const PERIODS_MAX: u32 = 1000;

/// The greatest discount rate, in millionths.
pub const RATE_MAX: u32 = 1_000_000_000;

/// What the magnitude of a decimal stays below, in millionths.
pub const MICRO_LIMIT: u64 = 1_000_000_000_000_000_000;

/// A law of limits, in numbers: at most 1,000 periods, a rate of at most 1,000, decimals below 10^12, and how many digits are read.
pub fn number_limits()
    ensures periods { PERIODS_MAX ≡ 1000 }
    ensures rate { RATE_MAX ≡ 1000000000 }
    ensures decimal { MICRO_LIMIT ≡ 1000000000000000000 }
    ensures digits { DIGITS_MAX ≡ 38 }
    ensures exponent { EXPONENT_DIGITS_MAX ≡ 3 }
{}

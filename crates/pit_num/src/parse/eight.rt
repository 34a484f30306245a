ghost use Rattle.std.specs.Prelude.{◌≡◌, ℕ, ◌≤◌, List, length, map, take, bit_xor};
ghost use Rattle.std.specs.Simd.Lanes.{number_l};
ghost use Rattle.std.specs.Int.Digits.{AllBelowBase, number_from_digits};
ghost use Rattle.std.specs.Str.Parse.{digits_value};
ghost use Rattle.std.specs.List.{prefix_len};
ghost use Rattle.std.specs.Char.{is_ascii_digit};

use std::simd::prelude::*;

/// How many bytes are looked at in one go.
pub const LANES: usize = 8;

/// The number that the digits in front of the first eight bytes write, and how many they are.
#[inline]
pub fn leading_in_lanes(text: &[u8]) -> (u64, usize)
    requires { LANES ≤ length text.now }
    ensures count { result.1 ≡ prefix_len is_ascii_digit (take LANES text.now) }
    ensures value { result.0 ≡ digits_value 10 (take result.1 text.now) }
{
    let count = run_in_lanes(text);
    if count == 0 {
        return (0, 0);
    }
    // The digits move up to the end of the word, and zeros come before them.
    let word = word_of_lanes(text) << (8 * (LANES - count));
    (value_of_eight(word), count)
}

/// How many digits stand in front of the first eight bytes. By the exclusive or with `b'0'` a digit becomes its value, and any
/// other byte more than nine.
#[inline]
fn run_in_lanes(text: &[u8]) -> usize
    requires { LANES ≤ length text.now }
    ensures { result ≡ prefix_len is_ascii_digit (take LANES text.now) }
{
    let values = u8x8::from_slice(text) ^ u8x8::splat(b'0');
    let others = values.simd_gt(u8x8::splat(9)).to_bitmask();
    if others == 0 {
        LANES
    } else {
        others.trailing_zeros() as usize
    }
}

/// The first eight bytes, each as the value that it has as a digit, the first of them lowest.
#[inline]
fn word_of_lanes(text: &[u8]) -> u64
    requires { LANES ≤ length text.now }
    ensures { result ≡ number_l 256 (map (λ b. bit_xor b 48) (take LANES text.now)) }
{
    u64::from_le_bytes((u8x8::from_slice(text) ^ u8x8::splat(b'0')).to_array())
}

/// The number that eight digits write, the first of them in the lowest byte.
#[inline]
fn value_of_eight(word: u64) -> u64
    ensures { (ds : List ℕ) → length ds ≡ 8 → AllBelowBase 10 ds → word ≡ number_l 256 ds → result ≡ number_from_digits 10 ds }
{
    let pairs = word.wrapping_mul(10).wrapping_add(word >> 8);
    let first = (pairs & 0x0000_00ff_0000_00ff).wrapping_mul(100 + (1_000_000 << 32));
    let second = ((pairs >> 16) & 0x0000_00ff_0000_00ff).wrapping_mul(1 + (10_000 << 32));
    first.wrapping_add(second) >> 32
}

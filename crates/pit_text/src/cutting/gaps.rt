ghost use Rattle.std.specs.Prelude.{◌≡◌, ◌≤◌, length, take};
ghost use Rattle.std.specs.List.{position, position_or_len};
ghost use Rattle.pit_text.specs.Cutting.{is_gap};

use super::cut::is_gap;
use std::simd::prelude::*;

/// How many bytes are looked at in one go.
const LANES: usize = 16;

/// The place of the first gap among so many bytes of a text; where none of these is a gap, how many they are. Bytes behind them are loaded too, and
/// don't matter.
pub(crate) fn gap_within(text: &[u8], len: usize) -> usize
    requires { len ≤ length text.now }
    ensures place { result ≡ position_or_len is_gap (take len text.now) }
    ensures bound { result ≤ len }
{
    if text.len() < LANES {
        return first_gap(&text[..len]);
    }
    let run = run_in_lanes(text);
    if run < LANES {
        return run.min(len);
    }
    if len <= LANES {
        return len;
    }
    first_gap(&text[..len])
}

/// How many of the first bytes come before a gap among them.
#[inline]
fn run_in_lanes(text: &[u8]) -> usize
    requires { LANES ≤ length text.now }
    ensures { result ≡ position_or_len is_gap (take LANES text.now) }
{
    let bytes = u8x16::from_slice(text);
    let blanks = bytes.simd_eq(u8x16::splat(b' ')) | bytes.simd_eq(u8x16::splat(b'\t'));
    let gaps = (blanks | bytes.simd_eq(u8x16::splat(b':'))).to_bitmask();
    if gaps == 0 {
        LANES
    } else {
        gaps.trailing_zeros() as usize
    }
}

/// The place of the first gap, or the length.
#[tactic(auto, using(crate::proofs::Cuts::cuts))]
fn first_gap(text: &[u8]) -> usize
    ensures place { result ≡ position_or_len is_gap text.now }
    ensures bound { result ≤ length text.now }
{
    match gap_place(text) {
        Some(at) => at,
        None => text.len(),
    }
}

/// The place of the first gap.
pub(crate) fn gap_place(text: &[u8]) -> Option<usize>
    ensures { result ≡ position is_gap text.now }
{
    text.iter().position(|b| is_gap(*b))
}

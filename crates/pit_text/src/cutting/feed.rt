ghost use Rattle.std.specs.Prelude.{◌≡◌, ◌+◌, ◌≤◌, not, ◌==◌, length};
ghost use Rattle.std.specs.List.{position, prefix_len};
ghost use Rattle.std.specs.Simd.Lanes.{chunk};
ghost use Rattle.pit_text.specs.Inside.Cutting.{HasNoFeedBefore};

use std::simd::prelude::*;

/// How many bytes are looked at in one go.
const LANES: usize = 32;

/// The place of the first line feed.
pub(crate) fn line_feed(text: &[u8]) -> Option<usize>
    ensures { result ≡ position (λ b. b == 10) text.now }
{
    let mut from = 0;
    while LANES <= text.len() - from {
        let run = run_in_lanes(text, from);
        if run < LANES {
            return Some(from + run);
        }
        from += LANES;
    }
    line_feed_from(text, from)
}

/// How many of the bytes from a place on come before a line feed among them.
#[inline]
fn run_in_lanes(text: &[u8], from: usize) -> usize
    requires { from + LANES ≤ length text.now }
    ensures { result ≡ prefix_len (λ b. not (b == 10)) (chunk from LANES text.now) }
{
    let feeds = u8x32::from_slice(&text[from..])
        .simd_eq(u8x32::splat(b'\n'))
        .to_bitmask();
    if feeds == 0 {
        LANES
    } else {
        feeds.trailing_zeros() as usize
    }
}

/// The place of the first line feed, where there is none before a place.
fn line_feed_from(text: &[u8], from: usize) -> Option<usize>
    requires place { from ≤ length text.now }
    requires before { HasNoFeedBefore text.now from }
    ensures { result ≡ position (λ b. b == 10) text.now }
{
    for at in from..text.len() {
        if text[at] == b'\n' {
            return Some(at);
        }
    }
    None
}

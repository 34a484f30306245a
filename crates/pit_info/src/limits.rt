//! The limits of a pit.
ghost use Rattle.std.specs.Prelude.{◌≡◌, ◌<◌, ◌≤◌};
ghost use Rattle.pit_info.specs.Figures.{lower_count, lowers_of, upper_count, uppers_of, has_upper as is_capped, is_limited as limited};

use crate::blocks::one_if;
use pit_model::Deposit;
use std::alloc::Allocator;

/// How many pairs of a resource and a period have a lower limit.
pub(crate) fn lowers<A: Allocator + Copy + Drop>(pit: &Deposit<A>) -> u64
    ensures { result ≡ lower_count pit.now }
{
    pit.shows_sound();
    let mut count = 0;
    for r in 0..pit.resources() {
        count += lowers_of(pit, r);
    }
    count
}

/// In how many periods a resource has a lower limit.
fn lowers_of<A: Allocator + Copy + Drop>(pit: &Deposit<A>, r: u32) -> u64
    requires { r < pit.now.resources }
    ensures count { result ≡ lowers_of pit.now r }
    ensures few { result ≤ pit.now.periods }
{
    let mut count = 0;
    for t in 0..pit.periods() {
        count += one_if(pit.lower(r, t).is_some());
    }
    count
}

/// How many pairs of a resource and a period have an upper limit.
pub(crate) fn uppers<A: Allocator + Copy + Drop>(pit: &Deposit<A>) -> u64
    ensures { result ≡ upper_count pit.now }
{
    pit.shows_sound();
    let mut count = 0;
    for r in 0..pit.resources() {
        count += uppers_of(pit, r);
    }
    count
}

/// In how many periods a resource has an upper limit.
fn uppers_of<A: Allocator + Copy + Drop>(pit: &Deposit<A>, r: u32) -> u64
    requires { r < pit.now.resources }
    ensures count { result ≡ uppers_of pit.now r }
    ensures few { result ≤ pit.now.periods }
{
    let mut count = 0;
    for t in 0..pit.periods() {
        count += one_if(has_upper(pit, r, t));
    }
    count
}

/// Whether a resource has an upper limit in some period.
pub(crate) fn is_limited<A: Allocator + Copy + Drop>(pit: &Deposit<A>, r: u32) -> bool
    requires { r < pit.now.resources }
    ensures { result ≡ limited pit.now r }
{
    for t in 0..pit.periods() {
        if has_upper(pit, r, t) {
            return true;
        }
    }
    false
}

fn has_upper<A: Allocator + Copy + Drop>(pit: &Deposit<A>, r: u32, t: u32) -> bool
    requires resource { r < pit.now.resources }
    requires period { t < pit.now.periods }
    ensures { result ≡ is_capped pit.now r t }
{
    pit.upper(r, t).is_some()
}

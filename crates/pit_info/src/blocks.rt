//! How many blocks of a pit have this or that.
ghost use Rattle.std.specs.Prelude.{◌≡◌, ◌<◌, ◌≤◌, length, cond, Some, if◌then◌else◌};
ghost use Rattle.std.specs.List.{count_by};
ghost use Rattle.pit_info.specs.Figures.{isnt_zero, has_profit as is_worth, profit_count, coef_count, coefs_at, pair_count, is_root as begins, root_count, highest_of, place_count};

use pit_model::Deposit;
use std::alloc::Allocator;

/// How many profits aren't 0.
pub(crate) fn profits<A: Allocator + Copy + Drop>(pit: &Deposit<A>) -> u64
    ensures { result ≡ profit_count pit.now }
{
    let mut count = 0;
    for b in 0..pit.blocks() {
        count += one_if(has_profit(pit, b));
    }
    count
}

/// Whether a block has a profit other than 0.
fn has_profit<A: Allocator + Copy + Drop>(pit: &Deposit<A>, b: u32) -> bool
    requires { b < pit.now.blocks }
    ensures { result ≡ is_worth pit.now b }
{
    pit.profit(b) != 0
}

/// How many coefficients aren't 0.
pub(crate) fn coefficients<A: Allocator + Copy + Drop>(pit: &Deposit<A>) -> u64
    ensures { result ≡ coef_count pit.now }
{
    let mut count = 0;
    for b in 0..pit.blocks() {
        count += coefficients_among(pit.coefs(b));
    }
    count
}

/// How many of these aren't 0.
fn coefficients_among(coefs: &[(u32, i64)]) -> u64
    ensures count { result ≡ count_by (λ pair. isnt_zero pair.1) coefs.now }
    ensures few { result ≤ length coefs.now }
{
    let mut count = 0;
    for (_, amount) in coefs {
        count += one_if(*amount != 0);
    }
    count
}

/// How many pairs there are of a block and its predecessor.
pub(crate) fn pairs<A: Allocator + Copy + Drop>(pit: &Deposit<A>) -> u64
    ensures { result ≡ pair_count pit.now }
{
    let mut count = 0;
    for b in 0..pit.blocks() {
        count += pit.preds(b).len() as u64;
    }
    count
}

/// How many blocks have no predecessor.
pub(crate) fn roots<A: Allocator + Copy + Drop>(pit: &Deposit<A>) -> u64
    ensures { result ≡ root_count pit.now }
{
    let mut count = 0;
    for b in 0..pit.blocks() {
        count += one_if(is_root(pit, b));
    }
    count
}

/// The highest block that has a predecessor.
pub(crate) fn highest<A: Allocator + Copy + Drop>(pit: &Deposit<A>) -> Option<u32>
    ensures { result ≡ highest_of pit.now }
{
    let mut highest = None;
    for b in 0..pit.blocks() {
        highest = later(highest, b, is_root(pit, b));
    }
    highest
}

/// The highest block so far that has a predecessor, after one more block.
fn later(highest: Option<u32>, b: u32, is_root: bool) -> Option<u32>
    ensures { result ≡ if is_root then highest else Some b }
{
    if is_root { highest } else { Some(b) }
}

/// Whether a block has no predecessor.
fn is_root<A: Allocator + Copy + Drop>(pit: &Deposit<A>, b: u32) -> bool
    requires { b < pit.now.blocks }
    ensures { result ≡ begins pit.now b }
{
    pit.preds(b).is_empty()
}

/// How many blocks have a place.
pub(crate) fn places<A: Allocator + Copy + Drop>(pit: &Deposit<A>) -> u64
    ensures { result ≡ place_count pit.now }
{
    let mut count = 0;
    for b in 0..pit.blocks() {
        count += one_if(pit.place(b).is_some());
    }
    count
}

/// 1 or 0.
pub(crate) fn one_if(test: bool) -> u64
    ensures value { result ≡ cond test 1 0 }
    ensures bound { result ≤ 1 }
{
    if test { 1 } else { 0 }
}

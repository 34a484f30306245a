//! The benches of a pit.
ghost use Rattle.std.specs.Prelude.{◌≡◌, ◌<◌, IfOk};
ghost use Rattle.pit_info.specs.Figures.{bench_count, benches_if as count_if, height_of};

use pit_model::Deposit;
use pit_num::NoMemory;
use std::alloc::Allocator;
use std::collections::BTreeSet;

/// The number of benches, where it is wanted.
pub(crate) fn benches_if<A: Allocator + Copy + Drop>(
    alloc: A,
    pit: &Deposit<A>,
    with_places: bool,
) -> Result<Option<u64>, NoMemory>
    ensures { IfOk result (λ count. count ≡ count_if with_places pit.now) }
{
    if !with_places {
        return Ok(None);
    }
    let count = benches(alloc, pit)?;
    Ok(Some(count))
}

/// The number of different heights at which some block has its place. Takes the memory of these. They are kept in order, since whoever writes
/// the places could choose heights that a hash brings together.
fn benches<A: Allocator + Copy + Drop>(alloc: A, pit: &Deposit<A>) -> Result<u64, NoMemory>
    ensures { IfOk result (λ count. count ≡ bench_count pit.now) }
{
    let mut heights = BTreeSet::new(alloc);
    for b in 0..pit.blocks() {
        heights.extend(height(pit, b))?;
    }
    Ok(heights.len() as u64)
}

/// The height of a block's place in millionths, where it has one.
fn height<A: Allocator + Copy + Drop>(pit: &Deposit<A>, b: u32) -> Option<i64>
    requires { b < pit.now.blocks }
    ensures { result ≡ height_of pit.now b }
{
    let (_, _, height) = pit.place(b)?;
    Some(height)
}

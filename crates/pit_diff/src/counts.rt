//! How many blocks went from each period to each, in a square table whose last row and column are of none.
ghost use Rattle.std.specs.Prelude.{◌≡◌, ◌+◌, ◌*◌, ◌<◌, ◌≤◌, ◌^◌, IfOk, length, slice_index_or, slice_set};
ghost use Rattle.pit_num.specs.declared.limits.TheConstants.{PERIODS_MAX};
ghost use Rattle.pit_plan.specs.Standing.{period_of};
ghost use Rattle.pit_diff.specs.Changes.{moved};
ghost use Rattle.pit_diff.specs.Inside.Table.{table_place, table_cell, IsPeriodOrNone, IsTableOf};

use pit_num::NoMemory;
use pit_plan::PlanView;
use std::alloc::Allocator;

/// How many blocks of two plans went from each period to each. Takes the memory of a number for each pair of periods.
pub(crate) fn counts_of<A: Allocator + Copy + Drop>(
    alloc: A,
    old: &PlanView<A>,
    new: &PlanView<A>,
) -> Result<Vec<u32, A>, NoMemory>
    requires { new.now.pit ≡ old.now.pit }
    ensures counts { IfOk result (λ counts. IsTableOf old.now.pit.periods counts.items (moved old.now.pit.blocks (period_of old.now) (period_of new.now))) }
    ensures len { IfOk result (λ counts. length counts.items ≡ (old.now.pit.periods + 1) * (old.now.pit.periods + 1)) }
{
    old.deposit().shows_sound();
    let side = old.deposit().periods() as usize + 1;
    let mut counts = vec![in alloc; 0; side * side]?;
    count_all(&mut counts, old, new);
    Ok(counts)
}

/// Counts each block.
fn count_all<A: Allocator + Copy + Drop>(
    counts: &mut Vec<u32, A>,
    old: &PlanView<A>,
    new: &PlanView<A>,
)
    requires same { new.now.pit ≡ old.now.pit }
    requires len { length counts.old.items ≡ (old.now.pit.periods + 1) * (old.now.pit.periods + 1) }
    requires none { IsTableOf old.now.pit.periods counts.old.items (moved 0 (period_of old.now) (period_of new.now)) }
    ensures len { length counts.new.items ≡ length counts.old.items }
    ensures counts { IsTableOf old.now.pit.periods counts.new.items (moved old.now.pit.blocks (period_of old.now) (period_of new.now)) }
{
    let periods = old.deposit().periods();
    for b in 0..old.deposit().blocks() {
        count_one(counts, cell(periods, old.period(b), new.period(b)));
    }
}

/// The cell of two periods, of so many, or of none.
pub(crate) fn cell(periods: u32, old: Option<u32>, new: Option<u32>) -> usize
    requires few { periods ≤ PERIODS_MAX }
    requires old { IsPeriodOrNone periods old }
    requires new { IsPeriodOrNone periods new }
    ensures is { result ≡ table_cell periods old new }
    ensures within { result < (periods + 1) * (periods + 1) }
{
    row(periods, old) * (periods as usize + 1) + row(periods, new)
}

fn row(periods: u32, period: Option<u32>) -> usize
    requires { IsPeriodOrNone periods period }
    ensures is { result ≡ table_place periods period }
    ensures within { result ≤ periods }
{
    match period {
        None => periods as usize,
        Some(t) => t as usize,
    }
}

fn count_one<A: Allocator + Drop>(counts: &mut Vec<u32, A>, at: usize)
    requires within { at < length counts.old.items }
    requires room { slice_index_or counts.old.items at 0 + 1 < 2 ^ 32 }
    ensures { counts.new.items ≡ slice_set counts.old.items at (slice_index_or counts.old.items at 0 + 1) }
{
    counts[at] += 1;
}

//! Periods and limits, over which writes and revisions are laid.
ghost use Rattle.std.specs.Prelude.{◌≡◌, ◌≢◌, ◌+◌, ◌*◌, ◌<◌, None, [], ◌∷◌, length, nat_eq, slice_index_or, IfOk, IfErr, All, AllPairs};
ghost use Rattle.std.specs.Map.{lookup};
ghost use Rattle.pit_model.specs.Fitting.{RevisionsFit, revisions_of};
ghost use Rattle.pit_plan.specs.Schedule.{by_block};
ghost use Rattle.pit_plan.specs.Inside.Plan.{with_writes};
ghost use Rattle.pit_plan.specs.Limits.{cell_limit};
ghost use Rattle.pit_plan.specs.Inside.Limits.{by_cell};
ghost use Rattle.pit_plan.specs.Inside.Touched.{overlaid_item};

use crate::limits::Limits;
use crate::schedule::Schedule;
use indexmap::IndexMap;
use pit_model::Deposit;
use pit_num::NoMemory;
use std::alloc::Allocator;
use std::hash::{BuildHasherDefault, FoldHasher};

/// Pairs of a number and what is said of it.
pub(crate) type Pairs<X, A> = IndexMap<u32, X, BuildHasherDefault<FoldHasher>, A>;

/// What is kept of each number, with pairs laid over it.
#[derive(Drop)]
pub(crate) struct Overlay<'a, X: Copy, A: Allocator + Copy + Drop> {
    pub(crate) kept: &'a [X],
    pub(crate) pairs: Pairs<X, A>,
}

/// Periods, over which writes are laid.
impl<'a, A: Allocator + Copy + Drop> Schedule for Overlay<'a, Option<u32>, A> {
    ghost period_at = { λ s. overlaid_item (by_block s.kept.now) s.pairs.entries };

    ghost count = { λ s. length s.kept.now };

    fn period(&self, b: u32) -> Option<u32> {
        overlaid_item(self.kept, &self.pairs, b)
    }
}

/// What the pairs say of a number, else what is kept of it. Where there are no pairs, no hash is made.
fn overlaid_item<X: Copy, A: Allocator + Copy + Drop>(kept: &[X], pairs: &Pairs<X, A>, k: u32) -> X
    requires { k < length kept.now }
    ensures { (absent : X) → result ≡ overlaid_item (λ n. slice_index_or kept.now n absent) pairs.now.entries k }
{
    if pairs.is_empty() {
        return kept[k as usize];
    }
    match pairs.get(&k) {
        Some(value) => *value,
        None => kept[k as usize],
    }
}

/// Writes up to so many are looked through for a block. More are kept in a map, or laid into a copy of all periods, which takes memory.
pub(crate) const SEARCHED_MAX: usize = 8;

/// Periods, over which a few writes are laid.
#[derive(Clone, Copy)]
pub(crate) struct FewWrites<'a> {
    pub(crate) kept: &'a [Option<u32>],
    pub(crate) writes: &'a [(u32, Option<u32>)],
}

impl<'a> Schedule for FewWrites<'a> {
    ghost period_at = { λ s. overlaid_item (by_block s.kept.now) s.writes.now };

    ghost count = { λ s. length s.kept.now };

    fn period(&self, b: u32) -> Option<u32> {
        match written_to(self.writes, b) {
            Some(period) => period,
            None => self.kept[b as usize],
        }
    }
}

/// Periods, over which one write is laid.
#[derive(Clone, Copy)]
pub(crate) struct OneWrite<'a> {
    pub(crate) kept: &'a [Option<u32>],
    pub(crate) block: u32,
    pub(crate) period: Option<u32>,
}

impl<'a> Schedule for OneWrite<'a> {
    ghost period_at = { λ s. overlaid_item (by_block s.kept.now) ((s.block, s.period) ∷ []) };

    ghost count = { λ s. length s.kept.now };

    fn period(&self, b: u32) -> Option<u32> {
        if b == self.block {
            self.period
        } else {
            self.kept[b as usize]
        }
    }
}

/// Where one block of so many is written, or more, the writes are laid into a copy of all periods, where a period is found without a hash.
pub(crate) const COPY_ONE_IN: usize = 8;

/// So many writes are laid into such a copy on any pit. Whoever chooses the blocks could choose more of them than a map takes well.
pub(crate) const COPIED_FROM: usize = 4096;

/// The periods of all blocks.
impl<A: Allocator + Drop> Schedule for Vec<Option<u32>, A> {
    ghost period_at = { λ periods. by_block periods.items };

    ghost count = { λ periods. length periods.items };

    fn period(&self, b: u32) -> Option<u32> {
        self[b as usize]
    }
}

/// A copy of the periods, into which the writes are laid.
pub(crate) fn periods_after<A: Allocator + Copy + Drop>(
    alloc: A,
    kept: &[Option<u32>],
    writes: &[(u32, Option<u32>)],
) -> Result<Vec<Option<u32>, A>, NoMemory>
    requires { All (λ w. w.0 < length kept.now) writes.now }
    ensures { IfOk result (λ periods. periods.items ≡ with_writes (λ w. w.1) kept.now writes.now) }
{
    let mut periods = kept.to_vec(alloc)?;
    write_periods(&mut periods, writes);
    Ok(periods)
}

/// Gives each written block its period.
fn write_periods<A: Allocator + Drop>(
    periods: &mut Vec<Option<u32>, A>,
    writes: &[(u32, Option<u32>)],
)
    requires { All (λ w. w.0 < length periods.old.items) writes.now }
    ensures { periods.new.items ≡ with_writes (λ w. w.1) periods.old.items writes.now }
{
    for (block, period) in writes {
        periods[*block as usize] = *period;
    }
}

/// What the writes give a block, if one of them names it.
fn written_to(writes: &[(u32, Option<u32>)], b: u32) -> Option<Option<u32>>
    ensures { result ≡ lookup (nat_eq b) writes.now }
{
    for (block, period) in writes {
        if *block == b {
            return Some(*period);
        }
    }
    None
}

/// Limits, over which those that are revised are laid, each by its cell.
impl<'a, A: Allocator + Copy + Drop> Limits for Overlay<'a, Option<i64>, A> {
    ghost limit_in = { λ limits. overlaid_item (cell_limit limits.kept.now) limits.pairs.entries };

    ghost cells = { λ limits. length limits.kept.now };

    fn limit(&self, cell: u32) -> Option<i64> {
        overlaid_item(self.kept, &self.pairs, cell)
    }
}

/// The writes, by block.
pub(crate) fn written<A: Allocator + Copy + Drop>(
    alloc: A,
    writes: &[(u32, Option<u32>)],
) -> Result<Pairs<Option<u32>, A>, NoMemory>
    requires { AllPairs (λ v w. v.0 ≢ w.0) writes.now }
    ensures entries { IfOk result (λ map. map.entries ≡ writes.now) }
    ensures refused { IfErr result (λ e. writes.now ≢ []) }
{
    let mut map = IndexMap::with_capacity(alloc, writes.len())?;
    for (block, period) in writes {
        map.insert(*block, *period)?;
    }
    Ok(map)
}

/// The revised limits, by cell.
pub(crate) fn revised<A: Allocator + Copy + Drop>(
    alloc: A,
    pit: &Deposit<A>,
    revises: &[(u32, u32, Option<i64>)],
) -> Result<Pairs<Option<i64>, A>, NoMemory>
    requires { RevisionsFit pit.now.resources pit.now.periods (revisions_of revises.now) }
    ensures entries { IfOk result (λ map. map.entries ≡ by_cell pit.now (revisions_of revises.now)) }
    ensures refused { IfErr result (λ e. revises.now ≢ []) }
{
    let mut map = IndexMap::with_capacity(alloc, revises.len())?;
    for (resource, period, limit) in revises {
        map.insert(pit.cell(*resource, *period), *limit)?;
    }
    Ok(map)
}

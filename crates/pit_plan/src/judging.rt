//! The first breach that a schedule would have after writes and revisions, found where these touch it.
ghost use Rattle.std.specs.Prelude.{◌≡◌, ◌≢◌, ℕ, ◌+◌, ◌*◌, ◌<◌, ◌⊎◌, Some, None, pos, [], length, nat_eq, slice_index_or, IfNone, IfOk, IfErr, IfSome, All};
ghost use Rattle.std.specs.Map.{lookup};
ghost use Rattle.pit_model.specs.Fitting.{Fits, RevisionsFit, revisions_of};
ghost use Rattle.pit_num.specs.Least.{ComesBefore, IsLeast};
ghost use Rattle.pit_model.specs.Pit.{cell_of};
ghost use Rattle.pit_plan.specs.Schedule.{by_block};
ghost use Rattle.pit_plan.specs.Breaches.{IsFirstBreach, IsGood, IsOutOfOrder};
ghost use Rattle.pit_plan.specs.Inside.Totals.{IsTally};
ghost use Rattle.pit_plan.specs.Limits.{cell_limit, at_cell};
ghost use Rattle.pit_plan.specs.Inside.Limits.{by_cell};
ghost use Rattle.pit_plan.specs.Inside.Touched.{overlaid_item, lesser_of, IsOutNear, IsOverAt, IsLeastOver, IsNamed};

use crate::breach::Breach;
use crate::cell_list::CellList;
use crate::limits::Limits;
use crate::moving::{look_at_revised, moved_loads};
use crate::overlay::{
    COPIED_FROM, COPY_ONE_IN, FewWrites, OneWrite, Overlay, SEARCHED_MAX, periods_after, revised,
    written,
};
use crate::schedule::{Schedule, first_late, keeps_order};
use crate::tally::Tally;
use pit_model::{Deposit, Instance};
use pit_num::NoMemory;
use std::alloc::Allocator;

/// The first breach that the schedule would have after the writes and the revisions, where it has none before them. Looks at the written
/// blocks, at their predecessors and successors, and at the loads that are moved or revised; takes the memory of the revisions, of these
/// loads, and of the writes where these are more than `SEARCHED_MAX`.
pub(crate) fn first_breach_after<A: Allocator + Copy + Drop>(
    alloc: A,
    pit: &Instance<A>,
    tally: &Tally<A>,
    limits: &[Option<i64>],
    writes: &[(u32, Option<u32>)],
    revises: &[(u32, u32, Option<i64>)],
) -> Result<Option<Breach>, NoMemory>
    requires tally { IsTally pit.now tally.now }
    requires limits { length limits.now ≡ pit.now.periods * pit.now.resources }
    requires writes { Fits pit.now.blocks pit.now.periods writes.now }
    requires revises { RevisionsFit pit.now.resources pit.now.periods (revisions_of revises.now) }
    ensures breach { IfOk result (λ breach. IsGood pit.now (by_block tally.now.periods) (at_cell pit.now (cell_limit limits.now))
        → IsFirstBreach pit.now (overlaid_item (by_block tally.now.periods) writes.now)
        (at_cell pit.now (overlaid_item (cell_limit limits.now) (by_cell pit.now (revisions_of revises.now)))) breach) }
    ensures refused { IfErr result (λ e. (writes.now ≢ []) ⊎ (revises.now ≢ [])) }
{
    if writes.is_empty() && revises.is_empty() {
        return Ok(None);
    }
    let out = first_out_after(alloc, pit, tally, writes)?;
    if let Some((block, before)) = out {
        return Ok(Some(Breach::Precedence { block, before }));
    }
    let pit = pit.deposit();
    let revised = Overlay {
        kept: limits,
        pairs: revised(alloc, pit, revises)?,
    };
    let mut loads = moved_loads(alloc, pit, tally, writes)?;
    look_at_revised(pit, revises, &mut loads)?;
    Ok(first_over_after(pit, &revised, &loads.cells))
}

/// The least pair of a block and its predecessor that the writes leave out of order, of which one is written. Takes memory for more than
/// `SEARCHED_MAX` writes alone.
fn first_out_after<A: Allocator + Copy + Drop>(
    alloc: A,
    pit: &Instance<A>,
    tally: &Tally<A>,
    writes: &[(u32, Option<u32>)],
) -> Result<Option<(u32, u32)>, NoMemory>
    requires tally { IsTally pit.now tally.now }
    requires fits { Fits pit.now.blocks pit.now.periods writes.now }
    ensures least { IfOk result (IsLeast ComesBefore (IsOutNear pit.now (overlaid_item (by_block tally.now.periods) writes.now) writes.now)) }
    ensures refused { IfErr result (λ e. writes.now ≢ []) }
{
    let kept = tally.periods.as_slice();
    if writes.len() == 1 {
        let (block, period) = writes[0];
        let after = OneWrite {
            kept,
            block,
            period,
        };
        return Ok(first_out_near(pit, &after, writes));
    }
    if writes.len() <= SEARCHED_MAX {
        return Ok(first_out_near(pit, &FewWrites { kept, writes }, writes));
    }
    let many = COPIED_FROM.min(kept.len() / COPY_ONE_IN);
    if writes.len() >= many {
        let after = periods_after(alloc, kept, writes)?;
        return Ok(first_out_near(pit, &after, writes));
    }
    let after = Overlay {
        kept,
        pairs: written(alloc, writes)?,
    };
    Ok(first_out_near(pit, &after, writes))
}

/// The least pair of a block and its predecessor that is out of order and of which one is written.
fn first_out_near<S: Schedule, A: Allocator + Copy + Drop>(
    pit: &Instance<A>,
    schedule: &S,
    writes: &[(u32, Option<u32>)],
) -> Option<(u32, u32)>
    requires same { S.count schedule.now ≡ pit.now.blocks }
    requires known { All (λ w. w.0 < pit.now.blocks) writes.now }
    ensures { IsLeast ComesBefore (IsOutNear pit.now (S.period_at schedule.now) writes.now) result }
{
    let mut least: Option<(u32, u32)> = None;
    for (block, _) in writes {
        least = lesser(least, out_before(pit, schedule, *block));
        least = lesser(least, out_behind(pit, schedule, *block));
    }
    least
}

/// A block with its least predecessor that is later, if there is one.
fn out_before<S: Schedule, A: Allocator + Copy + Drop>(
    pit: &Instance<A>,
    schedule: &S,
    b: u32,
) -> Option<(u32, u32)>
    requires same { S.count schedule.now ≡ pit.now.blocks }
    requires known { b < pit.now.blocks }
    ensures { IsLeast ComesBefore (λ p. IsOutOfOrder pit.now (S.period_at schedule.now) p × (p.0 ≡ b)) result }
{
    let before = first_late(pit.preds(b), schedule, schedule.period(b))?;
    Some((b, before))
}

/// The least successor of a block that is earlier, if there is one, with the block.
fn out_behind<S: Schedule, A: Allocator + Copy + Drop>(
    pit: &Instance<A>,
    schedule: &S,
    b: u32,
) -> Option<(u32, u32)>
    requires same { S.count schedule.now ≡ pit.now.blocks }
    requires known { b < pit.now.blocks }
    ensures { IsLeast ComesBefore (λ p. IsOutOfOrder pit.now (S.period_at schedule.now) p × (p.1 ≡ b)) result }
{
    let before = schedule.period(b);
    for later in pit.succs(b) {
        if !keeps_order(schedule.period(*later), before) {
            return Some((*later, b));
        }
    }
    None
}

/// Of two pairs the lesser.
fn lesser(one: Option<(u32, u32)>, other: Option<(u32, u32)>) -> Option<(u32, u32)>
    ensures { result ≡ lesser_of one other }
{
    match (one, other) {
        (None, _) => other,
        (Some(_), None) => one,
        (Some(p), Some(q)) => {
            if q.0 < p.0 || q.0 == p.0 && q.1 < p.1 {
                other
            } else {
                one
            }
        }
    }
}

/// The load of the least period, and in it of the least resource, that is above its limit, as a breach.
fn first_over_after<L: Limits, A: Allocator + Copy + Drop>(
    pit: &Deposit<A>,
    limits: &L,
    cells: &CellList<A>,
) -> Option<Breach>
    requires limits { L.cells limits.now ≡ pit.now.periods * pit.now.resources }
    requires cells { (cell : ℕ) → IsNamed cells.now cell → cell < pit.now.periods * pit.now.resources }
    ensures none { IfNone result (IsLeast ComesBefore (IsOverAt pit.now (at_cell pit.now (L.limit_in limits.now)) cells.now) None) }
    ensures some { IfSome result (IsLeastOver pit.now (at_cell pit.now (L.limit_in limits.now)) cells.now) }
{
    let (period, resource) = least_over(pit, limits, cells)?;
    let cell = pit.cell(resource, period);
    let load = cells.load(cell)?;
    let limit = limits.limit(cell)?;
    Some(Breach::Over {
        resource,
        period,
        load,
        limit,
    })
}

/// The least period, and in it the least resource, of a cell whose load is above its limit.
fn least_over<L: Limits, A: Allocator + Copy + Drop>(
    pit: &Deposit<A>,
    limits: &L,
    cells: &CellList<A>,
) -> Option<(u32, u32)>
    requires limits { L.cells limits.now ≡ pit.now.periods * pit.now.resources }
    requires cells { (cell : ℕ) → IsNamed cells.now cell → cell < pit.now.periods * pit.now.resources }
    ensures { IsLeast ComesBefore (IsOverAt pit.now (at_cell pit.now (L.limit_in limits.now)) cells.now) result }
{
    let mut least: Option<(u32, u32)> = None;
    for i in 0..cells.len() {
        least = lesser(least, over_at(pit, limits, cells, i));
    }
    least
}

/// The period and the resource of a cell, if its load is above its limit.
fn over_at<L: Limits, A: Allocator + Copy + Drop>(
    pit: &Deposit<A>,
    limits: &L,
    cells: &CellList<A>,
    i: usize,
) -> Option<(u32, u32)>
    requires limits { L.cells limits.now ≡ pit.now.periods * pit.now.resources }
    requires within { i < length cells.now }
    requires cells { (cell : ℕ) → IsNamed cells.now cell → cell < pit.now.periods * pit.now.resources }
    ensures { IsLeast ComesBefore (λ p. IsOverAt pit.now (at_cell pit.now (L.limit_in limits.now)) cells.now p
        × (cell_of pit.now p.1 p.0 ≡ (slice_index_or cells.now i (0, pos 0)).0)) result }
{
    let (cell, load) = cells.at(i);
    let limit = limits.limit(cell)?;
    if load <= i128::from(limit) {
        return None;
    }
    Some((cell / pit.resources(), cell % pit.resources()))
}

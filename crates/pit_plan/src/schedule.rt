//! What a schedule, which is a period or none for each block, loads, earns and breaks.
ghost use Rattle.std.specs.Prelude.{◌≡◌, ◌≢◌, ℕ, ◌*◌, ◌<◌, ◌++◌, [], length, Option, IfSome, IfOk, IfErr, OnOk, All};
ghost use Rattle.std.specs.List.Sorted.{IsStrictlyIncreasing};
ghost use Rattle.pit_num.specs.Least.{ComesBefore, IsLeast};
ghost use Rattle.pit_model.specs.Pit.{lower_of};
ghost use Rattle.pit_plan.specs.Schedule.{by_block, load_of, earned_in, in_order, is_within};
ghost use Rattle.pit_plan.specs.Inside.Totals.{IsTally};
ghost use Rattle.pit_plan.specs.Limits.{at_cell};
ghost use Rattle.pit_plan.specs.Breaches.{IsFirstBreach, IsOutOfOrder, IsOverLimit};
ghost use Rattle.pit_plan.specs.Shortfalls.{shortfalls_of, shorts_in, short_at};
ghost use Rattle.pit_plan.specs.Inside.Schedule.{IsLate};

use crate::breach::Breach;
use crate::limits::Limits;
use crate::short::Short;
use crate::tally::Tally;
use pit_model::Deposit;
use pit_num::NoMemory;
use std::alloc::Allocator;

/// The periods of so many blocks.
pub(crate) trait Schedule {
    /// The period of each block.
    ghost period_at: { Self → ℕ → Option ℕ };

    /// How many blocks there are.
    ghost count: { Self → ℕ };

    fn period(&self, b: u32) -> Option<u32>
        requires { b < count self.now }
        ensures { result ≡ period_at self.now b };
}

/// The load of a resource in a period.
pub(crate) fn load<A: Allocator + Copy + Drop>(
    pit: &Deposit<A>,
    tally: &Tally<A>,
    r: u32,
    t: u32,
) -> i128
    requires tally { IsTally pit.now tally.now }
    requires resource { r < pit.now.resources }
    requires period { t < pit.now.periods }
    ensures { result ≡ load_of pit.now (by_block tally.now.periods) r t }
{
    tally.loads[pit.cell(r, t) as usize]
}

/// What a block earns in a period.
pub(crate) fn earned<A: Allocator + Copy + Drop>(
    pit: &Deposit<A>,
    b: u32,
    period: Option<u32>,
) -> i128
    requires known { b < pit.now.blocks }
    requires period { IfSome period (λ t. t < pit.now.periods) }
    ensures { result ≡ earned_in pit.now b period }
{
    match period {
        Some(t) => i128::from(pit.profit(b)) * i128::from(pit.factor(t)),
        None => 0,
    }
}

/// The least of the blocks that is later than a period.
pub(crate) fn first_late<S: Schedule>(
    preds: &[u32],
    schedule: &S,
    later: Option<u32>,
) -> Option<u32>
    requires known { All (λ a. a < S.count schedule.now) preds.now }
    requires rising { IsStrictlyIncreasing preds.now }
    ensures { IsLeast ◌<◌ (IsLate (S.period_at schedule.now) later preds.now) result }
{
    for a in preds {
        if !keeps_order(later, schedule.period(*a)) {
            return Some(*a);
        }
    }
    None
}

/// Whether a block of the one period may stand after a block of the other.
pub fn keeps_order(later: Option<u32>, before: Option<u32>) -> bool
    ensures { result ≡ in_order later before }
{
    match (later, before) {
        (None, _) => true,
        (Some(_), None) => false,
        (Some(t), Some(s)) => s <= t,
    }
}

/// The least pair of a block and its predecessor that is out of order.
fn first_out_of_order<A: Allocator + Copy + Drop>(
    pit: &Deposit<A>,
    tally: &Tally<A>,
) -> Option<(u32, u32)>
    requires { length tally.now.periods ≡ pit.now.blocks }
    ensures { IsLeast ComesBefore (IsOutOfOrder pit.now (by_block tally.now.periods)) result }
{
    for b in 0..pit.blocks() {
        if let Some(a) = first_late(pit.preds(b), tally, tally.period(b)) {
            return Some((b, a));
        }
    }
    None
}

/// Whether the load of a resource in a period is at most its limit.
fn keeps_limit<L: Limits, A: Allocator + Copy + Drop>(
    pit: &Deposit<A>,
    tally: &Tally<A>,
    limits: &L,
    r: u32,
    t: u32,
) -> bool
    requires tally { IsTally pit.now tally.now }
    requires limits { L.cells limits.now ≡ pit.now.periods * pit.now.resources }
    requires resource { r < pit.now.resources }
    requires period { t < pit.now.periods }
    ensures { result ≡ is_within (load_of pit.now (by_block tally.now.periods) r t) (at_cell pit.now (L.limit_in limits.now) r t) }
{
    match limits.limit(pit.cell(r, t)) {
        Some(limit) => load(pit, tally, r, t) <= i128::from(limit),
        None => true,
    }
}

/// The least resource whose load in the period is above its limit.
fn first_over_in<L: Limits, A: Allocator + Copy + Drop>(
    pit: &Deposit<A>,
    tally: &Tally<A>,
    limits: &L,
    t: u32,
) -> Option<u32>
    requires tally { IsTally pit.now tally.now }
    requires limits { L.cells limits.now ≡ pit.now.periods * pit.now.resources }
    requires period { t < pit.now.periods }
    ensures { IsLeast ◌<◌ (λ r. IsOverLimit pit.now (by_block tally.now.periods) (at_cell pit.now (L.limit_in limits.now)) (t, r)) result }
{
    for r in 0..pit.resources() {
        if !keeps_limit(pit, tally, limits, r, t) {
            return Some(r);
        }
    }
    None
}

/// The least period, and in it the least resource, whose load is above its limit.
fn first_over<L: Limits, A: Allocator + Copy + Drop>(
    pit: &Deposit<A>,
    tally: &Tally<A>,
    limits: &L,
) -> Option<(u32, u32)>
    requires tally { IsTally pit.now tally.now }
    requires limits { L.cells limits.now ≡ pit.now.periods * pit.now.resources }
    ensures { IsLeast ComesBefore (IsOverLimit pit.now (by_block tally.now.periods) (at_cell pit.now (L.limit_in limits.now))) result }
{
    for t in 0..pit.periods() {
        if let Some(r) = first_over_in(pit, tally, limits, t) {
            return Some((t, r));
        }
    }
    None
}

/// The first breach of the schedule.
pub(crate) fn first_breach<L: Limits, A: Allocator + Copy + Drop>(
    pit: &Deposit<A>,
    tally: &Tally<A>,
    limits: &L,
) -> Option<Breach>
    requires tally { IsTally pit.now tally.now }
    requires limits { L.cells limits.now ≡ pit.now.periods * pit.now.resources }
    ensures { IsFirstBreach pit.now (by_block tally.now.periods) (at_cell pit.now (L.limit_in limits.now)) result }
{
    if let Some((block, before)) = first_out_of_order(pit, tally) {
        return Some(Breach::Precedence { block, before });
    }
    let (period, resource) = first_over(pit, tally, limits)?;
    let limit = limits.limit(pit.cell(resource, period))?;
    Some(Breach::Over {
        resource,
        period,
        load: load(pit, tally, resource, period),
        limit,
    })
}

/// Each load that is below its lower limit, by rising period, and in it by rising resource.
pub(crate) fn shortfalls<A: Allocator + Copy + Drop>(
    alloc: A,
    pit: &Deposit<A>,
    tally: &Tally<A>,
) -> Result<Vec<Short, A>, NoMemory>
    requires { IsTally pit.now tally.now }
    ensures shorts { IfOk result (λ shorts. shorts.items ≡ shortfalls_of pit.now (by_block tally.now.periods)) }
    ensures refused { IfErr result (λ e. shortfalls_of pit.now (by_block tally.now.periods) ≢ []) }
{
    let mut shorts = Vec::new(alloc);
    for t in 0..pit.periods() {
        push_shorts(&mut shorts, pit, tally, t)?;
    }
    Ok(shorts)
}

/// Appends the shortfalls of a period.
fn push_shorts<A: Allocator + Copy + Drop>(
    shorts: &mut Vec<Short, A>,
    pit: &Deposit<A>,
    tally: &Tally<A>,
    t: u32,
) -> Result<(), NoMemory>
    requires tally { IsTally pit.now tally.now }
    requires period { t < pit.now.periods }
    ensures pushed { OnOk result (shorts.new.items ≡ shorts.old.items ++ shorts_in pit.now (by_block tally.now.periods) t) }
    ensures refused { IfErr result (λ e. shorts_in pit.now (by_block tally.now.periods) t ≢ []) }
{
    for r in 0..pit.resources() {
        push_short(shorts, pit, tally, r, t)?;
    }
    Ok(())
}

/// Appends the load where it is below its lower limit.
fn push_short<A: Allocator + Copy + Drop>(
    shorts: &mut Vec<Short, A>,
    pit: &Deposit<A>,
    tally: &Tally<A>,
    r: u32,
    t: u32,
) -> Result<(), NoMemory>
    requires tally { IsTally pit.now tally.now }
    requires resource { r < pit.now.resources }
    requires period { t < pit.now.periods }
    ensures pushed { OnOk result (shorts.new.items ≡ shorts.old.items ++ short_at r t (load_of pit.now (by_block tally.now.periods) r t) (lower_of pit.now r t)) }
    ensures refused { IfErr result (λ e. short_at r t (load_of pit.now (by_block tally.now.periods) r t) (lower_of pit.now r t) ≢ []) }
{
    let Some(limit) = pit.lower(r, t) else {
        return Ok(());
    };
    let load = load(pit, tally, r, t);
    if load < i128::from(limit) {
        shorts.push(Short {
            resource: r,
            period: t,
            load,
            limit,
        })?;
    }
    Ok(())
}

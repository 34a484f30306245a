//! The loads of a plan that are above their limits in force.
ghost use Rattle.std.specs.Prelude.{◌≡◌, ◌<◌, ◌++◌, List, Some, IfOk, OnOk};
ghost use Rattle.pit_plan.specs.Schedule.{Commit, held_period, limit_of, load_of};
ghost use Rattle.pit_plan.specs.Standing.{IsPlanOf};
ghost use Rattle.pit_all.specs.Breaches.{over_at, overs_in, overs_of};

use pit_num::NoMemory;
use pit_plan::{Breach, PlanView};
use std::alloc::Allocator;

/// Each load that is above its limit in force, by rising period, and in it by rising resource. Takes the memory of these, so none where there is
/// none.
pub(crate) fn overs<A: Allocator + Copy + Drop>(
    alloc: A,
    plan: &PlanView<A>,
) -> Result<Vec<Breach, A>, NoMemory>
    ensures { IfOk result (λ overs. (commits : List Commit) → IsPlanOf plan.now commits
        → overs.items ≡ overs_of plan.now.pit (held_period commits) (limit_of plan.now.pit commits)) }
{
    let mut overs = Vec::new(alloc);
    for t in 0..plan.deposit().periods() {
        push_overs(&mut overs, plan, t)?;
    }
    Ok(overs)
}

/// Appends the loads of a period.
fn push_overs<A: Allocator + Copy + Drop>(
    overs: &mut Vec<Breach, A>,
    plan: &PlanView<A>,
    t: u32,
) -> Result<(), NoMemory>
    requires { t < plan.now.pit.periods }
    ensures { OnOk result ((commits : List Commit) → IsPlanOf plan.now commits
        → overs.new.items ≡ overs.old.items ++ overs_in plan.now.pit (held_period commits) (limit_of plan.now.pit commits) t) }
{
    for r in 0..plan.deposit().resources() {
        push_over(overs, plan, r, t)?;
    }
    Ok(())
}

/// Appends the load where it is above its limit.
fn push_over<A: Allocator + Copy + Drop>(
    overs: &mut Vec<Breach, A>,
    plan: &PlanView<A>,
    r: u32,
    t: u32,
) -> Result<(), NoMemory>
    requires resource { r < plan.now.pit.resources }
    requires period { t < plan.now.pit.periods }
    ensures { OnOk result ((commits : List Commit) → IsPlanOf plan.now commits
        → overs.new.items ≡ overs.old.items ++ over_at r t (load_of plan.now.pit (held_period commits) r t) (limit_of plan.now.pit commits r t)) }
{
    let Some(limit) = plan.limit(r, t) else {
        return Ok(());
    };
    push_above(overs, r, t, plan.load(r, t), limit)
}

/// Appends a load where it is above a limit.
fn push_above<A: Allocator + Copy + Drop>(
    overs: &mut Vec<Breach, A>,
    r: u32,
    t: u32,
    load: i128,
    limit: i64,
) -> Result<(), NoMemory>
    ensures { OnOk result (overs.new.items ≡ overs.old.items ++ over_at r t load (Some limit)) }
{
    if load <= i128::from(limit) {
        return Ok(());
    }
    overs.push(Breach::Over {
        resource: r,
        period: t,
        load,
        limit,
    })?;
    Ok(())
}

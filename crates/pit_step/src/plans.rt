ghost use Rattle.std.specs.Prelude.{◌≡◌, ◌∷◌, [], IsOk, IfOk};
ghost use Rattle.pit_model.specs.Fitting.{Fits};
ghost use Rattle.pit_plan.specs.Schedule.{commit_of_schedule};
ghost use Rattle.pit_plan.specs.Standing.{IsPlanOf};
ghost use Rattle.pit_step.specs.Inputs.{IsScheduleOf};

use pit_model::Deposit;
use pit_num::NoMemory;
use pit_plan::{PlanView, writes_of};
use std::alloc::Allocator;

/// The plan of a schedule, with its one commit. The pit is freed where memory runs out.
pub fn plan_of<A: Allocator + Copy + Drop>(
    alloc: A,
    pit: Deposit<A>,
    schedule: &[(u32, u32)],
) -> Result<PlanView<A>, NoMemory>
    requires { IsScheduleOf pit schedule.now }
    ensures { IfOk result (λ plan. (plan.pit ≡ pit) × IsPlanOf plan (commit_of_schedule schedule.now ∷ [])) }
{
    let Ok(writes) = writes_of(alloc, schedule) else {
        drop(pit);
        return Err(NoMemory);
    };
    match PlanView::empty(alloc, pit) {
        Ok(plan) => applied(plan, &writes),
        Err((pit, no_memory)) => {
            drop(pit);
            Err(no_memory)
        }
    }
}

/// A plan with no commit yet, and then with one of writes alone.
fn applied<A: Allocator + Copy + Drop>(
    mut plan: PlanView<A>,
    writes: &[(u32, Option<u32>)],
) -> Result<PlanView<A>, NoMemory>
    requires none { IsPlanOf plan [] }
    requires fits { Fits plan.pit.blocks plan.pit.periods writes.now }
    ensures value { IfOk result (λ answer. (answer.pit ≡ plan.pit) × IsPlanOf answer (record { writes = writes.now; revises = [] } ∷ [])) }
    ensures done { IsOk result }
{
    match plan.apply(writes, &[]) {
        Ok(()) => Ok(plan),
        Err(no_memory) => {
            drop(plan);
            Err(no_memory)
        }
    }
}

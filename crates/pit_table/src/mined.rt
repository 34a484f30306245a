//! What a plan mines in each period.
ghost use Rattle.std.specs.Prelude.{◌≡◌, ◌+◌, ◌<◌, ◌^◌, ◌+ℤ◌, Some, FitsSigned, IfOk};
ghost use Rattle.std.specs.Int.{w128};
ghost use Rattle.pit_plan.specs.Schedule.{earned_in};
ghost use Rattle.pit_plan.specs.Standing.{period_of};
ghost use Rattle.pit_table.specs.Inside.Mined.{AreMined};

use pit_model::Deposit;
use pit_num::NoMemory;
use pit_plan::PlanView;
use std::alloc::Allocator;

/// How many blocks are in a period, and what they earn there, in units of 10^-18.
#[derive(Clone, Copy)]
pub(crate) struct Mined {
    pub(crate) blocks: u32,
    pub(crate) value: i128,
}

/// What a plan mines in each period. Takes the memory of one item for each period.
pub(crate) fn by_period<A: Allocator + Copy + Drop>(
    alloc: A,
    plan: &PlanView<A>,
) -> Result<Vec<Mined, A>, NoMemory>
    ensures { IfOk result (λ mined. AreMined plan.now.pit (period_of plan.now) plan.now.pit.blocks mined.items) }
{
    let nothing = Mined {
        blocks: 0,
        value: 0,
    };
    let mut mined = vec![in alloc; nothing; plan.deposit().periods() as usize]?;
    for b in 0..plan.deposit().blocks() {
        add_block(&mut mined, plan, b);
    }
    Ok(mined)
}

/// Adds a block to the period that it is in, if there is one.
fn add_block<A: Allocator + Copy + Drop>(mined: &mut Vec<Mined, A>, plan: &PlanView<A>, b: u32)
    requires known { b < plan.now.pit.blocks }
    requires before { AreMined plan.now.pit (period_of plan.now) b mined.old.items }
    ensures { AreMined plan.now.pit (period_of plan.now) (b + 1) mined.new.items }
{
    plan.deposit().shows_sound();
    let Some(t) = plan.period(b) else {
        return;
    };
    let earned = earned(plan.deposit(), b, t);
    mined[t as usize] = with_block(mined[t as usize], earned);
}

/// What a block earns in a period.
fn earned<A: Allocator + Copy + Drop>(pit: &Deposit<A>, b: u32, t: u32) -> i128
    requires known { b < pit.now.blocks }
    requires period { t < pit.now.periods }
    ensures { result ≡ earned_in pit.now b (Some t) }
{
    i128::from(pit.profit(b)) * i128::from(pit.factor(t))
}

/// The same with one more block, which earns `earned`.
fn with_block(mined: Mined, earned: i128) -> Mined
    requires blocks { mined.blocks + 1 < 2 ^ 32 }
    requires value { FitsSigned w128 (mined.value +ℤ earned) }
    ensures blocks { result.blocks ≡ mined.blocks + 1 }
    ensures value { result.value ≡ mined.value +ℤ earned }
{
    Mined {
        blocks: mined.blocks + 1,
        value: mined.value + earned,
    }
}

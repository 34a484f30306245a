//! Loads, which are moved as blocks go from one period to another.
ghost use Rattle.std.specs.Prelude.{◌≡◌, ℕ, ℤ, ◌*◌, ◌<◌, ◌+ℤ◌, true, length, Bool, List, FitsSigned, IfErr, IfSome, OnOk};
ghost use Rattle.std.specs.Int.{w128};
ghost use Rattle.pit_plan.specs.Schedule.{coef_of};
ghost use Rattle.pit_plan.specs.Inside.Totals.{Raises, MovesIn, signed_coef};
ghost use Rattle.pit_plan.specs.Limits.{at_cell};

use pit_model::Deposit;
use pit_num::NoMemory;
use std::alloc::Allocator;

/// The loads of a pit, each by its cell.
pub(crate) trait Loads {
    /// The load of a cell.
    ghost load_in: { Self → ℕ → ℤ };

    /// The loads that they began with, one for each cell. These stay.
    ghost base: { Self → List ℤ };

    /// What holds of them before and after each addition.
    ghost is_sound: { Self → Type 0 };

    /// Whether an addition may be refused.
    ghost can_refuse: { Bool };

    /// Adds to the load of a cell.
    fn add(&mut self, cell: u32, term: i128) -> Result<(), NoMemory>
        requires sound { is_sound self.old }
        requires within { cell < length (base self.old) }
        requires room { FitsSigned w128 (load_in self.old cell +ℤ term) }
        ensures sound { OnOk result (is_sound self.new) }
        ensures stays { OnOk result (base self.new ≡ base self.old) }
        ensures raises { OnOk result (Raises (load_in self.old) cell term (load_in self.new)) }
        ensures refused { IfErr result (λ e. can_refuse ≡ true) };
}

/// Adds a block's coefficients to the loads of a period (`up`), or takes them off; does nothing where there is no period.
pub(crate) fn shift<L: Loads, A: Allocator + Copy + Drop>(
    pit: &Deposit<A>,
    loads: &mut L,
    b: u32,
    period: Option<u32>,
    up: bool,
) -> Result<(), NoMemory>
    requires known { b < pit.now.blocks }
    requires period { IfSome period (λ t. t < pit.now.periods) }
    requires sound { L.is_sound loads.old }
    requires cells { length (L.base loads.old) ≡ pit.now.periods * pit.now.resources }
    requires room { IfSome period (λ t. (r : ℕ) → r < pit.now.resources
        → FitsSigned w128 (at_cell pit.now (L.load_in loads.old) r t +ℤ signed_coef up (coef_of pit.now b r))) }
    ensures sound { OnOk result (L.is_sound loads.new) }
    ensures stays { OnOk result (L.base loads.new ≡ L.base loads.old) }
    ensures moves { OnOk result (MovesIn pit.now (at_cell pit.now (L.load_in loads.old)) period (λ r. signed_coef up (coef_of pit.now b r))
        (at_cell pit.now (L.load_in loads.new))) }
    ensures refused { IfErr result (λ e. L.can_refuse ≡ true) }
{
    let Some(t) = period else {
        return Ok(());
    };
    for (r, coef) in pit.coefs(b) {
        loads.add(pit.cell(*r, t), signed(up, *coef))?;
    }
    Ok(())
}

/// A sum that stays in range.
pub(crate) fn plus(sum: i128, term: i128) -> i128
    requires { FitsSigned w128 (sum +ℤ term) }
    ensures { result ≡ sum +ℤ term }
{
    sum + term
}

/// A coefficient with its sign: as it is where it is added (`up`), or its opposite where it is taken off.
fn signed(up: bool, coef: i64) -> i128
    ensures { result ≡ signed_coef up coef }
{
    let term = i128::from(coef);
    if up { term } else { -term }
}

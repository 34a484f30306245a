//! The upper limits that are in force.
ghost use Rattle.std.specs.Prelude.{◌≡◌, ℕ, ℤ, ◌*◌, ◌<◌, length, Option, IfOk};
ghost use Rattle.pit_model.specs.Fitting.{RevisionsFit, revisions_of};
ghost use Rattle.pit_model.specs.Pit.{upper_of};
ghost use Rattle.pit_plan.specs.Inside.Plan.{with_writes};
ghost use Rattle.pit_plan.specs.Limits.{cell_limit, at_cell};
ghost use Rattle.pit_plan.specs.Inside.Limits.{by_cell};

use pit_model::Deposit;
use pit_num::NoMemory;
use std::alloc::Allocator;

/// An upper limit or none for each cell.
pub(crate) trait Limits {
    /// The limit of a cell.
    ghost limit_in: { Self → ℕ → Option ℤ };

    /// How many cells there are.
    ghost cells: { Self → ℕ };

    fn limit(&self, cell: u32) -> Option<i64>
        requires { cell < cells self.now }
        ensures { result ≡ limit_in self.now cell };
}

impl<A: Allocator + Drop> Limits for Vec<Option<i64>, A> {
    ghost limit_in = { λ limits. cell_limit limits.items };

    ghost cells = { λ limits. length limits.items };

    fn limit(&self, cell: u32) -> Option<i64> {
        self[cell as usize]
    }
}

/// The least upper bounds of a pit.
pub(crate) fn limits_of<A: Allocator + Copy + Drop>(
    alloc: A,
    pit: &Deposit<A>,
) -> Result<Vec<Option<i64>, A>, NoMemory>
    ensures len { IfOk result (λ limits. length limits.items ≡ pit.now.periods * pit.now.resources) }
    ensures each { IfOk result (λ limits. (r t : ℕ) → r < pit.now.resources → t < pit.now.periods → at_cell pit.now (cell_limit limits.items) r t ≡ upper_of pit.now r t) }
{
    pit.shows_sound();
    let cells = pit.periods() * pit.resources();
    let mut limits = Vec::with_capacity(alloc, cells as usize)?;
    for cell in 0..cells {
        limits.push(pit.upper(cell % pit.resources(), cell / pit.resources()))?;
    }
    Ok(limits)
}

/// Gives each revised cell its limit.
pub(crate) fn revise<A: Allocator + Copy + Drop>(
    pit: &Deposit<A>,
    limits: &mut Vec<Option<i64>, A>,
    revises: &[(u32, u32, Option<i64>)],
)
    requires len { length limits.old.items ≡ pit.now.periods * pit.now.resources }
    requires fits { RevisionsFit pit.now.resources pit.now.periods (revisions_of revises.now) }
    ensures { limits.new.items ≡ with_writes (λ v. v.1) limits.old.items (by_cell pit.now (revisions_of revises.now)) }
{
    for (resource, period, limit) in revises {
        limits[pit.cell(*resource, *period) as usize] = *limit;
    }
}

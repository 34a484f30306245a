//! A schedule with its loads and its value, which are moved by differences.
ghost use Rattle.std.specs.Prelude.{◌≡◌, ℕ, ◌*◌, ◌<◌, ◌+ℤ◌, ◌-ℤ◌, false, None, length, replicate, slice_index_or, slice_set, pos, FitsSigned, IfOk, IfSome};
ghost use Rattle.std.specs.Int.{w128};
ghost use Rattle.pit_model.specs.Fitting.{Fits};
ghost use Rattle.pit_plan.specs.Schedule.{by_block, coef_of};
ghost use Rattle.pit_plan.specs.Inside.Plan.{with_writes};
ghost use Rattle.pit_plan.specs.Inside.Totals.{cell_load, MovesIn, signed_coef, IsTally};
ghost use Rattle.pit_plan.specs.Limits.{at_cell};

use crate::loads::{Loads, plus, shift};
use crate::schedule::{Schedule, earned};
use pit_model::Deposit;
use pit_num::NoMemory;
use std::alloc::Allocator;
use std::marker::Model;

/// A period or none for each block, the load of each resource in each period, and the value.
#[derive(Drop)]
pub(crate) struct Tally<A: Allocator + Drop> {
    pub(crate) periods: Vec<Option<u32>, A>,
    pub(crate) loads: Vec<i128, A>,
    pub(crate) worth: i128,
}

impl<A: Allocator + Drop> Model for Tally<A> {
    ghost use Rattle.pit_plan.specs.Inside.Totals.{Tallied};

    ghost Value = { Tallied };

    ghost view = { λ t. record { periods = t.periods.items; loads = t.loads.items; worth = t.worth } };
}

impl<A: Allocator + Drop> Schedule for Tally<A> {
    ghost period_at = { λ tally. by_block tally.periods };

    ghost count = { λ tally. length tally.periods };

    fn period(&self, b: u32) -> Option<u32> {
        self.periods[b as usize]
    }
}

impl<A: Allocator + Copy + Drop> Tally<A> {
    /// No block has a period.
    pub(crate) fn none(alloc: A, pit: &Deposit<A>) -> Result<Tally<A>, NoMemory>
        ensures tally { IfOk result (IsTally pit.now) }
        ensures periods { IfOk result (λ tally. tally.periods ≡ replicate pit.now.blocks None) }
    {
        let periods = vec![in alloc; None; pit.blocks() as usize]?;
        let loads = vec![in alloc; 0; (pit.periods() * pit.resources()) as usize]?;
        Ok(Tally {
            periods,
            loads,
            worth: 0,
        })
    }

    /// Gives each written block its period.
    pub(crate) fn write(&mut self, pit: &Deposit<A>, writes: &[(u32, Option<u32>)])
        requires tally { IsTally pit.now self.old }
        requires fits { Fits pit.now.blocks pit.now.periods writes.now }
        ensures periods { self.new.periods ≡ with_writes (λ w. w.1) self.old.periods writes.now }
        ensures tally { IsTally pit.now self.new }
    {
        for (block, period) in writes {
            self.take_out(pit, *block);
            self.put_in(pit, *block, *period);
        }
    }

    /// Takes a block out of its period.
    fn take_out(&mut self, pit: &Deposit<A>, b: u32)
        requires tally { IsTally pit.now self.old }
        requires known { b < pit.now.blocks }
        ensures periods { self.new.periods ≡ slice_set self.old.periods b None }
        ensures tally { IsTally pit.now self.new }
    {
        pit.shows_sound();
        let old = self.periods[b as usize];
        self.periods[b as usize] = None;
        shift_kept(pit, &mut self.loads, b, old, false);
        self.worth = minus(self.worth, earned(pit, b, old));
    }

    /// Puts a block that has no period into one, or into none.
    fn put_in(&mut self, pit: &Deposit<A>, b: u32, period: Option<u32>)
        requires tally { IsTally pit.now self.old }
        requires known { b < pit.now.blocks }
        requires none { by_block self.old.periods b ≡ None }
        requires in_range { IfSome period (λ t. t < pit.now.periods) }
        ensures periods { self.new.periods ≡ slice_set self.old.periods b period }
        ensures tally { IsTally pit.now self.new }
    {
        pit.shows_sound();
        self.periods[b as usize] = period;
        shift_kept(pit, &mut self.loads, b, period, true);
        self.worth = plus(self.worth, earned(pit, b, period));
    }
}

/// The loads of all cells, which began with 0.
impl<A: Allocator + Drop> Loads for Vec<i128, A> {
    ghost load_in = { λ loads. cell_load loads.items };

    ghost base = { λ loads. replicate (length loads.items) (pos 0) };

    ghost is_sound = { λ loads. Unit {0} };

    ghost can_refuse = { false };

    fn add(&mut self, cell: u32, term: i128) -> Result<(), NoMemory> {
        add_at(self, cell as usize, term);
        Ok(())
    }
}

/// Moves the loads of all cells, which is never refused.
fn shift_kept<A: Allocator + Copy + Drop>(
    pit: &Deposit<A>,
    loads: &mut Vec<i128, A>,
    b: u32,
    period: Option<u32>,
    up: bool,
)
    requires known { b < pit.now.blocks }
    requires period { IfSome period (λ t. t < pit.now.periods) }
    requires len { length loads.old.items ≡ pit.now.periods * pit.now.resources }
    requires room { IfSome period (λ t. (r : ℕ) → r < pit.now.resources
        → FitsSigned w128 (at_cell pit.now (cell_load loads.old.items) r t +ℤ signed_coef up (coef_of pit.now b r))) }
    ensures len { length loads.new.items ≡ length loads.old.items }
    ensures moves { MovesIn pit.now (at_cell pit.now (cell_load loads.old.items)) period (λ r. signed_coef up (coef_of pit.now b r))
        (at_cell pit.now (cell_load loads.new.items)) }
{
    let _never_refused = shift(pit, loads, b, period, up);
}

/// A difference that stays in range.
fn minus(sum: i128, term: i128) -> i128
    requires { FitsSigned w128 (sum -ℤ term) }
    ensures { result ≡ sum -ℤ term }
{
    sum - term
}

/// Adds to a cell.
fn add_at<A: Allocator + Drop>(loads: &mut Vec<i128, A>, at: usize, term: i128)
    requires within { at < length loads.old.items }
    requires room { FitsSigned w128 (slice_index_or loads.old.items at (pos 0) +ℤ term) }
    ensures { loads.new.items ≡ slice_set loads.old.items at (slice_index_or loads.old.items at (pos 0) +ℤ term) }
{
    loads[at] += term;
}

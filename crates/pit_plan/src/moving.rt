//! Loads as writes leave them.
ghost use Rattle.std.specs.Prelude.{◌≡◌, ◌≢◌, ℕ, ◌+◌, ◌*◌, ◌<◌, true, None, [], length, take, IfOk, IfErr, OnOk};
ghost use Rattle.pit_model.specs.Fitting.{Fits, RevisionsFit, revisions_of};
ghost use Rattle.pit_plan.specs.Inside.Totals.{cell_load, IsTally};
ghost use Rattle.pit_plan.specs.Inside.Limits.{by_cell};
ghost use Rattle.pit_plan.specs.Inside.Touched.{overlaid_item, IsNamed, AreMoved, SetsCell, LooksAt};

use crate::cell_list::CellList;
use crate::loads::{Loads, plus, shift};
use crate::schedule::Schedule;
use crate::tally::Tally;
use pit_model::Deposit;
use pit_num::NoMemory;
use std::alloc::Allocator;

/// Loads, over which those that are moved are laid, each by its cell.
#[derive(Drop)]
pub(crate) struct Moved<'a, A: Allocator + Copy + Drop> {
    pub(crate) kept: &'a [i128],
    pub(crate) cells: CellList<A>,
}

impl<'a, A: Allocator + Copy + Drop> Loads for Moved<'a, A> {
    ghost load_in = { λ loads. overlaid_item (cell_load loads.kept.now) loads.cells };

    ghost base = { λ loads. loads.kept.now };

    ghost is_sound = { λ loads. (cell : ℕ) → IsNamed loads.cells cell → cell < length loads.kept.now };

    ghost can_refuse = { true };

    fn add(&mut self, cell: u32, term: i128) -> Result<(), NoMemory> {
        let load = plus(load_of(self.kept, &self.cells, cell), term);
        self.cells.set(cell, load)
    }
}

/// The load of a cell: the one that it was moved to, else the one that is kept.
fn load_of<A: Allocator + Copy + Drop>(kept: &[i128], moved: &CellList<A>, cell: u32) -> i128
    requires { cell < length kept.now }
    ensures { result ≡ overlaid_item (cell_load kept.now) moved.now cell }
{
    match moved.load(cell) {
        Some(load) => load,
        None => kept[cell as usize],
    }
}

/// The loads as the writes leave them.
pub(crate) fn moved_loads<'a, A: Allocator + Copy + Drop>(
    alloc: A,
    pit: &Deposit<A>,
    tally: &'a Tally<A>,
    writes: &[(u32, Option<u32>)],
) -> Result<Moved<'a, A>, NoMemory>
    requires tally { IsTally pit.now tally.now }
    requires fits { Fits pit.now.blocks pit.now.periods writes.now }
    ensures { IfOk result (λ loads. AreMoved pit.now tally.now writes.now loads.kept.now loads.cells) }
{
    let mut loads = Moved {
        kept: &tally.loads,
        cells: CellList::new(alloc)?,
    };
    for k in 0..writes.len() {
        move_block(pit, tally, writes, k, &mut loads)?;
    }
    Ok(loads)
}

/// Moves the loads by one more write.
fn move_block<'a, A: Allocator + Copy + Drop>(
    pit: &Deposit<A>,
    tally: &Tally<A>,
    writes: &[(u32, Option<u32>)],
    k: usize,
    loads: &mut Moved<'a, A>,
) -> Result<(), NoMemory>
    requires tally { IsTally pit.now tally.now }
    requires fits { Fits pit.now.blocks pit.now.periods writes.now }
    requires within { k < length writes.now }
    requires moved { AreMoved pit.now tally.now (take k writes.now) loads.old.kept.now loads.old.cells }
    ensures { OnOk result (AreMoved pit.now tally.now (take (k + 1) writes.now) loads.new.kept.now loads.new.cells) }
{
    pit.shows_sound();
    let (block, period) = writes[k];
    shift(pit, loads, block, tally.period(block), false)?;
    shift(pit, loads, block, period, true)?;
    Ok(())
}

/// Adds each revised cell to those that are moved, with the load that it has.
pub(crate) fn look_at_revised<'a, A: Allocator + Copy + Drop>(
    pit: &Deposit<A>,
    revises: &[(u32, u32, Option<i64>)],
    loads: &mut Moved<'a, A>,
) -> Result<(), NoMemory>
    requires fits { RevisionsFit pit.now.resources pit.now.periods (revisions_of revises.now) }
    requires each { length loads.old.kept.now ≡ pit.now.periods * pit.now.resources }
    requires in_range { (cell : ℕ) → IsNamed loads.old.cells cell → cell < length loads.old.kept.now }
    ensures looks { OnOk result (LooksAt (by_cell pit.now (revisions_of revises.now)) loads.old.kept.now loads.old.cells loads.new.kept.now loads.new.cells) }
    ensures refused { IfErr result (λ e. revises.now ≢ []) }
{
    for (resource, period, _) in revises {
        look_at(loads, pit.cell(*resource, *period))?;
    }
    Ok(())
}

/// Adds a cell to those that are moved, with the load that it has.
fn look_at<'a, A: Allocator + Copy + Drop>(
    loads: &mut Moved<'a, A>,
    cell: u32,
) -> Result<(), NoMemory>
    requires within { cell < length loads.old.kept.now }
    ensures stays { OnOk result (loads.new.kept.now ≡ loads.old.kept.now) }
    ensures sets { OnOk result (SetsCell loads.old.cells cell (overlaid_item (cell_load loads.old.kept.now) loads.old.cells cell) loads.new.cells) }
{
    let load = load_of(loads.kept, &loads.cells, cell);
    loads.cells.set(cell, load)
}

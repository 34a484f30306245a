//! Cells, each with a load.
ghost use Rattle.std.specs.Prelude.{◌≡◌, ◌<◌, [], length, nat_eq, slice_index_or, pos, Some, IfOk, IfSome, IfNone, OnOk};
ghost use Rattle.std.specs.Map.{lookup};
ghost use Rattle.pit_plan.specs.Inside.Touched.{SetsCell};
ghost use Rattle.pit_plan.specs.Inside.CellLists.{IsFirstOf};

use crate::overlay::Pairs;
use indexmap::IndexMap;
use pit_num::NoMemory;
use std::alloc::Allocator;
use std::hash::BuildHasherDefault;
use std::marker::Model;

/// So many cells are kept in a list that is searched. A block of a few resources that moves from one period to another touches no more.
const SEARCHED_CELLS: usize = 8;

/// Cells, each once with its load, in the order of first use: the first ones in a list, and the others in a map. A list takes memory once, and no hash.
#[derive(Drop)]
pub(crate) struct CellList<A: Allocator + Copy + Drop> {
    few: Vec<(u32, i128), A>,
    others: Pairs<i128, A>,
}

impl<A: Allocator + Copy + Drop> Model for CellList<A> {
    ghost use Rattle.std.specs.Prelude.{List, ℕ, ℤ, ◌++◌};
    ghost use Rattle.pit_plan.specs.Inside.CellLists.{AreOnce};

    ghost Value = { List (ℕ × ℤ) };

    ghost view = { λ c. c.few.items ++ c.others.entries };

    ghost invariant = { λ c. AreOnce (c.few.items ++ c.others.entries) };
}

impl<A: Allocator + Copy + Drop> CellList<A> {
    /// No cell.
    pub(crate) fn new(alloc: A) -> Result<CellList<A>, NoMemory>
        ensures { IfOk result (λ cells. cells ≡ []) }
    {
        Ok(CellList {
            few: Vec::with_capacity(alloc, SEARCHED_CELLS)?,
            others: IndexMap::with_hasher(alloc, BuildHasherDefault::new()),
        })
    }

    /// How many there are.
    pub(crate) fn len(&self) -> usize
        ensures { result ≡ length self.now }
    {
        self.few.len() + self.others.len()
    }

    /// The load of a cell that is there.
    pub(crate) fn load(&self, cell: u32) -> Option<i128>
        ensures { result ≡ lookup (nat_eq cell) self.now }
    {
        if let Some(i) = place_of(&self.few, cell) {
            return Some(self.few[i].1);
        }
        self.others.get(&cell).copied()
    }

    /// Gives a cell a load. A cell that is there keeps its place.
    pub(crate) fn set(&mut self, cell: u32, load: i128) -> Result<(), NoMemory>
        ensures { OnOk result (SetsCell self.old cell load self.new) }
    {
        if let Some(i) = place_of(&self.few, cell) {
            self.few[i] = (cell, load);
            return Ok(());
        }
        if self.few.len() < SEARCHED_CELLS && self.others.is_empty() {
            self.few.push((cell, load))?;
            return Ok(());
        }
        self.others.insert(cell, load)?;
        Ok(())
    }

    /// The cell at this place, with its load.
    pub(crate) fn at(&self, i: usize) -> (u32, i128)
        requires { i < length self.now }
        ensures cell { result.0 ≡ (slice_index_or self.now i (0, pos 0)).0 }
        ensures load { lookup (nat_eq result.0) self.now ≡ Some result.1 }
    {
        if i < self.few.len() {
            return self.few[i];
        }
        match self.others.get_index(i - self.few.len()) {
            Some((cell, load)) => (*cell, *load),
            None => unreachable!(),
        }
    }
}

/// Where a cell first stands in a list.
fn place_of(few: &[(u32, i128)], cell: u32) -> Option<usize>
    ensures some { IfSome result (λ i. IsFirstOf few.now cell i) }
    ensures none { IfNone result (lookup (nat_eq cell) few.now ≡ None) }
{
    for i in 0..few.len() {
        if few[i].0 == cell {
            return Some(i);
        }
    }
    None
}

ghost use Rattle.std.specs.Prelude.{◌≡◌, ◌==◌, not, ℕ, ◌<◌, [], None, IfOk, IsTrue, is_some, length, replicate, slice_index_or, slice_set, OnOk, OnErr};
ghost use Rattle.std.specs.List.{All, filter, list_any};
ghost use Rattle.std.specs.List.Sorted.{IsStrictlyIncreasing};
ghost use Rattle.pit_model.specs.Pit.{preds_from, preds_in, with_preds_in};
ghost use Rattle.pit_model.specs.Inside.PredecessorRows.{no_cells};

use crate::block_set::BlockSet;
use pit_num::NoMemory;
use std::alloc::Allocator;
use std::marker::Model;

/// The predecessors of each block, rising, in one array.
#[derive(Drop)]
pub(crate) struct Predecessors<A: Allocator + Drop> {
    blocks: u32,
    /// The blocks whose predecessors are set.
    set: BlockSet<A>,
    cells: Vec<u32, A>,
    /// By block; empty until a block has some.
    rows: Vec<Row, A>,
}

/// Where the predecessors of a block stand among the cells.
#[derive(Clone, Copy)]
struct Row {
    start: usize,
    end: usize,
}

impl<A: Allocator + Drop> Model for Predecessors<A> {
    ghost use Rattle.std.specs.Prelude.{ℕ, List, Option};

    ghost Value = { List (Option (List ℕ)) };

    ghost use Rattle.pit_model.specs.Inside.PredecessorRows.{rows_in, ArePredecessorRows};

    ghost view = { λ preds. rows_in preds.blocks preds.set preds.cells.items preds.rows.items };

    ghost invariant = { λ preds. ArePredecessorRows preds.blocks preds.set preds.cells.items preds.rows.items };
}

impl<A: Allocator + Copy + Drop> Predecessors<A> {
    /// None is set of any block. Takes no memory.
    pub(crate) fn new(alloc: A, blocks: u32) -> Predecessors<A>
        ensures { result ≡ replicate blocks None }
    {
        Predecessors {
            blocks,
            set: BlockSet::new(alloc),
            cells: Vec::new(alloc),
            rows: Vec::new(alloc),
        }
    }

    /// How many blocks there are.
    pub(crate) fn blocks(&self) -> u32
        ensures { result ≡ length self.now }
    {
        self.blocks
    }

    /// Whether no block has any.
    pub(crate) fn has_none(&self) -> bool
        ensures { IsTrue result → (b : ℕ) → preds_in self.now b ≡ [] }
    {
        self.cells.is_empty()
    }

    /// Whether the predecessors of a block were set.
    pub(crate) fn is_set(&self, b: u32) -> bool
        requires { b < length self.now }
        ensures { result ≡ is_some (slice_index_or self.now b None) }
    {
        self.set.contains(b)
    }

    /// The predecessors of a block.
    pub(crate) fn row(&self, b: u32) -> &[u32]
        requires { b < length self.now }
        ensures { result.now ≡ preds_in self.now b }
    {
        let row = row_at(&self.rows, b);
        &self.cells[row.start..row.end]
    }

    /// Sets the predecessors of a block, once.
    pub(crate) fn set(&mut self, b: u32, listed: &[u32]) -> Result<(), NoMemory>
        requires block { b < length self.old }
        requires listed { All (λ a. a < length self.old) listed.now }
        requires unset { slice_index_or self.old b None ≡ None }
        ensures ok { OnOk result (self.new ≡ with_preds_in self.old b listed.now) }
        ensures err { OnErr result (self.new ≡ self.old) }
    {
        if !is_listed(b, listed) && is_rising(listed) {
            return self.set_row(b, listed);
        }
        let others = others(*self.cells.allocator(), b, listed)?;
        self.set_row(b, &others)
    }

    /// Sets the row of a block that has none.
    fn set_row(&mut self, b: u32, row: &[u32]) -> Result<(), NoMemory>
        requires block { b < length self.old }
        requires unset { slice_index_or self.old b None ≡ None }
        ensures ok { OnOk result (self.new ≡ slice_set self.old b (Some row.now)) }
        ensures err { OnErr result (self.new ≡ self.old) }
    {
        if row.is_empty() {
            return self.set_empty(b);
        }
        self.append(b, row)
    }

    /// Sets that a block has none. No row is written.
    fn set_empty(&mut self, b: u32) -> Result<(), NoMemory>
        requires block { b < length self.old }
        requires unset { slice_index_or self.old b None ≡ None }
        ensures ok { OnOk result (self.new ≡ slice_set self.old b (Some [])) }
        ensures err { OnErr result (self.new ≡ self.old) }
    {
        self.set.reserve(self.blocks)?;
        self.set.insert(b);
        Ok(())
    }

    /// Puts the row of a block behind those of the others.
    fn append(&mut self, b: u32, row: &[u32]) -> Result<(), NoMemory>
        requires { b < length self.old }
        ensures ok { OnOk result (self.new ≡ slice_set self.old b (Some row.now)) }
        ensures err { OnErr result (self.new ≡ self.old) }
    {
        self.set.reserve(self.blocks)?;
        self.rows.resize(self.blocks as usize, no_row())?;
        let start = self.cells.len();
        self.cells.extend_from_slice(row)?;
        let end = self.cells.len();
        self.rows[b as usize] = Row { start, end };
        self.set.insert(b);
        Ok(())
    }
}

fn row_at(rows: &[Row], b: u32) -> Row
    ensures { result ≡ slice_index_or rows.now b no_cells }
{
    if (b as usize) < rows.len() {
        rows[b as usize]
    } else {
        no_row()
    }
}

fn no_row() -> Row
    ensures { result ≡ no_cells }
{
    Row { start: 0, end: 0 }
}

fn is_listed(b: u32, listed: &[u32]) -> bool
    ensures { result ≡ list_any (λ a. a == b) listed.now }
{
    listed.iter().any(|a| *a == b)
}

fn is_rising(listed: &[u32]) -> bool
    ensures { IsTrue result → IsStrictlyIncreasing listed.now }
{
    for i in 1..listed.len() {
        if listed[i - 1] >= listed[i] {
            return false;
        }
    }
    true
}

/// The listed blocks other than this one, rising, each once.
fn others<A: Allocator + Copy + Drop>(
    alloc: A,
    b: u32,
    listed: &[u32],
) -> Result<Vec<u32, A>, NoMemory>
    ensures { (blocks : ℕ) → All (λ a. a < blocks) listed.now → IfOk result (λ others. others.items ≡ preds_from blocks b listed.now) }
{
    let mut others = all_but(alloc, b, listed)?;
    others.sort_unstable();
    others.dedup();
    Ok(others)
}

fn all_but<A: Allocator + Copy + Drop>(
    alloc: A,
    b: u32,
    listed: &[u32],
) -> Result<Vec<u32, A>, NoMemory>
    ensures { IfOk result (λ others. others.items ≡ filter (λ a. not (a == b)) listed.now) }
{
    Ok(listed.iter().copied().filter(|a| *a != b).collect(alloc)?)
}

//! The profits of the blocks.
ghost use Rattle.std.specs.Prelude.{◌≡◌, ◌<◌, None, Some, is_some, length, replicate, slice_index_or, slice_set, IfOk};

use crate::block_set::BlockSet;
use pit_num::NoMemory;
use std::alloc::Allocator;
use std::marker::Model;

/// The profit of each block.
#[derive(Drop)]
pub(crate) struct Profits<A: Allocator + Drop> {
    values: Vec<i64, A>,
    /// The blocks whose profit is set.
    set: BlockSet<A>,
}

impl<A: Allocator + Drop> Model for Profits<A> {
    ghost use Rattle.std.specs.Prelude.{ℤ, ◌≤◌, List, Option, length};
    ghost use Rattle.pit_model.specs.Inside.Profits.{profits_in};

    ghost Value = { List (Option ℤ) };

    ghost view = { λ p. profits_in p.values.items p.set };

    ghost invariant = { λ p. length p.values.items ≤ length p.set };
}

impl<A: Allocator + Copy + Drop> Profits<A> {
    /// No profit is set.
    pub(crate) fn new(alloc: A, blocks: u32) -> Result<Profits<A>, NoMemory>
        ensures { IfOk result (λ profits. profits ≡ replicate blocks None) }
    {
        let values = vec![in alloc; 0i64; blocks as usize]?;
        let mut set = BlockSet::new(alloc);
        set.reserve(blocks)?;
        Ok(Profits { values, set })
    }

    /// Whether the profit of a block was set.
    pub(crate) fn is_set(&self, b: u32) -> bool
        requires { b < length self.now }
        ensures { result ≡ is_some (slice_index_or self.now b None) }
    {
        self.set.contains(b)
    }

    /// The profit of a block, where it was set.
    pub(crate) fn profit(&self, b: u32) -> Option<i64>
        requires { b < length self.now }
        ensures { result ≡ slice_index_or self.now b None }
    {
        if self.is_set(b) {
            Some(self.values[b as usize])
        } else {
            None
        }
    }

    /// Sets the profit of a block.
    pub(crate) fn set(&mut self, b: u32, v: i64)
        requires { b < length self.old }
        ensures { self.new ≡ slice_set self.old b (Some v) }
    {
        self.set.insert(b);
        self.values[b as usize] = v;
    }
}

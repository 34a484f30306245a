//! Sets of blocks.
ghost use Rattle.std.specs.Prelude.{◌≡◌, ◌≢◌, ℕ, ◌<◌, ◌≤◌, [], true, false, length, slice_index_or, slice_set, Contains, OnOk};

use pit_num::{NoMemory, has_bit, with_bit};
use std::alloc::Allocator;
use std::marker::Model;

/// A set of blocks, 64 of them to a word. So the set is small, and a block that comes out of order is mostly found in the caches.
///
/// Contracts see whether each block is in it, as far as it has room.
#[derive(Drop)]
pub struct BlockSet<A: Allocator + Drop> {
    words: Vec<u64, A>,
}

impl<A: Allocator + Drop> Model for BlockSet<A> {
    ghost use Rattle.std.specs.Prelude.{Bool, List};
    ghost use Rattle.pit_model.specs.BlockSet.{blocks_in};

    ghost Value = { List Bool };

    ghost view = { λ set. blocks_in set.words.items };
}

impl<A: Allocator + Copy + Drop> BlockSet<A> {
    /// An empty set. Takes no memory.
    pub fn new(alloc: A) -> BlockSet<A>
        ensures { result ≡ [] }
    {
        BlockSet {
            words: Vec::new(alloc),
        }
    }

    /// Makes room for so many blocks.
    pub fn reserve(&mut self, blocks: u32) -> Result<(), NoMemory>
        ensures room { OnOk result (blocks ≤ length self.new) }
        ensures same { (b : ℕ) → slice_index_or self.new b false ≡ slice_index_or self.old b false }
    {
        let words = self.words.len().max(blocks as usize / 64 + 1);
        self.words.resize(words, 0)?;
        Ok(())
    }

    /// Whether a block is in the set.
    pub fn contains(&self, b: u32) -> bool
        ensures { result ≡ slice_index_or self.now b false }
    {
        if b as usize / 64 >= self.words.len() {
            return false;
        }
        has_bit(self.words[b as usize / 64], b % 64)
    }

    /// Puts a block into the set, which has room for it.
    pub fn insert(&mut self, b: u32)
        requires { b < length self.old }
        ensures { self.new ≡ slice_set self.old b true }
    {
        let word = with_bit(self.words[b as usize / 64], b % 64);
        self.words[b as usize / 64] = word;
    }

    /// Takes all blocks out, where these are all that are in it. The room stays. Takes no memory.
    pub fn clear(&mut self, blocks: &[u32])
        requires all { (b : ℕ) → slice_index_or self.old b false ≡ true → Contains blocks.now b }
        ensures none { (b : ℕ) → slice_index_or self.new b false ≡ false }
        ensures room { length self.new ≡ length self.old }
    {
        for b in blocks {
            self.clear_word(*b);
        }
    }

    /// Takes out a block, and with it those of its word.
    fn clear_word(&mut self, b: u32)
        ensures less { (c : ℕ) → slice_index_or self.new c false ≡ true → (slice_index_or self.old c false ≡ true) × (c ≢ b) }
        ensures room { length self.new ≡ length self.old }
    {
        let word = b as usize / 64;
        if word >= self.words.len() {
            return;
        }
        self.words[word] = 0;
    }
}

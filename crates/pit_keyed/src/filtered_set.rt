//! Maps of numbers, for callers who mostly look for numbers that aren't there.
ghost use Rattle.std.specs.Prelude.{◌≡◌, ◌≤◌, [], ◌∷◌, ◌++◌, None, nat_eq, OnOk, OnErr, IfOk};
ghost use Rattle.pit_keyed.specs.Keyed.{IsFurther, at_key, with_read};

use crate::inserting::insert;
use crate::keys::Keys;
use indexmap::IndexMap;
use pit_num::{NoMemory, has_bit, with_bit};
use std::alloc::Allocator;
use std::marker::Model;

/// An `IndexMap` of numbers with a filter (Bloom 1970) of two words: for each number `n` that is there, bit `n % 64` of the first word is set, and
/// bit `n / 64 % 64` of the second. So a number is looked for only where both its bits are set. Contracts see it as the list of its pairs.
#[derive(Drop)]
pub struct FilteredSet<V: Copy, A: Allocator + Copy + Drop> {
    map: IndexMap<u32, V, Keys, A>,
    low: u64,
    high: u64,
}

impl<V: Copy, A: Allocator + Copy + Drop> Model for FilteredSet<V, A> {
    ghost use Rattle.std.specs.Prelude.{List, ℕ};

    ghost Value = { List (ℕ × V) };

    ghost use Rattle.pit_keyed.specs.Keyed.{HasFirstRoom};
    ghost use Rattle.pit_keyed.specs.Inside.Filter.{AreFiltersOf};

    ghost view = { λ s. s.map.entries };

    ghost invariant = { λ s. HasFirstRoom s.map × AreFiltersOf s.map.entries s.low s.high };
}

impl<V: Copy, A: Allocator + Copy + Drop> FilteredSet<V, A> {
    /// An empty set with room for so many pairs, whose numbers are hashed by these keys. Takes memory for these pairs alone.
    pub fn new(alloc: A, keys: Keys, room: usize) -> Result<Self, NoMemory>
        requires { 1 ≤ room }
        ensures { IfOk result (λ set. set ≡ []) }
    {
        Ok(FilteredSet {
            map: IndexMap::with_capacity_and_hasher(alloc, room, keys)?,
            low: 0,
            high: 0,
        })
    }

    /// The pairs, in their order.
    pub fn map(&self) -> &IndexMap<u32, V, Keys, A>
        ensures { result.now.entries ≡ self.now }
    {
        &self.map
    }

    /// Takes all pairs out. Their room stays. Takes no memory.
    pub fn clear(&mut self)
        ensures { self.new ≡ [] }
    {
        self.map.clear();
        self.low = 0;
        self.high = 0;
    }

    /// The value of a number, if it is there.
    pub fn get(&self, key: u32) -> Option<V>
        ensures { result ≡ at_key nat_eq self.now key }
    {
        if !has_bit(self.low, key % 64) {
            return None;
        }
        if !has_bit(self.high, key / 64 % 64) {
            return None;
        }
        match self.map.get(&key) {
            Some(value) => Some(*value),
            None => None,
        }
    }

    /// Notes a number with a value, unless the number is there.
    pub fn note(&mut self, key: u32, value: V) -> Result<(), NoMemory>
        ensures ok { OnOk result (self.new ≡ with_read nat_eq self.old key value) }
        ensures err { OnErr result (self.new ≡ self.old) }
        ensures memory { OnErr result (IsFurther nat_eq self.old key) }
    {
        match self.get(key) {
            Some(_) => Ok(()),
            None => self.add(key, value),
        }
    }

    /// Puts a number last that isn't there. Takes memory where the set has others.
    pub fn add(&mut self, key: u32, value: V) -> Result<(), NoMemory>
        requires { at_key nat_eq self.old key ≡ None }
        ensures ok { OnOk result (self.new ≡ self.old ++ (key, value) ∷ []) }
        ensures err { OnErr result (self.new ≡ self.old) }
        ensures memory { OnErr result (IsFurther nat_eq self.old key) }
    {
        insert(&mut self.map, key, value)?;
        self.low = with_bit(self.low, key % 64);
        self.high = with_bit(self.high, key / 64 % 64);
        Ok(())
    }
}

//! The places of the blocks.
ghost use Rattle.std.specs.Prelude.{◌≡◌, ◌<◌, None, Some, length, replicate, slice_index_or, slice_set, OnOk, OnErr};

use pit_num::NoMemory;
use std::alloc::Allocator;
use std::marker::Model;

/// The place of each block. Its memory is taken with the first one that is set.
#[derive(Drop)]
pub(crate) struct Places<A: Allocator + Drop> {
    blocks: u32,
    places: Vec<Option<(i64, i64, i64)>, A>,
}

impl<A: Allocator + Drop> Model for Places<A> {
    ghost use Rattle.std.specs.Prelude.{ℤ, List, Option};
    ghost use Rattle.pit_model.specs.Inside.Places.{places_in, IsPlaceList};

    ghost Value = { List (Option (ℤ × ℤ × ℤ)) };

    ghost view = { λ p. places_in p.blocks p.places.items };

    ghost invariant = { λ p. IsPlaceList p.blocks p.places.items };
}

impl<A: Allocator + Copy + Drop> Places<A> {
    /// No place is set. Takes no memory.
    pub(crate) fn new(alloc: A, blocks: u32) -> Places<A>
        ensures { result ≡ replicate blocks None }
    {
        Places {
            blocks,
            places: Vec::new(alloc),
        }
    }

    /// The place of a block, where it was set.
    pub(crate) fn place(&self, b: u32) -> Option<(i64, i64, i64)>
        requires { b < length self.now }
        ensures { result ≡ slice_index_or self.now b None }
    {
        if self.places.is_empty() {
            return None;
        }
        self.places[b as usize]
    }

    /// Sets the place of a block.
    pub(crate) fn set(&mut self, b: u32, place: (i64, i64, i64)) -> Result<(), NoMemory>
        requires { b < length self.old }
        ensures ok { OnOk result (self.new ≡ slice_set self.old b (Some place)) }
        ensures err { OnErr result (self.new ≡ self.old) }
    {
        if self.places.is_empty() {
            let alloc = *self.places.allocator();
            self.places = vec![in alloc; None; self.blocks as usize]?;
        }
        self.places[b as usize] = Some(place);
        Ok(())
    }
}

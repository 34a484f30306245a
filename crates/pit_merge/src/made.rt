use std::alloc::Allocator;
use std::marker::Model;

/// An edit, with its base.
#[derive(Drop)]
pub(crate) struct Made<A: Allocator + Drop> {
    pub(crate) number: u32,
    pub(crate) start: u32,
    pub(crate) base: Vec<Option<u32>, A>,
    pub(crate) wanted: Vec<Option<u32>, A>,
}

impl<A: Allocator + Drop> Model for Made<A> {
    ghost use Rattle.pit_edit.specs.Changes.{Edit as EditState};

    ghost Value = { EditState };

    ghost view = { λ m. record { number = m.number; start = m.start; base = m.base.items; wanted = m.wanted.items } };
}

use pit_desk::Entry;
use pit_model::Deposit;
use std::alloc::Allocator;
use std::marker::Model;

/// What edits are read on: a pit, the entries that the merge began with, and whether they are those of a history.
#[derive(Drop)]
pub(crate) struct Ground<'g, A: Allocator + Copy + Drop> {
    pub(crate) pit: &'g Deposit<A>,
    pub(crate) ours: &'g [Entry<A>],
    pub(crate) is_resumed: bool,
}

impl<'g, A: Allocator + Copy + Drop> Model for Ground<'g, A> {
    ghost use Rattle.pit_merge.specs.Edits.{Ground as GroundState};

    ghost Value = { GroundState };

    ghost view = { λ g. record { pit = g.pit.now; ours = g.ours.now; is_resumed = g.is_resumed } };
}

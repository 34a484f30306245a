//! What is left of a workspace.
ghost use Rattle.std.specs.Prelude.{◌≡◌};

use pit_desk::{Desk, Entry};
use std::alloc::Allocator;
use std::marker::Model;

/// The desk of a workspace that was closed, and the items of its logs. They are freed with it, or by `into_desk`. That takes long, and a program that
/// ends may leave it out. Contracts see it as they see the desk.
#[derive(Drop)]
pub struct Closed<A: Allocator + Copy + Drop> {
    desk: Desk<A>,
    items: Vec<Vec<Entry<A>, A>, A>,
}

impl<A: Allocator + Copy + Drop> Model for Closed<A> {
    ghost use Rattle.pit_desk.specs.State.{State};

    ghost Value = { State };

    ghost view = { λ c. c.desk };
}

impl<A: Allocator + Copy + Drop> Closed<A> {
    pub(crate) fn new(desk: Desk<A>, items: Vec<Vec<Entry<A>, A>, A>) -> Closed<A>
        ensures { result ≡ desk }
    {
        Closed { desk, items }
    }

    /// The desk.
    pub fn desk(&self) -> &Desk<A>
        ensures { result.now ≡ self.now }
    {
        &self.desk
    }

    /// The desk, which may be opened as another workspace. Frees the items.
    pub fn into_desk(self) -> Desk<A>
        ensures { result ≡ self }
    {
        let Closed {
            desk,
            items: _items,
        } = self;
        desk
    }
}

//! An edit: a schedule that somebody made from another.
ghost use Rattle.std.specs.Prelude.{◌≡◌, ◌<◌, length};
ghost use Rattle.pit_edit.specs.Changes.{base_of, wanted_of};

use std::marker::Model;

/// The schedule that somebody made, and the one that it was made from. Contracts see both as lists of periods.
#[derive(Drop)]
pub struct Edit<'a> {
    /// Its number, from 1, which is the planner's that its transaction has.
    pub number: u32,
    /// How many commits its base has.
    pub start: u32,
    /// The period of each block in the base, or none.
    pub base: &'a [Option<u32>],
    /// The period of each block in the edit, or none.
    pub wanted: &'a [Option<u32>],
}

impl<'a> Model for Edit<'a> {
    ghost use Rattle.pit_edit.specs.Changes.{Edit as EditState};

    ghost Value = { EditState };

    ghost view = { λ e. record { number = e.number; start = e.start; base = e.base.now; wanted = e.wanted.now } };
}

impl<'a> Edit<'a> {
    /// The period of a block in the base, or none.
    pub(crate) fn base_period(&self, b: u32) -> Option<u32>
        requires { b < length self.now.base }
        ensures { result ≡ base_of self.now b }
    {
        self.base[b as usize]
    }

    /// The period of a block in the edit, or none.
    pub(crate) fn wanted_period(&self, b: u32) -> Option<u32>
        requires { b < length self.now.wanted }
        ensures { result ≡ wanted_of self.now b }
    {
        self.wanted[b as usize]
    }
}

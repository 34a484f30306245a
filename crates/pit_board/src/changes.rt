//! What a commit changes.
ghost use Rattle.std.specs.Prelude.{◌≡◌, IfOk};
ghost use Rattle.pit_model.specs.Fitting.{revisions_of};

use pit_desk::{Pairs, Revisions};
use pit_num::NoMemory;
use std::alloc::Allocator;
use std::marker::Model;

/// The writes and the revisions of a commit, in the order of first use.
#[derive(Drop)]
pub struct Changes<A: Allocator + Drop> {
    writes: Pairs<A>,
    revises: Revisions<A>,
}

impl<A: Allocator + Drop> Model for Changes<A> {
    ghost use Rattle.pit_plan.specs.Schedule.{Commit};

    ghost Value = { Commit };

    ghost view = { λ c. record { writes = c.writes; revises = c.revises } };
}

impl<A: Allocator + Copy + Drop> Changes<A> {
    /// A copy of what a commit writes and revises.
    pub fn copied(
        alloc: A,
        writes: &[(u32, Option<u32>)],
        revises: &[(u32, u32, Option<i64>)],
    ) -> Result<Changes<A>, NoMemory>
        ensures { IfOk result (λ changes. changes ≡ record { writes = writes.now; revises = revisions_of revises.now }) }
    {
        let writes = Vec::from_slice(alloc, writes)?;
        let revises = Vec::from_slice(alloc, revises)?;
        Ok(Changes {
            writes: Pairs::new(writes),
            revises: Revisions::new(revises),
        })
    }

    /// Blocks, each with a period or none.
    pub fn writes(&self) -> &[(u32, Option<u32>)]
        ensures { result.now ≡ self.now.writes }
    {
        self.writes.items()
    }
}

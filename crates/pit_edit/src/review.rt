//! What is known of an edit before it is committed.
ghost use Rattle.std.specs.Prelude.{◌≡◌, ◌<◌, ◌≤◌, ℕ, length, All, IfOk};
ghost use Rattle.pit_plan.specs.Standing.{version_of};
ghost use Rattle.pit_edit.specs.Inside.Reviews.{IsReview, changes_on};

use crate::changes::{changes_of, kept_of, left_out, part_of};
use crate::conflicts::conflicts_of;
use crate::edit::Edit;
use pit_num::NoMemory;
use pit_plan::Plan;
use std::alloc::Allocator;

/// What an edit changes, and what somebody else has changed of that.
#[derive(Drop)]
pub(crate) struct Review<A: Allocator + Drop> {
    /// The blocks that are written, rising.
    pub(crate) kept: Vec<u32, A>,
    /// How many blocks it changes.
    pub(crate) changes: u64,
    /// How many of these are left out.
    pub(crate) left: u64,
    /// The lines of those that a commit behind the base has written.
    pub(crate) conflicts: Vec<u8, A>,
}

/// Looks at an edit, by a plan and the makers of its commits.
pub(crate) fn review_of<A: Allocator + Copy + Drop>(
    alloc: A,
    plan: &Plan<A>,
    makers: &[u32],
    edit: &Edit<'_>,
    is_partial: bool,
) -> Result<Review<A>, NoMemory>
    requires base { length edit.now.base ≡ plan.now.pit.blocks }
    requires wanted { length edit.now.wanted ≡ plan.now.pit.blocks }
    requires within { (b : ℕ) → b < plan.now.pit.blocks → version_of plan.now b ≤ length makers.now }
    ensures { IfOk result (λ r. IsReview is_partial edit.now plan.now makers.now r.kept.items r.changes r.left r.conflicts.items) }
{
    let changes = changes_of(alloc, plan, edit)?;
    review_with(alloc, plan, makers, edit, changes, is_partial)
}

/// The same, where these are the changes.
fn review_with<A: Allocator + Copy + Drop>(
    alloc: A,
    plan: &Plan<A>,
    makers: &[u32],
    edit: &Edit<'_>,
    changes: Vec<u32, A>,
    is_partial: bool,
) -> Result<Review<A>, NoMemory>
    requires base { length edit.now.base ≡ plan.now.pit.blocks }
    requires wanted { length edit.now.wanted ≡ plan.now.pit.blocks }
    requires within { (b : ℕ) → b < plan.now.pit.blocks → version_of plan.now b ≤ length makers.now }
    requires changes { changes.items ≡ changes_on plan.now edit.now }
    requires known { All (λ b. b < plan.now.pit.blocks) changes.items }
    ensures { IfOk result (λ r. IsReview is_partial edit.now plan.now makers.now r.kept.items r.changes r.left r.conflicts.items) }
{
    let count = changes.len() as u64;
    let late = part_of(alloc, plan, edit.start, &changes, true)?;
    let left = left_out(late.len() as u64, is_partial);
    let conflicts = conflicts_of(alloc, plan, makers, edit, &late)?;
    let kept = kept_of(alloc, plan, edit.start, changes, is_partial)?;
    Ok(Review {
        kept,
        changes: count,
        left,
        conflicts,
    })
}

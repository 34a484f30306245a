//! The blocks that an edit changes, and those of them that meet somebody else's change.
ghost use Rattle.std.specs.Prelude.{◌≡◌, ◌<◌, ◌++◌, ◌∷◌, [], length, All, IfOk, OnOk, if◌then◌else◌};
ghost use Rattle.std.specs.List.Sorted.{IsStrictlyIncreasing};
ghost use Rattle.pit_plan.specs.Standing.{period_of, version_of};
ghost use Rattle.pit_edit.specs.Changes.{is_apart, is_change, changes_of, kept_of};
ghost use Rattle.pit_edit.specs.Inside.Parts.{is_part, part_of};

use crate::edit::Edit;
use pit_num::NoMemory;
use pit_plan::Plan;
use std::alloc::Allocator;

/// The blocks that an edit changes, rising: each has neither the period of the base nor the one that is held.
pub(crate) fn changes_of<A: Allocator + Copy + Drop>(
    alloc: A,
    plan: &Plan<A>,
    edit: &Edit<'_>,
) -> Result<Vec<u32, A>, NoMemory>
    requires base { length edit.now.base ≡ plan.now.pit.blocks }
    requires wanted { length edit.now.wanted ≡ plan.now.pit.blocks }
    ensures changes { IfOk result (λ changes. changes.items ≡ changes_of plan.now.pit.blocks edit.now (period_of plan.now)) }
    ensures known { IfOk result (λ changes. All (λ b. b < plan.now.pit.blocks) changes.items) }
{
    let mut changes = Vec::new(alloc);
    for b in 0..plan.instance().blocks() {
        push_if(&mut changes, b, is_change(plan, edit, b))?;
    }
    Ok(changes)
}

fn is_change<A: Allocator + Copy + Drop>(plan: &Plan<A>, edit: &Edit<'_>, b: u32) -> bool
    requires base { length edit.now.base ≡ plan.now.pit.blocks }
    requires wanted { length edit.now.wanted ≡ plan.now.pit.blocks }
    requires known { b < plan.now.pit.blocks }
    ensures { result ≡ is_change edit.now (period_of plan.now) b }
{
    is_apart(edit.base_period(b), plan.period(b), edit.wanted_period(b))
}

/// Whether what is wanted is neither what the base has nor what is held.
fn is_apart(base: Option<u32>, held: Option<u32>, wanted: Option<u32>) -> bool
    ensures { result ≡ is_apart base held wanted }
{
    wanted != base && wanted != held
}

/// Those of these blocks that a commit behind the base of an edit has written; or the others.
pub(crate) fn part_of<A: Allocator + Copy + Drop>(
    alloc: A,
    plan: &Plan<A>,
    start: u32,
    blocks: &[u32],
    wants_late: bool,
) -> Result<Vec<u32, A>, NoMemory>
    requires known { All (λ b. b < plan.now.pit.blocks) blocks.now }
    ensures part { IfOk result (λ part. part.items ≡ part_of wants_late start (version_of plan.now) blocks.now) }
    ensures known { IfOk result (λ part. All (λ b. b < plan.now.pit.blocks) part.items) }
{
    let mut part = Vec::new(alloc);
    for b in blocks {
        push_if(&mut part, *b, is_part(plan, start, *b, wants_late))?;
    }
    Ok(part)
}

fn is_part<A: Allocator + Copy + Drop>(plan: &Plan<A>, start: u32, b: u32, wants_late: bool) -> bool
    requires { b < plan.now.pit.blocks }
    ensures { result ≡ is_part wants_late start (version_of plan.now) b }
{
    let is_late = start < plan.version(b);
    if wants_late {
        return is_late;
    }
    !is_late
}

/// The changes that are written.
pub(crate) fn kept_of<A: Allocator + Copy + Drop>(
    alloc: A,
    plan: &Plan<A>,
    start: u32,
    changes: Vec<u32, A>,
    is_partial: bool,
) -> Result<Vec<u32, A>, NoMemory>
    requires { All (λ b. b < plan.now.pit.blocks) changes.items }
    ensures { IfOk result (λ kept. kept.items ≡ kept_of is_partial start (version_of plan.now) changes.items) }
{
    if !is_partial {
        return Ok(changes);
    }
    part_of(alloc, plan, start, &changes, false)
}

/// How many of so many late changes are left out.
pub(crate) fn left_out(late: u64, is_partial: bool) -> u64
    ensures { result ≡ (if is_partial then late else 0) }
{
    if is_partial {
        return late;
    }
    0
}

/// Adds a block, if it is wanted.
fn push_if<A: Allocator + Drop>(
    blocks: &mut Vec<u32, A>,
    b: u32,
    is_wanted: bool,
) -> Result<(), NoMemory>
    ensures { OnOk result (blocks.new.items ≡ blocks.old.items ++ (if is_wanted then b ∷ [] else [])) }
{
    if !is_wanted {
        return Ok(());
    }
    blocks.push(b)?;
    Ok(())
}

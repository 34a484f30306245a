//! The transaction of an edit.
ghost use Rattle.std.specs.Prelude.{◌≡◌, ◌<◌, ◌≤◌, ◌++◌, ◌∷◌, [], ℕ, nat_eq, None, length, All, IfSome, IfOk, OnOk};
ghost use Rattle.std.specs.List.Sorted.{IsStrictlyIncreasing};
ghost use Rattle.pit_keyed.specs.Keyed.{at_key};
ghost use Rattle.pit_edit.specs.Changes.{base_of, wanted_of};
ghost use Rattle.pit_edit.specs.Inside.Works.{sets_of};

use crate::edit::Edit;
use pit_num::NoMemory;
use pit_plan::Plan;
use pit_tx::Work;
use std::alloc::Allocator;

/// The work of the planner of an edit's number, for job 1: it began where the base did, has read the base's periods of these blocks, which rise, and
/// writes the edit's.
pub(crate) fn work_of<A: Allocator + Copy + Drop>(
    alloc: A,
    plan: &Plan<A>,
    edit: &Edit<'_>,
    blocks: &[u32],
) -> Result<Work<A>, NoMemory>
    requires some { 1 ≤ length blocks.now }
    requires base { length edit.now.base ≡ plan.now.pit.blocks }
    requires wanted { length edit.now.wanted ≡ plan.now.pit.blocks }
    requires known { All (λ b. b < plan.now.pit.blocks) blocks.now }
    requires rising { IsStrictlyIncreasing blocks.now }
    requires base_in { (b : ℕ) → b < plan.now.pit.blocks → IfSome (base_of edit.now b) (λ t. t < plan.now.pit.periods) }
    requires wanted_in { (b : ℕ) → b < plan.now.pit.blocks → IfSome (wanted_of edit.now b) (λ t. t < plan.now.pit.periods) }
    ensures { IfOk result (λ work. work ≡ sets_of plan.now.pit edit.now blocks.now) }
{
    let mut work = Work::over(
        alloc,
        plan.instance(),
        edit.number,
        1,
        edit.start,
        blocks.len(),
    )?;
    for b in blocks {
        change(&mut work, *b, edit.base_period(*b), edit.wanted_period(*b))?;
    }
    Ok(work)
}

/// Notes what the base has of a block that was neither read nor written yet, and writes what the edit has.
fn change<A: Allocator + Copy + Drop>(
    work: &mut Work<A>,
    b: u32,
    base: Option<u32>,
    wanted: Option<u32>,
) -> Result<(), NoMemory>
    requires known { b < work.old.blocks }
    requires base_in { IfSome base (λ t. t < work.old.periods) }
    requires wanted_in { IfSome wanted (λ t. t < work.old.periods) }
    requires unread { at_key nat_eq work.old.reads b ≡ None }
    requires unwritten { at_key nat_eq work.old.writes b ≡ None }
    ensures { OnOk result (work.new ≡ record work.old { reads = work.old.reads ++ (b, base) ∷ []; writes = work.old.writes ++ (b, wanted) ∷ [] }) }
{
    work.note_unknown(b, base)?;
    write(work, b, wanted)
}

/// Writes what the edit has of a block that was not written yet.
fn write<A: Allocator + Copy + Drop>(
    work: &mut Work<A>,
    b: u32,
    wanted: Option<u32>,
) -> Result<(), NoMemory>
    requires known { b < work.old.blocks }
    requires wanted_in { IfSome wanted (λ t. t < work.old.periods) }
    requires unwritten { at_key nat_eq work.old.writes b ≡ None }
    ensures { OnOk result (work.new ≡ record work.old { writes = work.old.writes ++ (b, wanted) ∷ [] }) }
{
    match wanted {
        Some(t) => put(work, b, t),
        None => clear(work, b),
    }
}

fn put<A: Allocator + Copy + Drop>(work: &mut Work<A>, b: u32, t: u32) -> Result<(), NoMemory>
    requires known { b < work.old.blocks }
    requires in_range { t < work.old.periods }
    requires unwritten { at_key nat_eq work.old.writes b ≡ None }
    ensures { OnOk result (work.new ≡ record work.old { writes = work.old.writes ++ (b, Some t) ∷ [] }) }
{
    let Ok(()) = work.put(b, t) else {
        return Err(NoMemory);
    };
    Ok(())
}

fn clear<A: Allocator + Copy + Drop>(work: &mut Work<A>, b: u32) -> Result<(), NoMemory>
    requires known { b < work.old.blocks }
    requires unwritten { at_key nat_eq work.old.writes b ≡ None }
    ensures { OnOk result (work.new ≡ record work.old { writes = work.old.writes ++ (b, None) ∷ [] }) }
{
    let Ok(()) = work.clear(b) else {
        return Err(NoMemory);
    };
    Ok(())
}

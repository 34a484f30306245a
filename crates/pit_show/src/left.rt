//! The solution that a plan leaves, behind a comment.
ghost use Rattle.std.specs.Prelude.{◌≡◌, ◌++◌, List, MatchResult, IfOk, OnOk, length};
ghost use Rattle.std.specs.Io.KnownBytes.{Appends};
ghost use Rattle.pit_text.specs.Solution.{schedule_of};
ghost use Rattle.pit_text.specs.SolutionText.{solution_text};
ghost use Rattle.pit_plan.specs.Schedule.{Commit, by_block};
ghost use Rattle.pit_plan.specs.Standing.{IsPlanOf};
ghost use Rattle.pit_step.specs.LineTexts.{left_text as left_by};

use pit_num::{NoMemory, Sink, WriteFault, write_text};
use pit_plan::PlanView;
use pit_step::{CliFault, empty_text, gathered};
use pit_text::write_solution;
use std::alloc::Allocator;

/// A comment, and then the solution that a plan leaves.
pub(crate) fn left_text<A: Allocator + Copy + Drop>(
    alloc: A,
    comment: &[u8],
    plan: &PlanView<A>,
) -> Result<Vec<u8, A>, CliFault>
    ensures { MatchResult result
        (λ text. (commits : List Commit) → IsPlanOf plan.now commits → text.items ≡ comment.now ++ left_by plan.now.pit commits)
        (λ fault. fault ≡ CliFault.NoMemory) }
{
    Ok(mined(alloc, comment, plan.periods())?)
}

/// A comment, and then the blocks that have a period.
fn mined<A: Allocator + Copy + Drop>(
    alloc: A,
    comment: &[u8],
    periods: &[Option<u32>],
) -> Result<Vec<u8, A>, NoMemory>
    ensures { IfOk result (λ text. text.items ≡ comment.now ++ solution_text (schedule_of (length periods.now) (by_block periods.now))) }
{
    let mut text = empty_text(alloc);
    let written = write_mined(&mut text, comment, periods);
    gathered(text, written)
}

fn write_mined<W: Sink>(
    w: &mut W,
    comment: &[u8],
    periods: &[Option<u32>],
) -> Result<(), WriteFault>
    ensures { OnOk result (Appends (W.contents w.old) (W.contents w.new) (comment.now ++ solution_text (schedule_of (length periods.now) (by_block periods.now)))) }
{
    write_text(w, comment)?;
    write_solution(w, periods)
}

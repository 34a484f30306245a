//! The lines of conflicts.
ghost use Rattle.std.specs.Prelude.{◌≡◌, ◌<◌, ◌≤◌, ℕ, length, take, All, IfOk, OnOk};
ghost use Rattle.std.specs.Io.KnownBytes.{Appends};
ghost use Rattle.pit_plan.specs.Standing.{period_of, version_of};
ghost use Rattle.pit_edit.specs.EditText.{conflict_line, conflict_at, conflict_lines, conflicts_text, more_text};
ghost use Rattle.pit_edit.specs.Inside.Reviews.{writer_in};

use crate::edit::Edit;
use pit_log::maker_of;
use pit_num::{NoMemory, Sink, WriteFault, write_text};
use pit_plan::Plan;
use pit_step::{empty_text, gathered, write_field, write_numbered, write_period};
use std::alloc::Allocator;

/// How many conflicts of an edit are reported one by one.
pub const CONFLICTS_SHOWN: u64 = 1_000;

/// A line for each of the first of these blocks, and how many more there are.
pub(crate) fn conflicts_of<A: Allocator + Copy + Drop>(
    alloc: A,
    plan: &Plan<A>,
    makers: &[u32],
    edit: &Edit<'_>,
    blocks: &[u32],
) -> Result<Vec<u8, A>, NoMemory>
    requires base { length edit.now.base ≡ plan.now.pit.blocks }
    requires wanted { length edit.now.wanted ≡ plan.now.pit.blocks }
    requires known { All (λ b. b < plan.now.pit.blocks) blocks.now }
    requires within { (b : ℕ) → b < plan.now.pit.blocks → version_of plan.now b ≤ length makers.now }
    ensures { IfOk result (λ text. text.items ≡ conflicts_text edit.now (period_of plan.now) (writer_in plan.now makers.now) blocks.now) }
{
    let mut text = empty_text(alloc);
    let written = write_conflicts(&mut text, plan, makers, edit, blocks);
    gathered(text, written)
}

fn write_conflicts<A: Allocator + Copy + Drop, W: Sink>(
    w: &mut W,
    plan: &Plan<A>,
    makers: &[u32],
    edit: &Edit<'_>,
    blocks: &[u32],
) -> Result<(), WriteFault>
    requires base { length edit.now.base ≡ plan.now.pit.blocks }
    requires wanted { length edit.now.wanted ≡ plan.now.pit.blocks }
    requires known { All (λ b. b < plan.now.pit.blocks) blocks.now }
    requires within { (b : ℕ) → b < plan.now.pit.blocks → version_of plan.now b ≤ length makers.now }
    ensures { OnOk result (Appends (W.contents w.old) (W.contents w.new) (conflicts_text edit.now (period_of plan.now) (writer_in plan.now makers.now) blocks.now)) }
{
    write_lines(w, plan, makers, edit, first_of(blocks))?;
    write_more(w, blocks.len() as u64)
}

/// The first of these blocks, as many as are reported.
fn first_of(blocks: &[u32]) -> &[u32]
    ensures { result.now ≡ take CONFLICTS_SHOWN blocks.now }
{
    if blocks.len() as u64 <= CONFLICTS_SHOWN {
        return blocks;
    }
    &blocks[..CONFLICTS_SHOWN as usize]
}

/// A line for each of these blocks.
fn write_lines<A: Allocator + Copy + Drop, W: Sink>(
    w: &mut W,
    plan: &Plan<A>,
    makers: &[u32],
    edit: &Edit<'_>,
    blocks: &[u32],
) -> Result<(), WriteFault>
    requires base { length edit.now.base ≡ plan.now.pit.blocks }
    requires wanted { length edit.now.wanted ≡ plan.now.pit.blocks }
    requires known { All (λ b. b < plan.now.pit.blocks) blocks.now }
    requires within { (b : ℕ) → b < plan.now.pit.blocks → version_of plan.now b ≤ length makers.now }
    ensures { OnOk result (Appends (W.contents w.old) (W.contents w.new) (conflict_lines edit.now (period_of plan.now) (writer_in plan.now makers.now) blocks.now)) }
{
    for b in blocks {
        write_conflict(w, plan, makers, edit, *b)?;
    }
    Ok(())
}

/// The line of a block.
fn write_conflict<A: Allocator + Copy + Drop, W: Sink>(
    w: &mut W,
    plan: &Plan<A>,
    makers: &[u32],
    edit: &Edit<'_>,
    b: u32,
) -> Result<(), WriteFault>
    requires base { length edit.now.base ≡ plan.now.pit.blocks }
    requires wanted { length edit.now.wanted ≡ plan.now.pit.blocks }
    requires known { b < plan.now.pit.blocks }
    requires within { version_of plan.now b ≤ length makers.now }
    ensures { OnOk result (Appends (W.contents w.old) (W.contents w.new) (conflict_at edit.now (period_of plan.now) (writer_in plan.now makers.now) b)) }
{
    let held = plan.period(b);
    let entry = maker_of(makers, plan.version(b));
    write_line(w, edit, b, held, entry)
}

/// `conflict K B base P now P entry E wanted P`.
#[tactic(auto, unfolding(crate::specs::EditText::conflict_line))]
fn write_line<W: Sink>(
    w: &mut W,
    edit: &Edit<'_>,
    b: u32,
    held: Option<u32>,
    entry: Option<u32>,
) -> Result<(), WriteFault>
    requires base { b < length edit.now.base }
    requires wanted { b < length edit.now.wanted }
    ensures { OnOk result (Appends (W.contents w.old) (W.contents w.new) (conflict_line edit.now b held entry)) }
{
    write_numbered(w, b"conflict ", u64::from(edit.number))?;
    write_numbered(w, b" ", u64::from(b))?;
    write_text(w, b" base ")?;
    write_period(w, edit.base_period(b), b" now ")?;
    write_period(w, held, b" entry ")?;
    write_period(w, entry, b" wanted ")?;
    write_period(w, edit.wanted_period(b), b"\n")
}

/// How many of so many are not reported, where any are not.
fn write_more<W: Sink>(w: &mut W, count: u64) -> Result<(), WriteFault>
    ensures { OnOk result (Appends (W.contents w.old) (W.contents w.new) (more_text count)) }
{
    if count <= CONFLICTS_SHOWN {
        return write_text(w, b"");
    }
    write_text(w, b"more ")?;
    write_field(w, count - CONFLICTS_SHOWN, b"\n")
}

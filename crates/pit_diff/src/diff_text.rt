//! The text of all that differs.
ghost use Rattle.std.specs.Prelude.{◌≡◌, ◌+◌, ◌*◌, List, IfOk, OnOk, length};
ghost use Rattle.std.specs.Io.KnownBytes.{Appends};
ghost use Rattle.pit_plan.specs.Schedule.{Commit};
ghost use Rattle.pit_plan.specs.Standing.{IsPlanOf, period_of};
ghost use Rattle.pit_diff.specs.Changes.{moved};
ghost use Rattle.pit_diff.specs.Inside.Table.{IsTableOf};
ghost use Rattle.pit_diff.specs.DiffText.{value_line, value_change, diff_text, diff_status as status_by};

use crate::blocks::write_changes;
use crate::cells::{Quantity, write_cells};
use crate::counts::counts_of;
use crate::moves::write_moves;
use pit_num::{NoMemory, Sink, WriteFault, write_text};
use pit_plan::PlanView;
use pit_step::{Status, empty_text, gathered, write_line, write_worth};
use std::alloc::Allocator;

/// What differs between two plans of one pit. Takes the memory of the text, and of a number for each pair of periods.
pub(crate) fn text_of<A: Allocator + Copy + Drop>(
    alloc: A,
    old: &PlanView<A>,
    new: &PlanView<A>,
) -> Result<Vec<u8, A>, NoMemory>
    requires { new.now.pit ≡ old.now.pit }
    ensures { IfOk result (λ text. (before after : List Commit) → IsPlanOf old.now before → IsPlanOf new.now after
        → text.items ≡ diff_text old.now.pit before after) }
{
    let counts = counts_of(alloc, old, new)?;
    let mut text = empty_text(alloc);
    let written = write_diff(&mut text, old, new, &counts);
    gathered(text, written)
}

/// All lines, where the table has how many blocks went from each period to each.
fn write_diff<W: Sink, A: Allocator + Copy + Drop>(
    w: &mut W,
    old: &PlanView<A>,
    new: &PlanView<A>,
    counts: &[u32],
) -> Result<(), WriteFault>
    requires same { new.now.pit ≡ old.now.pit }
    requires len { length counts.now ≡ (old.now.pit.periods + 1) * (old.now.pit.periods + 1) }
    requires counts { IsTableOf old.now.pit.periods counts.now (moved old.now.pit.blocks (period_of old.now) (period_of new.now)) }
    ensures { OnOk result ((before after : List Commit) → IsPlanOf old.now before → IsPlanOf new.now after
        → Appends (W.contents w.old) (W.contents w.new) (diff_text old.now.pit before after)) }
{
    old.deposit().shows_sound();
    write_changes(w, old, new)?;
    write_moves(w, old.deposit().periods(), counts)?;
    write_cells(w, Quantity::Limit, old, new)?;
    write_cells(w, Quantity::Load, old, new)?;
    write_value_change(w, old.value(), new.value())
}

/// The line of two values, where they differ.
fn write_value_change<W: Sink>(w: &mut W, old: i128, new: i128) -> Result<(), WriteFault>
    ensures { OnOk result (Appends (W.contents w.old) (W.contents w.new) (value_change old new)) }
{
    if old == new {
        return write_text(w, b"");
    }
    write_value_line(w, old, new)
}

/// `value OLD NEW`.
#[tactic(auto, unfolding(crate::specs::DiffText::value_line))]
fn write_value_line<W: Sink>(w: &mut W, old: i128, new: i128) -> Result<(), WriteFault>
    ensures { OnOk result (Appends (W.contents w.old) (W.contents w.new) (value_line old new)) }
{
    write_text(w, b"value ")?;
    write_worth(w, old, b" ")?;
    write_line(w, new)
}

/// The status that goes with a text.
pub(crate) fn diff_status(text: &[u8]) -> Status
    ensures { result ≡ status_by text.now }
{
    if text.is_empty() {
        Status::Fine
    } else {
        Status::Failed
    }
}

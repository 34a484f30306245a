//! The lines of blocks.
ghost use Rattle.std.specs.Prelude.{◌≡◌, ◌<◌, OnOk};
ghost use Rattle.std.specs.Io.KnownBytes.{Appends};
ghost use Rattle.pit_plan.specs.Standing.{period_of};
ghost use Rattle.pit_diff.specs.Changes.{change_at, changes_of};
ghost use Rattle.pit_diff.specs.DiffText.{change_text, changes_text};

use pit_num::{Sink, WriteFault, write_text};
use pit_plan::PlanView;
use pit_step::{write_field, write_period};
use std::alloc::Allocator;

/// A line for each block whose period differs.
pub(crate) fn write_changes<W: Sink, A: Allocator + Copy + Drop>(
    w: &mut W,
    old: &PlanView<A>,
    new: &PlanView<A>,
) -> Result<(), WriteFault>
    requires { new.now.pit ≡ old.now.pit }
    ensures { OnOk result (Appends (W.contents w.old) (W.contents w.new) (changes_text (changes_of old.now.pit.blocks (period_of old.now) (period_of new.now)))) }
{
    for b in 0..old.deposit().blocks() {
        write_block(w, b, old, new)?;
    }
    Ok(())
}

/// The line of a block, where its period differs.
fn write_block<W: Sink, A: Allocator + Copy + Drop>(
    w: &mut W,
    b: u32,
    old: &PlanView<A>,
    new: &PlanView<A>,
) -> Result<(), WriteFault>
    requires before { b < old.now.pit.blocks }
    requires after { b < new.now.pit.blocks }
    ensures { OnOk result (Appends (W.contents w.old) (W.contents w.new) (changes_text (change_at (period_of old.now) (period_of new.now) b))) }
{
    let before = old.period(b);
    let after = new.period(b);
    if before == after {
        return write_text(w, b"");
    }
    write_change(w, b, before, after)
}

/// `block N OLD NEW`.
#[tactic(auto, unfolding(crate::specs::DiffText::change_text))]
fn write_change<W: Sink>(
    w: &mut W,
    b: u32,
    old: Option<u32>,
    new: Option<u32>,
) -> Result<(), WriteFault>
    ensures { OnOk result (Appends (W.contents w.old) (W.contents w.new) (change_text (record { block = b; old = old; new = new }))) }
{
    write_text(w, b"block ")?;
    write_field(w, u64::from(b), b" ")?;
    write_period(w, old, b" ")?;
    write_period(w, new, b"\n")
}

//! The lines of resources in periods: of their limits, and of their loads.
ghost use Rattle.std.specs.Prelude.{◌≡◌, ◌<◌, List, OnOk, flat_map};
ghost use Rattle.std.specs.List.{range_with_len};
ghost use Rattle.std.specs.Io.KnownBytes.{Appends};
ghost use Rattle.pit_plan.specs.Schedule.{Commit};
ghost use Rattle.pit_plan.specs.Standing.{IsPlanOf};
ghost use Rattle.pit_diff.specs.DiffText.{by_cell, limit_line, limit_change, load_line, load_change};
ghost use Rattle.pit_diff.specs.Inside.Cells.{cell_change};

use pit_num::{Sink, WriteFault, write_text};
use pit_plan::PlanView;
use pit_step::{write_amount, write_field, write_limit};
use std::alloc::Allocator;

/// What may differ of a resource in a period: its limit in force, or its load.
#[derive(Clone, Copy)]
pub(crate) enum Quantity {
    Limit,
    Load,
}

/// A line for each that differs.
pub(crate) fn write_cells<W: Sink, A: Allocator + Copy + Drop>(
    w: &mut W,
    quantity: Quantity,
    old: &PlanView<A>,
    new: &PlanView<A>,
) -> Result<(), WriteFault>
    requires { new.now.pit ≡ old.now.pit }
    ensures { OnOk result ((before after : List Commit) → IsPlanOf old.now before → IsPlanOf new.now after
        → Appends (W.contents w.old) (W.contents w.new) (by_cell old.now.pit (cell_change quantity old.now.pit before after))) }
{
    for t in 0..old.deposit().periods() {
        write_cells_in(w, quantity, old, new, t)?;
    }
    Ok(())
}

/// Those of a period.
fn write_cells_in<W: Sink, A: Allocator + Copy + Drop>(
    w: &mut W,
    quantity: Quantity,
    old: &PlanView<A>,
    new: &PlanView<A>,
    t: u32,
) -> Result<(), WriteFault>
    requires same { new.now.pit ≡ old.now.pit }
    requires period { t < old.now.pit.periods }
    ensures { OnOk result ((before after : List Commit) → IsPlanOf old.now before → IsPlanOf new.now after
        → Appends (W.contents w.old) (W.contents w.new) (flat_map (λ r. cell_change quantity old.now.pit before after r t) (range_with_len 0 old.now.pit.resources))) }
{
    for r in 0..old.deposit().resources() {
        write_cell(w, quantity, old, new, r, t)?;
    }
    Ok(())
}

/// That of a resource in a period.
fn write_cell<W: Sink, A: Allocator + Copy + Drop>(
    w: &mut W,
    quantity: Quantity,
    old: &PlanView<A>,
    new: &PlanView<A>,
    r: u32,
    t: u32,
) -> Result<(), WriteFault>
    requires same { new.now.pit ≡ old.now.pit }
    requires resource { r < old.now.pit.resources }
    requires period { t < old.now.pit.periods }
    ensures { OnOk result ((before after : List Commit) → IsPlanOf old.now before → IsPlanOf new.now after
        → Appends (W.contents w.old) (W.contents w.new) (cell_change quantity old.now.pit before after r t)) }
{
    match quantity {
        Quantity::Limit => write_limit_change(w, r, t, old.limit(r, t), new.limit(r, t)),
        Quantity::Load => write_load_change(w, r, t, old.load(r, t), new.load(r, t)),
    }
}

/// The line of a limit, where it differs.
fn write_limit_change<W: Sink>(
    w: &mut W,
    r: u32,
    t: u32,
    old: Option<i64>,
    new: Option<i64>,
) -> Result<(), WriteFault>
    ensures { OnOk result (Appends (W.contents w.old) (W.contents w.new) (limit_change r t old new)) }
{
    if old == new {
        return write_text(w, b"");
    }
    write_limit_line(w, r, t, old, new)
}

/// `limit R T OLD NEW`.
#[tactic(auto, unfolding(crate::specs::DiffText::limit_line))]
fn write_limit_line<W: Sink>(
    w: &mut W,
    r: u32,
    t: u32,
    old: Option<i64>,
    new: Option<i64>,
) -> Result<(), WriteFault>
    ensures { OnOk result (Appends (W.contents w.old) (W.contents w.new) (limit_line r t old new)) }
{
    write_text(w, b"limit ")?;
    write_field(w, u64::from(r), b" ")?;
    write_field(w, u64::from(t), b" ")?;
    write_limit(w, old, b" ")?;
    write_limit(w, new, b"\n")
}

/// The line of a load, where it differs.
fn write_load_change<W: Sink>(
    w: &mut W,
    r: u32,
    t: u32,
    old: i128,
    new: i128,
) -> Result<(), WriteFault>
    ensures { OnOk result (Appends (W.contents w.old) (W.contents w.new) (load_change r t old new)) }
{
    if old == new {
        return write_text(w, b"");
    }
    write_load_line(w, r, t, old, new)
}

/// `load R T OLD NEW`.
#[tactic(auto, unfolding(crate::specs::DiffText::load_line))]
fn write_load_line<W: Sink>(
    w: &mut W,
    r: u32,
    t: u32,
    old: i128,
    new: i128,
) -> Result<(), WriteFault>
    ensures { OnOk result (Appends (W.contents w.old) (W.contents w.new) (load_line r t old new)) }
{
    write_text(w, b"load ")?;
    write_field(w, u64::from(r), b" ")?;
    write_field(w, u64::from(t), b" ")?;
    write_amount(w, old, b" ")?;
    write_amount(w, new, b"\n")
}

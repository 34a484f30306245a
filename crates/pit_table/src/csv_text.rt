//! The rows of a table, as text.
ghost use Rattle.std.specs.Prelude.{◌≡◌, ◌<◌, ◌∷◌, ◌++◌, ◌+ℤ◌, ◌-ℤ◌, [], List, Some, FitsSigned, IfSome, OnOk, map, flat_map, decimal};
ghost use Rattle.std.specs.List.{range_with_len};
ghost use Rattle.std.specs.Int.{w128};
ghost use Rattle.std.specs.Io.KnownBytes.{Appends};
ghost use Rattle.pit_num.specs.Printed.{fixed_text};
ghost use Rattle.pit_plan.specs.Schedule.{Commit, held_period, limit_of};
ghost use Rattle.pit_plan.specs.Standing.{IsPlanOf, period_of};
ghost use Rattle.pit_table.specs.Rows.{loading_of, row_of};
ghost use Rattle.pit_table.specs.CsvText.{behind_commas, row_text, amount_cell, room_below as room_by, loading_cells, row_cells, names_of, name_cells, table_text};
ghost use Rattle.pit_table.specs.Inside.Mined.{AreMined};
ghost use Rattle.pit_table.specs.Inside.OfCommits.{IsOfCommits};

use crate::mined::Mined;
use pit_num::{Sink, WriteFault, write_micro, write_text, write_value, write_whole};
use pit_plan::PlanView;
use std::alloc::Allocator;

/// The names of the columns, and a row for each period.
pub(crate) fn write_table<W: Sink, A: Allocator + Copy + Drop>(
    w: &mut W,
    plan: &PlanView<A>,
    mined: &[Mined],
) -> Result<(), WriteFault>
    requires left { IsOfCommits plan.now }
    requires mined { AreMined plan.now.pit (period_of plan.now) plan.now.pit.blocks mined.now }
    ensures { OnOk result ((commits : List Commit) → IsPlanOf plan.now commits
        → Appends (W.contents w.old) (W.contents w.new) (table_text plan.now.pit (held_period commits) (limit_of plan.now.pit commits))) }
{
    write_names(w, plan.deposit().resources())?;
    write_rows(w, plan, mined)
}

/// The names of the columns.
fn write_names<W: Sink>(w: &mut W, resources: u32) -> Result<(), WriteFault>
    ensures { OnOk result (Appends (W.contents w.old) (W.contents w.new) (row_text (name_cells resources))) }
{
    write_text(w, b"period,blocks,value,cumulative")?;
    write_names_up_to(w, resources)?;
    write_text(w, b"\n")
}

/// Those of each resource.
fn write_names_up_to<W: Sink>(w: &mut W, resources: u32) -> Result<(), WriteFault>
    ensures { OnOk result (Appends (W.contents w.old) (W.contents w.new) (behind_commas (flat_map names_of (range_with_len 0 resources)))) }
{
    for r in 0..resources {
        write_names_of(w, r)?;
    }
    Ok(())
}

/// Those of a resource.
fn write_names_of<W: Sink>(w: &mut W, r: u32) -> Result<(), WriteFault>
    ensures { OnOk result (Appends (W.contents w.old) (W.contents w.new) (behind_commas (names_of r))) }
{
    write_name(w, b",load_", r)?;
    write_name(w, b",lower_", r)?;
    write_name(w, b",upper_", r)?;
    write_name(w, b",room_", r)
}

/// A word and the number of a resource.
fn write_name<W: Sink>(w: &mut W, word: &[u8], r: u32) -> Result<(), WriteFault>
    ensures { OnOk result (Appends (W.contents w.old) (W.contents w.new) (word.now ++ decimal r)) }
{
    write_text(w, word)?;
    write_whole(w, r)
}

/// A row for each period.
fn write_rows<W: Sink, A: Allocator + Copy + Drop>(
    w: &mut W,
    plan: &PlanView<A>,
    mined: &[Mined],
) -> Result<(), WriteFault>
    requires left { IsOfCommits plan.now }
    requires mined { AreMined plan.now.pit (period_of plan.now) plan.now.pit.blocks mined.now }
    ensures { OnOk result ((commits : List Commit) → IsPlanOf plan.now commits
        → Appends (W.contents w.old) (W.contents w.new)
        (flat_map (λ t. row_text (row_cells (row_of plan.now.pit (held_period commits) (limit_of plan.now.pit commits) t))) (range_with_len 0 plan.now.pit.periods))) }
{
    plan.deposit().shows_sound();
    let mut cumulative: i128 = 0;
    for t in 0..plan.deposit().periods() {
        cumulative = plus(cumulative, mined[t as usize].value);
        write_row(w, plan, t, mined[t as usize], cumulative)?;
    }
    Ok(())
}

/// A sum that stays in range.
fn plus(sum: i128, term: i128) -> i128
    requires { FitsSigned w128 (sum +ℤ term) }
    ensures { result ≡ sum +ℤ term }
{
    sum + term
}

/// The row of a period, with what is mined in it and what is earned up to it.
fn write_row<W: Sink, A: Allocator + Copy + Drop>(
    w: &mut W,
    plan: &PlanView<A>,
    t: u32,
    mined: Mined,
    cumulative: i128,
) -> Result<(), WriteFault>
    requires left { IsOfCommits plan.now }
    requires period { t < plan.now.pit.periods }
    ensures { OnOk result ((commits : List Commit) → IsPlanOf plan.now commits
        → Appends (W.contents w.old) (W.contents w.new)
        (row_text (row_cells (record { period = t; blocks = mined.blocks; value = mined.value; cumulative = cumulative; loadings = map (loading_of plan.now.pit (held_period commits) (limit_of plan.now.pit commits) t) (range_with_len 0 plan.now.pit.resources) })))) }
{
    write_whole(w, t)?;
    write_mined(w, mined, cumulative)?;
    write_loadings(w, plan, t)?;
    write_text(w, b"\n")
}

/// The number of blocks, what they earn, and what is earned so far.
fn write_mined<W: Sink>(w: &mut W, mined: Mined, cumulative: i128) -> Result<(), WriteFault>
    ensures { OnOk result (Appends (W.contents w.old) (W.contents w.new)
        (behind_commas (decimal mined.blocks ∷ fixed_text 18 mined.value ∷ fixed_text 18 cumulative ∷ []))) }
{
    write_text(w, b",")?;
    write_whole(w, mined.blocks)?;
    write_worth_cell(w, mined.value)?;
    write_worth_cell(w, cumulative)
}

/// A value, behind a `,`.
fn write_worth_cell<W: Sink>(w: &mut W, value: i128) -> Result<(), WriteFault>
    ensures { OnOk result (Appends (W.contents w.old) (W.contents w.new) (44 ∷ fixed_text 18 value)) }
{
    write_text(w, b",")?;
    write_value(w, value)
}

/// The cells of each resource in a period.
fn write_loadings<W: Sink, A: Allocator + Copy + Drop>(
    w: &mut W,
    plan: &PlanView<A>,
    t: u32,
) -> Result<(), WriteFault>
    requires left { IsOfCommits plan.now }
    requires period { t < plan.now.pit.periods }
    ensures { OnOk result ((commits : List Commit) → IsPlanOf plan.now commits
        → Appends (W.contents w.old) (W.contents w.new)
        (behind_commas (flat_map (λ r. loading_cells (loading_of plan.now.pit (held_period commits) (limit_of plan.now.pit commits) t r)) (range_with_len 0 plan.now.pit.resources)))) }
{
    for r in 0..plan.deposit().resources() {
        write_loading_of(w, plan, r, t)?;
    }
    Ok(())
}

/// The cells of a resource in a period.
fn write_loading_of<W: Sink, A: Allocator + Copy + Drop>(
    w: &mut W,
    plan: &PlanView<A>,
    r: u32,
    t: u32,
) -> Result<(), WriteFault>
    requires left { IsOfCommits plan.now }
    requires resource { r < plan.now.pit.resources }
    requires period { t < plan.now.pit.periods }
    ensures { OnOk result ((commits : List Commit) → IsPlanOf plan.now commits
        → Appends (W.contents w.old) (W.contents w.new)
        (behind_commas (loading_cells (loading_of plan.now.pit (held_period commits) (limit_of plan.now.pit commits) t r)))) }
{
    plan.deposit().shows_sound();
    let lower = plan.deposit().lower(r, t);
    let upper = plan.limit(r, t);
    write_loading(w, plan.load(r, t), lower, upper)
}

/// A load, its limits, and the room that it leaves.
fn write_loading<W: Sink>(
    w: &mut W,
    load: i128,
    lower: Option<i64>,
    upper: Option<i64>,
) -> Result<(), WriteFault>
    requires { IfSome upper (λ top. FitsSigned w128 (top -ℤ load)) }
    ensures { OnOk result (Appends (W.contents w.old) (W.contents w.new)
        (behind_commas (loading_cells (record { load = load; lower = lower; upper = upper })))) }
{
    write_amount_cell(w, Some(load))?;
    write_amount_cell(w, amount_of(lower))?;
    write_amount_cell(w, amount_of(upper))?;
    write_amount_cell(w, room_below(upper, load))
}

/// A number of millionths, printed in units, behind a `,`; nothing behind it where there is none.
fn write_amount_cell<W: Sink>(w: &mut W, amount: Option<i128>) -> Result<(), WriteFault>
    ensures { OnOk result (Appends (W.contents w.old) (W.contents w.new) (44 ∷ amount_cell amount)) }
{
    write_text(w, b",")?;
    let Some(z) = amount else {
        return Ok(());
    };
    write_micro(w, z)
}

/// A limit as an amount.
fn amount_of(limit: Option<i64>) -> Option<i128>
    ensures { result ≡ limit }
{
    let Some(z) = limit else {
        return None;
    };
    Some(i128::from(z))
}

/// What a load leaves of a limit.
fn room_below(limit: Option<i64>, load: i128) -> Option<i128>
    requires { IfSome limit (λ top. FitsSigned w128 (top -ℤ load)) }
    ensures { result ≡ room_by limit load }
{
    let Some(top) = limit else {
        return None;
    };
    Some(i128::from(top) - load)
}

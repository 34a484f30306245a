//! The lines of how many blocks went from which period to which.
ghost use Rattle.std.specs.Prelude.{◌≡◌, ◌+◌, ◌*◌, ◌≤◌, OnOk, length};
ghost use Rattle.std.specs.Io.KnownBytes.{Appends};
ghost use Rattle.pit_num.specs.declared.limits.TheConstants.{PERIODS_MAX};
ghost use Rattle.pit_diff.specs.Changes.{move_of, moves_from, moves_by};
ghost use Rattle.pit_diff.specs.DiffText.{move_text, moves_text};
ghost use Rattle.pit_diff.specs.Inside.Table.{table_number, IsPeriodOrNone};

use crate::counts::cell;
use pit_num::{Sink, WriteFault, write_text};
use pit_step::{write_field, write_period};

/// A line for each two periods between which blocks went.
pub(crate) fn write_moves<W: Sink>(
    w: &mut W,
    periods: u32,
    counts: &[u32],
) -> Result<(), WriteFault>
    requires few { periods ≤ PERIODS_MAX }
    requires len { length counts.now ≡ (periods + 1) * (periods + 1) }
    ensures { OnOk result (Appends (W.contents w.old) (W.contents w.new) (moves_text (moves_by periods (table_number periods counts.now)))) }
{
    for t in 0..periods {
        write_moves_from(w, periods, counts, Some(t))?;
    }
    write_moves_from(w, periods, counts, None)
}

/// A line for each period to which blocks went from this one.
fn write_moves_from<W: Sink>(
    w: &mut W,
    periods: u32,
    counts: &[u32],
    from: Option<u32>,
) -> Result<(), WriteFault>
    requires few { periods ≤ PERIODS_MAX }
    requires len { length counts.now ≡ (periods + 1) * (periods + 1) }
    requires from { IsPeriodOrNone periods from }
    ensures { OnOk result (Appends (W.contents w.old) (W.contents w.new) (moves_text (moves_from periods (table_number periods counts.now) from))) }
{
    for t in 0..periods {
        write_count(w, periods, counts, from, Some(t))?;
    }
    write_count(w, periods, counts, from, None)
}

/// The line of two periods.
fn write_count<W: Sink>(
    w: &mut W,
    periods: u32,
    counts: &[u32],
    from: Option<u32>,
    to: Option<u32>,
) -> Result<(), WriteFault>
    requires few { periods ≤ PERIODS_MAX }
    requires len { length counts.now ≡ (periods + 1) * (periods + 1) }
    requires from { IsPeriodOrNone periods from }
    requires to { IsPeriodOrNone periods to }
    ensures { OnOk result (Appends (W.contents w.old) (W.contents w.new) (moves_text (move_of from to (table_number periods counts.now from to)))) }
{
    write_move(w, from, to, counts[cell(periods, from, to)])
}

/// The line of two periods, where they differ and some block went.
fn write_move<W: Sink>(
    w: &mut W,
    from: Option<u32>,
    to: Option<u32>,
    number: u32,
) -> Result<(), WriteFault>
    ensures { OnOk result (Appends (W.contents w.old) (W.contents w.new) (moves_text (move_of from to number))) }
{
    if from == to || number == 0 {
        return write_text(w, b"");
    }
    write_move_line(w, from, to, number)
}

/// `moves OLD NEW N`.
#[tactic(auto, unfolding(crate::specs::DiffText::move_text))]
fn write_move_line<W: Sink>(
    w: &mut W,
    from: Option<u32>,
    to: Option<u32>,
    number: u32,
) -> Result<(), WriteFault>
    ensures { OnOk result (Appends (W.contents w.old) (W.contents w.new) (move_text (record { old = from; new = to; number = number }))) }
{
    write_text(w, b"moves ")?;
    write_period(w, from, b" ")?;
    write_period(w, to, b" ")?;
    write_field(w, u64::from(number), b"\n")
}

//! The report of a merge.
ghost use Rattle.std.specs.Prelude.{◌≡◌, ◌++◌, IfOk, OnOk, codes};
ghost use Rattle.std.specs.Io.KnownBytes.{Appends};
ghost use Rattle.pit_desk.specs.History.{commits_of};
ghost use Rattle.pit_step.specs.LineTexts.{value_text, shorts_text};
ghost use Rattle.pit_output.specs.Outputs.{new_line};
ghost use Rattle.pit_merge.specs.Merge.{merge_report, merge_status};

use pit_edit::Merging;
use pit_num::{NoMemory, Sink, WriteFault, write_text};
use pit_output::write_new_line;
use pit_plan::Short;
use pit_step::{Status, empty_text, gathered, write_value_lines};
use std::alloc::Allocator;

/// The report's lines, first the one that says that a history is new.
pub(crate) fn reported<A: Allocator + Copy + Drop>(
    alloc: A,
    merging: &Merging<A>,
    is_new: bool,
) -> Result<Vec<u8, A>, NoMemory>
    ensures { IfOk result (λ text. text.items ≡ new_line is_new ++ merge_report merging.now.desk.plan.pit (commits_of merging.now.desk.history) merging.now.lines) }
{
    let plan = merging.desk().plan();
    let shorts = plan.shortfalls()?;
    let mut text = empty_text(alloc);
    let written = write_all(&mut text, is_new, merging.lines(), plan.value(), &shorts);
    gathered(text, written)
}

fn write_all<W: Sink>(
    w: &mut W,
    is_new: bool,
    lines: &[u8],
    value: i128,
    shorts: &[Short],
) -> Result<(), WriteFault>
    ensures { OnOk result (Appends (W.contents w.old) (W.contents w.new)
        (new_line is_new ++ (lines.now ++ (codes "value " ++ (value_text value ++ shorts_text shorts.now))))) }
{
    write_new_line(w, is_new)?;
    write_lines(w, lines, value, shorts)
}

/// The lines of the edits, the value, and the shortfalls.
fn write_lines<W: Sink>(
    w: &mut W,
    lines: &[u8],
    value: i128,
    shorts: &[Short],
) -> Result<(), WriteFault>
    ensures { OnOk result (Appends (W.contents w.old) (W.contents w.new) (lines.now ++ (codes "value " ++ (value_text value ++ shorts_text shorts.now)))) }
{
    write_text(w, lines)?;
    write_value_lines(w, value, shorts)
}

/// The status of a merge.
pub(crate) fn status_of(is_whole: bool) -> Status
    ensures { result ≡ merge_status is_whole }
{
    if is_whole {
        return Status::Fine;
    }
    Status::Failed
}

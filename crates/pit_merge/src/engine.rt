//! The engine: a desk is opened, the edits are merged one after another, and what is left is written.
ghost use Rattle.std.specs.Prelude.{◌≡◌, ◌≤◌, length, is_some, MatchResult};
ghost use Rattle.pit_step.specs.Steps.{in_turn, through, IsResultOf};
ghost use Rattle.pit_step.specs.Devices.{reading_of, readings_by, writing_of, known_if};
ghost use Rattle.pit_output.specs.Outputs.{keeping_of};
ghost use Rattle.pit_merge.specs.Edits.{edit_step};
ghost use Rattle.pit_merge.specs.Merge.{desk_step, merge_run};

use crate::input::MergeInput;
use crate::merger::Merger;
use crate::options::MergeOptions;
use crate::report::{reported, status_of};
use pit_file::HistoryOut;
use pit_num::{Sink, Source};
use pit_output::{OutputTexts, lines_if, write_outputs};
use pit_step::{CliFault, Status};
use std::alloc::{Allocator, Global};

/// How many edits one merge may have: as many as there may be planners.
pub const EDITS_MAX: usize = 64;

/// Merges edits into what is begun with, each as one transaction of the planner of its number that began at its base. Writes the solution that they
/// leave, then the report: a line for each edit with its conflicts, the value, and the shortfalls; and then, where there is an output for it, the
/// history. A history that is carried on is written before the others, and the report begins with a line where it is new. Before the first edit is
/// read, the limits of the pit are looked at and a history is audited. Then each edit is read, parsed and merged before the next one is looked at. A
/// fault is the first one; where it isn't that of an output, nothing is written. Answers `Failed` where an edit was refused, or a part of one was
/// left out. Takes the memory of the desk, of a number for each commit, of one edit and its base, and of the texts; and by `json` that of the JSON
/// value of one line.
pub fn merge<A: Allocator + Copy + Drop, E: Source, W: Sink, L: Sink, H: HistoryOut>(
    alloc: A,
    json: Global,
    input: MergeInput<A>,
    edits: &mut [E],
    options: MergeOptions,
    out: &mut W,
    report: &mut L,
    history: &mut Option<H>,
) -> Result<Status, CliFault>
    requires few { length edits.old ≤ EDITS_MAX }
    ensures done { let read = readings_by (λ (old new : E). reading_of (E.remaining old) (E.remaining new) (E.has_failed new)) edits.old edits.new in
        let written = writing_of (W.contents out.old) (W.contents out.new) (W.has_failed out.new) in
        let lines = writing_of (L.contents report.old) (L.contents report.new) (L.has_failed report.new) in
        let kept = known_if (λ old new. keeping_of (H.state old) (H.state new)) history.old history.new in
        IsResultOf (merge_run options input read written lines kept) tt result }
    ensures same { is_some history.new ≡ is_some history.old }
    ensures same_edits { length edits.new ≡ length edits.old }
{
    let is_first = input.is_carried_on;
    let is_new = input.is_new;
    let merged = match merged(alloc, json, input, edits, options) {
        Ok(merged) => merged,
        Err(fault) => return Err(fault),
    };
    let merging = merged.merging();
    let Ok(entries) = lines_if(alloc, history.is_some(), merging.desk().history()) else {
        return Err(CliFault::NoMemory);
    };
    let Ok(lines) = reported(alloc, merging, is_new) else {
        return Err(CliFault::NoMemory);
    };
    let texts = OutputTexts {
        periods: merging.desk().plan().periods(),
        report: &lines,
        history: &entries,
    };
    write_outputs(
        &texts,
        is_first,
        Ok(status_of(merging.is_whole())),
        out,
        report,
        history,
    )
}

/// Opens a desk, and merges the edits.
fn merged<A: Allocator + Copy + Drop, E: Source>(
    alloc: A,
    json: Global,
    input: MergeInput<A>,
    edits: &mut [E],
    options: MergeOptions,
) -> Result<Merger<A>, CliFault>
    requires few { length edits.old ≤ EDITS_MAX }
    ensures taken { let read = readings_by (λ (old new : E). reading_of (E.remaining old) (E.remaining new) (E.has_failed new)) edits.old edits.new in
        let run = in_turn (desk_step input) (through (edit_step options) 1 read) in
        MatchResult result (run.Gives tt) (run.Fails tt) }
    ensures same { length edits.new ≡ length edits.old }
{
    match Merger::begin(alloc, options.keys, input) {
        Ok(merger) => merger.take_each(alloc, json, options, edits, 1),
        Err(fault) => Err(fault),
    }
}

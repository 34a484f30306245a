//! The report of a run, and how `plan` ends.
ghost use Rattle.std.specs.Prelude.{◌≡◌, ◌++◌, IfOk, OnOk, codes, true, false};
ghost use Rattle.std.specs.List.{list_all};
ghost use Rattle.std.specs.Io.KnownBytes.{Appends};
ghost use Rattle.pit_desk.specs.History.{commits_of};
ghost use Rattle.pit_step.specs.Devices.{writing_of};
ghost use Rattle.pit_step.specs.LineTexts.{value_text, shorts_text};
ghost use Rattle.pit_step.specs.Steps.{IsResultOf};
ghost use Rattle.pit_cli.specs.ReportText.{runs_text};
ghost use Rattle.pit_output.specs.Outputs.{new_line};
ghost use Rattle.pit_cli.specs.Output.{is_whole, all_whole, was_granted, all_granted, status_by, ended_of, report_text, report_step, ran_end};

use crate::report_text::write_runs;
use pit_job::{Outcome, RunEnd};
use pit_num::{NoMemory, Sink, WriteFault, write_text};
use pit_output::{status_of_shorts, write_new_line};
use pit_plan::Short;
use pit_run::{PlannerRun, Report};
use pit_step::{CliFault, Status, empty_text, gathered, write_value_lines};
use std::alloc::Allocator;

/// Writes the report of a run at once: a line for each job and for each planner that stopped, by rising planner and job, the value, and the
/// shortfalls. Takes the memory of the lines; nothing is written where there isn't enough.
pub fn write_report<A: Allocator + Copy + Drop, B: Allocator + Copy + Drop, W: Sink>(
    alloc: B,
    w: &mut W,
    report: &Report<A>,
) -> Result<(), CliFault>
    ensures { let written = writing_of (W.contents w.old) (W.contents w.new) (W.has_failed w.new) in
        let text = report_text report.now.closed.plan.pit (commits_of report.now.closed.history) report.now.runs.items in
        IsResultOf (report_step text written) tt result }
{
    let Ok((lines, _ended)) = reported(alloc, report, false, false) else {
        return Err(CliFault::NoMemory);
    };
    match write_text(w, &lines) {
        Ok(()) => Ok(()),
        Err(_) => Err(CliFault::CannotWrite),
    }
}

/// The report's lines, of which the first may say that the history is new; and how the run ends.
pub(crate) fn reported<A: Allocator + Copy + Drop, B: Allocator + Copy + Drop>(
    alloc: B,
    report: &Report<A>,
    is_new: bool,
    is_strict: bool,
) -> Result<(Vec<u8, B>, Result<Status, CliFault>), NoMemory>
    ensures text { IfOk result (λ lines. lines.0.items ≡ new_line is_new ++ report_text report.now.closed.plan.pit (commits_of report.now.closed.history) report.now.runs.items) }
    ensures ended { IfOk result (λ lines. lines.1 ≡ ran_end is_strict (report.now.closed, report.now.runs.items)) }
{
    let plan = report.closed.desk().plan();
    let shorts = plan.shortfalls()?;
    let mut text = empty_text(alloc);
    let written = write_all(&mut text, is_new, &report.runs, plan.value(), &shorts);
    let lines = gathered(text, written)?;
    Ok((lines, ended(&report.runs, &shorts, is_strict)))
}

/// The line of a new history, where it is one, and those of a report.
fn write_all<A: Allocator + Drop, W: Sink>(
    w: &mut W,
    is_new: bool,
    runs: &[PlannerRun<A>],
    value: i128,
    shorts: &[Short],
) -> Result<(), WriteFault>
    ensures { OnOk result (Appends (W.contents w.old) (W.contents w.new)
        (new_line is_new ++ (runs_text runs.now ++ (codes "value " ++ (value_text value ++ shorts_text shorts.now))))) }
{
    write_new_line(w, is_new)?;
    write_lines(w, runs, value, shorts)
}

/// The lines of the runs, the value, and the shortfalls.
fn write_lines<A: Allocator + Drop, W: Sink>(
    w: &mut W,
    runs: &[PlannerRun<A>],
    value: i128,
    shorts: &[Short],
) -> Result<(), WriteFault>
    ensures { OnOk result (Appends (W.contents w.old) (W.contents w.new) (runs_text runs.now ++ (codes "value " ++ (value_text value ++ shorts_text shorts.now)))) }
{
    write_runs(w, runs)?;
    write_value_lines(w, value, shorts)
}

fn ended<A: Allocator + Drop>(
    runs: &[PlannerRun<A>],
    shorts: &[Short],
    is_strict: bool,
) -> Result<Status, CliFault>
    ensures { result ≡ ended_of is_strict runs.now shorts.now }
{
    if are_whole(runs) {
        Ok(status_of(shorts, is_strict, are_granted(runs)))
    } else {
        Err(CliFault::Stopped)
    }
}

fn status_of(shorts: &[Short], is_strict: bool, are_granted: bool) -> Status
    ensures { result ≡ status_by is_strict are_granted shorts.now }
{
    if is_strict && !are_granted {
        return Status::Failed;
    }
    status_of_shorts(shorts)
}

/// Whether no job of any planner was refused.
fn are_granted<A: Allocator + Drop>(runs: &[PlannerRun<A>]) -> bool
    ensures { result ≡ all_granted runs.now }
{
    runs.iter().all(|run| has_granted(run.jobs()))
}

fn has_granted(jobs: &[Outcome]) -> bool
    ensures { result ≡ list_all was_granted jobs.now }
{
    jobs.iter().all(|job| was_granted(job))
}

/// Whether a job was not refused.
fn was_granted(job: &Outcome) -> bool
    ensures { result ≡ was_granted job.now }
{
    match job {
        Outcome::Refused { .. } => false,
        _ => true,
    }
}

/// Whether each planner did all of its script.
fn are_whole<A: Allocator + Drop>(runs: &[PlannerRun<A>]) -> bool
    ensures { result ≡ all_whole runs.now }
{
    runs.iter().all(|run| is_whole(run.ended()))
}

fn is_whole(ended: RunEnd) -> bool
    ensures { result ≡ is_whole ended }
{
    match ended {
        RunEnd::Whole => true,
        _ => false,
    }
}

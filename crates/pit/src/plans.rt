//! The run of `plan` on the files that the words name. A history that is carried on is held from before the first input is opened; another is once all
//! inputs are read.
ghost use Rattle.std.specs.Prelude.{◌≡◌, ◌≤◌, true, false, is_some};
ghost use Rattle.pit_job.specs.declared.planner_run.TheConstants.{RETRIES_MAX};
ghost use Rattle.pit_step.specs.Steps.{IsResultOf};
ghost use Rattle.pit_step.specs.Devices.{writing_of, known_if};
ghost use Rattle.pit_output.specs.Outputs.{keeping_of};
ghost use Rattle.pit.specs.Histories.{is_continued};
ghost use Rattle.pit.specs.PlanRun.{plan_by, plan_options, held_run};

use crate::files::Disk;
use crate::histories::{is_continued, is_history_there, let_go, prepared};
use crate::plan_texts::plan_input;
use crate::sources::plan_sources;
use pit_cli::{CliFault, Keys, PlanOptions, Status, plan};
use pit_command::PlanWords;
use pit_num::Sink;
use std::alloc::Global;
use std::sync::Wait;
use std::thread::Threads;

/// Where there is no answer, no new file of a history is left.
pub fn run_plan<D: Disk, R: Threads + Wait + Sync, W: Sink, L: Sink>(
    rt: &R,
    alloc: Global,
    keys: Keys,
    disk: &D,
    words: &PlanWords<'_>,
    out: &mut W,
    report: &mut L,
) -> Result<Status, CliFault>
    ensures { let written = writing_of (W.contents out.old) (W.contents out.new) (W.has_failed out.new) in
        let lines = writing_of (L.contents report.old) (L.contents report.new) (L.has_failed report.new) in
        IsResultOf (plan_by (is_continued words.now.origin) (D.told disk.now) words.now (plan_options keys words.now) written lines ((out.new ≡ out.old) × (report.new ≡ report.old))) tt result }
{
    let options = PlanOptions {
        retries: words.retries,
        is_in_turn: words.is_in_turn,
        is_strict: words.is_strict,
        keys,
    };
    if is_continued(&words.origin) {
        return carry_on(rt, alloc, disk, words, options, out, report);
    }
    begin(rt, alloc, disk, words, options, out, report)
}

fn begin<D: Disk, R: Threads + Wait + Sync, W: Sink, L: Sink>(
    rt: &R,
    alloc: Global,
    disk: &D,
    words: &PlanWords<'_>,
    options: PlanOptions,
    out: &mut W,
    report: &mut L,
) -> Result<Status, CliFault>
    requires few { options.retries ≤ RETRIES_MAX }
    ensures { let written = writing_of (W.contents out.old) (W.contents out.new) (W.has_failed out.new) in
        let lines = writing_of (L.contents report.old) (L.contents report.new) (L.has_failed report.new) in
        IsResultOf (plan_by false (D.told disk.now) words.now options written lines ((out.new ≡ out.old) × (report.new ≡ report.old))) tt result }
{
    let input = match plan_input(alloc, disk, words, false) {
        Ok(input) => input,
        Err(fault) => return Err(fault),
    };
    let mut history = match prepared(disk, &words.origin) {
        Ok(history) => history,
        Err(fault) => return Err(fault),
    };
    let answer = plan(rt, alloc, alloc, input, options, out, report, &mut history);
    let_go(disk, &plan_sources(words, false), &mut history, &answer);
    answer
}

fn carry_on<D: Disk, R: Threads + Wait + Sync, W: Sink, L: Sink>(
    rt: &R,
    alloc: Global,
    disk: &D,
    words: &PlanWords<'_>,
    options: PlanOptions,
    out: &mut W,
    report: &mut L,
) -> Result<Status, CliFault>
    requires few { options.retries ≤ RETRIES_MAX }
    ensures { let written = writing_of (W.contents out.old) (W.contents out.new) (W.has_failed out.new) in
        let lines = writing_of (L.contents report.old) (L.contents report.new) (L.has_failed report.new) in
        IsResultOf (plan_by true (D.told disk.now) words.now options written lines ((out.new ≡ out.old) × (report.new ≡ report.old))) tt result }
{
    let mut history = match prepared(disk, &words.origin) {
        Ok(history) => history,
        Err(fault) => return Err(fault),
    };
    let answer = carry_on_held(rt, alloc, disk, words, options, out, report, &mut history);
    let_go(disk, &plan_sources(words, false), &mut history, &answer);
    answer
}

/// The same, once the history is held.
fn carry_on_held<D: Disk, R: Threads + Wait + Sync, W: Sink, L: Sink>(
    rt: &R,
    alloc: Global,
    disk: &D,
    words: &PlanWords<'_>,
    options: PlanOptions,
    out: &mut W,
    report: &mut L,
    history: &mut Option<D::History>,
) -> Result<Status, CliFault>
    requires few { options.retries ≤ RETRIES_MAX }
    ensures done { let written = writing_of (W.contents out.old) (W.contents out.new) (W.has_failed out.new) in
        let lines = writing_of (L.contents report.old) (L.contents report.new) (L.has_failed report.new) in
        let kept = known_if (λ old new. keeping_of (D.History.state old) (D.History.state new)) history.old history.new in
        IsResultOf (held_run (D.told disk.now) words.now options written lines kept ((out.new ≡ out.old) × (report.new ≡ report.old))) tt result }
    ensures same { is_some history.new ≡ is_some history.old }
{
    let is_there = is_history_there(disk, &words.origin);
    let input = match plan_input(alloc, disk, words, is_there) {
        Ok(input) => input,
        Err(fault) => return Err(fault),
    };
    plan(rt, alloc, alloc, input, options, out, report, history)
}

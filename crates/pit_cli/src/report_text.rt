ghost use Rattle.std.specs.Prelude.{OnOk};
ghost use Rattle.std.specs.Io.KnownBytes.{Appends};
ghost use Rattle.pit_cli.specs.ReportText.{outcome_text, job_text, jobs_text, run_end_text, stopped_text, run_text, runs_text};

use pit_job::{Outcome, RunEnd};
use pit_num::{Sink, WriteFault, write_text};
use pit_run::PlannerRun;
use pit_step::{write_numbered, write_refusal};
use std::alloc::Allocator;

/// A line for each outcome, by rising planner and job, and one for each planner whose run isn't whole.
pub(crate) fn write_runs<A: Allocator + Drop, W: Sink>(
    w: &mut W,
    runs: &[PlannerRun<A>],
) -> Result<(), WriteFault>
    ensures { OnOk result (Appends (W.contents w.old) (W.contents w.new) (runs_text runs.now)) }
{
    for run in runs {
        write_run(w, run)?;
    }
    Ok(())
}

fn write_run<A: Allocator + Drop, W: Sink>(w: &mut W, run: &PlannerRun<A>) -> Result<(), WriteFault>
    ensures { OnOk result (Appends (W.contents w.old) (W.contents w.new) (run_text run.now)) }
{
    write_jobs(w, run.planner(), run.jobs())?;
    write_end(w, run.planner(), run.ended())
}

fn write_jobs<W: Sink>(w: &mut W, planner: u32, outcomes: &[Outcome]) -> Result<(), WriteFault>
    ensures { OnOk result (Appends (W.contents w.old) (W.contents w.new) (jobs_text planner 1 outcomes.now)) }
{
    for (i, outcome) in outcomes.iter().enumerate() {
        write_job(w, planner, i as u64 + 1, *outcome)?;
    }
    Ok(())
}

#[tactic(auto, unfolding(crate::specs::ReportText::job_text))]
fn write_job<W: Sink>(w: &mut W, planner: u32, job: u64, outcome: Outcome) -> Result<(), WriteFault>
    ensures { OnOk result (Appends (W.contents w.old) (W.contents w.new) (job_text planner job outcome)) }
{
    write_numbered(w, b"planner ", u64::from(planner))?;
    write_numbered(w, b" job ", job)?;
    write_text(w, b" ")?;
    write_outcome(w, outcome)?;
    write_text(w, b"\n")
}

fn write_outcome<W: Sink>(w: &mut W, outcome: Outcome) -> Result<(), WriteFault>
    ensures { OnOk result (Appends (W.contents w.old) (W.contents w.new) (outcome_text outcome)) }
{
    match outcome {
        Outcome::Committed { number, tries } => {
            write_numbered(w, b"committed ", u64::from(number))?;
            write_numbered(w, b" tries ", u64::from(tries))
        }
        Outcome::Withdrawn { tries } => write_numbered(w, b"withdrawn tries ", u64::from(tries)),
        Outcome::Refused { refusal, tries } => {
            write_text(w, b"refused ")?;
            write_refusal(w, refusal)?;
            write_numbered(w, b" tries ", u64::from(tries))
        }
    }
}

#[tactic(auto, unfolding(crate::specs::ReportText::run_end_text))]
fn write_end<W: Sink>(w: &mut W, planner: u32, ended: RunEnd) -> Result<(), WriteFault>
    ensures { OnOk result (Appends (W.contents w.old) (W.contents w.new) (run_end_text planner ended)) }
{
    match ended {
        RunEnd::Whole => write_text(w, b""),
        RunEnd::Full { job } => write_stopped(w, planner, job, b": full\n"),
        RunEnd::NoMemory { job } => write_stopped(w, planner, job, b": no memory\n"),
        RunEnd::NoEntry { job } => write_stopped(w, planner, job, b": no entry\n"),
        RunEnd::NoThread => {
            write_numbered(w, b"planner ", u64::from(planner))?;
            write_text(w, b" not started\n")?;
            Ok(())
        }
    }
}

#[tactic(auto, unfolding(crate::specs::ReportText::stopped_text))]
fn write_stopped<W: Sink>(w: &mut W, planner: u32, job: u32, why: &[u8]) -> Result<(), WriteFault>
    ensures { OnOk result (Appends (W.contents w.old) (W.contents w.new) (stopped_text planner job why.now)) }
{
    write_numbered(w, b"planner ", u64::from(planner))?;
    write_numbered(w, b" stopped at job ", u64::from(job))?;
    write_text(w, why)?;
    Ok(())
}

//! `pit_run`: scripts, which planners do at once or in turn.
ghost use Rattle.std.specs.Prelude.{◌≡◌};

use super::book::OVER;
use super::share::{Shared, assert_shared, shared};
use super::tiny::{empty_desk, tiny};
use pit_book::Desk;
use pit_model::Instance;
use pit_num::NumError;
use pit_run::{
    Gate, InTurnError, Open, Outcome, PlannerRun, Report, RunEnd, RunError, Script, ScriptCause,
    ScriptError, run_in_turn,
};
use pit_share::Session;
use std::alloc::Global;
use std::process::Abort;
use std::sync::Wait;
use std::sync::atomic::{AtomicU64, Ordering};
use std::thread::Threads;

/// Puts blocks 0 and 1 into period 0, then block 3, which is too much, and thinks better of putting that into period 1.
const SCRIPT: &[u8] =
    b"begin\nput 0 0\nput 1 0\ncommit\nbegin\nput 3 0\ncommit\nbegin\nput 3 1\nabort\n";

#[test]
fn a_planner_does_its_script(rt: HostRuntime) {
    let answer = by_script(&rt, rt.alloc());
    assert_shared(&rt, answer, (3, 1));
}

fn by_script<R: Threads + Wait + Abort + Sync>(rt: &R, alloc: Global) -> Shared {
    let desk = empty_desk(rt, alloc, 100);
    let scripts = [script_of(rt, alloc, desk.plan().instance())];
    let answer = shared(rt, alloc, desk, 1, &scripts);
    drop(scripts);
    answer
}

fn script_of(rt: &impl Abort, alloc: Global, pit: &Instance<Global>) -> Script<Global>
    ensures { result.pit ≡ pit.now }
{
    match Script::parse(alloc, SCRIPT, pit) {
        Ok(script) => {
            assert_jobs(rt, &script);
            script
        }
        Err(_) => panic!(rt; "no script"),
    }
}

fn assert_jobs(rt: &impl Abort, script: &Script<Global>) {
    assert!(rt; script.jobs() == 3);
}

/// The desk that a run of the script leaves.
pub(super) fn desk_of<S: Session, R: Wait + Drop>(
    rt: &impl Abort,
    answer: Result<Report<Global>, RunError<S, R, Global>>,
) -> Desk<Global> {
    let Report { closed, runs } = match answer {
        Ok(report) => report,
        Err(
            RunError::NoMemory {
                workspace: _,
                seats: _,
            },
        ) => panic!(rt; "no memory"),
        Err(
            RunError::NotClosed {
                workspace: _,
                logs: _,
                cause: _,
            },
        ) => panic!(rt; "not closed"),
    };
    assert_run(rt, &runs, 3, ("whole", 0));
    drop(runs);
    closed.into_desk()
}

fn assert_run(rt: &impl Abort, runs: &[PlannerRun<Global>], count: usize, end: (&str, u32)) {
    assert!(rt; is_run(runs.first(), count, end));
}

/// Whether planner 1 did so many jobs of the script, and how its run ended.
fn is_run(run: Option<&PlannerRun<Global>>, count: usize, end: (&str, u32)) -> bool {
    let Some(run) = run else {
        return false;
    };
    let (refusal, tries) = (OVER, 1);
    let jobs = [
        Outcome::Committed { number: 1, tries },
        Outcome::Refused { refusal, tries },
        Outcome::Withdrawn { tries },
    ];
    run.planner() == 1 && Some(run.jobs()) == jobs.get(..count) && end_of(run.ended()) == end
}

/// How a run ended, and before which job.
fn end_of(end: RunEnd) -> (&'static str, u32) {
    match end {
        RunEnd::Whole => ("whole", 0),
        RunEnd::Full { job } => ("full", job),
        RunEnd::NoMemory { job } => ("no memory", job),
        RunEnd::NoEntry { job } => ("no entry", job),
        RunEnd::NoThread => ("no thread", 1),
    }
}

/// Counts each commit by one before it, and by ten after it.
#[derive(Drop)]
struct Counting(AtomicU64);

impl Gate for Counting {
    fn before_commit(&self, planner: u32, _job: u32) {
        self.0.fetch_add(u64::from(planner), Ordering::SeqCst);
    }

    fn after_commit(&self, _planner: u32, _job: u32) {
        self.0.fetch_add(10, Ordering::SeqCst);
    }
}

/// A planner stops where the history has the two entries that it may have.
#[test]
fn planners_take_turns(rt: HostRuntime) {
    let gate = Counting(AtomicU64::new(0));
    let report = in_turn(&rt, rt.alloc(), &gate);
    assert_stopped(&rt, &report);
    drop(report);
    assert!(rt; gate.0.load(Ordering::SeqCst) == 22);
}

/// What comes of the script by turns, where the history may have two entries.
pub(super) fn in_turn<R: Wait + Abort, G: Gate>(rt: &R, alloc: Global, gate: &G) -> Report<Global> {
    let desk = empty_desk(rt, alloc, 2);
    let scripts = [script_of(rt, alloc, desk.plan().instance())];
    let answer = run_in_turn(rt, alloc, desk, &scripts, 3, gate);
    drop(scripts);
    answer.ok().expect(rt, "a report")
}

fn assert_stopped(rt: &impl Abort, report: &Report<Global>) {
    assert!(rt; report.closed.desk().history().len() == 2);
    assert_run(rt, &report.runs, 2, ("full", 3));
}

#[test]
fn planners_who_take_turns_may_be_none(rt: HostRuntime) {
    let desk = empty_desk(&rt, rt.alloc(), 100);
    match run_in_turn(&rt, rt.alloc(), desk, &[], 3, &Open) {
        Ok(_) => panic!(rt; "a report"),
        Err(InTurnError::PlannerCount) => {}
        Err(InTurnError::NoPlace) => panic!(rt; "no place"),
        Err(InTurnError::NoMemory) => panic!(rt; "no memory"),
        Err(InTurnError::NotClosed { planner, .. }) => panic!(rt; "not closed by {planner}"),
    }
}

/// Scripts, the line of the first fault, and its cause.
const FAULTY: &[(&[u8], u64, ScriptCause)] = &[
    (b"\xff\n", 1, ScriptCause::NotAscii),
    (b"dig 0\n", 1, ScriptCause::UnknownWord),
    (b"begin 1\n", 1, ScriptCause::FieldCount),
    (b"begin\nread x\n", 2, MALFORMED),
    (b"begin\nread 4\n", 2, ScriptCause::BlockRange),
    (b"begin\nrevise 1 0 4\n", 2, ScriptCause::ResourceRange),
    (b"begin\nput 0 2\n", 2, ScriptCause::PeriodRange),
    (b"put 0 0\n", 1, ScriptCause::Order),
    (b"begin\nbench 7 0\n", 2, ScriptCause::NoBench),
    (b"begin\n", 2, ScriptCause::Unended),
];

const MALFORMED: ScriptCause = ScriptCause::BadNumber(NumError::Malformed);

#[test]
fn a_script_may_have_a_fault(rt: HostRuntime) {
    let pit = tiny(&rt, rt.alloc());
    assert_faults(&rt, rt.alloc(), &pit);
    drop(pit);
}

fn assert_faults(rt: &impl Abort, alloc: Global, pit: &Instance<Global>) {
    for (text, line, cause) in FAULTY {
        let error = Script::parse(alloc, text, pit).err();
        let (line, cause) = (*line, *cause);
        assert!(rt; error == Some(ScriptError { line, cause }));
    }
}

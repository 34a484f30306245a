//! A planner's jobs, one after the other.
ghost use Rattle.std.specs.Prelude.{◌≡◌, ◌<◌, ◌≤◌, ◌++◌, ◌∷◌, [], List, vec_len, vec_capacity};
ghost use Rattle.pit_desk.specs.History.{Answered};
ghost use Rattle.pit_job.specs.Outcomes.{Grows};
ghost use Rattle.pit_job.specs.Runs.{RanFrom};
ghost use Rattle.pit_job.specs.Inside.Runs.{IsJobNumber, job_numbered, RanJob, end_of as end_by};
ghost use Rattle.pit_job.specs.declared.planner_run.TheConstants.{RETRIES_MAX};

use crate::attempt::attempt;
use crate::carry::Walk;
use crate::gate::Gate;
use crate::outcome::{JobStop, Outcome, RunEnd, Tried, outcome_of};
use pit_board::Session;
use pit_desk::Refusal;
use pit_script::Script;
use pit_share::Planner;
use std::alloc::Allocator;
use std::sync::Wait;

/// The greatest number of times that a job is tried again.
pub const RETRIES_MAX: u32 = 1000;

/// Does the jobs of a script in order, numbered from 1, as far as they go. A job's outcome has its room before its first try.
pub fn run_script<
    'a,
    S: Session,
    R: Wait + Drop,
    A: Allocator + Copy + Drop,
    B: Allocator + Copy + Drop,
    W: Wait,
    G: Gate,
>(
    rt: &W,
    alloc: A,
    planner: Planner<'a, S, R, A>,
    script: &Script<B>,
    retries: u32,
    gate: &G,
) -> (Planner<'a, S, R, A>, Vec<Outcome, A>, RunEnd)
    requires pit { script.now.pit ≡ S.instance }
    requires few { retries ≤ RETRIES_MAX }
    ensures { (es : List Answered) × Grows planner.entry es result.0
        × RanFrom S.instance S.max_entries retries planner.entry.seen result.0.seen 1 script.now.jobs es result.1.items result.2 }
{
    let mut outcomes = Vec::new(alloc);
    let mut walk = Walk::new(alloc);
    let mut now = planner;
    for i in 0..script.jobs() {
        let n = i + 1;
        let Ok(()) = outcomes.reserve(1) else {
            return (now, outcomes, RunEnd::NoMemory { job: n });
        };
        let (next, answer) = run_job(rt, now, &mut walk, script, n, retries, gate);
        now = next;
        match answer {
            Err(stop) => return (now, outcomes, end_of(stop, n)),
            Ok(outcome) => push_in_room(&mut outcomes, outcome),
        }
    }
    (now, outcomes, RunEnd::Whole)
}

/// Tries the job with a number until it gets an answer other than Moved; at most once more than there are retries.
fn run_job<
    'a,
    S: Session,
    R: Wait + Drop,
    A: Allocator + Copy + Drop,
    B: Allocator + Copy + Drop,
    W: Wait,
    G: Gate,
>(
    rt: &W,
    planner: Planner<'a, S, R, A>,
    walk: &mut Walk<A>,
    script: &Script<B>,
    n: u32,
    retries: u32,
    gate: &G,
) -> (Planner<'a, S, R, A>, Result<Outcome, JobStop>)
    requires pit { script.now.pit ≡ S.instance }
    requires job { IsJobNumber script.now.jobs n }
    requires few { retries ≤ RETRIES_MAX }
    ensures { (es : List Answered) × Grows planner.entry es result.0
        × RanJob S.instance S.max_entries (job_numbered script.now.jobs n) retries n planner.entry.seen result.0.seen es result.1 }
{
    let mut now = planner;
    for before in 0..retries {
        let (next, tried) = attempt(rt, now, walk, script, n, gate);
        now = next;
        match tried {
            Tried::Moved { .. } => {}
            Tried::Answered(reply) => return (now, Ok(outcome_of(reply, before + 1))),
            Tried::Stopped(stop) => return (now, Err(stop)),
        }
    }
    let (last, tried) = attempt(rt, now, walk, script, n, gate);
    match tried {
        Tried::Moved { block, version } => (
            last,
            Ok(Outcome::Refused {
                refusal: Refusal::Moved { block, version },
                tries: retries + 1,
            }),
        ),
        Tried::Answered(reply) => (last, Ok(outcome_of(reply, retries + 1))),
        Tried::Stopped(stop) => (last, Err(stop)),
    }
}

fn end_of(stop: JobStop, n: u32) -> RunEnd
    ensures { result ≡ end_by stop n }
{
    match stop {
        JobStop::Full => RunEnd::Full { job: n },
        JobStop::NoMemory => RunEnd::NoMemory { job: n },
        JobStop::NoEntry => RunEnd::NoEntry { job: n },
    }
}

/// Adds an outcome where there is room for it.
fn push_in_room<A: Allocator + Copy + Drop>(outcomes: &mut Vec<Outcome, A>, outcome: Outcome)
    requires { vec_len outcomes.old < vec_capacity outcomes.old }
    ensures { outcomes.new.items ≡ outcomes.old.items ++ outcome ∷ [] }
{
    outcomes.push_reserved(outcome);
}

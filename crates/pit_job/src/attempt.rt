//! One try of a job.
ghost use Rattle.std.specs.Prelude.{◌≡◌, List, []};
ghost use Rattle.pit_desk.specs.History.{Answered};
ghost use Rattle.pit_desk.specs.declared.entry.Act.TheVariants.{Commit as commit_act, Withdraw as withdraw_act};
ghost use Rattle.pit_job.specs.Inside.Doing.{IsFresh};
ghost use Rattle.pit_job.specs.Outcomes.{Grows};
ghost use Rattle.pit_job.specs.Inside.Runs.{IsJobNumber, job_numbered};
ghost use Rattle.pit_job.specs.Inside.Outcomes.{Tries, EndsBy, EndsUnmoved, stop_of as stop_by, tried_at as tried_until, tried_of as tried_by};

use crate::carry::Walk;
use crate::doing::{StepStop, do_steps};
use crate::gate::Gate;
use crate::outcome::{JobStop, Tried};
use pit_board::Session;
use pit_desk::{EntryReply, Refusal, Reply, Stop};
use pit_script::{JobEnd, Script};
use pit_share::{Planner, Transaction};
use std::alloc::Allocator;
use std::sync::Wait;

/// Does job `n` in a transaction of its own.
pub(crate) fn attempt<
    'a,
    S: Session,
    R: Wait + Drop,
    A: Allocator + Copy + Drop,
    B: Allocator + Copy + Drop,
    W: Wait,
    G: Gate,
>(
    rt: &W,
    planner: Planner<'a, S, R, A>,
    walk: &mut Walk<A>,
    script: &Script<B>,
    n: u32,
    gate: &G,
) -> (Planner<'a, S, R, A>, Tried)
    requires pit { script.now.pit ≡ S.instance }
    requires job { IsJobNumber script.now.jobs n }
    ensures { (es : List Answered) × Grows planner.entry es result.0
        × Tries S.instance S.max_entries (job_numbered script.now.jobs n) n planner.entry.seen result.0.seen es result.1 }
{
    let number = planner.number();
    match planner.begin(n) {
        Ok(t) => done(rt, t, walk, script, number, n, gate),
        Err((planner, _)) => (planner, Tried::Stopped(JobStop::NoMemory)),
    }
}

/// Does a job in a transaction that has begun.
fn done<
    'a,
    S: Session,
    R: Wait + Drop,
    A: Allocator + Copy + Drop,
    B: Allocator + Copy + Drop,
    W: Wait,
    G: Gate,
>(
    rt: &W,
    t: Transaction<'a, S, R, A>,
    walk: &mut Walk<A>,
    script: &Script<B>,
    number: u32,
    n: u32,
    gate: &G,
) -> (Planner<'a, S, R, A>, Tried)
    requires pit { script.now.pit ≡ S.instance }
    requires job { IsJobNumber script.now.jobs n }
    requires fresh { IsFresh n t }
    ensures tries { (es : List Answered) × Grows t.entry.planner es result.0
        × Tries S.instance S.max_entries (job_numbered script.now.jobs n) n t.entry.planner.seen result.0.seen es result.1 }
    ensures unmoved { EndsUnmoved S.instance (job_numbered script.now.jobs n).steps t.entry.work.start t.entry.planner.seen result.0.seen result.1 }
{
    let mut t = t;
    let (steps, end) = script.job(n - 1);
    match do_steps(&mut t, walk, script.benches(), steps) {
        Err(stop) => (t.abandon(), tried_at(stop)),
        Ok(false) => withdraw(rt, t),
        Ok(true) => match end {
            JobEnd::Abort => withdraw(rt, t),
            JobEnd::Commit => commit(rt, t, number, n, gate),
        },
    }
}

fn tried_at(stop: StepStop) -> Tried
    ensures { result ≡ tried_until stop }
{
    match stop {
        StepStop::Moved { block, version } => Tried::Moved { block, version },
        StepStop::NoMemory => Tried::Stopped(JobStop::NoMemory),
        StepStop::NoEntry => Tried::Stopped(JobStop::NoEntry),
    }
}

fn withdraw<'a, S: Session, R: Wait + Drop, A: Allocator + Copy + Drop, W: Wait>(
    rt: &W,
    t: Transaction<'a, S, R, A>,
) -> (Planner<'a, S, R, A>, Tried)
    ensures ends { (es : List Answered) × Grows t.entry.planner es result.0 × EndsBy S.instance S.max_entries withdraw_act t.entry.work result.0.seen es result.1 }
    ensures unmoved { EndsUnmoved S.instance [] t.entry.work.start t.entry.planner.seen result.0.seen result.1 }
{
    match t.abort(rt) {
        Ok(planner) => (planner, Tried::Answered(EntryReply::Withdrawn)),
        Err((t, stop)) => (t.abandon(), Tried::Stopped(stop_of(stop))),
    }
}

fn commit<'a, S: Session, R: Wait + Drop, A: Allocator + Copy + Drop, W: Wait, G: Gate>(
    rt: &W,
    t: Transaction<'a, S, R, A>,
    number: u32,
    n: u32,
    gate: &G,
) -> (Planner<'a, S, R, A>, Tried)
    ensures ends { (es : List Answered) × Grows t.entry.planner es result.0 × EndsBy S.instance S.max_entries commit_act t.entry.work result.0.seen es result.1 }
    ensures unmoved { EndsUnmoved S.instance [] t.entry.work.start t.entry.planner.seen result.0.seen result.1 }
{
    gate.before_commit(number, n);
    let answer = t.commit(rt);
    gate.after_commit(number, n);
    match answer {
        Ok((planner, reply)) => (planner, tried_of(reply)),
        Err((t, stop)) => (t.abandon(), Tried::Stopped(stop_of(stop))),
    }
}

fn stop_of(stop: Stop) -> JobStop
    ensures { result ≡ stop_by stop }
{
    match stop {
        Stop::Full => JobStop::Full,
        Stop::NoMemory => JobStop::NoMemory,
    }
}

fn tried_of(reply: Reply) -> Tried
    ensures { result ≡ tried_by reply }
{
    match reply {
        Reply::Committed { number } => Tried::Answered(EntryReply::Committed { number }),
        Reply::Refused(Refusal::Moved { block, version }) => Tried::Moved { block, version },
        Reply::Refused(why) => Tried::Answered(EntryReply::Refused(why)),
    }
}

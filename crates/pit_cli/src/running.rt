//! From a pit, what a plan begins with, and scripts to the report of their run.
ghost use Rattle.std.specs.Prelude.{◌≡◌, ◌≤◌, true, false, ℕ, List, All, length, map, IfOk, OnOk, IfErr, MatchResult};
ghost use Rattle.pit_model.specs.Pit.{Pit};
ghost use Rattle.pit_desk.specs.History.{Answered};
ghost use Rattle.pit_script.specs.Jobs.{Job};
ghost use Rattle.pit_cli.specs.Inside.Runs.{IsFaultOn};
ghost use Rattle.pit_opening.specs.Openings.{IsOpeningIn};
ghost use Rattle.pit_share.specs.Opening.{IsPlannerCount, IsOpenError};
ghost use Rattle.pit_share.specs.declared.new_session.TheConstants.{PLANNERS_MAX};
ghost use Rattle.pit_job.specs.declared.planner_run.TheConstants.{RETRIES_MAX};
ghost use Rattle.pit_step.specs.Steps.{in_turn};
ghost use Rattle.pit_cli.specs.Texts.{Setup};
ghost use Rattle.pit_cli.specs.Planning.{AreDone, desk_judged, count_judged, planners_step};

use crate::plan_options::PlanOptions;
use pit_board::Session;
use pit_desk::Desk;
use pit_job::Open;
use pit_model::Instance;
use pit_opening::{Opening, desk_of};
use pit_run::{InTurnError, Report, RunError, run, run_in_turn};
use pit_script::Script;
use pit_share::{NewSession, OpenError, Workspace};
use pit_step::CliFault;
use std::alloc::Allocator;
use std::marker::Brand;
use std::sync::Wait;
use std::thread::Threads;

/// Opens a desk with what a plan begins with, for `ENTRIES_MAX` entries, and a workspace on the desk. Has planners do the scripts, each in a thread
/// of its own, and closes the workspace. Where they take turns, each planner has a workspace of its own.
pub fn run_scripts<R: Threads + Wait + Sync, A: Allocator + Copy + Drop + Send + Sync>(
    rt: &R,
    alloc: A,
    pit: Instance<A>,
    opening: Opening<A>,
    scripts: &[Script<A>],
    options: PlanOptions,
) -> Result<Report<A>, CliFault>
    requires opening { IsOpeningIn pit opening }
    requires pits { All (λ script. script.pit ≡ pit) scripts.now }
    requires few { options.retries ≤ RETRIES_MAX }
    ensures { let setup : Setup = ((pit, opening), map (λ script. script.jobs) scripts.now) in
        let run = in_turn desk_judged (in_turn count_judged (planners_step options)) in
        MatchResult result (λ report. run.Gives setup (report.closed, report.runs.items)) (run.Fails setup) }
{
    match desk_of(alloc, pit.keyed(options.keys), opening) {
        Ok(desk) => run_as(rt, alloc, desk, scripts, options),
        Err(fault) => Err(fault),
    }
}

/// Has planners do the scripts on a desk, each in a thread or in turn.
fn run_as<R: Threads + Wait + Sync, A: Allocator + Copy + Drop + Send + Sync>(
    rt: &R,
    alloc: A,
    desk: Desk<A>,
    scripts: &[Script<A>],
    options: PlanOptions,
) -> Result<Report<A>, CliFault>
    requires pits { All (λ script. script.pit ≡ desk.plan.pit) scripts.now }
    requires few { options.retries ≤ RETRIES_MAX }
    ensures count { OnOk result (IsPlannerCount (length scripts.now)) }
    ensures ok { let jobs = map (λ script. script.jobs) scripts.now in
        IfOk result (λ report. AreDone options.is_in_turn desk.plan.pit desk.history desk.max_entries options.retries jobs (report.closed, report.runs.items)) }
    ensures err { IfErr result (IsFaultOn options.is_in_turn desk.plan.pit desk.history desk.max_entries options.retries (map (λ script. script.jobs) scripts.now)) }
{
    if options.is_in_turn {
        return run_turns(rt, alloc, desk, scripts, options.retries);
    }
    run_on(rt, alloc, desk, scripts, options.retries)
}

/// Has planners take turns with the scripts on a desk.
fn run_turns<R: Wait, A: Allocator + Copy + Drop>(
    rt: &R,
    alloc: A,
    desk: Desk<A>,
    scripts: &[Script<A>],
    retries: u32,
) -> Result<Report<A>, CliFault>
    requires pits { All (λ script. script.pit ≡ desk.plan.pit) scripts.now }
    requires few { retries ≤ RETRIES_MAX }
    ensures count { OnOk result (IsPlannerCount (length scripts.now)) }
    ensures ok { let jobs = map (λ script. script.jobs) scripts.now in
        IfOk result (λ report. AreDone true desk.plan.pit desk.history desk.max_entries retries jobs (report.closed, report.runs.items)) }
    ensures err { IfErr result (IsFaultOn true desk.plan.pit desk.history desk.max_entries retries (map (λ script. script.jobs) scripts.now)) }
{
    match run_in_turn(rt, alloc, desk, scripts, retries, &Open) {
        Ok(report) => Ok(report),
        Err(InTurnError::PlannerCount) => Err(CliFault::PlannerCount),
        Err(InTurnError::NoPlace) => Err(CliFault::NoPlace),
        Err(InTurnError::NoMemory) => Err(CliFault::NoMemory),
        Err(InTurnError::NotClosed { .. }) => Err(CliFault::NotClosed),
    }
}

/// Has a session's planners do the scripts on a desk.
fn run_on<R: Threads + Wait + Sync, A: Allocator + Copy + Drop + Send + Sync>(
    rt: &R,
    alloc: A,
    desk: Desk<A>,
    scripts: &[Script<A>],
    retries: u32,
) -> Result<Report<A>, CliFault>
    requires pits { All (λ script. script.pit ≡ desk.plan.pit) scripts.now }
    requires few { retries ≤ RETRIES_MAX }
    ensures count { OnOk result (IsPlannerCount (length scripts.now)) }
    ensures ok { let jobs = map (λ script. script.jobs) scripts.now in
        IfOk result (λ report. AreDone false desk.plan.pit desk.history desk.max_entries retries jobs (report.closed, report.runs.items)) }
    ensures err { IfErr result (IsFaultOn false desk.plan.pit desk.history desk.max_entries retries (map (λ script. script.jobs) scripts.now)) }
{
    let Ok(planners) = u32::try_from(scripts.len()) else {
        return Err(CliFault::PlannerCount);
    };
    run_in::<Brand, _, _, _>(
        rt,
        rt,
        alloc,
        desk,
        planners,
        NewSession::new(),
        scripts,
        retries,
    )
}

/// The same under a session's name. `own` is the handle that the board's writer keeps.
fn run_in<
    S: Session + Send + Sync,
    O: Wait + Drop + Send + Sync,
    R: Threads + Wait + Sync,
    A: Allocator + Copy + Drop + Send + Sync,
>(
    own: O,
    rt: &R,
    alloc: A,
    desk: Desk<A>,
    planners: u32,
    new_session: NewSession,
    scripts: &[Script<A>],
    retries: u32,
) -> Result<Report<A>, CliFault>
    requires pit { desk.plan.pit ≡ S.instance }
    requires history { desk.history ≡ S.opening }
    requires limit { desk.max_entries ≡ S.max_entries }
    requires planners { planners ≡ S.planners }
    requires ledger { new_session.ledger ≡ S.name }
    requires parts { S.parts ≡ PLANNERS_MAX }
    requires book { new_session.book ≡ S.book }
    requires each { length scripts.now ≡ planners }
    requires pits { All (λ script. script.pit ≡ S.instance) scripts.now }
    requires few { retries ≤ RETRIES_MAX }
    ensures count { OnOk result (IsPlannerCount (length scripts.now)) }
    ensures ok { let jobs = map (λ script. script.jobs) scripts.now in
        IfOk result (λ report. AreDone false S.instance S.opening S.max_entries retries jobs (report.closed, report.runs.items)) }
    ensures err { IfErr result (IsFaultOn false S.instance S.opening S.max_entries retries (map (λ script. script.jobs) scripts.now)) }
{
    let (workspace, seats) = match Workspace::<S, O, A>::open(
        own,
        alloc,
        desk,
        planners,
        new_session,
    ) {
        Ok(opened) => opened,
        Err((_desk, error)) => return Err(workspace_fault(error)),
    };
    match run(rt, alloc, workspace, seats, scripts, retries, &Open) {
        Ok(report) => Ok(report),
        Err(RunError::NoMemory { .. }) => Err(CliFault::NoMemory),
        Err(RunError::NotClosed { .. }) => Err(CliFault::NotClosed),
    }
}

/// The fault of a workspace that can't be opened.
fn workspace_fault(error: OpenError) -> CliFault
    ensures { (pit : Pit) (opening : List Answered) (max_entries retries : ℕ) (scripts : List (List Job)) → IsOpenError (length scripts) error
        → IsFaultOn false pit opening max_entries retries scripts result }
{
    match error {
        OpenError::PlannerCount => CliFault::PlannerCount,
        OpenError::NoPlace => CliFault::NoPlace,
        OpenError::NoMemory => CliFault::NoMemory,
    }
}

//! Planners one after the other, in one thread.
ghost use Rattle.std.specs.Prelude.{◌≡◌, ◌+◌, ◌<◌, ◌≤◌, ◌↔◌, ◌⊎◌, ℕ, true, List, [], All, Contains, length, map, slice_index_or, vec_capacity, IfOk, OnOk, IfErr, IsTrue};
ghost use Rattle.pit_model.specs.Pit.{Pit};
ghost use Rattle.pit_desk.specs.History.{Answered};
ghost use Rattle.pit_script.specs.Jobs.{Job};
ghost use Rattle.pit_share.specs.Logs.{has_log, HasEachLog};
ghost use Rattle.pit_share.specs.Opening.{AreSeats, IsPlannerCount, IsOpenError};
ghost use Rattle.pit_share.specs.declared.new_session.TheConstants.{PLANNERS_MAX};
ghost use Rattle.pit_job.specs.declared.planner_run.TheConstants.{RETRIES_MAX};
ghost use Rattle.pit_run.specs.Reports.{IsReport};
ghost use Rattle.pit_run.specs.Turns.{AllStarted, IsInTurn, HadTurns, TookTurn, DidInTurn, IsInTurnError};
ghost use Rattle.pit_run.specs.Inside.Turns.{IsTurn, IsTurnError};

use crate::planner_run::{PlannerRun, run_planner};
use crate::report::{InTurnError, Report};
use crate::runner::Runner;
use crate::threads::{push_log, push_run};
use pit_board::Session;
use pit_desk::Desk;
use pit_job::Gate;
use pit_script::Script;
use pit_share::{Closed, NewSession, OpenError, PLANNERS_MAX, PlannerLog, Seat, Workspace};
use std::alloc::Allocator;
use std::marker::Brand;
use std::sync::Wait;

/// Does the scripts in this thread, one planner after another, on a desk: the first script as planner 1, the second as planner 2, and so on. Each
/// turn has a workspace of its own on what the turns before left, which is freed before the next one is opened. On an error all is freed, the desk
/// too. The closed desk has the items of the last planner's log alone.
pub fn run_in_turn<R: Wait, A: Allocator + Copy + Drop, G: Gate>(
    rt: &R,
    alloc: A,
    desk: Desk<A>,
    scripts: &[Script<A>],
    retries: u32,
    gate: &G,
) -> Result<Report<A>, InTurnError>
    requires pit { All (λ script. script.pit ≡ desk.plan.pit) scripts.now }
    requires few { retries ≤ RETRIES_MAX }
    ensures count { OnOk result (IsPlannerCount (length scripts.now)) }
    ensures ok { IfOk result (λ report.
        IsReport desk.plan.pit desk.history desk.max_entries retries (map (λ script. script.jobs) scripts.now) report.closed report.runs.items) }
    ensures in_turn { IfOk result (λ report. IsInTurn (length scripts.now) desk.history report.closed.history) }
    ensures had_turns { IfOk result (λ report.
        HadTurns desk.plan.pit desk.max_entries retries desk.history report.closed.history (map (λ script. script.jobs) scripts.now) report.runs.items) }
    ensures started { IfOk result (λ report. AllStarted report.runs.items) }
    ensures err { IfErr result (IsInTurnError desk.plan.pit desk.history desk.max_entries retries (map (λ script. script.jobs) scripts.now)) }
{
    if !is_planner_count(scripts) {
        return Err(InTurnError::PlannerCount);
    }
    let Ok(runs) = Vec::with_capacity(alloc, scripts.len()) else {
        return Err(InTurnError::NoMemory);
    };
    let runner = Runner {
        rt,
        alloc,
        scripts,
        retries,
        gate,
    };
    turns(&runner, desk, runs)
}

/// Whether there may be a planner for each script.
fn is_planner_count<A: Allocator + Copy + Drop>(scripts: &[Script<A>]) -> bool
    ensures { IsTrue result ↔ IsPlannerCount (length scripts.now) }
{
    scripts.len() >= 1 && scripts.len() <= PLANNERS_MAX as usize
}

/// The turns of all planners, where there is room for their runs.
fn turns<R: Wait, A: Allocator + Copy + Drop, G: Gate>(
    runner: &Runner<'_, R, A, G>,
    desk: Desk<A>,
    runs: Vec<PlannerRun<A>, A>,
) -> Result<Report<A>, InTurnError>
    requires pit { All (λ script. script.pit ≡ desk.plan.pit) runner.now.scripts }
    requires count { IsPlannerCount (length runner.now.scripts) }
    requires none { runs.items ≡ [] }
    requires room { length runner.now.scripts ≤ vec_capacity runs }
    ensures ok { let scripts = map (λ script. script.jobs) runner.now.scripts in IfOk result (λ report.
        DidInTurn desk.plan.pit desk.history desk.max_entries runner.now.retries (length runner.now.scripts) scripts report.closed report.runs.items) }
    ensures err { let scripts = map (λ script. script.jobs) runner.now.scripts in
        IfErr result (IsInTurnError desk.plan.pit desk.history desk.max_entries runner.now.retries scripts) }
{
    desk.shows_kept();
    let mut runs = runs;
    let (first, run) = match turn(runner, desk, 0) {
        Ok(turn) => turn,
        Err(error) => return Err(error),
    };
    push_run(&mut runs, run);
    let mut closed = first;
    for k in 1..runner.planners() as usize {
        let (next, run) = match turn(runner, closed.into_desk(), k) {
            Ok(turn) => turn,
            Err(error) => return Err(error),
        };
        closed = next;
        push_run(&mut runs, run);
    }
    Ok(Report { closed, runs })
}

/// The turn of planner `k + 1`, on a desk.
fn turn<R: Wait, A: Allocator + Copy + Drop, G: Gate>(
    runner: &Runner<'_, R, A, G>,
    desk: Desk<A>,
    k: usize,
) -> Result<(Closed<A>, PlannerRun<A>), InTurnError>
    requires pit { All (λ script. script.pit ≡ desk.plan.pit) runner.now.scripts }
    requires few { length runner.now.scripts ≤ PLANNERS_MAX }
    requires place { k < length runner.now.scripts }
    ensures ok { let script = slice_index_or (map (λ script. script.jobs) runner.now.scripts) k [] in IfOk result (λ turn.
        IsTurn desk.plan.pit desk.history desk.max_entries (length runner.now.scripts) runner.now.retries (k + 1) script turn.0 turn.1) }
    ensures err { let script = slice_index_or (map (λ script. script.jobs) runner.now.scripts) k [] in
        IfErr result (IsTurnError desk.plan.pit desk.history desk.max_entries (length runner.now.scripts) runner.now.retries (k + 1) script) }
{
    turn_in::<Brand, _, _, _>(runner, desk, NewSession::new(), k)
}

/// The same under a session's name.
fn turn_in<S: Session, R: Wait, A: Allocator + Copy + Drop, G: Gate>(
    runner: &Runner<'_, R, A, G>,
    desk: Desk<A>,
    new_session: NewSession,
    k: usize,
) -> Result<(Closed<A>, PlannerRun<A>), InTurnError>
    requires pit { desk.plan.pit ≡ S.instance }
    requires history { desk.history ≡ S.opening }
    requires limit { desk.max_entries ≡ S.max_entries }
    requires planners { length runner.now.scripts ≡ S.planners }
    requires ledger { new_session.ledger ≡ S.name }
    requires parts { S.parts ≡ PLANNERS_MAX }
    requires book { new_session.book ≡ S.book }
    requires scripts { All (λ script. script.pit ≡ S.instance) runner.now.scripts }
    requires few { length runner.now.scripts ≤ PLANNERS_MAX }
    requires place { k < length runner.now.scripts }
    ensures ok { let script = slice_index_or (map (λ script. script.jobs) runner.now.scripts) k [] in
        IfOk result (λ turn. IsTurn S.instance S.opening S.max_entries S.planners runner.now.retries (k + 1) script turn.0 turn.1) }
    ensures err { let script = slice_index_or (map (λ script. script.jobs) runner.now.scripts) k [] in
        IfErr result (IsTurnError S.instance S.opening S.max_entries S.planners runner.now.retries (k + 1) script) }
{
    let alloc = runner.alloc;
    let planners = runner.planners();
    let opened = Workspace::<S, &R, A>::open(runner.rt, alloc, desk, planners, new_session);
    let (workspace, seats) = match opened {
        Ok(opened) => opened,
        Err((_desk, error)) => return Err(open_error(error)),
    };
    let Ok(logs) = Vec::with_capacity(alloc, seats.len()) else {
        return Err(InTurnError::NoMemory);
    };
    let (logs, run) = take_turn(runner, &workspace, seats, logs, k);
    match workspace.close(logs) {
        Ok(closed) => Ok((closed, run)),
        Err((_workspace, _logs, cause)) => Err(InTurnError::NotClosed {
            planner: k as u32 + 1,
            cause,
        }),
    }
}

/// Why a workspace can't be opened.
fn open_error(error: OpenError) -> InTurnError
    ensures { (pit : Pit) (opening : List Answered) (max_entries planners retries planner : ℕ) (script : List Job) → IsOpenError planners error
        → IsTurnError pit opening max_entries planners retries planner script result }
{
    match error {
        OpenError::PlannerCount => InTurnError::PlannerCount,
        OpenError::NoPlace => InTurnError::NoPlace,
        OpenError::NoMemory => InTurnError::NoMemory,
    }
}

/// Has each planner but planner `k + 1` hand in an empty log; that one then does its script.
fn take_turn<S: Session, O: Wait + Drop, R: Wait, A: Allocator + Copy + Drop, G: Gate>(
    runner: &Runner<'_, R, A, G>,
    workspace: &Workspace<S, O, A>,
    seats: Vec<Seat<S, A>, A>,
    logs: Vec<PlannerLog<S, A>, A>,
    k: usize,
) -> (Vec<PlannerLog<S, A>, A>, PlannerRun<A>)
    requires scripts { All (λ script. script.pit ≡ S.instance) runner.now.scripts }
    requires seats { AreSeats (length seats.items) seats.items }
    requires each { length seats.items ≡ length runner.now.scripts }
    requires place { k < length seats.items }
    requires none { logs.items ≡ [] }
    requires room { length seats.items ≤ vec_capacity logs }
    ensures took { let script = slice_index_or (map (λ script. script.jobs) runner.now.scripts) k [] in
        TookTurn S.instance S.max_entries runner.now.retries S.opening script (k + 1) result.0.items result.1 }
    ensures each { HasEachLog (length seats.items) result.0.items }
{
    let mut seats = seats;
    let mut logs = logs;
    let seat = seats.remove(k);
    finish_all(workspace, &mut seats, &mut logs);
    let (log, run) = run_planner(runner, workspace, seat, runner.script(k));
    push_log(&mut logs, log);
    (logs, run)
}

/// Hands in an empty log for each seat.
fn finish_all<S: Session, O: Wait + Drop, A: Allocator + Copy + Drop>(
    workspace: &Workspace<S, O, A>,
    seats: &mut Vec<Seat<S, A>, A>,
    logs: &mut Vec<PlannerLog<S, A>, A>,
)
    requires room { length logs.old.items + length seats.old.items < vec_capacity logs.old }
    ensures empty { All (λ log. log.items ≡ []) logs.old.items → All (λ log. log.items ≡ []) logs.new.items }
    ensures each { (planner : ℕ) → (has_log planner logs.old.items ≡ true) ⊎ Contains seats.old.items planner → has_log planner logs.new.items ≡ true }
    ensures room { length logs.new.items < vec_capacity logs.new }
{
    let Some(seat) = seats.pop() else {
        return;
    };
    push_log(logs, empty_log(workspace, seat));
    finish_all(workspace, seats, logs);
}

/// The log of a planner who did nothing.
fn empty_log<S: Session, O: Wait + Drop, A: Allocator + Copy + Drop>(
    workspace: &Workspace<S, O, A>,
    seat: Seat<S, A>,
) -> PlannerLog<S, A>
    ensures number { result.number ≡ seat }
    ensures none { result.items ≡ [] }
{
    seat.sit(workspace).finish()
}

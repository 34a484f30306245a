//! A thread for each planner.
ghost use Rattle.std.specs.Prelude.{◌≡◌, ℕ, ◌+◌, ◌<◌, ◌≤◌, ◌++◌, ◌∷◌, List, [], length, take, IfOk, IfErr, vec_capacity};
ghost use Rattle.pit_script.specs.Jobs.{Job};
ghost use Rattle.pit_share.specs.Opening.{AreSeats};
ghost use Rattle.pit_run.specs.Reports.{PlannerRan, AllRan};
ghost use Rattle.pit_run.specs.Inside.Threads.{IsReady};

use crate::planner_run::{PlannerRun, run_planner};
use crate::shared::Shared;
use pit_board::Session;
use pit_job::{Gate, RunEnd};
use pit_script::Script;
use pit_share::{PlannerLog, Seat, Workspace};
use std::alloc::Allocator;
use std::snapshot::Snapshot;
use std::sync::Wait;
use std::sync::atomic::Ordering;
use std::thread;
use std::thread::{Promise, PromisedHandle, Scope, Threads};

/// Hands in the empty log of a planner whose thread wasn't started.
fn finish_planner<S: Session, O: Wait + Drop, A: Allocator + Copy + Drop>(
    alloc: A,
    workspace: &Workspace<S, O, A>,
    seat: Seat<S, A>,
) -> (PlannerLog<S, A>, PlannerRun<A>)
    ensures { (retries : ℕ) (script : List Job) → PlannerRan S.instance S.max_entries retries S.opening script seat result.0 result.1 }
{
    let planner = seat.sit(workspace);
    let number = planner.number();
    (
        planner.finish(),
        PlannerRun::new(number, Vec::new(alloc), RunEnd::NoThread),
    )
}

/// What a planner's thread promises: the planner's script, with so many retries.
#[derive(Drop)]
pub(crate) struct RunOf<A: Allocator + Copy + Drop> {
    retries: u32,
    planner: u64,
    script: Snapshot<Script<A>>,
}

impl<S: Session, A: Allocator + Copy + Drop> Promise<(PlannerLog<S, A>, PlannerRun<A>)>
    for RunOf<A> {
    ghost kept_by = { λ p r. PlannerRan S.instance S.max_entries p.retries S.opening p.script.value.jobs p.planner r.0 r.1 };
}

/// Does a planner's script, or hands in its empty log where its thread was refused.
fn run_unless_refused<S: Session, O: Wait + Drop, A: Allocator + Copy + Drop, R: Wait, G: Gate>(
    shared: &Shared<'_, S, O, A, R, G>,
    seat: Seat<S, A>,
    script: &Script<A>,
    number: u64,
) -> (PlannerLog<S, A>, PlannerRun<A>)
    requires { script.now.pit ≡ S.instance }
    ensures { PlannerRan S.instance S.max_entries shared.now.retries S.opening script.now.jobs seat result.0 result.1 }
{
    if shared.refused.load(Ordering::SeqCst) == number {
        return finish_planner(shared.runner.alloc, shared.workspace, seat);
    }
    run_planner(&shared.runner, shared.workspace, seat, script)
}

/// Starts a planner's thread. Where it is refused, the planner is finished here.
fn start<
    's,
    E,
    S: Session + Send + Sync,
    O: Wait + Drop + Send + Sync,
    A: Allocator + Copy + Drop + Send + Sync,
    R: Threads + Wait + Sync,
    G: Gate,
>(
    scope: &'s Scope<'s, E>,
    shared: &'s Shared<'s, S, O, A, R, G>,
    seat: Seat<S, A>,
    script: &'s Script<A>,
    number: u64,
) -> Result<
    PromisedHandle<(PlannerLog<S, A>, PlannerRun<A>), RunOf<A>>,
    (PlannerLog<S, A>, PlannerRun<A>),
>
    requires pit { script.now.pit ≡ S.instance }
    requires number { seat ≡ number }
    ensures ok { IfOk result (λ h. (h.promise.retries ≡ shared.now.retries) × (h.promise.planner ≡ number) × (h.promise.script.value ≡ script.now)) }
    ensures err { IfErr result (λ d. PlannerRan S.instance S.max_entries shared.now.retries S.opening script.now.jobs number d.0 d.1) }
{
    let promise = RunOf {
        retries: shared.runner.retries,
        planner: number,
        script: Snapshot::of(script),
    };
    let started = scope.spawn_with(
        promise,
        move || -> (PlannerLog<S, A>, PlannerRun<A>)
            requires { script.now.pit ≡ S.instance }
            ensures { PlannerRan S.instance S.max_entries shared.entry.now.retries S.opening script.entry.now.jobs seat result.0 result.1 }
        { run_unless_refused(shared, seat, script, number) },
    );
    match started {
        Ok(handle) => Ok(handle),
        Err(error) => {
            // The closure comes back, and not the seat. Called here, it finds its own number and hands in an empty log.
            shared.refused.store(number, Ordering::SeqCst);
            Err((error.value)())
        }
    }
}

/// What a started planner hands in, once its thread has ended.
fn joined<S: Session, A: Allocator + Copy + Drop, R: Threads>(
    rt: &R,
    started: Result<
        PromisedHandle<(PlannerLog<S, A>, PlannerRun<A>), RunOf<A>>,
        (PlannerLog<S, A>, PlannerRun<A>),
    >,
    script: &Script<A>,
    retries: u32,
    number: u64,
) -> (PlannerLog<S, A>, PlannerRun<A>)
    requires ok { IfOk started (λ h. (h.promise.retries ≡ retries) × (h.promise.planner ≡ number) × (h.promise.script.value ≡ script.now)) }
    requires err { IfErr started (λ d. PlannerRan S.instance S.max_entries retries S.opening script.now.jobs number d.0 d.1) }
    ensures { PlannerRan S.instance S.max_entries retries S.opening script.now.jobs number result.0 result.1 }
{
    match started {
        Ok(handle) => handle.join(rt),
        Err(done) => done,
    }
}

/// Starts a thread for each seat, the last one first, and waits for all. What the planners hand in stands in their order.
fn run_all<
    's,
    E,
    S: Session + Send + Sync,
    O: Wait + Drop + Send + Sync,
    A: Allocator + Copy + Drop + Send + Sync,
    R: Threads + Wait + Sync,
    G: Gate,
>(
    scope: &'s Scope<'s, E>,
    shared: &'s Shared<'s, S, O, A, R, G>,
    seats: &mut Vec<Seat<S, A>, A>,
    logs: &mut Vec<PlannerLog<S, A>, A>,
    runs: &mut Vec<PlannerRun<A>, A>,
)
    requires seats { AreSeats (length seats.old.items) seats.old.items }
    requires each { length seats.old.items ≤ length shared.now.scripts }
    requires none { (logs.old.items ≡ []) × (runs.old.items ≡ []) }
    requires room { (length seats.old.items ≤ vec_capacity logs.old) × (length seats.old.items ≤ vec_capacity runs.old) }
    ensures ran { AllRan S.instance S.max_entries shared.now.retries S.opening 1 (take (length seats.old.items) shared.now.scripts) logs.new.items runs.new.items }
    ensures len { (length logs.new.items ≡ length seats.old.items) × (length runs.new.items ≡ length seats.old.items) }
    ensures room { (vec_capacity logs.old ≤ vec_capacity logs.new) × (vec_capacity runs.old ≤ vec_capacity runs.new) }
{
    let Some(seat) = seats.pop() else {
        return;
    };
    let k = seats.len();
    let script = shared.script(k);
    let number = k as u64 + 1;
    let started = start(scope, shared, seat, script, number);
    run_all(scope, shared, seats, logs, runs);
    let runner = &shared.runner;
    let (log, run) = joined(runner.rt, started, script, runner.retries, number);
    push_log(logs, log);
    push_run(runs, run);
}

/// Adds a log where there is room for it.
pub(crate) fn push_log<S: Session, A: Allocator + Copy + Drop>(
    logs: &mut Vec<PlannerLog<S, A>, A>,
    log: PlannerLog<S, A>,
)
    requires { length logs.old.items < vec_capacity logs.old }
    ensures items { logs.new.items ≡ logs.old.items ++ log ∷ [] }
    ensures room { vec_capacity logs.old ≤ vec_capacity logs.new }
{
    logs.push_reserved(log);
}

/// Adds a run where there is room for it.
pub(crate) fn push_run<A: Allocator + Copy + Drop>(
    runs: &mut Vec<PlannerRun<A>, A>,
    run: PlannerRun<A>,
)
    requires { length runs.old.items < vec_capacity runs.old }
    ensures items { runs.new.items ≡ runs.old.items ++ run ∷ [] }
    ensures room { vec_capacity runs.old ≤ vec_capacity runs.new }
{
    runs.push_reserved(run);
}

/// Runs each script in a thread of its own.
pub(crate) fn run_scoped<
    S: Session + Send + Sync,
    O: Wait + Drop + Send + Sync,
    A: Allocator + Copy + Drop + Send + Sync,
    R: Threads + Wait + Sync,
    G: Gate,
>(
    shared: &Shared<'_, S, O, A, R, G>,
    seats: Vec<Seat<S, A>, A>,
    logs: Vec<PlannerLog<S, A>, A>,
    runs: Vec<PlannerRun<A>, A>,
) -> (Vec<PlannerLog<S, A>, A>, Vec<PlannerRun<A>, A>)
    requires { IsReady shared.now.scripts seats.items logs.items runs.items (vec_capacity logs) (vec_capacity runs) }
    ensures { AllRan S.instance S.max_entries shared.now.retries S.opening 1 shared.now.scripts result.0.items result.1.items }
{
    thread::scope(
        thread::scope_env(),
        shared.runner.rt,
        |scope| -> (Vec<PlannerLog<S, A>, A>, Vec<PlannerRun<A>, A>)
            requires { IsReady shared.now.scripts seats.items logs.items runs.items (vec_capacity logs) (vec_capacity runs) }
            ensures { AllRan S.instance S.max_entries shared.entry.now.retries S.opening 1 shared.entry.now.scripts result.0.items result.1.items }
        { run_in(scope, shared, seats, logs, runs) },
    )
}

/// Runs each script in a thread of this scope.
fn run_in<
    's,
    E,
    S: Session + Send + Sync,
    O: Wait + Drop + Send + Sync,
    A: Allocator + Copy + Drop + Send + Sync,
    R: Threads + Wait + Sync,
    G: Gate,
>(
    scope: &'s Scope<'s, E>,
    shared: &'s Shared<'s, S, O, A, R, G>,
    seats: Vec<Seat<S, A>, A>,
    logs: Vec<PlannerLog<S, A>, A>,
    runs: Vec<PlannerRun<A>, A>,
) -> (Vec<PlannerLog<S, A>, A>, Vec<PlannerRun<A>, A>)
    requires { IsReady shared.now.scripts seats.items logs.items runs.items (vec_capacity logs) (vec_capacity runs) }
    ensures { AllRan S.instance S.max_entries shared.now.retries S.opening 1 shared.now.scripts result.0.items result.1.items }
{
    let mut seats = seats;
    let mut logs = logs;
    let mut runs = runs;
    run_all(scope, shared, &mut seats, &mut logs, &mut runs);
    (logs, runs)
}

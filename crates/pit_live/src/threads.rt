//! A thread for each planner.
ghost use Rattle.std.specs.Prelude.{◌≡◌, ◌+◌, ◌<◌, ◌≤◌, ◌++◌, ◌∷◌, [], length, IfOk, IfErr, vec_capacity};
ghost use Rattle.pit_share.specs.Opening.{AreSeats};
ghost use Rattle.pit_live.specs.Sat.{PlannerSat, AllSat};
ghost use Rattle.pit_live.specs.Inside.Threads.{IsReady, AreSat};

use crate::host::{Host, Serves, sit_down};
use crate::seating::Seating;
use crate::sitting::Sitting;
use pit_board::Session;
use pit_file::Appending;
use pit_share::{PlannerLog, Seat};
use std::alloc::Allocator;
use std::sync::Wait;
use std::sync::atomic::Ordering;
use std::thread;
use std::thread::{Promise, PromisedHandle, Scope, Threads};

/// What a planner's thread promises: the planner's session.
#[derive(Drop)]
pub(crate) struct SatOf {
    planner: u64,
}

impl<S: Session, A: Allocator + Copy + Drop> Promise<(PlannerLog<S, A>, Sitting)> for SatOf {
    ghost kept_by = { λ p r. PlannerSat S.instance S.max_entries S.opening p.planner r.0 r.1 };
}

/// Starts a planner's thread. Where it is refused, the planner is finished here.
fn start<
    's,
    E,
    S: Session + Send + Sync,
    O: Threads + Wait + Drop + Send + Sync,
    A: Allocator + Copy + Drop + Send + Sync,
    K: Appending + Drop + Send,
    V: Serves + Sync,
>(
    scope: &'s Scope<'s, E>,
    host: &'s Host<'s, S, O, A, K, V>,
    seat: Seat<S, A>,
    number: u64,
) -> Result<PromisedHandle<(PlannerLog<S, A>, Sitting), SatOf>, (PlannerLog<S, A>, Sitting)>
    requires { seat ≡ number }
    ensures ok { IfOk result (λ h. h.promise.planner ≡ number) }
    ensures err { IfErr result (λ d. PlannerSat S.instance S.max_entries S.opening number d.0 d.1) }
{
    let started = scope.spawn_with(
        SatOf { planner: number },
        move || -> (PlannerLog<S, A>, Sitting)
            ensures { PlannerSat S.instance S.max_entries S.opening seat result.0 result.1 }
        { sit_down(host, seat) },
    );
    match started {
        Ok(handle) => Ok(handle),
        Err(error) => {
            // The closure comes back, and not the seat. Called here, it finds its own number and hands in an empty log.
            host.refused.store(number, Ordering::SeqCst);
            Err((error.value)())
        }
    }
}

/// What a started planner hands in, once its thread has ended.
fn joined<S: Session, A: Allocator + Copy + Drop, R: Threads>(
    rt: &R,
    started: Result<
        PromisedHandle<(PlannerLog<S, A>, Sitting), SatOf>,
        (PlannerLog<S, A>, Sitting),
    >,
    number: u64,
) -> (PlannerLog<S, A>, Sitting)
    requires ok { IfOk started (λ h. h.promise.planner ≡ number) }
    requires err { IfErr started (λ d. PlannerSat S.instance S.max_entries S.opening number d.0 d.1) }
    ensures { PlannerSat S.instance S.max_entries S.opening number result.0 result.1 }
{
    match started {
        Ok(handle) => handle.join(rt),
        Err(done) => done,
    }
}

/// Starts a thread for each seat, the last one first, and waits for all. What the planners hand in stands in their order.
fn sit_all<
    's,
    E,
    S: Session + Send + Sync,
    O: Threads + Wait + Drop + Send + Sync,
    A: Allocator + Copy + Drop + Send + Sync,
    K: Appending + Drop + Send,
    V: Serves + Sync,
>(
    scope: &'s Scope<'s, E>,
    host: &'s Host<'s, S, O, A, K, V>,
    seats: &mut Vec<Seat<S, A>, A>,
    logs: &mut Vec<PlannerLog<S, A>, A>,
    sittings: &mut Vec<Sitting, A>,
)
    requires seats { AreSeats (length seats.old.items) seats.old.items }
    requires none { (logs.old.items ≡ []) × (sittings.old.items ≡ []) }
    requires room { (length seats.old.items ≤ vec_capacity logs.old) × (length seats.old.items ≤ vec_capacity sittings.old) }
    ensures sat { AllSat S.instance S.max_entries S.opening 1 logs.new.items sittings.new.items }
    ensures len { (length logs.new.items ≡ length seats.old.items) × (length sittings.new.items ≡ length seats.old.items) }
    ensures room { (vec_capacity logs.old ≤ vec_capacity logs.new) × (vec_capacity sittings.old ≤ vec_capacity sittings.new) }
{
    let Some(seat) = seats.pop() else {
        return;
    };
    let number = seats.len() as u64 + 1;
    let started = start(scope, host, seat, number);
    sit_all(scope, host, seats, logs, sittings);
    let (log, sitting) = joined(host.rt, started, number);
    push_log(logs, log);
    push_sitting(sittings, sitting);
}

/// Adds a log where there is room for it.
fn push_log<S: Session, A: Allocator + Copy + Drop>(
    logs: &mut Vec<PlannerLog<S, A>, A>,
    log: PlannerLog<S, A>,
)
    requires { length logs.old.items < vec_capacity logs.old }
    ensures items { logs.new.items ≡ logs.old.items ++ log ∷ [] }
    ensures room { vec_capacity logs.old ≤ vec_capacity logs.new }
{
    logs.push_reserved(log);
}

/// Adds a sitting where there is room for it.
fn push_sitting<A: Allocator + Copy + Drop>(sittings: &mut Vec<Sitting, A>, sitting: Sitting)
    requires { length sittings.old.items < vec_capacity sittings.old }
    ensures items { sittings.new.items ≡ sittings.old.items ++ sitting ∷ [] }
    ensures room { vec_capacity sittings.old ≤ vec_capacity sittings.new }
{
    sittings.push_reserved(sitting);
}

/// Has each planner sit down in a thread of its own.
pub(crate) fn sit_scoped<
    S: Session + Send + Sync,
    O: Threads + Wait + Drop + Send + Sync,
    A: Allocator + Copy + Drop + Send + Sync,
    K: Appending + Drop + Send,
    V: Serves + Sync,
>(host: &Host<'_, S, O, A, K, V>, seating: Seating<S, A>) -> Seating<S, A>
    requires { IsReady seating }
    ensures { AreSat S.instance S.max_entries S.opening (length seating.seats) result }
{
    thread::scope(
        thread::scope_env(),
        host.rt,
        |scope| -> Seating<S, A>
            requires { IsReady seating }
            ensures { AreSat S.instance S.max_entries S.opening (length seating.seats) result }
        { sit_in(scope, host, seating) },
    )
}

/// The same in a scope.
fn sit_in<
    's,
    E,
    S: Session + Send + Sync,
    O: Threads + Wait + Drop + Send + Sync,
    A: Allocator + Copy + Drop + Send + Sync,
    K: Appending + Drop + Send,
    V: Serves + Sync,
>(
    scope: &'s Scope<'s, E>,
    host: &'s Host<'s, S, O, A, K, V>,
    seating: Seating<S, A>,
) -> Seating<S, A>
    requires { IsReady seating }
    ensures { AreSat S.instance S.max_entries S.opening (length seating.seats) result }
{
    let Seating {
        mut seats,
        mut logs,
        mut sittings,
        room,
    } = seating;
    sit_all(scope, host, &mut seats, &mut logs, &mut sittings);
    Seating {
        seats,
        logs,
        sittings,
        room,
    }
}

//! `pit_share`: planners of one workspace, by hand and in threads of their own.
ghost use Rattle.std.specs.Prelude.{◌≡◌, All};
ghost use Rattle.pit_share.specs.declared.new_session.TheConstants.{PLANNERS_MAX};

use super::book::resumed;
use super::run::desk_of;
use super::tiny::{HISTORY, WORTH};
use super::tx::{has_limit, has_pairs};
use pit_book::{Desk, Reply};
use pit_run::{Open, Script, run};
use pit_share::{
    CloseError, NewSession, OpenError, Planner, PlannerLog, ReadStop, Seat, Session, Transaction,
    Workspace,
};
use pit_tx::WorkError;
use std::alloc::Global;
use std::marker::Brand;
use std::process::Abort;
use std::sync::Wait;
use std::thread::Threads;

/// A desk that goes on from a history of three entries is shared by planners, who may not be too many.
#[test]
fn planners_share_a_desk(rt: HostRuntime) {
    let desk = resumed_desk(&rt, rt.alloc());
    let desk = not_shared(&rt, rt.alloc(), desk);
    let answer = shared(&rt, rt.alloc(), desk, 2, &[]);
    assert_shared(&rt, answer, (5, 3));
}

fn resumed_desk(rt: &impl Abort, alloc: Global) -> Desk<Global> {
    let desk = match resumed(rt, alloc, HISTORY, 100) {
        Ok(desk) => desk,
        Err(fault) => panic!(rt; "{fault:?}"),
    };
    assert_worth(rt, &desk);
    desk
}

fn assert_worth(rt: &impl Abort, desk: &Desk<Global>) {
    assert!(rt; desk.plan().value() == WORTH);
}

/// The desk, which comes back where planners are too many.
fn not_shared<R: Threads + Wait + Abort + Sync>(
    rt: &R,
    alloc: Global,
    desk: Desk<Global>,
) -> Desk<Global> {
    match shared(rt, alloc, desk, 65, &[]) {
        Ok(_) => panic!(rt; "opened"),
        Err((desk, error)) => {
            assert_count(rt, error);
            desk
        }
    }
}

fn assert_count(rt: &impl Abort, error: OpenError) {
    match error {
        OpenError::PlannerCount => {}
        OpenError::NoPlace => panic!(rt; "no place"),
        OpenError::NoMemory => panic!(rt; "no memory"),
    }
}

/// A desk is left with so many entries and commits.
pub(super) fn assert_shared(rt: &impl Abort, answer: Shared, counts: (usize, u32)) {
    let desk = answer.ok().expect(rt, "a desk");
    let found = (desk.history().len(), desk.plan().commits());
    drop(desk);
    assert!(rt; found == counts);
}

/// The desk that a workspace leaves, or the one that comes back where none is opened.
pub(super) type Shared = Result<Desk<Global>, (Desk<Global>, OpenError)>;

/// Planners share a desk: by scripts, one for each, or by hand where there are none.
pub(super) fn shared<R: Threads + Wait + Abort + Sync>(
    rt: &R,
    alloc: Global,
    desk: Desk<Global>,
    planners: u32,
    scripts: &[Script<Global>],
) -> Shared
    requires { All (λ script. script.pit ≡ desk.plan.pit) scripts.now }
{
    play::<Brand, _, _>(rt, rt, alloc, desk, planners, NewSession::new(), scripts)
}

fn play<S: Session + Send + Sync, O: Wait + Drop + Send + Sync, R: Threads + Wait + Abort + Sync>(
    rt: &R,
    own: O,
    alloc: Global,
    desk: Desk<Global>,
    planners: u32,
    new_session: NewSession,
    scripts: &[Script<Global>],
) -> Shared
    requires pit { desk.plan.pit ≡ S.instance }
    requires history { desk.history ≡ S.opening }
    requires limit { desk.max_entries ≡ S.max_entries }
    requires planners { planners ≡ S.planners }
    requires ledger { new_session.ledger ≡ S.name }
    requires parts { S.parts ≡ PLANNERS_MAX }
    requires book { new_session.book ≡ S.book }
    requires scripts { All (λ script. script.pit ≡ S.instance) scripts.now }
{
    let (workspace, seats) = match Workspace::<S, O, _>::open(
        own,
        alloc,
        desk,
        planners,
        new_session,
    ) {
        Ok(opened) => opened,
        Err(refused) => return Err(refused),
    };
    if scripts.is_empty() {
        return Ok(by_hand(rt, alloc, workspace, seats));
    }
    assert!(rt; scripts.len() == planners as usize);
    let answer = run(rt, alloc, workspace, seats, scripts, 3, &Open);
    Ok(desk_of(rt, answer))
}

/// No log is there at first.
fn by_hand<S: Session, R: Wait + Drop, W: Wait + Abort>(
    rt: &W,
    alloc: Global,
    workspace: Workspace<S, R, Global>,
    seats: Vec<Seat<S, Global>>,
) -> Desk<Global> {
    let workspace = not_closed(rt, alloc, workspace);
    let logs = logs_of(rt, alloc, &workspace, seats);
    match workspace.close(logs) {
        Ok(closed) => closed.into_desk(),
        Err((_, _, error)) => panic!(rt; "{error:?}"),
    }
}

fn not_closed<S: Session, R: Wait + Drop>(
    rt: &impl Abort,
    alloc: Global,
    workspace: Workspace<S, R, Global>,
) -> Workspace<S, R, Global> {
    match workspace.close(Vec::new(alloc)) {
        Ok(_) => panic!(rt; "closed"),
        Err((workspace, _, error)) => {
            assert_missing(rt, error);
            workspace
        }
    }
}

fn assert_missing(rt: &impl Abort, error: CloseError) {
    match error {
        CloseError::Missing { planner } => assert!(rt; planner == 1),
        CloseError::Differs { planner } => panic!(rt; "no log of {planner}'s entries"),
    }
}

/// Planner 1 has begun when planner 2 commits.
fn logs_of<S: Session, R: Wait + Drop, W: Wait + Abort>(
    rt: &W,
    alloc: Global,
    workspace: &Workspace<S, R, Global>,
    mut seats: Vec<Seat<S, Global>>,
) -> Vec<PlannerLog<S, Global>> {
    let second = seats.pop().expect(rt, "a seat").sit(workspace);
    let first = seats.pop().expect(rt, "a seat").sit(workspace);
    drop(seats);
    let logs = logs_by(rt, alloc, first, second);
    assert_logs(rt, &logs);
    logs
}

fn logs_by<'a, S: Session, R: Wait + Drop, W: Wait + Abort>(
    rt: &W,
    alloc: Global,
    first: Planner<'a, S, R, Global>,
    second: Planner<'a, S, R, Global>,
) -> Vec<PlannerLog<S, Global>> {
    let first = first.begin(1).ok().expect(rt, "memory");
    let second = after_commit(rt, second).finish();
    let first = after_abort(rt, first).finish();
    both(rt, alloc, first, second)
}

fn both<S: Session>(
    rt: &impl Abort,
    alloc: Global,
    first: PlannerLog<S, Global>,
    second: PlannerLog<S, Global>,
) -> Vec<PlannerLog<S, Global>> {
    let mut logs = Vec::new(alloc);
    logs.push(first).expect(rt, "memory");
    logs.push(second).expect(rt, "memory");
    logs
}

fn assert_logs<S: Session>(rt: &impl Abort, logs: &[PlannerLog<S, Global>]) {
    for log in logs {
        assert!(rt; log.planner() <= 2 && log.items().len() == 1);
    }
}

/// Planner 2 reads block 3, puts block 2 in its place, and lets 5 be loaded in period 0.
fn after_commit<'a, S: Session, R: Wait + Drop, W: Wait + Abort>(
    rt: &W,
    planner: Planner<'a, S, R, Global>,
) -> Planner<'a, S, R, Global> {
    let number = planner.number();
    let mut transaction = planner.begin(1).ok().expect(rt, "memory");
    assert_filled(rt, number, &mut transaction);
    match transaction.commit(rt) {
        Ok((planner, reply)) => {
            assert_third(rt, reply);
            planner
        }
        Err((transaction, _)) => transaction.abandon(),
    }
}

fn assert_filled<S: Session, R: Wait + Drop>(
    rt: &impl Abort,
    number: u32,
    transaction: &mut Transaction<'_, S, R, Global>,
) {
    assert!(rt; number == 2);
    assert!(rt; (transaction.start(), transaction.read(3)) == (2, Ok(Some(1))));
    assert!(rt; is_filled(transaction));
    assert!(rt; is_revised(transaction));
}

fn assert_third(rt: &impl Abort, reply: Reply) {
    assert!(rt; reply == Reply::Committed { number: 3 });
}

fn is_filled<S: Session, R: Wait + Drop>(transaction: &mut Transaction<'_, S, R, Global>) -> bool {
    transaction.put(4, 0) == Err(WorkError::NoBlock)
        && transaction.put(2, 1) == Ok(())
        && transaction.clear(3) == Ok(())
        && has_pairs(transaction.reads(), &[(3, Some(1))])
        && has_pairs(transaction.writes(), &[(2, Some(1)), (3, None)])
}

fn is_revised<S: Session, R: Wait + Drop>(transaction: &mut Transaction<'_, S, R, Global>) -> bool {
    transaction.revise(1, 0, None) == Err(WorkError::NoResource)
        && transaction.revise(0, 0, Some(5_000_000)) == Ok(())
        && has_limit(transaction.revises(), (0, 0), Some(5_000_000))
}

/// Planner 1 can't read block 3 any more, and withdraws. It begins anew, and gives that up.
fn after_abort<'a, S: Session, R: Wait + Drop, W: Wait + Abort>(
    rt: &W,
    mut transaction: Transaction<'a, S, R, Global>,
) -> Planner<'a, S, R, Global> {
    assert!(rt; has_moved(&mut transaction));
    match transaction.abort(rt) {
        Ok(planner) => anew(rt, planner),
        Err((transaction, _)) => transaction.abandon(),
    }
}

fn anew<'a, S: Session, R: Wait + Drop>(
    rt: &impl Abort,
    planner: Planner<'a, S, R, Global>,
) -> Planner<'a, S, R, Global> {
    let transaction = planner.begin(2).ok().expect(rt, "memory");
    transaction.abandon()
}

fn has_moved<S: Session, R: Wait + Drop>(transaction: &mut Transaction<'_, S, R, Global>) -> bool {
    let (block, version) = (3, 3);
    transaction.read(4) == Err(ReadStop::NoBlock)
        && transaction.read(3) == Err(ReadStop::Moved { block, version })
}

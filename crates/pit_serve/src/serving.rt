ghost use Rattle.std.specs.Prelude.{◌≡◌, ◌≢◌, ◌<◌};
ghost use Rattle.pit_serve.specs.Asked.{IsRequestIn};
ghost use Rattle.pit_serve.specs.Phases.{phase_of};
ghost use Rattle.pit_serve.specs.Serving.{BeginsBy, Commits, FromIdle, FromOpen, IsCounted, IsPlain, IsShown, Reads, Serves, Values, Writes};

use crate::answer::Answer;
use crate::fault::RequestFault;
use crate::phase::Phase;
use crate::request::Request;
use pit_board::{Prefix, Session};
use pit_desk::Stop;
use pit_file::Appending;
use pit_journal::{Durable, Ended, SharedJournal};
use pit_script::ScriptFault;
use pit_share::{Planner, ReadStop, Transaction, Workspace};
use pit_tx::WorkError;
use std::alloc::Allocator;
use std::sync::Wait;

/// What a request is answered, and what it leaves. An answer that a transaction ended by an entry has the proof beside it that this is durable, unless
/// the journal has failed.
pub struct Served<'a, S: Session, R: Wait + Drop, A: Allocator + Copy + Drop> {
    pub phase: Phase<'a, S, R, A>,
    pub answer: Answer,
    pub durable: Option<Durable<S>>,
}

/// Does what a line asks for, where so many transactions have begun in the session. Waits for the locks of workspace and journal, and, where a
/// transaction ends by an entry, until that is durable.
#[tactic(auto, using(crate::proofs::Showing::plain_shown))]
pub fn serve<
    'a,
    S: Session,
    R: Wait + Drop,
    A: Allocator + Copy + Drop,
    D: Appending + Drop,
    W: Wait,
>(
    rt: &W,
    alloc: A,
    workspace: &Workspace<S, R, A>,
    journal: &SharedJournal<S, D>,
    phase: Phase<'a, S, R, A>,
    begun: u32,
    request: Request,
) -> Served<'a, S, R, A>
    requires { IsRequestIn S.instance request }
    ensures serves { Serves S.instance S.max_entries (phase_of phase.entry) begun request result.answer (phase_of result.phase) }
    ensures shown { IsShown (phase_of result.phase) result.answer result.durable }
{
    let transaction = match phase {
        Phase::Open(transaction) => transaction,
        Phase::Idle(planner) => {
            let (phase, answer) = serve_idle(rt, workspace, journal, planner, begun, request);
            return Served {
                phase,
                answer,
                durable: None,
            };
        }
    };
    if let Request::Commit = request {
        return commit(rt, alloc, workspace, journal, transaction);
    }
    let (phase, answer) = serve_open(rt, workspace, transaction, request);
    Served {
        phase,
        answer,
        durable: None,
    }
}

/// Does what a line asks for between two transactions.
fn serve_idle<
    'a,
    S: Session,
    R: Wait + Drop,
    A: Allocator + Copy + Drop,
    D: Appending + Drop,
    W: Wait,
>(
    rt: &W,
    workspace: &Workspace<S, R, A>,
    journal: &SharedJournal<S, D>,
    planner: Planner<'a, S, R, A>,
    begun: u32,
    request: Request,
) -> (Phase<'a, S, R, A>, Answer)
    ensures serves { FromIdle S.instance planner.entry begun request result.1 (phase_of result.0) }
    ensures plain { IsPlain result.1 }
{
    match request {
        Request::Begin => begin(planner, begun, journal.has_failed(rt)),
        Request::Value => {
            let answer = value(rt, workspace, planner.prefix());
            (Phase::Idle(planner), answer)
        }
        _ => {
            let fault = RequestFault::Line(ScriptFault::Order);
            (Phase::Idle(planner), Answer::Wrong(fault))
        }
    }
}

/// Commits a transaction, and waits until its entry is durable.
fn commit<'a, S: Session, R: Wait + Drop, A: Allocator + Copy + Drop, D: Appending + Drop, W: Wait>(
    rt: &W,
    alloc: A,
    workspace: &Workspace<S, R, A>,
    journal: &SharedJournal<S, D>,
    transaction: Transaction<'a, S, R, A>,
) -> Served<'a, S, R, A>
    ensures commits { Commits S.instance S.max_entries transaction.entry result.answer (phase_of result.phase) }
    ensures shown { IsShown (phase_of result.phase) result.answer result.durable }
{
    match pit_journal::commit(rt, alloc, workspace, journal, transaction) {
        Ok(
            Ended {
                planner,
                reply,
                durable,
            },
        ) => {
            let is_saved = durable.is_some();
            Served {
                phase: Phase::Idle(planner),
                answer: Answer::Ended { reply, is_saved },
                durable,
            }
        }
        Err((transaction, Stop::Full)) => Served {
            phase: Phase::Open(transaction),
            answer: Answer::Full,
            durable: None,
        },
        Err((transaction, Stop::NoMemory)) => Served {
            phase: Phase::Open(transaction),
            answer: Answer::Wrong(RequestFault::NoMemory),
            durable: None,
        },
    }
}

/// Begins a transaction, the next of the session's, where so many have begun.
fn begin<'a, S: Session, R: Wait + Drop, A: Allocator + Copy + Drop>(
    planner: Planner<'a, S, R, A>,
    begun: u32,
    has_failed: bool,
) -> (Phase<'a, S, R, A>, Answer)
    ensures begins { BeginsBy S.instance planner.entry begun result.1 (phase_of result.0) }
    ensures plain { IsPlain result.1 }
{
    if begun == u32::MAX {
        let fault = RequestFault::Line(ScriptFault::JobCount);
        return (Phase::Idle(planner), Answer::Wrong(fault));
    }
    if has_failed {
        return (Phase::Idle(planner), Answer::Wrong(RequestFault::Journal));
    }
    begin_next(planner, begun)
}

/// The same, where one more is counted, and the journal hasn't failed.
fn begin_next<'a, S: Session, R: Wait + Drop, A: Allocator + Copy + Drop>(
    planner: Planner<'a, S, R, A>,
    begun: u32,
) -> (Phase<'a, S, R, A>, Answer)
    requires { IsCounted begun }
    ensures begins { BeginsBy S.instance planner.entry begun result.1 (phase_of result.0) }
    ensures plain { IsPlain result.1 }
{
    let job = begun + 1;
    match planner.begin(job) {
        Ok(transaction) => {
            let start = transaction.start();
            (Phase::Open(transaction), Answer::Begun { job, start })
        }
        Err((planner, _)) => { (Phase::Idle(planner), Answer::Wrong(RequestFault::NoMemory)) }
    }
}

/// Reads a block.
fn read<'a, S: Session, R: Wait + Drop, A: Allocator + Copy + Drop>(
    transaction: &mut Transaction<'a, S, R, A>,
    block: u32,
) -> Answer
    requires { block < S.instance.blocks }
    ensures reads { Reads transaction.old block result transaction.new }
    ensures plain { IsPlain result }
{
    match transaction.read(block) {
        Ok(period) => Answer::Held { block, period },
        Err(ReadStop::NoBlock) => unreachable!(),
        Err(ReadStop::NoEntry) => Answer::Busy,
        Err(ReadStop::Moved { block, version }) => Answer::Moved { block, version },
        Err(ReadStop::NoMemory) => Answer::Wrong(RequestFault::NoMemory),
    }
}

/// Puts a block into a period.
fn put<'a, S: Session, R: Wait + Drop, A: Allocator + Copy + Drop>(
    transaction: &mut Transaction<'a, S, R, A>,
    block: u32,
    period: u32,
) -> Answer
    requires block { block < S.instance.blocks }
    requires period { period < S.instance.periods }
    ensures writes { Writes transaction.old block (Some period) result transaction.new }
    ensures plain { IsPlain result }
{
    let _kept = transaction.start();
    match transaction.put(block, period) {
        Ok(()) => Answer::Done,
        Err(WorkError::NoMemory) => Answer::Wrong(RequestFault::NoMemory),
        Err(_) => unreachable!(),
    }
}

/// Takes a block out of its period.
fn clear<'a, S: Session, R: Wait + Drop, A: Allocator + Copy + Drop>(
    transaction: &mut Transaction<'a, S, R, A>,
    block: u32,
) -> Answer
    requires { block < S.instance.blocks }
    ensures writes { Writes transaction.old block None result transaction.new }
    ensures plain { IsPlain result }
{
    let _kept = transaction.start();
    match transaction.clear(block) {
        Ok(()) => Answer::Done,
        Err(WorkError::NoMemory) => Answer::Wrong(RequestFault::NoMemory),
        Err(_) => unreachable!(),
    }
}

/// The value of the locked schedule, which goes on from what was seen.
fn value<S: Session, R: Wait + Drop, A: Allocator + Copy + Drop, W: Wait>(
    rt: &W,
    workspace: &Workspace<S, R, A>,
    seen: &Prefix<S>,
) -> Answer
    ensures value { Values S.instance seen.now result }
    ensures plain { IsPlain result }
{
    let (commits, value) = workspace.value(rt, seen);
    Answer::Value { commits, value }
}

/// Does what a line asks for inside a transaction, where that doesn't end it by an entry.
fn serve_open<'a, S: Session, R: Wait + Drop, A: Allocator + Copy + Drop, W: Wait>(
    rt: &W,
    workspace: &Workspace<S, R, A>,
    mut transaction: Transaction<'a, S, R, A>,
    request: Request,
) -> (Phase<'a, S, R, A>, Answer)
    requires in_range { IsRequestIn S.instance request }
    requires goes_on { request ≢ Request.Commit }
    ensures serves { FromOpen S.instance S.max_entries transaction.entry request result.1 (phase_of result.0) }
    ensures plain { IsPlain result.1 }
{
    let answer = match request {
        Request::Abandon => return (Phase::Idle(transaction.abandon()), Answer::Abandoned),
        Request::Read { block } => read(&mut transaction, block),
        Request::Put { block, period } => put(&mut transaction, block, period),
        Request::Clear { block } => clear(&mut transaction, block),
        Request::Value => value(rt, workspace, transaction.prefix()),
        Request::Begin => Answer::Wrong(RequestFault::Line(ScriptFault::Order)),
        Request::Commit => unreachable!(),
    };
    (Phase::Open(transaction), answer)
}

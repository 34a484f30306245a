//! `pit_book`: a desk, its history, and the lines of that.
ghost use Rattle.pit_book.specs.Calls.{IsReady};

use super::model::limited;
use super::plan::{BEHIND, first_limit};
use super::tiny::{CHANGED, HISTORY, REVISED, WORTH, empty_desk, tiny};
use super::tx::{Call, Pair, work_of};
use Reply::{Committed, Refused};
use pit_book::{
    Act, AuditFault, Desk, DeskError, Entry, EntryReply, LinesCause, LinesError, Pairs, Ready,
    Refusal, Reply, ResumeFault, Revisions, Stop, audit, from_lines, to_lines,
};
use pit_model::Instance;
use pit_plan::Plan;
use pit_tx::Work;
use std::alloc::Global;
use std::process::Abort;

/// Calls, and the replies that are due. In period 0 at most 4 may be loaded; blocks 0, 1 and 3 load 2, 2 and 1.
const ROWS: &[(Call<'static>, Reply)] = &[
    ((1, &[], 0, FIRST_TWO), Committed { number: 1 }),
    ((2, &[], 1, &[(3, Some(0))]), Refused(OVER)),
    ((3, &[], 1, &[(3, Some(1))]), Committed { number: 2 }),
    ((4, &[], 2, &[(0, None)]), Refused(UNORDERED)),
    ((5, &[], 3, &[]), Refused(AHEAD)),
    ((6, &[(0, None)], 0, &[]), Refused(MOVED)),
    ((7, &[(3, Some(0))], 2, &[]), Refused(MISREAD)),
];

const FIRST_TWO: &[Pair] = &[(0, Some(0)), (1, Some(0))];

pub(super) const OVER: Refusal = Refusal::Over {
    resource: 0,
    period: 0,
    load: 5_000_000,
    limit: 4_000_000,
};

const UNORDERED: Refusal = Refusal::Precedence {
    block: 1,
    before: 0,
};

const AHEAD: Refusal = Refusal::Ahead {
    start: 3,
    commits: 2,
};

const MOVED: Refusal = Refusal::Moved {
    block: 0,
    version: 1,
};

const MISREAD: Refusal = Refusal::Misread { block: 3 };

/// With a withdrawal there are the eight entries that there may be.
#[test]
fn a_desk_keeps_its_history(rt: HostRuntime) {
    let mut desk = empty_desk(&rt, rt.alloc(), 8);
    assert_answered(&rt, rt.alloc(), &mut desk);
    assert_withdrawn(&rt, rt.alloc(), &mut desk);
    assert_entries(&rt, desk.history());
    assert_lines(&rt, rt.alloc(), desk.history());
    assert_audited(&rt, rt.alloc(), desk);
}

fn assert_audited(rt: &impl Abort, alloc: Global, desk: Desk<Global>) {
    let (plan, history) = desk.into_parts();
    drop(plan);
    let answer = audited(rt, alloc, &history);
    drop(history);
    assert!(rt; answer == Ok(WORTH));
}

fn assert_answered(rt: &impl Abort, alloc: Global, desk: &mut Desk<Global>) {
    for (call, reply) in ROWS {
        let work = work_of(rt, alloc, *call);
        assert!(rt; reply_of(rt, desk, work) == Some(*reply));
    }
}

fn reply_of(rt: &impl Abort, desk: &mut Desk<Global>, work: Work<Global>) -> Option<Reply> {
    if !desk.fits(&work) {
        panic!(rt; "of another pit");
    }
    replied(rt, desk.commit(work))
}

fn replied(rt: &impl Abort, answer: Result<Reply, (Work<Global>, Stop)>) -> Option<Reply> {
    match answer {
        Ok(reply) => Some(reply),
        Err((work, stop)) => {
            drop(work);
            full(rt, stop)
        }
    }
}

fn full(rt: &impl Abort, stop: Stop) -> Option<Reply> {
    match stop {
        Stop::Full => None,
        Stop::NoMemory => panic!(rt; "no memory"),
    }
}

/// A withdrawal changes nothing. What comes behind it finds no room.
fn assert_withdrawn(rt: &impl Abort, alloc: Global, desk: &mut Desk<Global>) {
    let work = work_of(rt, alloc, (8, &[(3, Some(1))], 2, &[(3, None)]));
    withdraw(rt, desk, work);
    let work = work_of(rt, alloc, (9, &[], 2, &[]));
    let reply = reply_of(rt, desk, work);
    assert!(rt; reply == None && desk.max_entries() == 8 && desk.plan().value() == WORTH);
}

fn withdraw(rt: &impl Abort, desk: &mut Desk<Global>, work: Work<Global>) {
    if !desk.fits(&work) {
        panic!(rt; "of another pit");
    }
    let answer = desk.withdraw(work);
    let is_done = answer.is_ok();
    drop(answer);
    assert!(rt; is_done);
}

/// Block 3 is too much for period 0 until 5 may be loaded there. What is ready is taken back, or entered.
#[test]
fn a_commit_is_made_ready(rt: HostRuntime) {
    let mut desk = empty_desk(&rt, rt.alloc(), 2);
    let work = work_of(&rt, rt.alloc(), (1, &[], 0, FIRST_TWO));
    let reply = reply_of(&rt, &mut desk, work);
    let work = work_of(&rt, rt.alloc(), (2, &[], 1, &[(3, Some(0))]));
    let work = taken_back(&rt, &mut desk, work);
    assert_entered(&rt, &mut desk, work);
    drop(desk);
    assert!(rt; reply == Some(Committed { number: 1 }));
}

fn ready_of(rt: &impl Abort, desk: &mut Desk<Global>, work: Work<Global>) -> Ready<Global>
    ensures { IsReady desk.new result }
{
    if !desk.fits(&work) {
        panic!(rt; "of another pit");
    }
    match desk.ready(work) {
        Ok(ready) => ready,
        Err((_work, stop)) => panic!(rt; "{stop:?}"),
    }
}

fn taken_back(rt: &impl Abort, desk: &mut Desk<Global>, work: Work<Global>) -> Work<Global> {
    let ready = ready_of(rt, desk, work);
    assert_reply(rt, &ready, Refused(OVER));
    let work = ready.back();
    assert_count(rt, desk, 1);
    work
}

fn assert_reply(rt: &impl Abort, ready: &Ready<Global>, reply: Reply) {
    assert!(rt; *ready.reply() == reply);
}

fn assert_count(rt: &impl Abort, desk: &Desk<Global>, entries: usize) {
    assert!(rt; desk.history().len() == entries);
}

fn assert_entered(rt: &impl Abort, desk: &mut Desk<Global>, mut work: Work<Global>) {
    let revised = work.revise(0, 0, Some(5_000_000));
    let ready = ready_of(rt, desk, work);
    assert_reply(rt, &ready, Committed { number: 2 });
    assert_sets(rt, &ready);
    let reply = desk.enter(ready);
    assert!(rt; revised == Ok(()) && reply == Committed { number: 2 });
    assert!(rt; first_limit(desk.plan()) == Some(5_000_000));
    assert_count(rt, desk, 2);
}

fn assert_sets(rt: &impl Abort, ready: &Ready<Global>) {
    assert!(rt; ready.writes() == [(3, Some(0))].as_slice());
    assert!(rt; ready.revises() == [(0, 0, Some(5_000_000))].as_slice());
}

fn assert_entries(rt: &impl Abort, history: &[Entry<Global>]) {
    assert!(rt; history.len() == 8);
    let entry = history.get(6).expect(rt, "an entry");
    assert!(rt; (entry.act, entry.reply) == (Act::Commit, EntryReply::Refused(MISREAD)));
    let entry = history.last().expect(rt, "an entry");
    assert!(rt; is_withdrawal(entry));
}

fn is_withdrawal(entry: &Entry<Global>) -> bool {
    (entry.act, entry.reply) == (Act::Withdraw, EntryReply::Withdrawn)
        && (entry.planner, entry.job, entry.start) == (1, 8, 2)
        && entry.reads.items() == [(3, Some(1))].as_slice()
        && entry.writes.items() == [(3, None)].as_slice()
}

/// The first three entries are written as their lines, and these are read as those entries.
fn assert_lines(rt: &impl Abort, alloc: Global, history: &[Entry<Global>]) {
    let first = history.get(..3).expect(rt, "three entries");
    assert_written(rt, alloc, first);
    assert_read(rt, alloc, first);
}

fn assert_written(rt: &impl Abort, alloc: Global, first: &[Entry<Global>]) {
    let lines = to_lines(alloc, first).expect(rt, "memory");
    let is_text = lines.as_slice() == HISTORY;
    drop(lines);
    assert!(rt; is_text);
}

fn assert_read(rt: &impl Abort, alloc: Global, first: &[Entry<Global>]) {
    let again = from_lines(alloc, alloc, HISTORY).expect(rt, "a history");
    let are_same = are_same(&again, first);
    drop(again);
    assert!(rt; are_same);
}

fn are_same(history: &[Entry<Global>], other: &[Entry<Global>]) -> bool {
    if history.len() != other.len() {
        return false;
    }
    for (a, b) in history.iter().zip(other.iter()) {
        if !a.is_same(b) {
            return false;
        }
    }
    true
}

/// The value to which a history leads on the small pit.
fn audited(rt: &impl Abort, alloc: Global, history: &[Entry<Global>]) -> Result<i128, AuditFault> {
    assert!(rt; history.len() < 100);
    let pit = tiny(rt, alloc);
    let None = pit.unmeetable() else {
        panic!(rt; "unmeetable");
    };
    match audit(alloc, pit, history) {
        Ok(plan) => Ok(worth_of(plan)),
        Err(fault) => Err(fault),
    }
}

fn worth_of(plan: Plan<Global>) -> i128 {
    let value = plan.value();
    drop(plan);
    value
}

/// An entry by hand, whose reply isn't due to it.
fn entry_of(alloc: Global) -> Entry<Global> {
    Entry {
        planner: 1,
        job: 1,
        start: 0,
        reads: Pairs::new(Vec::new(alloc)),
        writes: Pairs::new(Vec::new(alloc)),
        revises: Revisions::new(Vec::new(alloc)),
        act: Act::Commit,
        reply: EntryReply::Committed { number: 2 },
    }
}

#[test]
fn an_audit_finds_what_is_wrong(rt: HostRuntime) {
    let history = [entry_of(rt.alloc())];
    let answer = audited(&rt, rt.alloc(), &history);
    drop(history);
    match answer {
        Ok(_) => panic!(rt; "legal"),
        Err(AuditFault::Place { place }) => assert!(rt; place == 1),
        Err(AuditFault::NoMemory) => panic!(rt; "no memory"),
    }
}

/// Block 3 is then worth 5 * 0.909090909091.
#[test]
fn a_desk_opens_on_a_start(rt: HostRuntime) {
    let desk = match started(&rt, rt.alloc(), tiny(&rt, rt.alloc()), 3, 1) {
        Ok(desk) => desk,
        Err(error) => panic!(rt; "{error:?}"),
    };
    let found = (desk.plan().value(), desk.history().len());
    drop(desk);
    assert!(rt; found == (4_545_454_545_455_000_000, 1));
}

/// Opens a desk that may have so many entries, on a start of one block in period 1.
fn started(
    rt: &impl Abort,
    alloc: Global,
    pit: Instance<Global>,
    block: u32,
    max_entries: u32,
) -> Result<Desk<Global>, DeskError> {
    assert!(rt; block < pit.blocks());
    assert!(rt; pit.periods() > 1);
    match Desk::open(alloc, pit, &[(block, 1)], max_entries) {
        Ok(desk) => Ok(desk),
        Err((pit, error)) => {
            drop(pit);
            Err(error)
        }
    }
}

#[test]
fn a_start_or_a_history_may_be_refused(rt: HostRuntime) {
    let (resource, period) = (0, 1);
    let error = DeskError::Unmeetable { resource, period };
    assert_not_started(&rt, rt.alloc(), limited(&rt, rt.alloc()), 0, 100, error);
    let error = DeskError::BadStart(BEHIND);
    assert_not_started(&rt, rt.alloc(), tiny(&rt, rt.alloc()), 1, 100, error);
    assert_not_started(
        &rt,
        rt.alloc(),
        tiny(&rt, rt.alloc()),
        3,
        0,
        DeskError::Full,
    );
    assert_not_resumed(&rt, rt.alloc(), HISTORY, 2, ResumeFault::Full);
    assert_not_resumed(&rt, rt.alloc(), CHANGED, 9, ResumeFault::Place { place: 1 });
}

fn assert_not_started(
    rt: &impl Abort,
    alloc: Global,
    pit: Instance<Global>,
    block: u32,
    max_entries: u32,
    error: DeskError,
) {
    let found = started(rt, alloc, pit, block, max_entries).err();
    assert!(rt; found == Some(error));
}

fn assert_not_resumed(
    rt: &impl Abort,
    alloc: Global,
    text: &[u8],
    max_entries: u32,
    fault: ResumeFault,
) {
    let found = resumed(rt, alloc, text, max_entries).err();
    assert!(rt; found == Some(fault));
}

/// A desk that goes on from the lines of a history, and may have so many entries.
pub(super) fn resumed(
    rt: &impl Abort,
    alloc: Global,
    text: &[u8],
    max_entries: u32,
) -> Result<Desk<Global>, ResumeFault> {
    let pit = tiny(rt, alloc);
    let None = pit.unmeetable() else {
        panic!(rt; "unmeetable");
    };
    let history = from_lines(alloc, alloc, text).expect(rt, "a history");
    Desk::resume(alloc, pit, history, max_entries)
}

#[test]
fn a_desk_goes_on_from_a_history(rt: HostRuntime) {
    let nothing = b"{\"format\":1}\n".as_slice();
    assert_resumed(&rt, rt.alloc(), nothing, 0, (0, 0, Some(4_000_000)));
    assert_resumed(&rt, rt.alloc(), REVISED, 3, (3, 2, Some(5_000_000)));
}

/// A desk that may have just the entries of a history has these, so many commits, and so much that may be loaded in period 0.
fn assert_resumed(
    rt: &impl Abort,
    alloc: Global,
    text: &[u8],
    max_entries: u32,
    found: (usize, u32, Option<i64>),
) {
    let desk = match resumed(rt, alloc, text, max_entries) {
        Ok(desk) => desk,
        Err(fault) => panic!(rt; "{fault:?}"),
    };
    let limit = first_limit(desk.plan());
    let counts = (desk.history().len(), desk.plan().commits());
    drop(desk);
    assert!(rt; (counts.0, counts.1, limit) == found);
}

/// Texts, the line of the first fault, and its cause.
const FAULTY: &[(&[u8], u64, LinesCause)] = &[
    (b"", 1, LinesCause::NotFormat),
    (b"{\n", 1, LinesCause::NotJson),
    (b"{\"format\":1}\n{}\n", 2, LinesCause::Shape),
];

#[test]
fn lines_may_have_a_fault(rt: HostRuntime) {
    for (text, line, cause) in FAULTY {
        let error = from_lines(rt.alloc(), rt.alloc(), text).err();
        let (line, cause) = (*line, *cause);
        assert!(rt; error == Some(LinesError { line, cause }));
    }
}

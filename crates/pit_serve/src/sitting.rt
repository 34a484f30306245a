//! A planner's session, line by line.
ghost use Rattle.std.specs.Prelude.{◌≡◌, ◌≤◌};
ghost use Rattle.pit_serve.specs.Asked.{IsRequestIn};
ghost use Rattle.pit_serve.specs.Sessions.{Closes, IsSession, Turns, begun_after};
ghost use Rattle.pit_serve.specs.Inside.Turning.{IsReplied, count_of, end_if, ends_by, standing_of};

use crate::answer::Answer;
use crate::asked::Asked;
use crate::fault::RequestFault;
use crate::hearing::hear;
use crate::phase::Phase;
use crate::reply::tell;
use crate::request::Request;
use crate::serving::{Served, serve};
use crate::session_end::SessionEnd;
use pit_board::Session;
use pit_file::Appending;
use pit_journal::SharedJournal;
use pit_model::Instance;
use pit_num::Sink;
use pit_share::{Planner, PlannerLog, Workspace};
use std::alloc::Allocator;
use std::io::BufRead;
use std::sync::Wait;

/// What is left of a session: the planner's log, how many replies were told whole, and how it ended.
#[derive(Drop)]
pub struct SatDown<S: Session, A: Allocator + Copy + Drop> {
    pub log: PlannerLog<S, A>,
    pub replies: u64,
    pub ended: SessionEnd,
}

/// A session between two lines: its planner, and how many transactions have begun. It can't be dropped.
pub(crate) struct Sitting<'a, S: Session, R: Wait + Drop, A: Allocator + Copy + Drop> {
    phase: Phase<'a, S, R, A>,
    begun: u32,
}

/// Serves a planner's lines, one after another, until its input ends or can't be read, its output fails, or there is no memory for a line or a reply.
/// Each line but blank ones and comments is answered in one line, which is given before the next line is looked at. A transaction that is still open
/// at the end is given up. Waits for input, for the output, and as `serve` does.
#[tactic(auto, using(crate::proofs::Turning::turns_none, crate::proofs::Turning::turns_on))]
pub fn sit<
    'a,
    S: Session,
    R: Wait + Drop,
    A: Allocator + Copy + Drop,
    D: Appending + Drop,
    W: Wait,
    I: BufRead,
    O: Sink,
>(
    rt: &W,
    alloc: A,
    pit: &Instance<A>,
    workspace: &Workspace<S, R, A>,
    journal: &SharedJournal<S, D>,
    planner: Planner<'a, S, R, A>,
    input: &mut I,
    output: &mut O,
) -> SatDown<S, A>
    requires { pit.now ≡ S.instance }
    ensures { IsSession S.instance S.max_entries planner.entry (I.remaining input.old) (O.contents output.old) (O.contents output.new) result.ended result.replies result.log }
{
    let mut line = Vec::new(alloc);
    let mut sitting = Sitting {
        phase: Phase::Idle(planner),
        begun: 0,
    };
    let mut replies = 0;
    for turns in 0..u64::MAX {
        let (next, more, end) = turn(
            rt, alloc, pit, workspace, journal, sitting, &mut line, input, output,
        );
        sitting = next;
        replies += more;
        if let Some(ended) = end {
            return SatDown {
                log: close(sitting),
                replies,
                ended,
            };
        }
    }
    SatDown {
        log: close(sitting),
        replies,
        ended: SessionEnd::NoStream,
    }
}

/// Serves a line, and answers how many replies were told whole, and how the session ends, if it does.
#[tactic(auto, using(crate::proofs::OneTurn::turn_unheard, crate::proofs::OneTurn::turn_passed, crate::proofs::OneTurn::turn_stopped, crate::proofs::OneTurn::turn_replied))]
fn turn<
    'a,
    S: Session,
    R: Wait + Drop,
    A: Allocator + Copy + Drop,
    D: Appending + Drop,
    W: Wait,
    I: BufRead,
    O: Sink,
>(
    rt: &W,
    alloc: A,
    pit: &Instance<A>,
    workspace: &Workspace<S, R, A>,
    journal: &SharedJournal<S, D>,
    sitting: Sitting<'a, S, R, A>,
    line: &mut Vec<u8, A>,
    input: &mut I,
    output: &mut O,
) -> (Sitting<'a, S, R, A>, u64, Option<SessionEnd>)
    requires { pit.now ≡ S.instance }
    ensures turns { Turns S.instance S.max_entries (standing_of sitting.entry) (standing_of result.0) (I.remaining input.old) (I.remaining input.new)
        (O.contents output.old) (O.contents output.new) result.2 result.1 }
    ensures few { result.1 ≤ 1 }
{
    let (asked, is_last) = match hear(input, line, sitting.phase.is_open(), pit) {
        Ok(heard) => heard,
        Err(end) => return (sitting, 0, Some(end)),
    };
    match asked {
        Asked::Nothing => (sitting, 0, end_if(is_last)),
        Asked::End => (sitting, 0, Some(SessionEnd::Input)),
        Asked::Request(request) => {
            let (sitting, end) = reply(rt, alloc, workspace, journal, sitting, request, output);
            (sitting, count_of(end), ends_by(end, is_last))
        }
        Asked::Wrong(fault) => {
            let (sitting, end) = refuse(alloc, sitting, fault, output);
            (sitting, count_of(end), ends_by(end, is_last))
        }
    }
}

/// Does what is asked for, and tells what that is answered; how the session ends, if that can't be told.
fn reply<
    'a,
    S: Session,
    R: Wait + Drop,
    A: Allocator + Copy + Drop,
    D: Appending + Drop,
    W: Wait,
    O: Sink,
>(
    rt: &W,
    alloc: A,
    workspace: &Workspace<S, R, A>,
    journal: &SharedJournal<S, D>,
    sitting: Sitting<'a, S, R, A>,
    request: Request,
    output: &mut O,
) -> (Sitting<'a, S, R, A>, Option<SessionEnd>)
    requires { IsRequestIn S.instance request }
    ensures { IsReplied S.instance S.max_entries (standing_of sitting.entry) (Asked.Request request) (standing_of result.0) (O.contents output.old) (O.contents output.new) result.1 }
{
    let Sitting { phase, begun } = sitting;
    let Served {
        phase,
        answer,
        durable,
    } = serve(rt, alloc, workspace, journal, phase, begun, request);
    let end = tell(alloc, output, &phase, answer, &durable);
    let begun = begun_after(begun, answer);
    (Sitting { phase, begun }, end)
}

/// Tells what is wrong with a line; how the session ends, if that can't be told.
fn refuse<'a, S: Session, R: Wait + Drop, A: Allocator + Copy + Drop, O: Sink>(
    alloc: A,
    sitting: Sitting<'a, S, R, A>,
    fault: RequestFault,
    output: &mut O,
) -> (Sitting<'a, S, R, A>, Option<SessionEnd>)
    ensures { IsReplied S.instance S.max_entries (standing_of sitting.entry) (Asked.Wrong fault) (standing_of result.0) (O.contents output.old) (O.contents output.new) result.1 }
{
    let end = tell(alloc, output, &sitting.phase, Answer::Wrong(fault), &None);
    (sitting, end)
}

/// How many transactions have begun after an answer, where so many had before.
fn begun_after(begun: u32, answer: Answer) -> u32
    ensures { result ≡ begun_after begun answer }
{
    match answer {
        Answer::Begun { job, .. } => job,
        _ => begun,
    }
}

/// How many replies were told whole, by how the session ends with one.
fn count_of(end: Option<SessionEnd>) -> u64
    ensures value { result ≡ count_of end }
    ensures few { result ≤ 1 }
{
    match end {
        None => 1,
        Some(_) => 0,
    }
}

/// How a session ends, by how it ends with a reply, and whether the line was the last.
fn ends_by(end: Option<SessionEnd>, is_last: bool) -> Option<SessionEnd>
    ensures { result ≡ ends_by end is_last }
{
    match end {
        None => end_if(is_last),
        Some(end) => Some(end),
    }
}

/// Behind its last line a session ends with its input.
fn end_if(is_last: bool) -> Option<SessionEnd>
    ensures { result ≡ end_if is_last }
{
    if is_last {
        return Some(SessionEnd::Input);
    }
    None
}

/// Hands in a planner's log. A transaction that is open is given up.
fn close<'a, S: Session, R: Wait + Drop, A: Allocator + Copy + Drop>(
    sitting: Sitting<'a, S, R, A>,
) -> PlannerLog<S, A>
    ensures { Closes (standing_of sitting.entry).phase result }
{
    let Sitting {
        phase,
        begun: _begun,
    } = sitting;
    match phase {
        Phase::Idle(planner) => planner.finish(),
        Phase::Open(transaction) => transaction.abandon().finish(),
    }
}

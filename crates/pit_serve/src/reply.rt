//! The lines by which answers are told.
ghost use Rattle.std.specs.Prelude.{◌≡◌, ◌++◌, ◌∷◌, [], OnOk, IfOk, codes};
ghost use Rattle.std.specs.Io.KnownBytes.{Appends};
ghost use Rattle.pit_step.specs.LineTexts.{field_text, period_text, value_text};
ghost use Rattle.pit_serve.specs.Inside.Turning.{Tells};
ghost use Rattle.pit_serve.specs.Phases.{phase_of};
ghost use Rattle.pit_serve.specs.Replies.{answer_text, fault_words};
ghost use Rattle.pit_serve.specs.Serving.{IsPlain, IsShown};

use crate::answer::Answer;
use crate::fault::RequestFault;
use crate::phase::Phase;
use crate::session_end::SessionEnd;
use crate::words::fault_words;
use pit_board::Session;
use pit_journal::{Durable, TellError, tell_ending};
use pit_num::{NoMemory, Sink, WriteFault, write_text};
use pit_step::{empty_text, gathered, write_field, write_line, write_period};
use std::alloc::Allocator;
use std::sync::Wait;

/// Tells an answer, in one write, which goes on where it was taken in part; how the session ends, if that can't be. An ending is told without a word
/// more only where its proof is given.
#[tactic(auto, using(crate::proofs::Showing::untold))]
pub(crate) fn tell<'a, S: Session, R: Wait + Drop, A: Allocator + Copy + Drop, O: Sink>(
    alloc: A,
    out: &mut O,
    phase: &Phase<'a, S, R, A>,
    answer: Answer,
    durable: &Option<Durable<S>>,
) -> Option<SessionEnd>
    requires { IsShown (phase_of phase.now) answer durable.now }
    ensures { Tells (O.contents out.old) (O.contents out.new) (answer_text answer) result }
{
    let Answer::Ended { reply, .. } = answer else {
        return tell_plain(alloc, out, answer);
    };
    let Phase::Idle(planner) = phase else {
        unreachable!()
    };
    match tell_ending(alloc, out, planner, reply, durable) {
        Ok(()) => None,
        Err(TellError::Output) => Some(SessionEnd::Output),
        Err(TellError::NoMemory) => Some(SessionEnd::NoMemory),
    }
}

/// Tells an answer that is no ending.
#[tactic(auto, using(crate::proofs::Showing::untold))]
fn tell_plain<A: Allocator + Copy + Drop, O: Sink>(
    alloc: A,
    out: &mut O,
    answer: Answer,
) -> Option<SessionEnd>
    requires { IsPlain answer }
    ensures { Tells (O.contents out.old) (O.contents out.new) (answer_text answer) result }
{
    let Ok(line) = line_of(alloc, answer) else {
        return Some(SessionEnd::NoMemory);
    };
    match write_text(out, line.as_slice()) {
        Ok(()) => None,
        Err(_) => Some(SessionEnd::Output),
    }
}

/// The line of an answer that is no ending.
fn line_of<A: Allocator + Copy + Drop>(alloc: A, answer: Answer) -> Result<Vec<u8, A>, NoMemory>
    requires { IsPlain answer }
    ensures { IfOk result (λ line. line.items ≡ answer_text answer) }
{
    let mut text = empty_text(alloc);
    let written = write_answer(&mut text, answer);
    gathered(text, written)
}

#[tactic(auto, unfolding(crate::specs::Replies::answer_text))]
fn write_answer<W: Sink>(w: &mut W, answer: Answer) -> Result<(), WriteFault>
    requires { IsPlain answer }
    ensures { OnOk result (Appends (W.contents w.old) (W.contents w.new) (answer_text answer)) }
{
    match answer {
        Answer::Begun { job, start } => write_begun(w, job, start),
        Answer::Held { block, period } => write_held(w, block, period),
        Answer::Moved { block, version } => write_moved(w, block, version),
        Answer::Busy => write_text(w, b"busy\n"),
        Answer::Done => write_text(w, b"ok\n"),
        Answer::Ended { .. } => unreachable!(),
        Answer::Full => write_text(w, b"full\n"),
        Answer::Abandoned => write_text(w, b"abandoned\n"),
        Answer::Value { commits, value } => write_value(w, commits, value),
        Answer::Wrong(fault) => write_wrong(w, fault),
    }
}

fn write_begun<W: Sink>(w: &mut W, job: u32, start: u32) -> Result<(), WriteFault>
    ensures { OnOk result (Appends (W.contents w.old) (W.contents w.new) (codes "begun " ++ (field_text job 32 ++ field_text start 10))) }
{
    write_text(w, b"begun ")?;
    write_field(w, u64::from(job), b" ")?;
    write_field(w, u64::from(start), b"\n")
}

fn write_held<W: Sink>(w: &mut W, block: u32, period: Option<u32>) -> Result<(), WriteFault>
    ensures { OnOk result (Appends (W.contents w.old) (W.contents w.new) (codes "held " ++ (field_text block 32 ++ period_text period (10 ∷ [])))) }
{
    write_text(w, b"held ")?;
    write_field(w, u64::from(block), b" ")?;
    write_period(w, period, b"\n")
}

fn write_moved<W: Sink>(w: &mut W, block: u32, version: u32) -> Result<(), WriteFault>
    ensures { OnOk result (Appends (W.contents w.old) (W.contents w.new) (codes "moved " ++ (field_text block 32 ++ field_text version 10))) }
{
    write_text(w, b"moved ")?;
    write_field(w, u64::from(block), b" ")?;
    write_field(w, u64::from(version), b"\n")
}

fn write_value<W: Sink>(w: &mut W, commits: u32, value: i128) -> Result<(), WriteFault>
    ensures { OnOk result (Appends (W.contents w.old) (W.contents w.new) (codes "value " ++ (field_text commits 32 ++ value_text value))) }
{
    write_text(w, b"value ")?;
    write_field(w, u64::from(commits), b" ")?;
    write_line(w, value)
}

fn write_wrong<W: Sink>(w: &mut W, fault: RequestFault) -> Result<(), WriteFault>
    ensures { OnOk result (Appends (W.contents w.old) (W.contents w.new) (codes "fault " ++ (fault_words fault ++ 10 ∷ []))) }
{
    write_text(w, b"fault ")?;
    write_text(w, fault_words(fault).as_bytes())?;
    write_text(w, b"\n")
}

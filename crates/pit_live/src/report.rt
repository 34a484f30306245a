//! The report of the sessions, and how `live` ends.
ghost use Rattle.std.specs.Prelude.{◌≡◌, ◌++◌, IfOk, OnOk, codes};
ghost use Rattle.std.specs.Io.KnownBytes.{Appends};
ghost use Rattle.pit_desk.specs.History.{commits_of};
ghost use Rattle.pit_plan.specs.Schedule.{held_period};
ghost use Rattle.pit_plan.specs.Shortfalls.{shortfalls_of};
ghost use Rattle.pit_step.specs.LineTexts.{value_text, shorts_text};
ghost use Rattle.pit_live.specs.Sittings.{end_words, sitting_text, sittings_text, live_report, ended_by_input, all_by_input, live_end};

use crate::sitting::Sitting;
use pit_desk::Desk;
use pit_num::{NoMemory, Sink, WriteFault, write_text};
use pit_output::status_of_shorts;
use pit_plan::Short;
use pit_serve::SessionEnd;
use pit_step::{CliFault, Status, empty_text, gathered, write_numbered, write_value_lines};
use std::alloc::Allocator;

/// The report's lines, and how it ends, where all else was written or not.
pub(crate) fn reported<A: Allocator + Copy + Drop>(
    alloc: A,
    desk: &Desk<A>,
    sittings: &[Sitting],
    is_written: bool,
) -> Result<(Vec<u8, A>, Result<Status, CliFault>), NoMemory>
    ensures text { IfOk result (λ lines. lines.0.items ≡ live_report desk.now.plan.pit (commits_of desk.now.history) sittings.now) }
    ensures ended { IfOk result (λ lines. lines.1 ≡ live_end is_written sittings.now (shortfalls_of desk.now.plan.pit (held_period (commits_of desk.now.history)))) }
{
    let plan = desk.plan();
    let shorts = plan.shortfalls()?;
    let mut text = empty_text(alloc);
    let written = write_lines(&mut text, sittings, plan.value(), &shorts);
    let lines = gathered(text, written)?;
    Ok((lines, ended(is_written, sittings, &shorts)))
}

/// The lines of the sessions, the value, and the shortfalls.
fn write_lines<W: Sink>(
    w: &mut W,
    sittings: &[Sitting],
    value: i128,
    shorts: &[Short],
) -> Result<(), WriteFault>
    ensures { OnOk result (Appends (W.contents w.old) (W.contents w.new) (sittings_text sittings.now ++ (codes "value " ++ (value_text value ++ shorts_text shorts.now)))) }
{
    write_sittings(w, sittings)?;
    write_value_lines(w, value, shorts)
}

/// A line for each session, by rising planner.
fn write_sittings<W: Sink>(w: &mut W, sittings: &[Sitting]) -> Result<(), WriteFault>
    ensures { OnOk result (Appends (W.contents w.old) (W.contents w.new) (sittings_text sittings.now)) }
{
    for sitting in sittings {
        write_sitting(w, sitting)?;
    }
    Ok(())
}

#[tactic(auto, unfolding(crate::specs::Sittings::sitting_text))]
fn write_sitting<W: Sink>(w: &mut W, sitting: &Sitting) -> Result<(), WriteFault>
    ensures { OnOk result (Appends (W.contents w.old) (W.contents w.new) (sitting_text sitting.now)) }
{
    write_numbered(w, b"planner ", u64::from(sitting.planner))?;
    write_numbered(w, b" requests ", sitting.replies)?;
    write_numbered(w, b" entries ", sitting.entries)?;
    write_end(w, sitting.ended)
}

fn write_end<W: Sink>(w: &mut W, ended: SessionEnd) -> Result<(), WriteFault>
    ensures { OnOk result (Appends (W.contents w.old) (W.contents w.new) (end_words ended)) }
{
    match ended {
        SessionEnd::Input => write_text(w, b" ended input\n"),
        SessionEnd::Output => write_text(w, b" ended output\n"),
        SessionEnd::NoStream => write_text(w, b" ended no stream\n"),
        SessionEnd::NoThread => write_text(w, b" ended no thread\n"),
        SessionEnd::NoMemory => write_text(w, b" ended no memory\n"),
    }
}

fn ended(is_written: bool, sittings: &[Sitting], shorts: &[Short]) -> Result<Status, CliFault>
    ensures { result ≡ live_end is_written sittings.now shorts.now }
{
    if !is_written {
        return Err(CliFault::CannotWrite);
    }
    if are_by_input(sittings) {
        return Ok(status_of_shorts(shorts));
    }
    Err(CliFault::Stopped)
}

/// Whether each session ended by its input.
fn are_by_input(sittings: &[Sitting]) -> bool
    ensures { result ≡ all_by_input sittings.now }
{
    sittings.iter().all(|sitting| is_by_input(sitting.ended))
}

fn is_by_input(ended: SessionEnd) -> bool
    ensures { result ≡ ended_by_input ended }
{
    match ended {
        SessionEnd::Input => true,
        _ => false,
    }
}

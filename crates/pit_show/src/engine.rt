ghost use Rattle.std.specs.Prelude.{◌≤◌, MatchResult, length};
ghost use Rattle.pit_step.specs.Steps.{IsResultOf};
ghost use Rattle.pit_step.specs.Devices.{reading_of, writing_of};
ghost use Rattle.pit_step.specs.declared.read.TheConstants.{INPUT_BYTES_MAX};
ghost use Rattle.pit_show.specs.Show.{IsShown, IsShowFault, show_step, show_run};

use crate::shown::{shown_history, shown_solution};
use pit_model::Deposit;
use pit_num::{Sink, Source};
use pit_state::is_history;
use pit_step::{CliFault, Input, Status, bytes_of, read_pit, write_answer};
use std::alloc::{Allocator, Global};

/// Writes the solution that a schedule of a model leaves after its first commits, as many as `at` says, or after all; of a history behind a
/// comment. The inputs are read and parsed in this order; a fault is the first one, that there are fewer commits the last one, and nothing is
/// written before both are right. Takes the memory of one input at a time, of the facts, of the entries of a history and of the plan, of the
/// longest line of an entry, and of the text; and by `json` that of the JSON value of one line.
pub fn show<A: Allocator + Copy + Drop, M: Source, S: Source, W: Sink>(
    alloc: A,
    json: Global,
    model: &mut M,
    schedule: &mut S,
    at: Option<u32>,
    out: &mut W,
) -> Result<Status, CliFault>
    ensures { let model_read = reading_of (M.remaining model.old) (M.remaining model.new) (M.has_failed model.new) in
        let schedule_read = reading_of (S.remaining schedule.old) (S.remaining schedule.new) (S.has_failed schedule.new) in
        let written = writing_of (W.contents out.old) (W.contents out.new) (W.has_failed out.new) in
        IsResultOf (show_run at model_read schedule_read written) tt result }
{
    let pit = read_pit(alloc, model)?;
    let text = read_shown(alloc, json, schedule, pit, at)?;
    write_answer(out, &text, Status::Fine)
}

/// What is shown of a schedule. The pit is freed.
fn read_shown<A: Allocator + Copy + Drop, S: Source>(
    alloc: A,
    json: Global,
    schedule: &mut S,
    pit: Deposit<A>,
    at: Option<u32>,
) -> Result<Vec<u8, A>, CliFault>
    ensures { let read = reading_of (S.remaining schedule.old) (S.remaining schedule.new) (S.has_failed schedule.new) in
        MatchResult result (λ answer. (show_step at read).Gives pit answer.items) ((show_step at read).Fails pit) }
{
    match bytes_of(alloc, schedule, Input::Schedule) {
        Ok(text) => shown(alloc, json, text, pit, at),
        Err(fault) => {
            drop(pit);
            Err(fault)
        }
    }
}

/// What is shown of the text of a schedule, which is freed.
fn shown<A: Allocator + Copy + Drop>(
    alloc: A,
    json: Global,
    text: Vec<u8, A>,
    pit: Deposit<A>,
    at: Option<u32>,
) -> Result<Vec<u8, A>, CliFault>
    requires short { length text.items ≤ INPUT_BYTES_MAX }
    ensures { MatchResult result (λ answer. IsShown at pit text.items answer.items) (IsShowFault at pit text.items) }
{
    if is_history(&text) {
        return shown_history(alloc, json, text, pit, at);
    }
    shown_solution(alloc, text, pit, at)
}

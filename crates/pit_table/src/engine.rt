ghost use Rattle.std.specs.Prelude.{◌≡◌, List, MatchResult};
ghost use Rattle.pit_plan.specs.Schedule.{Commit};
ghost use Rattle.pit_plan.specs.Standing.{IsPlanOf};
ghost use Rattle.pit_step.specs.declared.status.Status.TheVariants.{Fine};
ghost use Rattle.pit_step.specs.Steps.{IsResultOf};
ghost use Rattle.pit_step.specs.Devices.{reading_of, writing_of};
ghost use Rattle.pit_state.specs.Views.{view_step};
ghost use Rattle.pit_table.specs.CsvText.{table_answer};
ghost use Rattle.pit_table.specs.Table.{table_run};
ghost use Rattle.pit_table.specs.Inside.OfCommits.{IsOfCommits};

use crate::csv_text::write_table;
use crate::mined::by_period;
use pit_model::Deposit;
use pit_num::{Sink, Source};
use pit_plan::PlanView;
use pit_state::read_state;
use pit_step::{CliFault, Input, Status, empty_text, gathered, read_pit, write_answer};
use std::alloc::{Allocator, Global};

/// Writes what a schedule of a model mines, earns and loads in each period, as rows of cells. The model is read and parsed before the schedule
/// is read; a fault is the first one, and nothing is written before both are right. The status is `Fine`. Takes the memory of one input at a
/// time, of the facts, of the entries of a history, of the plan, of one item for each period, and of the text; and by `json` that of the JSON
/// value of one line.
pub fn table<A: Allocator + Copy + Drop, M: Source, S: Source, W: Sink>(
    alloc: A,
    json: Global,
    model: &mut M,
    schedule: &mut S,
    out: &mut W,
) -> Result<Status, CliFault>
    ensures { let model_read = reading_of (M.remaining model.old) (M.remaining model.new) (M.has_failed model.new) in
        let schedule_read = reading_of (S.remaining schedule.old) (S.remaining schedule.new) (S.has_failed schedule.new) in
        let written = writing_of (W.contents out.old) (W.contents out.new) (W.has_failed out.new) in
        IsResultOf (table_run model_read schedule_read written) tt result }
{
    let pit = match read_pit(alloc, model) {
        Ok(pit) => pit,
        Err(fault) => return Err(fault),
    };
    let text = read_table(alloc, json, schedule, pit)?;
    write_answer(out, &text, Status::Fine)
}

/// The text of the table of a schedule. The pit is freed.
fn read_table<A: Allocator + Copy + Drop, S: Source>(
    alloc: A,
    json: Global,
    schedule: &mut S,
    pit: Deposit<A>,
) -> Result<Vec<u8, A>, CliFault>
    ensures { let read = reading_of (S.remaining schedule.old) (S.remaining schedule.new) (S.has_failed schedule.new) in
        MatchResult result
        (λ text. (view_step table_answer Input.Schedule read).Gives pit (text.items, Fine))
        ((view_step table_answer Input.Schedule read).Fails pit) }
{
    match read_state(alloc, json, schedule, Input::Schedule, pit) {
        Ok(plan) => table_of(alloc, &plan),
        Err(fault) => Err(fault),
    }
}

/// The text of the table of a plan.
fn table_of<A: Allocator + Copy + Drop>(
    alloc: A,
    plan: &PlanView<A>,
) -> Result<Vec<u8, A>, CliFault>
    requires { IsOfCommits plan.now }
    ensures { MatchResult result
        (λ text. (commits : List Commit) → IsPlanOf plan.now commits → (text.items, Fine) ≡ table_answer plan.now.pit commits)
        (λ fault. fault ≡ CliFault.NoMemory) }
{
    let mined = by_period(alloc, plan)?;
    let mut text = empty_text(alloc);
    let written = write_table(&mut text, plan, &mined);
    Ok(gathered(text, written)?)
}

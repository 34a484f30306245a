ghost use Rattle.std.specs.Prelude.{◌≡◌, ◌≤◌, length, true, false, MatchResult};
ghost use Rattle.pit_step.specs.Steps.{IsResultOf};
ghost use Rattle.pit_step.specs.Devices.{reading_of};
ghost use Rattle.pit_step.specs.declared.read.TheConstants.{INPUT_BYTES_MAX};
ghost use Rattle.pit_state.specs.States.{is_history as history_by, IsPlanRead, IsStateFault, plan_step};

use crate::kind::is_history;
use crate::parsed::{entries_of, pairs_of};
use crate::plans::{history_plan, schedule_plan};
use pit_model::Deposit;
use pit_num::Source;
use pit_plan::PlanView;
use pit_step::{CliFault, Input, bytes_of};
use std::alloc::{Allocator, Global};

/// The plan of the commits that the text of a schedule stands for: a solution, or a history, each of whose entries fits the pit. The file is the one
/// that faults name. Takes the memory of the text, which is freed before the plan is made; that of the plan; that of the entries of a history, which
/// are freed in the end; and by `json` that of the JSON value of one line. The pit is freed on a fault.
pub fn read_state<A: Allocator + Copy + Drop, S: Source>(
    alloc: A,
    json: Global,
    schedule: &mut S,
    file: Input,
    pit: Deposit<A>,
) -> Result<PlanView<A>, CliFault>
    ensures { let read = reading_of (S.remaining schedule.old) (S.remaining schedule.new) (S.has_failed schedule.new) in
        IsResultOf (plan_step file read) pit result }
{
    match bytes_of(alloc, schedule, file) {
        Ok(text) => state_of(alloc, json, file, text, pit),
        Err(fault) => {
            drop(pit);
            Err(fault)
        }
    }
}

/// The plan that a text stands for, which is freed.
fn state_of<A: Allocator + Copy + Drop>(
    alloc: A,
    json: Global,
    file: Input,
    text: Vec<u8, A>,
    pit: Deposit<A>,
) -> Result<PlanView<A>, CliFault>
    requires short { length text.items ≤ INPUT_BYTES_MAX }
    ensures { MatchResult result (IsPlanRead pit text.items) (IsStateFault file pit text.items) }
{
    if is_history(&text) {
        return history_state(alloc, json, file, text, pit);
    }
    solution_state(alloc, file, text, pit)
}

/// The same of a history.
fn history_state<A: Allocator + Copy + Drop>(
    alloc: A,
    json: Global,
    file: Input,
    text: Vec<u8, A>,
    pit: Deposit<A>,
) -> Result<PlanView<A>, CliFault>
    requires short { length text.items ≤ INPUT_BYTES_MAX }
    requires kind { history_by text.items ≡ true }
    ensures { MatchResult result (IsPlanRead pit text.items) (IsStateFault file pit text.items) }
{
    match entries_of(alloc, json, file, text) {
        Ok(entries) => history_plan(alloc, file, pit, &entries),
        Err(fault) => {
            drop(pit);
            Err(fault)
        }
    }
}

/// The same of a solution.
fn solution_state<A: Allocator + Copy + Drop>(
    alloc: A,
    file: Input,
    text: Vec<u8, A>,
    pit: Deposit<A>,
) -> Result<PlanView<A>, CliFault>
    requires kind { history_by text.items ≡ false }
    ensures { MatchResult result (IsPlanRead pit text.items) (IsStateFault file pit text.items) }
{
    match pairs_of(alloc, file, text, &pit) {
        Ok(schedule) => schedule_plan(alloc, pit, &schedule),
        Err(fault) => {
            drop(pit);
            Err(fault)
        }
    }
}

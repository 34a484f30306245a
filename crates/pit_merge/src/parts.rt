//! What an edit was made from, and what it wants, by its text.
ghost use Rattle.std.specs.Prelude.{◌≡◌, ◌≤◌, true, false, length, IfOk, MatchResult};
ghost use Rattle.pit_desk.specs.declared.entry.TheConstants.{ENTRIES_MAX};
ghost use Rattle.pit_step.specs.declared.read.TheConstants.{INPUT_BYTES_MAX};
ghost use Rattle.pit_step.specs.Inputs.{IsScheduleOf};
ghost use Rattle.pit_state.specs.States.{is_history as history_by};
ghost use Rattle.pit_base.specs.Held.{AreInRange};
ghost use Rattle.pit_merge.specs.Edits.{IsWanted, IsEditFault};
ghost use Rattle.pit_merge.specs.Inside.Parts.{IsByEntries, IsEntriesFault, IsBySchedule, IsScheduleFault};

use crate::ground::Ground;
use pit_base::{fault_of, history_base, history_periods, schedule_periods, solution_base};
use pit_desk::{ENTRIES_MAX, Entry};
use pit_state::{entries_of, is_history};
use pit_step::{CliFault, Input, schedule_of};
use std::alloc::{Allocator, Global};

/// Of how many commits an edit was made, and the periods that it wants, by block. Takes the memory of these and of the entries of a history, and by
/// `json` that of the JSON value of one line. The text is freed.
pub(crate) fn wanted_of<A: Allocator + Copy + Drop>(
    alloc: A,
    json: Global,
    ground: &Ground<'_, A>,
    from: Option<u32>,
    number: u32,
    text: Vec<u8, A>,
) -> Result<(u32, Vec<Option<u32>, A>), CliFault>
    requires few { length ground.now.ours ≤ ENTRIES_MAX }
    requires short { length text.items ≤ INPUT_BYTES_MAX }
    ensures wanted { MatchResult result (λ w. IsWanted ground.now from text.items w.0 w.1.items) (IsEditFault ground.now from number text.items) }
    ensures range { IfOk result (λ w. AreInRange ground.now.pit w.1.items) }
{
    if is_history(&text) {
        return history_wanted(alloc, json, ground, from, number, text);
    }
    solution_wanted(alloc, ground, from, number, text)
}

/// The same of a history.
fn history_wanted<A: Allocator + Copy + Drop>(
    alloc: A,
    json: Global,
    ground: &Ground<'_, A>,
    from: Option<u32>,
    number: u32,
    text: Vec<u8, A>,
) -> Result<(u32, Vec<Option<u32>, A>), CliFault>
    requires few { length ground.now.ours ≤ ENTRIES_MAX }
    requires short { length text.items ≤ INPUT_BYTES_MAX }
    requires kind { history_by text.items ≡ true }
    ensures wanted { MatchResult result (λ w. IsWanted ground.now from text.items w.0 w.1.items) (IsEditFault ground.now from number text.items) }
    ensures range { IfOk result (λ w. AreInRange ground.now.pit w.1.items) }
{
    let file = Input::Edit(u64::from(number));
    match entries_of(alloc, json, file, text) {
        Ok(entries) => by_entries(alloc, ground, file, &entries),
        Err(fault) => Err(fault),
    }
}

/// The same of entries, of the input that faults name.
fn by_entries<A: Allocator + Copy + Drop>(
    alloc: A,
    ground: &Ground<'_, A>,
    file: Input,
    entries: &[Entry<A>],
) -> Result<(u32, Vec<Option<u32>, A>), CliFault>
    requires few { length ground.now.ours ≤ ENTRIES_MAX }
    requires also { length entries.now ≤ ENTRIES_MAX }
    ensures wanted { MatchResult result (λ w. IsByEntries ground.now entries.now w.0 w.1.items) (IsEntriesFault ground.now file entries.now) }
    ensures range { IfOk result (λ w. AreInRange ground.now.pit w.1.items) }
{
    let wanted = match history_periods(alloc, file, ground.pit, entries) {
        Ok(wanted) => wanted,
        Err(fault) => return Err(fault),
    };
    match history_base(ground.ours, entries) {
        Ok(start) => Ok((start, wanted)),
        Err(why) => Err(fault_of(file, why)),
    }
}

/// The same of a solution.
fn solution_wanted<A: Allocator + Copy + Drop>(
    alloc: A,
    ground: &Ground<'_, A>,
    from: Option<u32>,
    number: u32,
    text: Vec<u8, A>,
) -> Result<(u32, Vec<Option<u32>, A>), CliFault>
    requires few { length ground.now.ours ≤ ENTRIES_MAX }
    requires kind { history_by text.items ≡ false }
    ensures wanted { MatchResult result (λ w. IsWanted ground.now from text.items w.0 w.1.items) (IsEditFault ground.now from number text.items) }
    ensures range { IfOk result (λ w. AreInRange ground.now.pit w.1.items) }
{
    let file = Input::Edit(u64::from(number));
    match schedule_of(alloc, file, &text, ground.pit) {
        Ok(schedule) => by_schedule(alloc, ground, from, file, &schedule, &text),
        Err(fault) => Err(fault),
    }
}

/// The same of the schedule that a text stands for.
fn by_schedule<A: Allocator + Copy + Drop>(
    alloc: A,
    ground: &Ground<'_, A>,
    from: Option<u32>,
    file: Input,
    schedule: &[(u32, u32)],
    text: &[u8],
) -> Result<(u32, Vec<Option<u32>, A>), CliFault>
    requires few { length ground.now.ours ≤ ENTRIES_MAX }
    requires fits { IsScheduleOf ground.now.pit schedule.now }
    ensures wanted { MatchResult result
        (λ w. IsBySchedule ground.now from schedule.now text.now w.0 w.1.items)
        (IsScheduleFault ground.now from file text.now) }
    ensures range { IfOk result (λ w. AreInRange ground.now.pit w.1.items) }
{
    let Ok(wanted) = schedule_periods(alloc, ground.pit, schedule) else {
        return Err(CliFault::NoMemory);
    };
    match solution_base(alloc, ground.ours, ground.is_resumed, from, text) {
        Ok(start) => Ok((start, wanted)),
        Err(why) => Err(fault_of(file, why)),
    }
}

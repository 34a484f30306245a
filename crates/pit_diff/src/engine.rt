ghost use Rattle.std.specs.Prelude.{◌≡◌, List, MatchResult};
ghost use Rattle.pit_plan.specs.Schedule.{Commit};
ghost use Rattle.pit_plan.specs.Standing.{IsPlanOf};
ghost use Rattle.pit_step.specs.Steps.{IsResultOf, in_turn};
ghost use Rattle.pit_step.specs.Devices.{reading_of, writing_of, answer_step};
ghost use Rattle.pit_state.specs.States.{plan_step};
ghost use Rattle.pit_diff.specs.DiffText.{diff_answer};
ghost use Rattle.pit_diff.specs.Diff.{new_step, schedules_run, diff_run};

use crate::diff_text::{diff_status, text_of};
use pit_model::Deposit;
use pit_num::{Sink, Source};
use pit_plan::PlanView;
use pit_state::read_state;
use pit_step::{CliFault, Input, Status, read_pit, write_answer};
use std::alloc::{Allocator, Global};

/// Writes what differs between two schedules of a model, the old one and the new one; `Failed` where it wrote of any. The inputs are read and parsed
/// in this order; a fault is the first one, and nothing is written before all are right. Takes the memory of one input at a time, of the facts,
/// of the entries of a history, of both plans, of a number for each pair of periods, and of the text; and by `json` that of the JSON value of one line.
pub fn diff<A: Allocator + Copy + Drop, M: Source, O: Source, N: Source, W: Sink>(
    alloc: A,
    json: Global,
    model: &mut M,
    old: &mut O,
    new: &mut N,
    out: &mut W,
) -> Result<Status, CliFault>
    ensures { let model_read = reading_of (M.remaining model.old) (M.remaining model.new) (M.has_failed model.new) in
        let old_read = reading_of (O.remaining old.old) (O.remaining old.new) (O.has_failed old.new) in
        let new_read = reading_of (N.remaining new.old) (N.remaining new.new) (N.has_failed new.new) in
        let written = writing_of (W.contents out.old) (W.contents out.new) (W.has_failed out.new) in
        IsResultOf (diff_run model_read old_read new_read written) tt result }
{
    match read_pit(alloc, model) {
        Ok(pit) => diff_of(alloc, json, old, new, out, pit),
        Err(fault) => Err(fault),
    }
}

/// Writes what differs between two schedules of a pit, which is freed.
fn diff_of<A: Allocator + Copy + Drop, O: Source, N: Source, W: Sink>(
    alloc: A,
    json: Global,
    old: &mut O,
    new: &mut N,
    out: &mut W,
    pit: Deposit<A>,
) -> Result<Status, CliFault>
    ensures { let old_read = reading_of (O.remaining old.old) (O.remaining old.new) (O.has_failed old.new) in
        let new_read = reading_of (N.remaining new.old) (N.remaining new.new) (N.has_failed new.new) in
        let written = writing_of (W.contents out.old) (W.contents out.new) (W.has_failed out.new) in
        IsResultOf (schedules_run old_read new_read written) pit result }
{
    match read_old(alloc, json, old, pit) {
        Ok((plan, pit)) => diff_from(alloc, json, plan, new, out, pit),
        Err(fault) => Err(fault),
    }
}

/// The plan of the old schedule, and the pit once more.
fn read_old<A: Allocator + Copy + Drop, O: Source>(
    alloc: A,
    json: Global,
    old: &mut O,
    pit: Deposit<A>,
) -> Result<(PlanView<A>, Deposit<A>), CliFault>
    ensures { let read = reading_of (O.remaining old.old) (O.remaining old.new) (O.has_failed old.new) in
        MatchResult result
        (λ both. (plan_step Input.Old read).Gives pit both.0 × (both.1 ≡ pit))
        ((plan_step Input.Old read).Fails pit) }
{
    match read_state(alloc, json, old, Input::Old, pit) {
        Ok(plan) => with_pit(plan),
        Err(fault) => Err(fault),
    }
}

/// A plan, and its pit once more. Where that is refused, the plan is freed.
fn with_pit<A: Allocator + Copy + Drop>(
    plan: PlanView<A>,
) -> Result<(PlanView<A>, Deposit<A>), CliFault>
    ensures { MatchResult result (λ both. (both.0 ≡ plan) × (both.1 ≡ plan.pit)) (λ fault. fault ≡ CliFault.NoMemory) }
{
    let shared = plan.deposit().share();
    match shared {
        Ok(pit) => Ok((plan, pit)),
        Err(_) => {
            drop(plan);
            Err(CliFault::NoMemory)
        }
    }
}

/// Writes what differs between the plan of the old schedule and a new schedule of its pit. The plan is freed.
fn diff_from<A: Allocator + Copy + Drop, N: Source, W: Sink>(
    alloc: A,
    json: Global,
    old: PlanView<A>,
    new: &mut N,
    out: &mut W,
    pit: Deposit<A>,
) -> Result<Status, CliFault>
    requires { old.pit ≡ pit }
    ensures { let new_read = reading_of (N.remaining new.old) (N.remaining new.new) (N.has_failed new.new) in
        let written = writing_of (W.contents out.old) (W.contents out.new) (W.has_failed out.new) in
        (before : List Commit) → IsPlanOf old before
        → IsResultOf (in_turn (new_step new_read) (answer_step written)) (pit, before) result }
{
    match read_new(alloc, json, old, new, pit) {
        Ok((text, status)) => write_answer(out, &text, status),
        Err(fault) => Err(fault),
    }
}

/// What is to be written of a new schedule, and the status that goes with it. The plan of the old one is freed.
fn read_new<A: Allocator + Copy + Drop, N: Source>(
    alloc: A,
    json: Global,
    old: PlanView<A>,
    new: &mut N,
    pit: Deposit<A>,
) -> Result<(Vec<u8, A>, Status), CliFault>
    requires { old.pit ≡ pit }
    ensures { let read = reading_of (N.remaining new.old) (N.remaining new.new) (N.has_failed new.new) in
        (before : List Commit) → IsPlanOf old before
        → MatchResult result (λ answer. (new_step read).Gives (pit, before) (answer.0.items, answer.1)) ((new_step read).Fails (pit, before)) }
{
    match read_state(alloc, json, new, Input::New, pit) {
        Ok(plan) => answer_of(alloc, &old, &plan),
        Err(fault) => {
            drop(old);
            Err(fault)
        }
    }
}

/// What is to be written of two plans, and the status that goes with it.
fn answer_of<A: Allocator + Copy + Drop>(
    alloc: A,
    old: &PlanView<A>,
    new: &PlanView<A>,
) -> Result<(Vec<u8, A>, Status), CliFault>
    requires { new.now.pit ≡ old.now.pit }
    ensures { MatchResult result
        (λ answer. (before after : List Commit) → IsPlanOf old.now before → IsPlanOf new.now after
        → (answer.0.items, answer.1) ≡ diff_answer old.now.pit before after)
        (λ fault. fault ≡ CliFault.NoMemory) }
{
    let text = text_of(alloc, old, new)?;
    let status = diff_status(&text);
    Ok((text, status))
}

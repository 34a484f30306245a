ghost use Rattle.std.specs.Prelude.{◌≡◌, ℕ, ◌<◌, ◌^◌, ◌∷◌, ◌++◌, [], List, Option, Some, None, Ok, Err, MatchResult, IfOk, IfErr, IfSome, IsSome, OnOk, ◌⊎◌, length, slice_index_or};
ghost use Rattle.pit_model.specs.Fitting.{IsSchedule};
ghost use Rattle.pit_text.specs.Cutting.{cut_of, end_line};
ghost use Rattle.pit_text.specs.Left.{fields_left};
ghost use Rattle.pit_text.specs.Causes.{cause_of};
ghost use Rattle.pit_text.specs.Stands.{StandsFor, FailsFirst, NamesFault};
ghost use Rattle.pit_text.specs.Solution.{pair_in_range, mined_pair, scheduled_pair, solution_line, period_in, schedule_of, SolutionStops};
ghost use Rattle.pit_text.specs.Inside.Plain.{ArePair};
ghost use Rattle.pit_text.specs.Inside.Solution.{AreSlots};

use super::cutting::{Fields, Lines};
use super::error::{Cause, Fault, TextError};
use super::model::Key;
use super::number::{decimal, whole};
use pit_model::{BuildError, Deposit, Instance};
use pit_num::NoMemory;
use std::alloc::Allocator;

/// The blocks that a solution schedules, each with its period, by rising block. Takes no memory before the first line that schedules one.
pub fn read_solution<A: Allocator + Copy + Drop>(
    alloc: A,
    text: &[u8],
    instance: &Instance<A>,
) -> Result<Vec<(u32, u32), A>, TextError>
    ensures result { let judge = solution_line instance.now.blocks instance.now.periods in MatchResult result
        (λ solution. (facts : List (Option (ℕ × ℕ))) × StandsFor judge (cut_of text.now) facts
        × (solution.items ≡ schedule_of instance.now.blocks (period_in facts)))
        (λ fault. ((fault.cause ≡ Cause.NoMemory) × SolutionStops instance.now.blocks instance.now.periods (cut_of text.now) (end_line text.now) fault.line)
        ⊎ NamesFault cause_of (FailsFirst judge (cut_of text.now) fault.line) fault.cause) }
    ensures fits { IfOk result (λ solution. IsSchedule instance.now.blocks instance.now.periods solution.items) }
{
    read_solution_of(alloc, text, instance.deposit())
}

/// The same of a pit without successors.
pub fn read_solution_of<A: Allocator + Copy + Drop>(
    alloc: A,
    text: &[u8],
    pit: &Deposit<A>,
) -> Result<Vec<(u32, u32), A>, TextError>
    ensures result { let judge = solution_line pit.now.blocks pit.now.periods in MatchResult result
        (λ solution. (facts : List (Option (ℕ × ℕ))) × StandsFor judge (cut_of text.now) facts
        × (solution.items ≡ schedule_of pit.now.blocks (period_in facts)))
        (λ fault. ((fault.cause ≡ Cause.NoMemory) × SolutionStops pit.now.blocks pit.now.periods (cut_of text.now) (end_line text.now) fault.line)
        ⊎ NamesFault cause_of (FailsFirst judge (cut_of text.now) fault.line) fault.cause) }
    ensures fits { IfOk result (λ solution. IsSchedule pit.now.blocks pit.now.periods solution.items) }
{
    let (slots, end) = read_slots(alloc, text, pit.blocks(), pit.periods())?;
    match schedule_of(alloc, &slots) {
        Ok(solution) => Ok(solution),
        Err(_) => Err(TextError {
            line: end,
            cause: Cause::NoMemory,
        }),
    }
}

fn schedule_of<A: Allocator>(
    alloc: A,
    slots: &[Option<u32>],
) -> Result<Vec<(u32, u32), A>, NoMemory>
    requires { length slots.now < 2 ^ 32 }
    ensures solution { IfOk result (λ solution. solution.items ≡ schedule_of (length slots.now) (λ b. slice_index_or slots.now b None)) }
    ensures memory { IfErr result (λ e. (b : ℕ) × IsSome (slice_index_or slots.now b None)) }
{
    let mut solution = Vec::new(alloc);
    for (block, slot) in slots.iter().enumerate() {
        if let Some(period) = slot {
            solution.push((block as u32, *period))?;
        }
    }
    Ok(solution)
}

/// The period of each block that a solution schedules, and the number of its end line.
fn read_slots<A: Allocator + Drop>(
    alloc: A,
    text: &[u8],
    blocks: u32,
    periods: u32,
) -> Result<(Vec<Option<u32>, A>, u64), TextError>
    ensures { let judge = solution_line blocks periods in MatchResult result
        (λ read. (facts : List (Option (ℕ × ℕ))) × StandsFor judge (cut_of text.now) facts × AreSlots blocks facts read.0.items × (read.1 ≡ end_line text.now))
        (λ fault. ((fault.cause ≡ Cause.NoMemory) × SolutionStops blocks periods (cut_of text.now) (end_line text.now) fault.line)
        ⊎ NamesFault cause_of (FailsFirst judge (cut_of text.now) fault.line) fault.cause) }
{
    let mut slots = Vec::new(alloc);
    let mut lines = Lines::new(text);
    while let Some((line, pair)) = lines.next_pair() {
        if let Err(cause) = judge_line(&mut slots, line.fields, pair, blocks, periods) {
            return Err(TextError {
                line: line.number,
                cause,
            });
        }
    }
    Ok((slots, lines.end_line()))
}

/// A line, of which a pair of whole numbers may be known.
fn judge_line<A: Allocator + Drop>(
    slots: &mut Vec<Option<u32>, A>,
    fields: Fields<'_>,
    pair: Option<(u32, u32)>,
    blocks: u32,
    periods: u32,
) -> Result<(), Cause>
    requires pair { IfSome pair (λ numbers. ArePair (fields_left fields) numbers.0 numbers.1) }
    requires slots { (slots.old.items ≡ []) ⊎ (length slots.old.items ≡ blocks) }
    ensures { (facts : List (Option (ℕ × ℕ))) → AreSlots blocks facts slots.old.items → MatchResult result
        (λ _. (fact : Option (ℕ × ℕ)) × (solution_line blocks periods facts (fields_left fields.entry) ≡ Ok fact) × AreSlots blocks (facts ++ fact ∷ []) slots.new.items)
        (λ cause. ((cause ≡ Cause.NoMemory) × ((pair : ℕ × ℕ) × (solution_line blocks periods facts (fields_left fields.entry) ≡ Ok (Some pair))))
        ⊎ NamesFault cause_of (λ fault. solution_line blocks periods facts (fields_left fields.entry) ≡ Err fault) cause) }
{
    let (block, period) = match scheduled_pair(fields, pair, blocks, periods) {
        Ok(Some(pair)) => pair,
        Ok(None) => return Ok(()),
        Err(fault) => return Err(Cause::from(fault)),
    };
    let Ok(()) = make_slots(slots, blocks) else {
        return Err(Cause::NoMemory);
    };
    if slots[block as usize].is_some() {
        return Err(Cause::Build(BuildError::Repeated));
    }
    slots[block as usize] = Some(period);
    Ok(())
}

/// Makes a slot for each block, unless that was done.
fn make_slots<A: Allocator + Drop>(
    slots: &mut Vec<Option<u32>, A>,
    blocks: u32,
) -> Result<(), NoMemory>
    requires { (slots.old.items ≡ []) ⊎ (length slots.old.items ≡ blocks) }
    ensures count { OnOk result (length slots.new.items ≡ blocks) }
    ensures same { (b : ℕ) → slice_index_or slots.new.items b None ≡ slice_index_or slots.old.items b None }
    ensures refused { IfErr result (λ e. slots.old.items ≡ []) }
{
    if !slots.is_empty() {
        return Ok(());
    }
    slots.resize(blocks as usize, None)?;
    Ok(())
}

/// The block and the period that a line schedules, both in range, if it does. A pair that is known is all that the line says.
fn scheduled_pair(
    fields: Fields<'_>,
    pair: Option<(u32, u32)>,
    blocks: u32,
    periods: u32,
) -> Result<Option<(u32, u32)>, Fault>
    requires { IfSome pair (λ numbers. ArePair (fields_left fields) numbers.0 numbers.1) }
    ensures value { result ≡ scheduled_pair blocks periods (fields_left fields.entry) }
    ensures in_range { IfOk result (λ fact. IfSome fact (λ pair. (pair.0 < blocks) × (pair.1 < periods))) }
{
    let Some((block, period)) = pair else {
        return general_pair(fields, blocks, periods);
    };
    match pair_in_range(blocks, periods, block, period) {
        Ok(pair) => Ok(Some(pair)),
        Err(cause) => Err(cause),
    }
}

/// The same, by the fields.
#[tactic(auto, unfolding(crate::specs::Solution::scheduled_pair))]
fn general_pair(
    mut fields: Fields<'_>,
    blocks: u32,
    periods: u32,
) -> Result<Option<(u32, u32)>, Fault>
    ensures value { result ≡ scheduled_pair blocks periods (fields_left fields.entry) }
    ensures in_range { IfOk result (λ fact. IfSome fact (λ pair. (pair.0 < blocks) × (pair.1 < periods))) }
{
    let (Some(first), Some(second)) = (fields.next(), fields.next()) else {
        return Err(Fault::FieldCount);
    };
    let Some(third) = fields.next() else {
        let block = whole(first)?;
        let period = whole(second)?;
        let pair = pair_in_range(blocks, periods, block, period)?;
        return Ok(Some(pair));
    };
    let (Some(fourth), None) = (fields.next(), fields.next()) else {
        return Err(Fault::FieldCount);
    };
    let block = whole(first)?;
    let destination = whole(second)?;
    let period = whole(third)?;
    let part = decimal(fourth)?;
    let pair = pair_in_range(blocks, periods, block, period)?;
    mined_pair(destination, part, pair)
}

fn pair_in_range(blocks: u32, periods: u32, block: u32, period: u32) -> Result<(u32, u32), Fault>
    ensures value { result ≡ pair_in_range blocks periods block period }
    ensures in_range { IfOk result (λ pair. (pair.0 < blocks) × (pair.1 < periods)) }
{
    if block >= blocks {
        return Err(Fault::Build(BuildError::BlockRange));
    }
    if period >= periods {
        return Err(Fault::Build(BuildError::PeriodRange));
    }
    Ok((block, period))
}

fn mined_pair(destination: u32, part: i64, pair: (u32, u32)) -> Result<Option<(u32, u32)>, Fault>
    ensures value { result ≡ mined_pair destination part pair }
    ensures same { IfOk result (λ fact. IfSome fact (λ kept. kept ≡ pair)) }
{
    if destination != 0 {
        return Err(Fault::Unsupported(Key::Destinations));
    }
    match part {
        0 => Ok(None),
        1_000_000 => Ok(Some(pair)),
        _ => Err(Fault::PartBlock),
    }
}

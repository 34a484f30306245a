ghost use Rattle.std.specs.Prelude.{◌≡◌, ◌==◌, ℕ, List, length, Ok, Err, IsOk, IfOk, IfSome, OnErr, MatchResult, ◌⊎◌};
ghost use Rattle.pit_text.specs.Cutting.{cut_of};
ghost use Rattle.pit_text.specs.Left.{fields_left};
ghost use Rattle.pit_text.specs.Causes.{cause_of};
ghost use Rattle.pit_text.specs.Stands.{StandsFor, StopsAt, FailsFirst, NamesFault};
ghost use Rattle.pit_text.specs.Inside.Unlisted.{with_block, has_from};
ghost use Rattle.pit_text.specs.Inside.Stands.{IsCauseOf};
ghost use Rattle.pit_text.specs.Precedence.{wholes_of, preds_line, with_preds_fact, preds_fact, pit_with_preds, precedence_line};

use super::cutting::{Fields, Lines};
use super::error::{Cause, Fault, TextError};
use super::number::whole;
use pit_model::{BuildError, Builder};
use pit_num::NoMemory;
use std::alloc::Allocator;

/// Reads the predecessors of blocks into a pit. The allocator is for the list of one line. That it is out of memory is answered only where the line
/// has no fault. After a fault the pit is freed.
pub fn read_precedence<A: Allocator + Copy + Drop, B: Allocator + Copy + Drop>(
    alloc: B,
    text: &[u8],
    mut builder: Builder<A>,
) -> Result<Builder<A>, TextError>
    ensures { let judge = precedence_line builder in MatchResult result
        (λ read. (facts : List (ℕ × List ℕ)) × StandsFor judge (cut_of text.now) facts × (read ≡ pit_with_preds builder facts))
        (λ fault. ((fault.cause ≡ Cause.NoMemory) × StopsAt judge (cut_of text.now) fault.line) ⊎ NamesFault cause_of (FailsFirst judge (cut_of text.now) fault.line) fault.cause) }
{
    let mut listed = Vec::new(alloc);
    let mut lines = Lines::new(text);
    while let Some((line, known)) = lines.next_listed(&mut listed) {
        if let Err(cause) = judge_line(&mut builder, &mut listed, line.fields, known) {
            return Err(TextError {
                line: line.number,
                cause,
            });
        }
    }
    Ok(builder)
}

/// Adds a line. `known` has its block where the line was plain, and its predecessors are then in the list; or that there was no memory for these. Where
/// there is none, the line is judged without a list.
fn judge_line<A: Allocator + Copy + Drop, B: Allocator + Drop>(
    builder: &mut Builder<A>,
    listed: &mut Vec<u32, B>,
    fields: Fields<'_>,
    known: Result<Option<u32>, NoMemory>,
) -> Result<(), Cause>
    requires { IfOk known (λ found. IfSome found (λ block. preds_line (fields_left fields) ≡ Ok (block, listed.old.items))) }
    ensures { MatchResult result
        (λ _. (fact : ℕ × List ℕ) × (preds_fact builder.old (fields_left fields.entry) ≡ Ok fact) × (builder.new ≡ with_preds_fact builder.old fact))
        (λ cause. IsCauseOf Cause.NoMemory cause_of (preds_fact builder.old (fields_left fields.entry)) cause) }
{
    match add_line(builder, listed, fields, known) {
        Ok(()) => Ok(()),
        Err(cause) if cause == Cause::NoMemory => {
            judge(builder, fields)?;
            Err(Cause::NoMemory)
        }
        Err(cause) => Err(cause),
    }
}

/// Adds a line, whose predecessors are left in the list. Memory may run out before all of the line is judged.
fn add_line<A: Allocator + Copy + Drop, B: Allocator + Drop>(
    builder: &mut Builder<A>,
    listed: &mut Vec<u32, B>,
    fields: Fields<'_>,
    known: Result<Option<u32>, NoMemory>,
) -> Result<(), Cause>
    requires { IfOk known (λ found. IfSome found (λ block. preds_line (fields_left fields) ≡ Ok (block, listed.old.items))) }
    ensures result { MatchResult result
        (λ _. (fact : ℕ × List ℕ) × (preds_fact builder.old (fields_left fields.entry) ≡ Ok fact) × (builder.new ≡ with_preds_fact builder.old fact))
        (λ cause. (cause ≡ Cause.NoMemory) ⊎ NamesFault cause_of (λ fault. preds_fact builder.old (fields_left fields.entry) ≡ Err fault) cause) }
    ensures err { OnErr result (builder.new ≡ builder.old) }
{
    let block = listed_block(listed, fields, known)?;
    builder.set_preds(block, listed.as_slice())?;
    Ok(())
}

/// The block of a line, whose predecessors are left in the list.
fn listed_block<B: Allocator + Drop>(
    listed: &mut Vec<u32, B>,
    fields: Fields<'_>,
    known: Result<Option<u32>, NoMemory>,
) -> Result<u32, Cause>
    requires { IfOk known (λ found. IfSome found (λ block. preds_line (fields_left fields) ≡ Ok (block, listed.old.items))) }
    ensures { MatchResult result
        (λ block. preds_line (fields_left fields.entry) ≡ Ok (block, listed.new.items))
        (λ cause. (cause ≡ Cause.NoMemory) ⊎ NamesFault cause_of (λ fault. preds_line (fields_left fields.entry) ≡ Err fault) cause) }
{
    match known {
        Ok(Some(block)) => Ok(block),
        Ok(None) => general_block(listed, fields),
        Err(_) => Err(Cause::NoMemory),
    }
}

/// The same, by the fields.
fn general_block<B: Allocator + Drop>(
    listed: &mut Vec<u32, B>,
    fields: Fields<'_>,
) -> Result<u32, Cause>
    ensures { MatchResult result
        (λ block. preds_line (fields_left fields.entry) ≡ Ok (block, listed.new.items))
        (λ cause. (cause ≡ Cause.NoMemory) ⊎ NamesFault cause_of (λ fault. preds_line (fields_left fields.entry) ≡ Err fault) cause) }
{
    let (block, rest) = block_and_rest(fields)?;
    wholes(listed, rest)?;
    Ok(block)
}

/// The block of a line and its predecessors, which are as many as it says.
#[tactic(auto, unfolding(crate::specs::Precedence::preds_line))]
fn block_and_rest<'a>(mut fields: Fields<'a>) -> Result<(u32, Fields<'a>), Fault>
    ensures { MatchResult result
        (λ read. preds_line (fields_left fields.entry) ≡ with_block read.0 (wholes_of (fields_left read.1)))
        (λ cause. preds_line (fields_left fields.entry) ≡ Err cause) }
{
    let (Some(first), Some(second)) = (fields.next(), fields.next()) else {
        return Err(Fault::FieldCount);
    };
    let block = whole(first)?;
    let count = whole(second)?;
    if !is_count(count, fields) {
        return Err(Fault::CountWrong);
    }
    Ok((block, fields))
}

/// Judges a line without a list of its predecessors.
fn judge<A: Allocator + Copy + Drop>(builder: &Builder<A>, fields: Fields<'_>) -> Result<(), Fault>
    ensures { MatchResult result
        (λ _. IsOk (preds_fact builder.now (fields_left fields.entry)))
        (λ cause. preds_fact builder.now (fields_left fields.entry) ≡ Err cause) }
{
    let (block, rest) = block_and_rest(fields)?;
    let is_out = has_from(builder.blocks(), rest)?;
    if block >= builder.blocks() {
        return Err(Fault::Build(BuildError::BlockRange));
    }
    if is_out {
        return Err(Fault::Build(BuildError::BlockRange));
    }
    if builder.has_preds(block) {
        return Err(Fault::Build(BuildError::Repeated));
    }
    Ok(())
}

/// Whether one of the whole numbers of the fields is this or a greater one.
fn has_from(least: u32, mut fields: Fields<'_>) -> Result<bool, Fault>
    ensures { result ≡ has_from least (wholes_of (fields_left fields.entry)) }
{
    let mut found = false;
    while let Some(field) = fields.next() {
        let n = whole(field)?;
        found |= n >= least;
    }
    Ok(found)
}

/// Whether this is the number of the fields.
fn is_count(count: u32, mut fields: Fields<'_>) -> bool
    ensures { result ≡ (count == length (fields_left fields.entry)) }
{
    let mut left = count;
    while let Some(_) = fields.next() {
        if left == 0 {
            return false;
        }
        left -= 1;
    }
    left == 0
}

/// Leaves the whole numbers of the fields in the list.
fn wholes<B: Allocator + Drop>(
    listed: &mut Vec<u32, B>,
    mut fields: Fields<'_>,
) -> Result<(), Cause>
    ensures { MatchResult result
        (λ _. wholes_of (fields_left fields.entry) ≡ Ok listed.new.items)
        (λ cause. (cause ≡ Cause.NoMemory) ⊎ NamesFault cause_of (λ fault. wholes_of (fields_left fields.entry) ≡ Err fault) cause) }
{
    listed.clear();
    while let Some(field) = fields.next() {
        let n = whole(field)?;
        listed.push(n)?;
    }
    Ok(())
}

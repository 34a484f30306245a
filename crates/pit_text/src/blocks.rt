ghost use Rattle.std.specs.Prelude.{◌≡◌, ℕ, ℤ, List, Ok, Err, MatchResult, ◌⊎◌};
ghost use Rattle.pit_text.specs.Cutting.{cut_of};
ghost use Rattle.pit_text.specs.Left.{fields_left};
ghost use Rattle.pit_text.specs.Causes.{cause_of};
ghost use Rattle.pit_text.specs.Stands.{StandsFor, StopsAt, FailsFirst, NamesFault};
ghost use Rattle.pit_text.specs.Inside.Stands.{IsCauseOf};
ghost use Rattle.pit_text.specs.Blocks.{place_line, with_place_fact, place_fact, pit_with_places, block_line};

use super::cutting::{Fields, Lines};
use super::error::{Cause, Fault, TextError};
use super::number::{decimal, whole};
use pit_model::Builder;
use std::alloc::Allocator;

/// Reads the places of blocks into a pit. Each line is judged before memory is taken for its fact. After a fault the pit is freed.
pub fn read_blocks<A: Allocator + Copy + Drop>(
    text: &[u8],
    mut builder: Builder<A>,
) -> Result<Builder<A>, TextError>
    ensures { let judge = block_line builder in MatchResult result
        (λ read. (facts : List (ℕ × (ℤ × ℤ × ℤ))) × StandsFor judge (cut_of text.now) facts × (read ≡ pit_with_places builder facts))
        (λ fault. ((fault.cause ≡ Cause.NoMemory) × StopsAt judge (cut_of text.now) fault.line) ⊎ NamesFault cause_of (FailsFirst judge (cut_of text.now) fault.line) fault.cause) }
{
    let mut lines = Lines::new(text);
    while let Some(line) = lines.next() {
        if let Err(cause) = judge_line(&mut builder, line.fields) {
            return Err(TextError {
                line: line.number,
                cause,
            });
        }
    }
    Ok(builder)
}

fn judge_line<A: Allocator + Copy + Drop>(
    builder: &mut Builder<A>,
    fields: Fields<'_>,
) -> Result<(), Cause>
    ensures { MatchResult result
        (λ _. (fact : ℕ × (ℤ × ℤ × ℤ)) × (place_fact builder.old (fields_left fields.entry) ≡ Ok fact) × (builder.new ≡ with_place_fact builder.old fact))
        (λ cause. IsCauseOf Cause.NoMemory cause_of (place_fact builder.old (fields_left fields.entry)) cause) }
{
    let (block, (x, y, z)) = place(fields)?;
    builder.set_place(block, x, y, z)?;
    Ok(())
}

/// The block and the place of a line.
#[tactic(auto, unfolding(crate::specs::Blocks::place_line))]
fn place(mut fields: Fields<'_>) -> Result<(u32, (i64, i64, i64)), Fault>
    ensures { result ≡ place_line (fields_left fields.entry) }
{
    let (Some(first), Some(x), Some(y), Some(z)) = (
        fields.next(),
        fields.next(),
        fields.next(),
        fields.next(),
    ) else {
        return Err(Fault::FieldCount);
    };
    let block = whole(first)?;
    let x = decimal(x)?;
    let y = decimal(y)?;
    let z = decimal(z)?;
    Ok((block, (x, y, z)))
}

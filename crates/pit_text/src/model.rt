//! Model texts: their headers and their sections.
ghost use Rattle.std.specs.Prelude.{◌≡◌, ◌≢◌, ◌∷◌, ◌++◌, [], List, Ok, Err, None, Some, IfSome, MatchResult, ◌⊎◌};
ghost use Rattle.pit_text.specs.Cutting.{cut_of, end_line};
ghost use Rattle.pit_text.specs.Left.{fields_left, lines_left, end_left};
ghost use Rattle.pit_text.specs.Causes.{cause_of};
ghost use Rattle.pit_text.specs.Stands.{StandsWhole, FailsWhole, NamesFault};
ghost use Rattle.pit_text.specs.Inside.Stands.{IsReadTo, IsCauseOf};
ghost use Rattle.pit_text.specs.SectionFacts.{with_section_fact};
ghost use Rattle.pit_text.specs.Model.{Fact, in_section, section_fact_line, new_section_fact, model_line, model_end, pit_of, ModelStops};
ghost use Rattle.pit_text.specs.declared.model.section.Section.{Section};
ghost use Rattle.pit_text.specs.Inside.PlainFacts.{IsSaid};
ghost use Rattle.pit_text.specs.Inside.Draft.{IsDraft, IsHeader, IsHeaderFact, IsBody, HasHeader};

mod bound;
mod draft;
mod header;
mod key;
mod plain;
mod section;
mod section_fact;

use super::cutting::{Fields, Lines};
use super::error::{Cause, Fault, TextError};
pub use bound::upper_bound;
use draft::Draft;
pub use key::{Key, key_of};
use pit_model::Builder;
use plain::next_said;
pub use section::{Section, section_of};
pub use section_fact::SectionFact;
use section_fact::{add, section_fact_of};
use std::alloc::Allocator;

/// Reads a model: its header, its profits, its coefficients and its limits. The header is judged before any memory is taken, and each line before
/// its fact is.
pub fn read_model<A: Allocator + Copy + Drop>(
    alloc: A,
    text: &[u8],
) -> Result<Builder<A>, TextError>
    ensures { MatchResult result
        (λ builder. (facts : List Fact) × StandsWhole model_line model_end (cut_of text.now) facts × (builder ≡ pit_of facts))
        (λ fault. ((fault.cause ≡ Cause.NoMemory) × ModelStops (cut_of text.now) (end_line text.now) fault.line)
        ⊎ NamesFault cause_of (FailsWhole model_line model_end (cut_of text.now) (end_line text.now) fault.line) fault.cause) }
{
    let mut lines = Lines::new(text);
    let (mut draft, begun) = read_header(&mut lines)?;
    let Ok(mut builder) = draft.builder(alloc) else {
        return Err(TextError {
            line: begun,
            cause: Cause::NoMemory,
        });
    };
    while let Some((line, said)) = next_said(&mut lines, draft.section()) {
        if let Err(cause) = judge_line(&mut draft, &mut builder, line.fields, said) {
            return Err(TextError {
                line: line.number,
                cause,
            });
        }
    }
    Ok(builder)
}

/// Reads the lines of the header, and the first section line where there is one. Returns with them the number of that line, or else of the end line.
fn read_header(lines: &mut Lines<'_>) -> Result<(Draft, u64), TextError>
    ensures { MatchResult result
        (λ read. (facts : List Fact) × IsReadTo model_line (lines_left lines.old) (lines_left lines.new) facts × IsHeader facts read.0
        × HasHeader read.0 × (read.0.section ≡ None → lines_left lines.new ≡ []) × ModelStops (lines_left lines.old) (end_left lines.old) read.1)
        (λ fault. NamesFault cause_of (FailsWhole model_line model_end (lines_left lines.old) (end_left lines.old) fault.line) fault.cause) }
{
    let mut draft = Draft::new();
    while let Some(line) = lines.next() {
        if let Err(fault) = read_header_line(&mut draft, line.fields) {
            return Err(TextError {
                line: line.number,
                cause: Cause::from(fault),
            });
        }
        if draft.section().is_some() {
            return Ok((draft, line.number));
        }
    }
    match draft.missing_key() {
        Some(key) => Err(TextError {
            line: lines.end_line(),
            cause: Cause::MissingHeader(key),
        }),
        None => Ok((draft, lines.end_line())),
    }
}

/// A line before the sections, or the first section line.
fn read_header_line(draft: &mut Draft, mut fields: Fields<'_>) -> Result<(), Fault>
    requires { draft.old.section ≡ None }
    ensures { (facts : List Fact) → IsDraft facts draft.old → MatchResult result
        (λ _. (fact : Fact) × (model_line facts (fields_left fields.entry) ≡ Ok fact) × IsDraft (facts ++ fact ∷ []) draft.new × IsHeaderFact facts fact draft.new)
        (λ fault. model_line facts (fields_left fields.entry) ≡ Err fault) }
{
    let Some(first) = fields.next() else {
        return Ok(());
    };
    if let Some(section) = section_of(first) {
        return draft.start(section);
    }
    match key_of(first) {
        Some(key) => draft.key_line(key, fields),
        None => Ok(()),
    }
}

/// A line behind the first section line, of which it may be known what it says.
fn judge_line<A: Allocator + Copy + Drop>(
    draft: &mut Draft,
    builder: &mut Builder<A>,
    fields: Fields<'_>,
    said: Option<SectionFact>,
) -> Result<(), Cause>
    requires begun { draft.old.section ≢ None }
    requires said { IfSome said (λ fact. (s : Section) × (draft.old.section ≡ Some s) × IsSaid s (fields_left fields) fact) }
    ensures { (facts : List Fact) → IsBody facts draft.old builder.old → MatchResult result
        (λ _. (fact : Fact) × (model_line facts (fields_left fields.entry) ≡ Ok fact) × IsBody (facts ++ fact ∷ []) draft.new builder.new × (draft.new.section ≢ None))
        (λ cause. IsCauseOf Cause.NoMemory cause_of (model_line facts (fields_left fields.entry)) cause) }
{
    match said {
        Some(fact) => add_said(builder, fact),
        None => general_line(draft, builder, fields),
    }
}

/// What a line of a section is known to say.
fn add_said<A: Allocator + Copy + Drop>(
    builder: &mut Builder<A>,
    said: SectionFact,
) -> Result<(), Cause>
    ensures { (facts : List Fact) → builder.old ≡ pit_of facts → MatchResult result
        (λ _. (new_section_fact facts said ≡ Ok (in_section said)) × (builder.new ≡ with_section_fact builder.old said))
        (λ cause. IsCauseOf Cause.NoMemory cause_of (new_section_fact facts said) cause) }
{
    add(builder, said)?;
    Ok(())
}

/// A line behind the first section line, by its fields.
fn general_line<A: Allocator + Copy + Drop>(
    draft: &mut Draft,
    builder: &mut Builder<A>,
    mut fields: Fields<'_>,
) -> Result<(), Cause>
    requires { draft.old.section ≢ None }
    ensures { (facts : List Fact) → IsBody facts draft.old builder.old → MatchResult result
        (λ _. (fact : Fact) × (model_line facts (fields_left fields.entry) ≡ Ok fact) × IsBody (facts ++ fact ∷ []) draft.new builder.new × (draft.new.section ≢ None))
        (λ cause. IsCauseOf Cause.NoMemory cause_of (model_line facts (fields_left fields.entry)) cause) }
{
    let Some(first) = fields.next() else {
        return Ok(());
    };
    if let Some(section) = section_of(first) {
        draft.start(section)?;
        return Ok(());
    }
    let Some(section) = draft.section() else {
        return Ok(());
    };
    read_section_fact(builder, section, first, fields)
}

/// A line of a section, by its first field and what follows it.
fn read_section_fact<A: Allocator + Copy + Drop>(
    builder: &mut Builder<A>,
    section: Section,
    first: &[u8],
    fields: Fields<'_>,
) -> Result<(), Cause>
    ensures { (facts : List Fact) → builder.old ≡ pit_of facts → MatchResult result
        (λ _. (said : SectionFact) × (section_fact_line facts section (first.now ∷ fields_left fields.entry) ≡ Ok (in_section said)) × (builder.new ≡ with_section_fact builder.old said))
        (λ cause. IsCauseOf Cause.NoMemory cause_of (section_fact_line facts section (first.now ∷ fields_left fields.entry)) cause) }
{
    let said = section_fact_of(section, first, fields)?;
    add(builder, said)?;
    Ok(())
}

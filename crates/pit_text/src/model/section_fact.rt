ghost use Rattle.std.specs.Prelude.{◌≡◌, ◌∷◌, OnOk, OnErr};
ghost use Rattle.pit_num.specs.Refused.{IsRefusedBy};
ghost use Rattle.pit_text.specs.Left.{fields_left};
ghost use Rattle.pit_text.specs.SectionFacts.{profit_line, coefficient_line, limit_line, kind_by, kind_field, bounds_by, section_fact_of, with_section_fact, section_fact_refusal};

use super::bound::{lower, upper};
use super::section::Section;
use crate::cutting::Fields;
use crate::error::Fault;
use crate::number::{decimal, is_ascii, whole};
use pit_model::{BuildError, Builder};
use std::alloc::Allocator;

/// What a line of a section says of the pit.
#[derive(Clone, Copy)]
pub enum SectionFact {
    /// The profit of a block, in millionths.
    Profit(u32, i64),
    /// How much of a resource the mining of a block takes, in millionths.
    Coefficient(u32, u32, i64),
    /// The least and the greatest load of a resource in a period, in millionths, where they are given.
    Limit(u32, u32, Option<i64>, Option<i64>),
}

/// On which sides a limit line bounds a load.
#[derive(Clone, Copy)]
pub(crate) enum LimitKind {
    /// `L`
    AtMost,
    /// `G`
    AtLeast,
    /// `I`
    Between,
}

/// What a line says by itself, by its section, its first field and what follows it.
pub(crate) fn section_fact_of(
    section: Section,
    first: &[u8],
    fields: Fields<'_>,
) -> Result<SectionFact, Fault>
    ensures { result ≡ section_fact_of section (first.now ∷ fields_left fields.entry) }
{
    match section {
        Section::Objective => profit(first, fields),
        Section::Coefficients => coefficient(first, fields),
        Section::Limits => limit(first, fields),
    }
}

#[tactic(auto, unfolding(crate::specs::SectionFacts::profit_line))]
fn profit(first: &[u8], mut fields: Fields<'_>) -> Result<SectionFact, Fault>
    ensures { result ≡ profit_line (first.now ∷ fields_left fields.entry) }
{
    let (Some(second), None) = (fields.next(), fields.next()) else {
        return Err(Fault::FieldCount);
    };
    let block = whole(first)?;
    let value = decimal(second)?;
    Ok(SectionFact::Profit(block, value))
}

#[tactic(auto, unfolding(crate::specs::SectionFacts::coefficient_line))]
fn coefficient(first: &[u8], mut fields: Fields<'_>) -> Result<SectionFact, Fault>
    ensures { result ≡ coefficient_line (first.now ∷ fields_left fields.entry) }
{
    let (Some(second), Some(third), None) = (fields.next(), fields.next(), fields.next()) else {
        return Err(Fault::FieldCount);
    };
    let block = whole(first)?;
    let resource = whole(second)?;
    let value = decimal(third)?;
    Ok(SectionFact::Coefficient(block, resource, value))
}

#[tactic(auto, unfolding(crate::specs::SectionFacts::limit_line))]
fn limit(first: &[u8], mut fields: Fields<'_>) -> Result<SectionFact, Fault>
    ensures { result ≡ limit_line (first.now ∷ fields_left fields.entry) }
{
    let (Some(second), Some(third), Some(bound)) = (fields.next(), fields.next(), fields.next())
    else {
        return Err(Fault::FieldCount);
    };
    let resource = whole(first)?;
    let period = whole(second)?;
    let kind = limit_kind(third)?;
    let (lo, hi) = bounds(kind, bound, fields)?;
    Ok(SectionFact::Limit(resource, period, lo, hi))
}

#[tactic(auto, unfolding(crate::specs::SectionFacts::kind_by, crate::specs::SectionFacts::kind_field))]
fn limit_kind(field: &[u8]) -> Result<LimitKind, Fault>
    ensures { result ≡ kind_field field.now }
{
    if !is_ascii(field) {
        return Err(Fault::NotAscii);
    }
    if field == b"L".as_slice() {
        Ok(LimitKind::AtMost)
    } else if field == b"G".as_slice() {
        Ok(LimitKind::AtLeast)
    } else if field == b"I".as_slice() {
        Ok(LimitKind::Between)
    } else {
        Err(Fault::BadKind)
    }
}

/// The bounds behind a kind.
#[tactic(auto, unfolding(crate::specs::SectionFacts::bounds_by))]
fn bounds(
    kind: LimitKind,
    bound: &[u8],
    mut fields: Fields<'_>,
) -> Result<(Option<i64>, Option<i64>), Fault>
    ensures { result ≡ bounds_by kind bound.now (fields_left fields.entry) }
{
    match (kind, fields.next()) {
        (LimitKind::AtMost, None) => {
            let hi = upper(bound)?;
            Ok((None, hi))
        }
        (LimitKind::AtLeast, None) => {
            let lo = lower(bound)?;
            Ok((lo, None))
        }
        (LimitKind::Between, Some(second)) => {
            if fields.next().is_some() {
                return Err(Fault::FieldCount);
            }
            let lo = lower(bound)?;
            let hi = upper(second)?;
            Ok((lo, hi))
        }
        _ => Err(Fault::FieldCount),
    }
}

/// Adds to a pit what a line says.
pub(crate) fn add<A: Allocator + Copy + Drop>(
    builder: &mut Builder<A>,
    fact: SectionFact,
) -> Result<(), BuildError>
    ensures ok { OnOk result (builder.new ≡ with_section_fact builder.old fact) }
    ensures err { OnErr result (builder.new ≡ builder.old) }
    ensures cause { IsRefusedBy BuildError.NoMemory result (section_fact_refusal builder.old fact) }
{
    match fact {
        SectionFact::Profit(block, value) => builder.set_profit(block, value),
        SectionFact::Coefficient(block, resource, coef) => builder.set_coef(block, resource, coef),
        SectionFact::Limit(resource, period, lo, hi) => builder.add_limit(resource, period, lo, hi),
    }
}

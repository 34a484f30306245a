//! Plain lines of sections.
ghost use Rattle.std.specs.Prelude.{◌≡◌, Some, IfSome, IfNone};
ghost use Rattle.std.specs.Option.{option_map};
ghost use Rattle.pit_text.specs.Left.{fields_left, LinesStep};
ghost use Rattle.pit_text.specs.declared.model.section.Section.{Section};
ghost use Rattle.pit_text.specs.declared.model.section.Section.TheVariants.{Objective, Coefficients};
ghost use Rattle.pit_text.specs.declared.model.section_fact.SectionFact.TheVariants.{Profit, Coefficient};
ghost use Rattle.pit_text.specs.Inside.PlainFacts.{IsSaid, SaysFact};

use super::section::Section;
use super::section_fact::SectionFact;
use crate::cutting::{Line, Lines};
use pit_num::{micro_before, whole_before};

/// What `next` of the lines answers; where the line is a plain one of this section, what it says beside it.
pub(crate) fn next_said<'a>(
    lines: &mut Lines<'a>,
    section: Option<Section>,
) -> Option<(Line<'a>, Option<SectionFact>)>
    ensures steps { LinesStep lines.old (option_map (λ read. read.0) result) lines.new }
    ensures says { IfSome result (λ read. IfSome read.1 (λ fact. (s : Section) × (section ≡ Some s) × IsSaid s (fields_left read.0.fields) fact)) }
{
    let Some(inside) = section else {
        let line = lines.next()?;
        return Some((line, None));
    };
    match plain_said(lines, inside) {
        Some((line, fact)) => Some((line, Some(fact))),
        None => {
            let line = lines.next()?;
            Some((line, None))
        }
    }
}

/// The next line, where it is a plain one of this section, and what it says. Else nothing changes.
fn plain_said<'a>(lines: &mut Lines<'a>, section: Section) -> Option<(Line<'a>, SectionFact)>
    ensures steps { IfSome result (λ read. LinesStep lines.old (Some read.0) lines.new) }
    ensures says { IfSome result (λ read. IsSaid section (fields_left read.0.fields) read.1) }
    ensures none { IfNone result (lines.new ≡ lines.old) }
{
    let text = lines.front()?;
    let (fact, rest) = said_in_front(section, text)?;
    let line = lines.take_line(rest);
    Some((line, fact))
}

/// What the plain line that a text begins with says in this section, and what follows the line.
fn said_in_front(section: Section, text: &[u8]) -> Option<(SectionFact, &[u8])>
    ensures { IfSome result (λ read. SaysFact section text.now read.0 read.1.now) }
{
    match section {
        Section::Objective => profit_line(text),
        Section::Coefficients => coefficient_line(text),
        Section::Limits => None,
    }
}

fn profit_line(text: &[u8]) -> Option<(SectionFact, &[u8])>
    ensures { IfSome result (λ read. SaysFact Objective text.now read.0 read.1.now) }
{
    let (block, behind) = whole_before(text, b' ')?;
    let (value, rest) = micro_before(behind, b'\n')?;
    Some((SectionFact::Profit(block, value), rest))
}

fn coefficient_line(text: &[u8]) -> Option<(SectionFact, &[u8])>
    ensures { IfSome result (λ read. SaysFact Coefficients text.now read.0 read.1.now) }
{
    let (block, behind) = whole_before(text, b' ')?;
    let (resource, last) = whole_before(behind, b' ')?;
    let (value, rest) = micro_before(last, b'\n')?;
    Some((SectionFact::Coefficient(block, resource, value), rest))
}

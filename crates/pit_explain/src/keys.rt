//! What a line is about, and which line was the first about it.
use crate::model::section_at;
use pit_num::{micro_from_bytes, whole_from_bytes};
use pit_step::Input;
use pit_text::{Fields, Lines, Section, section_of};

/// What a line is about: a block, and of a coefficient a resource too.
type About = (u32, Option<u32>);

/// The first line about what a line is about.
pub(crate) fn first_about(text: &[u8], file: Input, number: u64) -> Option<(u64, u32)> {
    let section = match file {
        Input::Model => Some(section_at(text, number)?.0),
        _ => None,
    };
    let about = about_at(text, section, number)?;
    let first = line_about(text, file, section, about)?;
    if first == number {
        return None;
    }
    Some((first, about.0))
}

fn about_at(text: &[u8], section: Option<Section>, number: u64) -> Option<About> {
    let mut lines = Lines::new(text);
    while let Some(line) = lines.next() {
        if line.number == number {
            return about_of(line.fields, section);
        }
    }
    None
}

fn about_of(mut fields: Fields<'_>, section: Option<Section>) -> Option<About> {
    let block = whole_from_bytes(fields.next()?).ok()?;
    if section != Some(Section::Coefficients) {
        return Some((block, None));
    }
    let resource = whole_from_bytes(fields.next()?).ok()?;
    Some((block, Some(resource)))
}

/// The first line in a section, or in a text without sections.
fn line_about(text: &[u8], file: Input, section: Option<Section>, about: About) -> Option<u64> {
    let mut within = None;
    let mut lines = Lines::new(text);
    while let Some(line) = lines.next() {
        let begun = begun_by(line.fields, file);
        if begun.is_some() {
            within = begun;
        } else if within == section
            && is_counted(line.fields, file)
            && about_of(line.fields, section) == Some(about)
        {
            return Some(line.number);
        }
    }
    None
}

fn begun_by(mut fields: Fields<'_>, file: Input) -> Option<Section> {
    if file != Input::Model {
        return None;
    }
    section_of(fields.next()?)
}

/// Whether a line isn't skipped, as that of a solution is by which no part of a block is mined.
fn is_counted(fields: Fields<'_>, file: Input) -> bool {
    match file {
        Input::Model | Input::Precedence | Input::Blocks => true,
        _ => fourth_is_not_zero(fields),
    }
}

fn fourth_is_not_zero(mut fields: Fields<'_>) -> bool {
    match fields.nth(3) {
        Some(part) => micro_from_bytes(part) != Ok(0),
        None => true,
    }
}

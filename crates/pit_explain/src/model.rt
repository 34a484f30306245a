//! Looks into a model.
use pit_model::{BLOCKS_MAX, RESOURCES_MAX};
use pit_num::{PERIODS_MAX, RATE_MAX, whole_from_bytes};
use pit_text::{Key, Line, Lines, Section, key_of, section_of};
use std::fmt;

/// The first field of a line.
pub(crate) fn first_field<'a>(line: Line<'a>) -> &'a [u8] {
    let mut fields = line.fields;
    match fields.next() {
        Some(field) => field,
        None => &[],
    }
}

/// The number that a line of the header gives a key.
pub(crate) fn header_number(model: &[u8], key: Key) -> Option<u32> {
    let mut lines = Lines::new(model);
    while let Some(line) = lines.next() {
        let mut fields = line.fields;
        let first = fields.next()?;
        if section_of(first).is_some() {
            return None;
        }
        if key_of(first) == Some(key) {
            return whole_from_bytes(fields.next()?).ok();
        }
    }
    None
}

/// The first line of the header with this key.
pub(crate) fn line_of_key(model: &[u8], key: Key) -> Option<u64> {
    let mut lines = Lines::new(model);
    while let Some(line) = lines.next() {
        let first = first_field(line);
        if section_of(first).is_some() {
            return None;
        }
        if key_of(first) == Some(key) {
            return Some(line.number);
        }
    }
    None
}

/// The first line of the header that begins with no key, and what it begins with.
pub(crate) fn unknown_key<'a>(model: &'a [u8]) -> Option<(u64, &'a [u8])> {
    let mut lines = Lines::new(model);
    while let Some(line) = lines.next() {
        let first = first_field(line);
        if section_of(first).is_some() {
            return None;
        }
        if !is_known(first) {
            return Some((line.number, first));
        }
    }
    None
}

/// Whether a header line may begin so: with a key, or with `NAME`.
pub(crate) fn is_known(first: &[u8]) -> bool {
    key_of(first).is_some() || first == b"NAME".as_slice()
}

/// The first line that begins a section.
pub(crate) fn line_of_section(model: &[u8], section: Section) -> Option<u64> {
    let mut lines = Lines::new(model);
    while let Some(line) = lines.next() {
        if section_of(first_field(line)) == Some(section) {
            return Some(line.number);
        }
    }
    None
}

/// The section in which a line stands, and the number of its section line.
pub(crate) fn section_at(model: &[u8], number: u64) -> Option<(Section, u64)> {
    let mut found = None;
    let mut lines = Lines::new(model);
    while let Some(line) = lines.next() {
        if line.number >= number {
            return found;
        }
        if let Some(section) = section_of(first_field(line)) {
            found = Some((section, line.number));
        }
    }
    found
}

/// The name of a section.
pub(crate) fn section_name(section: Section) -> &'static str {
    match section {
        Section::Objective => "OBJECTIVE_FUNCTION",
        Section::Coefficients => "RESOURCE_CONSTRAINT_COEFFICIENTS",
        Section::Limits => "RESOURCE_CONSTRAINT_LIMITS",
    }
}

/// Writes the range of a key's value.
pub(crate) fn write_key_range<W: fmt::Write>(w: &mut W, key: Key) -> fmt::Result {
    match key {
        Key::Kind => w.write_str("CPIT"),
        Key::Blocks => write!(w, "a whole number from 1 to {}", BLOCKS_MAX),
        Key::Periods => write!(w, "a whole number from 1 to {}", PERIODS_MAX),
        Key::Resources => write!(w, "a whole number from 0 to {}", RESOURCES_MAX),
        Key::Rate => write!(
            w,
            "a decimal from 0 to {}; 0.1 is 10 % a period",
            RATE_MAX / 1_000_000
        ),
        Key::Destinations => w.write_str("1"),
        Key::Generals => w.write_str("0"),
    }
}

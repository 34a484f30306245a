//! Faults of models, precedences, places and solutions.
use crate::counts::write_range;
use crate::encoding::{encoding_fault, header_encoding_fault};
use crate::excerpt::{line_at, write_place, write_shown};
use crate::forms::write_form;
use crate::given::Given;
use crate::keys::first_about;
use crate::model::{line_of_key, line_of_section, unknown_key, write_key_range};
use pit_model::BuildError;
use pit_num::{NumError, whole_from_bytes};
use pit_step::Input;
use pit_text::{Cause, Fields, Key, Lines, TextError, section_of};
use std::fmt;

/// Writes where a fault is, and a sentence on it.
pub(crate) fn say_text<G: Given, W: fmt::Write>(
    w: &mut W,
    given: &G,
    file: Input,
    error: TextError,
) -> fmt::Result {
    let Ok(text) = given.read(file) else {
        return Ok(());
    };
    write_place(w, given.path(file), &text, error.line)?;
    w.write_str("  ")?;
    say_cause(w, given, file, &text, error)?;
    w.write_str("\n")
}

fn say_cause<G: Given, W: fmt::Write>(
    w: &mut W,
    given: &G,
    file: Input,
    text: &[u8],
    error: TextError,
) -> fmt::Result {
    if let Some(fault) = encoding_fault(text, error.line) {
        return w.write_str(fault);
    }
    match error.cause {
        Cause::NotAscii => w.write_str(NOT_ASCII),
        Cause::MissingHeader(key) => say_missing(w, text, key, error),
        Cause::BadHeader(key) => say_bad_key(w, text, key, error.line),
        Cause::NotCpit => w.write_str(
            "It is a model of another problem, as UPIT or PCPSP: `pit` schedules CPIT.",
        ),
        Cause::Unsupported(key) => say_unsupported(w, file, key),
        Cause::SectionTwice => say_twice(w, text, error.line),
        Cause::FieldCount => say_field_count(w, file, text, error.line),
        Cause::BadNumber(fault) => say_number(w, file, text, error.line, fault),
        Cause::Build(fault) => say_build(w, given, file, text, error.line, fault),
        Cause::CountWrong => say_count(w, text, error.line),
        Cause::PartBlock => w.write_str(
            "A part is 0 or 1: this is the solution of a relaxed problem. Give whole blocks.",
        ),
        Cause::BadKind => w.write_str(
            "The kind is L, G or I, in capitals: at most, at least, from .. to.",
        ),
        Cause::NoMemory => w.write_str(NO_MEMORY),
    }
}

pub(crate) const NOT_ASCII: &str =
    "It holds a byte above 127, as an accent, a hard space or a typographic minus: write plain ASCII.";

pub(crate) const NO_MEMORY: &str = "There was no memory for what is behind this line.";

fn say_missing<W: fmt::Write>(w: &mut W, text: &[u8], key: Key, error: TextError) -> fmt::Result {
    if let Some(fault) = header_encoding_fault(text, error) {
        return w.write_str(fault);
    }
    write!(w, "The header has no line {key}.")?;
    let Some((number, first)) = unknown_key(text) else {
        return Ok(());
    };
    write!(w, " Line {number} begins with ")?;
    write_shown(w, first)?;
    w.write_str(", which no key is.")
}

fn say_bad_key<W: fmt::Write>(w: &mut W, text: &[u8], key: Key, number: u64) -> fmt::Result {
    match line_of_key(text, key) {
        Some(first) if first < number => write!(w, "{key} stands in line {first} already."),
        _ => {
            write!(w, "{key} has one value, ")?;
            write_key_range(w, key)?;
            w.write_str(".")
        }
    }
}

fn say_unsupported<W: fmt::Write>(w: &mut W, file: Input, key: Key) -> fmt::Result {
    match key {
        Key::Generals => w.write_str(
            "General side constraints aren't scheduled: drop the key, or write 0.",
        ),
        _ if file == Input::Model => {
            w.write_str("It is a model of several destinations: CPIT has one.")
        }
        _ => w.write_str("CPIT has one destination, which is 0."),
    }
}

fn say_twice<W: fmt::Write>(w: &mut W, text: &[u8], number: u64) -> fmt::Result {
    let section = match fields_at(text, number) {
        Some(mut fields) => match fields.next() {
            Some(first) => section_of(first),
            None => None,
        },
        None => None,
    };
    let first = match section {
        Some(section) => line_of_section(text, section),
        None => None,
    };
    match first {
        Some(first) => write!(
            w,
            "The section begins in line {first} already: put all its lines behind one section line."
        ),
        None => w.write_str("Put all lines of a section behind one section line."),
    }
}

fn say_field_count<W: fmt::Write>(w: &mut W, file: Input, text: &[u8], number: u64) -> fmt::Result {
    write_form(w, file, text, number)?;
    match line_at(text, number) {
        Some(line) if line.contains(&b'%') => {
            w.write_str(" A comment stands in a line of its own, which begins with %.")
        }
        _ => Ok(()),
    }
}

fn say_number<W: fmt::Write>(
    w: &mut W,
    file: Input,
    text: &[u8],
    number: u64,
    fault: NumError,
) -> fmt::Result {
    match fault {
        NumError::TooLong => w.write_str(TOO_LONG),
        NumError::TooLarge => w.write_str(TOO_LARGE),
        NumError::Malformed => say_malformed(w, file, text, number),
    }
}

pub(crate) const TOO_LONG: &str = "A number has too many digits: six behind the point are kept.";

pub(crate) const TOO_LARGE: &str =
    "A whole number is below 2^32, a decimal below 10^12: take larger units, and number blocks from 0.";

fn say_malformed<W: fmt::Write>(w: &mut W, file: Input, text: &[u8], number: u64) -> fmt::Result {
    let line = line_at(text, number).unwrap_or(&[]);
    if line.contains(&b',') {
        return w.write_str(
            "A number holds a comma: write a point, 20.5, and nothing between thousands.",
        );
    }
    write_form(w, file, text, number)?;
    if !begins_with_letter(line) {
        return Ok(());
    }
    match file {
        Input::Model => w.write_str(" Is it a section line, misspelt or in small letters?"),
        _ => w.write_str(" A line of titles can't stand above them."),
    }
}

fn begins_with_letter(line: &[u8]) -> bool {
    match Fields::new(line).next() {
        Some([first, ..]) => first.is_ascii_alphabetic(),
        _ => false,
    }
}

fn say_build<G: Given, W: fmt::Write>(
    w: &mut W,
    given: &G,
    file: Input,
    text: &[u8],
    number: u64,
    fault: BuildError,
) -> fmt::Result {
    match fault {
        BuildError::BlockRange => write_range(w, given, Key::Blocks),
        BuildError::ResourceRange => write_range(w, given, Key::Resources),
        BuildError::PeriodRange => write_range(w, given, Key::Periods),
        BuildError::Repeated => say_repeated(w, file, text, number),
        BuildError::Interval => w.write_str("The lower bound is above the upper one."),
        BuildError::NoMemory => w.write_str(NO_MEMORY),
    }
}

fn say_repeated<W: fmt::Write>(w: &mut W, file: Input, text: &[u8], number: u64) -> fmt::Result {
    match first_about(text, file, number) {
        Some((first, block)) => write!(
            w,
            "Block {block} stands in line {first} already: add the two up, or drop one."
        ),
        None => w.write_str(
            "The block stands in a line above already: add the two up, or drop one.",
        ),
    }
}

fn say_count<W: fmt::Write>(w: &mut W, text: &[u8], number: u64) -> fmt::Result {
    let Some((said, there)) = counts_at(text, number) else {
        return w.write_str("The second number says how many predecessors follow.");
    };
    write!(w, "The line says {said} predecessors, and {there} follow.")
}

/// How many predecessors a line says, and how many fields follow.
fn counts_at(text: &[u8], number: u64) -> Option<(u32, u32)> {
    let mut fields = fields_at(text, number)?;
    let said = whole_from_bytes(fields.nth(1)?).ok()?;
    let mut there: u32 = 0;
    while fields.next().is_some() {
        there = there.saturating_add(1);
    }
    Some((said, there))
}

/// The fields of a line that is read.
fn fields_at<'a>(text: &'a [u8], number: u64) -> Option<Fields<'a>> {
    let mut lines = Lines::new(text);
    while let Some(line) = lines.next() {
        if line.number == number {
            return Some(line.fields);
        }
    }
    None
}

//! Faults of scripts.
use crate::counts::write_range;
use crate::encoding::encoding_fault;
use crate::excerpt::{line_at, write_place};
use crate::forms::word_form;
use crate::given::Given;
use crate::model::first_field;
use crate::text::{NO_MEMORY, NOT_ASCII, TOO_LONG};
use pit_num::NumError;
use pit_script::{JOBS_MAX, SHIFT_MAX, ScriptCause, ScriptError, Word, word_of};
use pit_step::Input;
use pit_text::{Fields, Key, Lines};
use std::fmt;

/// Writes where a fault is, and a sentence on it.
pub(crate) fn say_script<G: Given, W: fmt::Write>(
    w: &mut W,
    given: &G,
    number: u64,
    error: ScriptError,
) -> fmt::Result {
    let file = Input::Script(number);
    let Ok(text) = given.read(file) else {
        return Ok(());
    };
    write_place(w, given.path(file), &text, error.line)?;
    w.write_str("  ")?;
    match encoding_fault(&text, error.line) {
        Some(fault) => w.write_str(fault)?,
        None => say_cause(w, given, &text, error)?,
    }
    w.write_str("\n")
}

fn say_cause<G: Given, W: fmt::Write>(
    w: &mut W,
    given: &G,
    text: &[u8],
    error: ScriptError,
) -> fmt::Result {
    match error.cause {
        ScriptCause::NotAscii => w.write_str(NOT_ASCII),
        ScriptCause::UnknownWord => w.write_str(WORDS),
        ScriptCause::FieldCount => write_word_form(w, text, error.line),
        ScriptCause::BadNumber(fault) => say_number(w, text, error.line, fault),
        ScriptCause::BlockRange => write_range(w, given, Key::Blocks),
        ScriptCause::ResourceRange => write_range(w, given, Key::Resources),
        ScriptCause::PeriodRange => write_range(w, given, Key::Periods),
        ScriptCause::Order => say_order(w, text, error.line),
        ScriptCause::NoBench => say_bench(w, given),
        ScriptCause::JobCount => write!(
            w,
            "A script has at most {} jobs: give the rest to another.",
            JOBS_MAX
        ),
        ScriptCause::Unended => say_unended(w, text, error.line),
        ScriptCause::NoMemory => w.write_str(NO_MEMORY),
    }
}

const WORDS: &str =
    "A line begins with begin, read, put, clear, shift, bench, expect, cone, push, revise, commit or abort, in small letters.";

fn word_at(text: &[u8], number: u64) -> Option<Word> {
    let line = line_at(text, number)?;
    word_of(Fields::new(line).next()?)
}

fn write_word_form<W: fmt::Write>(w: &mut W, text: &[u8], number: u64) -> fmt::Result {
    let Some(word) = word_at(text, number) else {
        return w.write_str(WORDS);
    };
    write!(
        w,
        "The line is `{}`; a comment stands in a line of its own, which begins with %.",
        word_form(word)
    )
}

fn say_number<W: fmt::Write>(w: &mut W, text: &[u8], number: u64, fault: NumError) -> fmt::Result {
    let Some(word) = word_at(text, number) else {
        return w.write_str(TOO_LONG);
    };
    let form = word_form(word);
    match fault {
        NumError::Malformed => write!(
            w,
            "The line is `{form}`. B, R and T are whole numbers, D may have a sign, Z and V a point."
        ),
        NumError::TooLong => w.write_str(TOO_LONG),
        NumError::TooLarge => write!(
            w,
            "The line is `{form}`. B, R and T are below 2^32, D is at most {} either way, Z and V are below 10^12.",
            SHIFT_MAX
        ),
    }
}

fn say_order<W: fmt::Write>(w: &mut W, text: &[u8], number: u64) -> fmt::Result {
    match open_job(text, number) {
        Some(begun) => write!(
            w,
            "The job that begins in line {begun} hasn't ended: `commit` or `abort` goes above this line."
        ),
        None => w.write_str("The line stands in no job: `begin` goes above it."),
    }
}

fn say_unended<W: fmt::Write>(w: &mut W, text: &[u8], number: u64) -> fmt::Result {
    match open_job(text, number) {
        Some(begun) => write!(
            w,
            "The job that begins in line {begun} has no end: `commit` or `abort` goes below its lines."
        ),
        None => w.write_str("The last job has no end: `commit` or `abort` goes below its lines."),
    }
}

/// The line in which the job begins that is open above a line.
fn open_job(text: &[u8], number: u64) -> Option<u64> {
    let mut open = None;
    let mut lines = Lines::new(text);
    while let Some(line) = lines.next() {
        if line.number >= number {
            return open;
        }
        match word_of(first_field(line)) {
            Some(Word::Begin) => open = Some(line.number),
            Some(Word::Commit | Word::Abort) => open = None,
            _ => {}
        }
    }
    open
}

fn say_bench<G: Given, W: fmt::Write>(w: &mut W, given: &G) -> fmt::Result {
    match given.path(Input::Blocks) {
        Some(path) => write!(
            w,
            "No block of {path} lies at this height: z is the third of its coordinates."
        ),
        None => w.write_str("The heights of blocks weren't given: add `--blocks FILE`."),
    }
}

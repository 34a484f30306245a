//! What a model that was read passes over.
use crate::excerpt::write_shown;
use crate::given::Given;
use crate::model::{first_field, is_known};
use pit_step::Input;
use pit_text::{Lines, Section, section_of};
use std::fmt;

/// Which sections have a line.
#[derive(Clone, Copy)]
struct Sections {
    profits: bool,
    limits: bool,
}

/// A run of header lines that begin with no key.
#[derive(Clone, Copy)]
struct Run<'a> {
    first: u64,
    last: u64,
    word: &'a [u8],
}

/// Writes each run of header lines that begin with no key; and that there is no profit, or no limit.
pub(crate) fn say_passed<G: Given, W: fmt::Write>(w: &mut W, given: &G) -> fmt::Result {
    let Ok(model) = given.read(Input::Model) else {
        return Ok(());
    };
    say_unknown(w, &model)?;
    let sections = sections_of(&model);
    if !sections.profits {
        w.write_str("  The model has no profit: each is 0.\n")?;
    }
    if !sections.limits {
        w.write_str("  The model has no limit.\n")?;
    }
    Ok(())
}

fn say_unknown<W: fmt::Write>(w: &mut W, model: &[u8]) -> fmt::Result {
    let mut run = None;
    let mut lines = Lines::new(model);
    while let Some(line) = lines.next() {
        let word = first_field(line);
        if section_of(word).is_some() {
            return say_run(w, run);
        }
        if is_known(word) {
            say_run(w, run)?;
            run = None;
        } else {
            run = Some(longer(run, line.number, word));
        }
    }
    say_run(w, run)
}

fn longer<'a>(run: Option<Run<'a>>, number: u64, word: &'a [u8]) -> Run<'a> {
    match run {
        Some(run) => Run {
            first: run.first,
            last: number,
            word: run.word,
        },
        None => Run {
            first: number,
            last: number,
            word,
        },
    }
}

fn say_run<W: fmt::Write>(w: &mut W, run: Option<Run<'_>>) -> fmt::Result {
    let Some(run) = run else {
        return Ok(());
    };
    if run.first == run.last {
        write!(w, "  The model's line {} is passed over: ", run.first)?;
    } else {
        write!(
            w,
            "  The model's lines {} to {} are passed over: ",
            run.first, run.last
        )?;
    }
    write_shown(w, run.word)?;
    w.write_str(" is no key.\n")
}

/// Which sections have a line behind their section line.
fn sections_of(model: &[u8]) -> Sections {
    let mut sections = Sections {
        profits: false,
        limits: false,
    };
    let mut within = None;
    let mut lines = Lines::new(model);
    while let Some(line) = lines.next() {
        let begun = section_of(first_field(line));
        if begun.is_some() {
            within = begun;
        } else {
            sections = with_line(sections, within);
        }
    }
    sections
}

fn with_line(sections: Sections, within: Option<Section>) -> Sections {
    Sections {
        profits: sections.profits || within == Some(Section::Objective),
        limits: sections.limits || within == Some(Section::Limits),
    }
}

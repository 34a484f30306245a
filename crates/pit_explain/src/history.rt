//! Faults of histories.
use crate::excerpt::write_place;
use crate::given::Given;
use pit_lines::{LinesCause, LinesError};
use pit_step::Input;
use std::fmt;

/// Writes where a fault is, and a sentence on it.
pub(crate) fn say_lines<G: Given, W: fmt::Write>(
    w: &mut W,
    given: &G,
    file: Input,
    error: LinesError,
) -> fmt::Result {
    let Ok(text) = given.read(file) else {
        return Ok(());
    };
    write_place(w, given.path(file), &text, error.line)?;
    w.write_str(match error.cause {
        LinesCause::NotJson | LinesCause::NotFormat if error.line <= 1 => {
            "  A history begins with {\"format\":1} or {\"format\":2}, as `pit plan --history` writes it: is this another file?\n"
        }
        LinesCause::NotJson => {
            "  The line was cut or edited: a history is read as `pit plan --history` wrote it.\n"
        }
        LinesCause::NotFormat => "  A history begins with {\"format\":1} or {\"format\":2}.\n",
        LinesCause::Shape => {
            "  The line is JSON, and no entry of this format: keys and values are those that `pit plan --history` writes.\n"
        }
        LinesCause::NoMemory => "  There was no memory for what is behind this line.\n",
    })
}

/// Writes the line of an entry that doesn't fit, and a sentence on it.
pub(crate) fn say_illegal<G: Given, W: fmt::Write>(
    w: &mut W,
    given: &G,
    file: Input,
    place: u32,
) -> fmt::Result {
    let Ok(text) = given.read(file) else {
        return Ok(());
    };
    let number = u64::from(place).saturating_add(1);
    write_place(w, given.path(file), &text, number)?;
    w.write_str(
        "  The entry doesn't fit this pit, or isn't what an audit finds there: the history is another pit's, or was edited.\n",
    )
}

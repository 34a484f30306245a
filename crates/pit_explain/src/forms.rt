//! The forms of lines.
use crate::model::{section_at, section_name};
use pit_script::Word;
use pit_step::Input;
use pit_text::Section;
use std::fmt;

/// Writes which form the lines of an input have, where this line stands.
pub(crate) fn write_form<W: fmt::Write>(
    w: &mut W,
    file: Input,
    text: &[u8],
    number: u64,
) -> fmt::Result {
    match file {
        Input::Model => write_section_form(w, section_at(text, number)),
        Input::Precedence => w.write_str(
            "A line is `b k p1 .. pk`: a block, how many predecessors it has, and these.",
        ),
        Input::Blocks => w.write_str(
            "A line is `id x y z`: a block and its place; what follows isn't read.",
        ),
        _ => w.write_str(
            "A line is `b t`, a block and its period, or `b d t y`, with a destination and the part of the block.",
        ),
    }
}

fn write_section_form<W: fmt::Write>(w: &mut W, section: Option<(Section, u64)>) -> fmt::Result {
    let Some((section, begun)) = section else {
        return w.write_str("A line of the header is `KEY: VALUE`.");
    };
    let form = match section {
        Section::Objective => "`b v`, a block and its profit",
        Section::Coefficients => "`b r v`, a block, a resource and how much of it the block takes",
        Section::Limits =>
            "`r t L v`, `r t G v` or `r t I lo hi`, limits of a resource in a period",
    };
    let name = section_name(section);
    write!(
        w,
        "A line of the section {name}, which begins in line {begun}, is {form}."
    )
}

/// The form of a script's line, by its word.
pub(crate) fn word_form(word: Word) -> &'static str {
    match word {
        Word::Begin => "begin",
        Word::Read => "read B",
        Word::Put => "put B T",
        Word::Clear => "clear B",
        Word::Shift => "shift B D",
        Word::Bench => "bench Z T",
        Word::Expect => "expect B T` or `expect B -",
        Word::Cone => "cone B T",
        Word::Push => "push B T",
        Word::Revise => "revise R T V",
        Word::Commit => "commit",
        Word::Abort => "abort",
    }
}

//! A line of a text, as people are shown it.
use std::fmt;

/// How many bytes of a line are shown.
const SHOWN_MAX: usize = 100;

/// The line of a number, counted from 1, without its end. Behind the last line feed there is none.
pub(crate) fn line_at<'a>(text: &'a [u8], number: u64) -> Option<&'a [u8]> {
    let behind = number.checked_sub(1)?;
    let mut lines = text.split(|b| *b == b'\n');
    let line = lines.nth(behind as usize)?;
    if line.is_empty() && lines.next().is_none() {
        return None;
    }
    Some(without_return(line))
}

fn without_return<'a>(line: &'a [u8]) -> &'a [u8] {
    match line {
        [rest @ .., b'\r'] => rest,
        _ => line,
    }
}

/// Writes `PATH:LINE: TEXT`, without the text behind the last line.
pub(crate) fn write_place<W: fmt::Write>(
    w: &mut W,
    path: Option<&str>,
    text: &[u8],
    number: u64,
) -> fmt::Result {
    write!(w, "  {}:{number}:", path.unwrap_or("-"))?;
    if let Some(line) = line_at(text, number) {
        w.write_str(" ")?;
        write_shown(w, line)?;
    }
    w.write_str("\n")
}

/// Writes the first `SHOWN_MAX` bytes, a tab as a blank, and each other byte that can't be printed as `?`.
pub(crate) fn write_shown<W: fmt::Write>(w: &mut W, bytes: &[u8]) -> fmt::Result {
    for byte in bytes.iter().take(SHOWN_MAX) {
        w.write_char(shown(*byte))?;
    }
    Ok(())
}

fn shown(byte: u8) -> char {
    match byte {
        b'\t' => ' ',
        b' '..=b'~' => char::from(byte),
        _ => '?',
    }
}

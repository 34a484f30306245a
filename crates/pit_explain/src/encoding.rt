//! Texts that aren't plain ASCII with line feeds.
use pit_text::TextError;

/// How many bytes of a text are looked at for NUL.
const FRONT: usize = 64;

/// What is wrong with a text as a whole, where a fault in this line may come of it.
pub(crate) fn encoding_fault(text: &[u8], number: u64) -> Option<&'static str> {
    if is_utf_16(text) {
        return Some("The file is UTF-16, or holds NUL: save it as plain text.");
    }
    if text.starts_with(b"\xEF\xBB\xBF") && number <= 1 {
        return Some(MARK);
    }
    if text.contains(&b'\r') && !text.contains(&b'\n') {
        return Some("Its lines end in carriage returns alone: save the file with line feeds.");
    }
    None
}

const MARK: &str =
    "The file begins with a byte order mark, three bytes that editors don't show: save it without.";

/// The same where a key is missing. A mark in front of the first key makes that another word.
pub(crate) fn header_encoding_fault(text: &[u8], error: TextError) -> Option<&'static str> {
    if text.starts_with(b"\xEF\xBB\xBF") {
        return Some(MARK);
    }
    encoding_fault(text, error.line)
}

fn is_utf_16(text: &[u8]) -> bool {
    text.starts_with(b"\xFF\xFE")
        || text.starts_with(b"\xFE\xFF")
        || text.iter().take(FRONT).any(|b| *b == 0)
}

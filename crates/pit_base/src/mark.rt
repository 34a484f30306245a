//! The first line of a solution.
ghost use Rattle.std.specs.Prelude.{◌≡◌, ◌≢◌, ◌↔◌, ◌≤◌, ◌++◌, ◌==◌, ℕ, List, None, decimal, codes, IsTrue, MatchOption};
ghost use Rattle.std.specs.List.{list_all, position};
ghost use Rattle.pit_text.specs.Cutting.{without_return};
ghost use Rattle.pit_base.specs.Marks.{first_line as first_line_of, is_hex as is_hex_digit, AreSumDigits, IsMark, IsMarkOf};

use itoa::Buffer;
use pit_plan::COMMITS_MAX;
use std::str::from_utf8;

/// What the first line of a solution says of a history, where `show` wrote that line: how many commits it has, and the digits of the sum of their
/// entries.
pub(crate) fn mark_of(text: &[u8]) -> Option<(u32, &[u8])>
    ensures { MatchOption result (IsMarkOf text.now None) (λ mark. IsMark text.now (mark.0, mark.1.now)) }
{
    let behind = after(first_line(text), b"% commits ")?;
    let (commits, digits) = commits_and_digits(behind)?;
    if !are_sum_digits(digits) {
        return None;
    }
    Some((commits, digits))
}

/// A number of commits, and what is behind ` sum `.
fn commits_and_digits(line: &[u8]) -> Option<(u32, &[u8])>
    ensures { MatchOption result
        ((n : ℕ) (digits : List ℕ) → n ≤ COMMITS_MAX → line.now ≢ decimal n ++ (codes " sum " ++ digits))
        (λ found. (found.0 ≤ COMMITS_MAX) × (line.now ≡ decimal found.0 ++ (codes " sum " ++ found.1.now))) }
{
    let at = place_of(line, b' ')?;
    let (number, behind) = line.split_at(at);
    let digits = after(behind, b" sum ")?;
    let commits = printed(number)?;
    Some((commits, digits))
}

/// What stands behind a text.
fn after<'a>(line: &'a [u8], text: &[u8]) -> Option<&'a [u8]>
    ensures { MatchOption result ((rest : List ℕ) → line.now ≢ text.now ++ rest) (λ rest. line.now ≡ text.now ++ rest.now) }
{
    line.strip_prefix(text)
}

/// The number whose text this is.
fn printed(text: &[u8]) -> Option<u32>
    ensures { MatchOption result ((n : ℕ) → n ≤ COMMITS_MAX → text.now ≢ decimal n) (λ n. (n ≤ COMMITS_MAX) × (text.now ≡ decimal n)) }
{
    match from_utf8(text) {
        Ok(word) => number_of(word),
        Err(_) => None,
    }
}

/// The same of a text in UTF-8.
fn number_of(word: &str) -> Option<u32>
    ensures { MatchOption result ((n : ℕ) → n ≤ COMMITS_MAX → word.now ≢ decimal n) (λ n. (n ≤ COMMITS_MAX) × (word.now ≡ decimal n)) }
{
    let Ok(n) = word.parse::<u32>() else {
        return None;
    };
    if Buffer::new().format(n) != word {
        return None;
    }
    Some(n)
}

/// The bytes of a sum's digits.
const DIGITS: usize = 64;

/// Whether these are the digits of a sum.
fn are_sum_digits(digits: &[u8]) -> bool
    ensures { IsTrue result ↔ AreSumDigits digits.now }
{
    if digits.len() != DIGITS {
        return false;
    }
    are_hex(digits)
}

fn are_hex(digits: &[u8]) -> bool
    ensures { result ≡ list_all is_hex_digit digits.now }
{
    digits.iter().all(|b| is_hex(*b))
}

fn is_hex(b: u8) -> bool
    ensures { result ≡ is_hex_digit b }
{
    b'0' <= b && b <= b'9' || b'a' <= b && b <= b'f'
}

/// The first line, without its end.
#[tactic(auto, using(crate::proofs::Places::before_places))]
fn first_line(text: &[u8]) -> &[u8]
    ensures { result.now ≡ first_line_of text.now }
{
    match place_of(text, b'\n') {
        Some(at) => without_return(&text[..at]),
        None => without_return(text),
    }
}

/// The place of the first such byte.
fn place_of(text: &[u8], byte: u8) -> Option<usize>
    ensures { result ≡ position (λ b. b == byte) text.now }
{
    text.iter().position(|b| *b == byte)
}

fn without_return(line: &[u8]) -> &[u8]
    ensures { result.now ≡ without_return line.now }
{
    match line {
        [rest @ .., b'\r'] => rest,
        _ => line,
    }
}

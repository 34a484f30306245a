//! The keys of a model's header that aren't listed.
ghost use Rattle.std.specs.Prelude.{◌≡◌, ◌∷◌, ◌++◌, [], List, Some, OnOk, IfOk, map};
ghost use Rattle.std.specs.Io.KnownBytes.{Appends};
ghost use Rattle.pit_text.specs.Cutting.{Cut, cut_of};
ghost use Rattle.pit_text.specs.Left.{cut_seen};
ghost use Rattle.pit_info.specs.Unknown.{is_known as known, key_field as key_at, shown_byte as shown_as, unknown_text};
ghost use Rattle.pit_info.specs.Inside.Spans.{IsSpanAt, IsSpanOf, IsNextSpan, pending_text};

use pit_num::{NoMemory, Sink, WriteFault, write_text};
use pit_step::{empty_text, gathered, write_field};
use pit_text::{Line, Lines, key_of, section_of};
use std::alloc::Allocator;

/// A run of lines whose keys aren't known.
#[derive(Clone, Copy)]
struct Span<'a> {
    /// The number of its first line.
    first: u64,
    /// The number of its last line so far.
    last: u64,
    /// The key of its first line.
    key: &'a [u8],
}

/// A line for each longest run of header lines whose keys aren't known. Takes the memory of these lines.
pub(crate) fn unknown_lines<A: Allocator + Copy + Drop>(
    alloc: A,
    model: &[u8],
) -> Result<Vec<u8, A>, NoMemory>
    ensures { IfOk result (λ lines. lines.items ≡ unknown_text (cut_of model.now)) }
{
    let mut text = empty_text(alloc);
    let written = write_unknown(&mut text, model);
    gathered(text, written)
}

fn write_unknown<W: Sink>(w: &mut W, model: &[u8]) -> Result<(), WriteFault>
    ensures { OnOk result (Appends (W.contents w.old) (W.contents w.new) (unknown_text (cut_of model.now))) }
{
    let mut lines = Lines::new(model);
    let mut span = None;
    while let Some(line) = lines.next() {
        let key = key_field(line);
        if section_of(key).is_some() {
            return write_span(w, span);
        }
        span = next_span(w, span, line.number, key)?;
    }
    write_span(w, span)
}

/// The first field of a line.
fn key_field<'a>(line: Line<'a>) -> &'a [u8]
    ensures { result.now ≡ key_at (cut_seen line.entry) }
{
    let mut fields = line.fields;
    match fields.next() {
        Some(field) => field,
        None => &[],
    }
}

/// The run that stands behind one more line. A known key ends a run, which is written then.
fn next_span<'a, W: Sink>(
    w: &mut W,
    span: Option<Span<'a>>,
    number: u64,
    key: &'a [u8],
) -> Result<Option<Span<'a>>, WriteFault>
    ensures { IfOk result (λ next. (run : List Cut) (line : Cut) → line.number ≡ number → key_at line ≡ key.now → IsSpanOf run span.entry
        → IsNextSpan (W.contents w.old) (W.contents w.new) run line next) }
{
    if is_known(key) {
        write_span(w, span)?;
        return Ok(None);
    }
    Ok(Some(longer(span, number, key)))
}

/// A run with one more line.
fn longer<'a>(span: Option<Span<'a>>, number: u64, key: &'a [u8]) -> Span<'a>
    ensures { (run : List Cut) (line : Cut) → line.number ≡ number → key_at line ≡ key.now → IsSpanAt run span.entry → IsSpanAt (run ++ line ∷ []) (Some result) }
{
    let Some(span) = span else {
        return Span {
            first: number,
            last: number,
            key,
        };
    };
    Span {
        first: span.first,
        last: number,
        key: span.key,
    }
}

/// Whether a key is `NAME`, or one that is listed.
fn is_known(key: &[u8]) -> bool
    ensures { result ≡ known key.now }
{
    key == b"NAME".as_slice() || key_of(key).is_some()
}

/// The line of a run, where there is one.
fn write_span<W: Sink>(w: &mut W, span: Option<Span<'_>>) -> Result<(), WriteFault>
    ensures { OnOk result (Appends (W.contents w.old) (W.contents w.new) (pending_text span.entry)) }
{
    let Some(span) = span else {
        return write_text(w, b"");
    };
    write_text(w, b"unknown ")?;
    write_field(w, span.first, b" ")?;
    write_field(w, span.last, b" ")?;
    write_shown(w, span.key)?;
    write_text(w, b"\n")
}

/// A key, byte by byte as it is shown.
fn write_shown<W: Sink>(w: &mut W, key: &[u8]) -> Result<(), WriteFault>
    ensures { OnOk result (Appends (W.contents w.old) (W.contents w.new) (map shown_as key.now)) }
{
    for byte in key {
        write_text(w, &[shown_byte(*byte)])?;
    }
    Ok(())
}

/// A byte from `!` to `~`, or else `?`.
fn shown_byte(b: u8) -> u8
    ensures { result ≡ shown_as b }
{
    if b'!' <= b && b <= b'~' { b } else { b'?' }
}

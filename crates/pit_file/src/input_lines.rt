//! Lines of an input, taken as they come.
ghost use Rattle.std.specs.Prelude.{◌≡◌, ◌≤◌, true, false, length, IfOk, OnErr, [], ◌∷◌};
ghost use Rattle.std.specs.Io.KnownBytes.{Consumes};
ghost use Rattle.pit_file.specs.InputLines.{IsTaken, TakesFront};
ghost use Rattle.pit_file.specs.Inside.LineTurns.{IsGot, IsTurn, KeepsOn, fed_of, ended_of};

use std::alloc::Allocator;
use std::io::{BufRead, ErrorKind};

/// What came of a call that takes a line.
#[derive(Clone, Copy, Debug, PartialEq, Eq)]
pub enum Taken {
    /// A line, which is left without its line feed. Where it is the last, the input ended behind it without one.
    Line { is_last: bool },
    /// A line of more bytes than were asked for. It is dropped.
    TooLong { is_last: bool },
    /// The input had ended, and there was no line.
    End,
}

/// Why no line is taken. What came of it is dropped.
#[derive(Clone, Copy, Debug, PartialEq, Eq)]
pub enum LineFault {
    /// The input can't be read.
    Failed,
    /// There is no memory for the line.
    NoMemory,
}

/// What one read gave.
#[derive(Clone, Copy)]
pub(crate) enum Got {
    /// A byte.
    Byte(u8),
    /// The end.
    End,
    /// Nothing: a signal interrupted it.
    Nothing,
}

/// What one read made of a line.
#[derive(Clone, Copy)]
pub(crate) enum Turn {
    /// It goes on, and is too long by now or isn't.
    Further { is_long: bool },
    /// Its line feed came.
    Fed,
    /// The input ended.
    Ended,
}

/// Takes the next line of an input, and leaves it in `line` in place of what that held. Of a longer line than of `most` bytes no more than so many are
/// kept, and this answers only once the line or the input has ended. A read that a signal interrupts is made again. Behind the last line, and behind
/// the end, a pipe may give more if somebody opens it anew.
pub fn take_line<I: BufRead, A: Allocator>(
    input: &mut I,
    most: usize,
    line: &mut Vec<u8, A>,
) -> Result<Taken, LineFault>
    ensures taken { IfOk result (IsTaken (I.remaining input.old) (I.remaining input.new) most line.new.items) }
    ensures fault { OnErr result (TakesFront (I.remaining input.old) (I.remaining input.new)) }
    ensures bounded { length line.new.items ≤ most }
{
    line.clear();
    let mut was_long = false;
    for _ in 0..u64::MAX {
        match read_on(input, most, line, was_long) {
            Ok(Turn::Further { is_long }) => was_long = is_long,
            Ok(Turn::Fed) => return Ok(fed(was_long)),
            Ok(Turn::Ended) => return Ok(ended(was_long, line.as_slice())),
            Err(fault) => return Err(fault),
        }
    }
    Err(LineFault::Failed)
}

/// Reads once, and adds to the line what that gave.
fn read_on<I: BufRead, A: Allocator>(
    input: &mut I,
    most: usize,
    line: &mut Vec<u8, A>,
    was_long: bool,
) -> Result<Turn, LineFault>
    ensures turn { IfOk result (IsTurn (I.remaining input.old) (I.remaining input.new) most was_long line.old.items line.new.items) }
    ensures fault { OnErr result (TakesFront (I.remaining input.old) (I.remaining input.new)) }
    ensures bounded { length line.old.items ≤ most → length line.new.items ≤ most }
{
    match read_one(input)? {
        Got::Byte(b'\n') => Ok(Turn::Fed),
        Got::Byte(byte) => {
            let is_long = added(byte, most, line, was_long)?;
            Ok(Turn::Further { is_long })
        }
        Got::End => Ok(Turn::Ended),
        Got::Nothing => Ok(Turn::Further { is_long: was_long }),
    }
}

fn read_one<I: BufRead>(input: &mut I) -> Result<Got, LineFault>
    ensures got { IfOk result (IsGot (I.remaining input.old) (I.remaining input.new)) }
    ensures fault { OnErr result (Consumes (I.remaining input.old) (I.remaining input.new) []) }
{
    let mut byte = [0u8; 1];
    match input.read(&mut byte) {
        Ok(0) => Ok(Got::End),
        Ok(_) => Ok(Got::Byte(byte[0])),
        Err(error) if error.kind() == ErrorKind::Interrupted => Ok(Got::Nothing),
        Err(_) => Err(LineFault::Failed),
    }
}

/// Adds a byte to a line that has room for it, and answers whether that is too long then.
fn added<A: Allocator>(
    byte: u8,
    most: usize,
    line: &mut Vec<u8, A>,
    was_long: bool,
) -> Result<bool, LineFault>
    ensures keeps { IfOk result (λ is_long. KeepsOn most (byte ∷ []) was_long line.old.items is_long line.new.items) }
    ensures bounded { length line.old.items ≤ most → length line.new.items ≤ most }
{
    if was_long || most <= line.len() {
        return Ok(true);
    }
    match line.push(byte) {
        Ok(()) => Ok(false),
        Err(_) => Err(LineFault::NoMemory),
    }
}

/// What is answered at a line feed.
fn fed(was_long: bool) -> Taken
    ensures { result ≡ fed_of was_long }
{
    if was_long {
        return Taken::TooLong { is_last: false };
    }
    Taken::Line { is_last: false }
}

/// What is answered at the end.
fn ended(was_long: bool, line: &[u8]) -> Taken
    ensures { result ≡ ended_of was_long line.now }
{
    if was_long {
        return Taken::TooLong { is_last: true };
    }
    if line.is_empty() {
        return Taken::End;
    }
    Taken::Line { is_last: true }
}

ghost use Rattle.std.specs.Prelude.{◌≡◌, ℕ, ◌<◌, ◌≤◌, Bool, List, Option, IsTrue, IsFalse, OnErr, MatchResult, IfOk, length, take};
ghost use Rattle.std.specs.Io.KnownBytes.{Keeps, Consumes, IsAtEnd};

use super::device::{Failed, INTERRUPTED_MAX, answer_to};
use std::io::Read;

/// A device that gives bytes.
pub trait Source {
    /// The bytes that it has left, where it tells them.
    ghost remaining: { Self → Option (List ℕ) };

    /// Whether it has failed. A device that has failed stays so.
    ghost has_failed: { Self → Bool };

    /// Fills a buffer from its front, and answers how far; by nothing only at the end, or where there is no room.
    fn take(&mut self, buffer: &mut [u8]) -> Result<usize, Failed>
        ensures count { IfOk result (λ n. n ≤ length buffer.new) }
        ensures given { IfOk result (λ n. Consumes (remaining self.old) (remaining self.new) (take n buffer.new)) }
        ensures end { IfOk result (λ n. n ≡ 0 → 0 < length buffer.new → IsAtEnd (remaining self.new)) }
        ensures kept { OnErr result (Keeps (remaining self.old) (remaining self.new)) }
        ensures failed { MatchResult result (λ _. IsFalse (has_failed self.new)) (λ _. IsTrue (has_failed self.new)) }
        ensures stays { IsTrue (has_failed self.old) → IsTrue (has_failed self.new) };
}

/// A reader as a device. A read that a signal interrupts is made again. It fails at the reader's first other error, and is never read again.
#[derive(Drop)]
pub struct In<R: Read + Drop> {
    reader: R,
    has_failed: bool,
}

impl<R: Read + Drop> In<R> {
    /// A device that has not failed.
    pub fn new(reader: R) -> In<R>
        ensures reader { result.reader ≡ reader }
        ensures failed { IsFalse result.has_failed }
    {
        In {
            reader,
            has_failed: false,
        }
    }

    /// The reader, with all that it has left.
    pub fn into_inner(self) -> R
        ensures { result ≡ self.reader }
    {
        self.reader
    }
}

impl<R: Read + Drop> Source for In<R> {
    ghost remaining = { λ input. R.remaining input.reader };

    ghost has_failed = { λ input. input.has_failed };

    fn take(&mut self, buffer: &mut [u8]) -> Result<usize, Failed> {
        if self.has_failed {
            return Err(Failed);
        }
        match read_once(&mut self.reader, buffer) {
            Ok(n) => Ok(n),
            Err(failed) => {
                self.has_failed = true;
                Err(failed)
            }
        }
    }
}

/// One read; another one, where a signal interrupts it.
fn read_once<R: Read>(reader: &mut R, buffer: &mut [u8]) -> Result<usize, Failed>
    ensures count { IfOk result (λ n. n ≤ length buffer.new) }
    ensures given { IfOk result (λ n. Consumes (R.remaining reader.old) (R.remaining reader.new) (take n buffer.new)) }
    ensures end { IfOk result (λ n. n ≡ 0 → 0 < length buffer.new → IsAtEnd (R.remaining reader.new)) }
    ensures kept { OnErr result (Keeps (R.remaining reader.old) (R.remaining reader.new)) }
{
    for _ in 0..INTERRUPTED_MAX {
        if let Some(answer) = answer_to(reader.read(buffer), 0) {
            return answer;
        }
    }
    Err(Failed)
}

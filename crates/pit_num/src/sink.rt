ghost use Rattle.std.specs.Prelude.{◌≡◌, ℕ, ◌<◌, ◌≤◌, Bool, List, Option, IsTrue, IsFalse, OnErr, MatchResult, IfOk, length, take};
ghost use Rattle.std.specs.Io.KnownBytes.{Keeps, Appends};

use super::device::{Failed, INTERRUPTED_MAX, answer_to};
use std::io::Write;

/// A device that takes bytes.
pub trait Sink {
    /// The bytes that it holds, where it tells them.
    ghost contents: { Self → Option (List ℕ) };

    /// Whether it has failed. A device that has failed stays so.
    ghost has_failed: { Self → Bool };

    /// Takes bytes from the front of a text, and answers how many. To take none of a text that isn't empty is to fail.
    fn give(&mut self, text: &[u8]) -> Result<usize, Failed>
        ensures count { IfOk result (λ n. n ≤ length text.now) }
        ensures some { IfOk result (λ n. 0 < length text.now → 0 < n) }
        ensures taken { IfOk result (λ n. Appends (contents self.old) (contents self.new) (take n text.now)) }
        ensures kept { OnErr result (Keeps (contents self.old) (contents self.new)) }
        ensures failed { MatchResult result (λ _. IsFalse (has_failed self.new)) (λ _. IsTrue (has_failed self.new)) }
        ensures stays { IsTrue (has_failed self.old) → IsTrue (has_failed self.new) };
}

/// A writer as a device. A write that a signal interrupts is made again. It fails at the writer's first other error, or where that takes nothing, and is
/// never written to again.
#[derive(Drop)]
pub struct Out<W: Write + Drop> {
    writer: W,
    has_failed: bool,
}

impl<W: Write + Drop> Out<W> {
    /// A device that has not failed.
    pub fn new(writer: W) -> Out<W>
        ensures writer { result.writer ≡ writer }
        ensures failed { IsFalse result.has_failed }
    {
        Out {
            writer,
            has_failed: false,
        }
    }

    /// The writer, with all that it was given.
    pub fn into_inner(self) -> W
        ensures { result ≡ self.writer }
    {
        self.writer
    }
}

impl<W: Write + Drop> Sink for Out<W> {
    ghost contents = { λ out. W.contents out.writer };

    ghost has_failed = { λ out. out.has_failed };

    fn give(&mut self, text: &[u8]) -> Result<usize, Failed> {
        if self.has_failed {
            return Err(Failed);
        }
        if text.is_empty() {
            return Ok(0);
        }
        match write_once(&mut self.writer, text) {
            Ok(n) => Ok(n),
            Err(failed) => {
                self.has_failed = true;
                Err(failed)
            }
        }
    }
}

/// One write, which has to take some of a text; another one, where a signal interrupts it.
fn write_once<W: Write>(writer: &mut W, text: &[u8]) -> Result<usize, Failed>
    ensures count { IfOk result (λ n. n ≤ length text.now) }
    ensures some { IfOk result (λ n. 0 < n) }
    ensures taken { IfOk result (λ n. Appends (W.contents writer.old) (W.contents writer.new) (take n text.now)) }
    ensures kept { OnErr result (Keeps (W.contents writer.old) (W.contents writer.new)) }
{
    for _ in 0..INTERRUPTED_MAX {
        if let Some(answer) = answer_to(writer.write(text), 1) {
            return answer;
        }
    }
    Err(Failed)
}

//! A report on its way, looked through for what may help its reader.
ghost use Rattle.std.specs.Prelude.{◌≡◌, true, false, IsFalse};
ghost use Rattle.std.specs.Io.KnownBytes.{Appends};
ghost use Rattle.pit_explain.specs.declared.watched.TheConstants.{ADVICE};

use memchr::memmem;
use pit_num::{Failed, Sink, write_text};

/// How a report tells of what is refused for a predecessor.
const REFUSED: &[u8] = b" refused precedence ";

const ADVICE: &str =
    "  Where a job is refused precedence B A, `cone B T` brings B forward with A, and `push A T` puts A off with B.\n";

/// A device that passes all on to another one. Where it looks, it finds whether something is refused for a predecessor, if that is told in one piece.
#[derive(Drop)]
pub struct Watched<W: Sink + Drop> {
    device: W,
    looks: bool,
    has_pair: bool,
}

impl<W: Sink + Drop> Watched<W> {
    /// A device that has found nothing yet, and that looks or doesn't.
    pub fn new(device: W, looks: bool) -> Watched<W>
        ensures device { result.device ≡ device }
        ensures looks { result.looks ≡ looks }
        ensures pair { result.has_pair ≡ false }
    {
        Watched {
            device,
            looks,
            has_pair: false,
        }
    }

    /// Writes which lines of a script put both blocks of a pair, where a job was refused for one. The line stands behind two blanks. Nothing is written
    /// where there is no terminal.
    pub fn advise<V: Sink>(&self, is_terminal: bool, w: &mut V)
        ensures terminal { is_terminal ≡ false → w.new ≡ w.old }
        ensures pair { self.now.has_pair ≡ false → w.new ≡ w.old }
        ensures written { is_terminal ≡ true → self.now.has_pair ≡ true → IsFalse (V.has_failed w.new) → Appends (V.contents w.old) (V.contents w.new) ADVICE.now }
    {
        if is_terminal && self.has_pair {
            let _ = write_text(w, ADVICE.as_bytes());
        }
    }
}

impl<W: Sink + Drop> Sink for Watched<W> {
    ghost contents = { λ w. W.contents w.device };

    ghost has_failed = { λ w. W.has_failed w.device };

    fn give(&mut self, text: &[u8]) -> Result<usize, Failed> {
        self.has_pair = self.has_pair || self.looks && tells_pair(text);
        self.device.give(text)
    }
}

fn tells_pair(text: &[u8]) -> bool {
    memmem::find(text, REFUSED).is_some()
}

ghost use Rattle.std.specs.Prelude.{◌≡◌};
ghost use Rattle.std.specs.IoError.{error_kind};
ghost use Rattle.pit_num.specs.Inside.Answers.{IsAnswerTo};

use std::io::{self, ErrorKind};

/// The answer of a device that has failed.
#[derive(Clone, Copy, Debug, PartialEq, Eq)]
pub struct Failed;

/// How often a call is made again that a signal interrupts, before its device has failed.
pub(crate) const INTERRUPTED_MAX: u32 = 1_000_000;

/// What a device answers where its reader or writer answers so, which has to take so many bytes; none where a signal interrupted the call.
pub(crate) fn answer_to(answer: io::Result<usize>, least: usize) -> Option<Result<usize, Failed>>
    ensures { IsAnswerTo (λ error. error_kind error ≡ ErrorKind.Interrupted) least answer result }
{
    match answer {
        Ok(n) if least <= n => Some(Ok(n)),
        Ok(_) => Some(Err(Failed)),
        Err(error) if error.kind() == ErrorKind::Interrupted => None,
        Err(_) => Some(Err(Failed)),
    }
}

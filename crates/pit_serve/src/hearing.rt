//! What a session hears.
ghost use Rattle.std.specs.Prelude.{◌≡◌, IfOk, IfErr};
ghost use Rattle.pit_serve.specs.Asked.{IsAskedIn};
ghost use Rattle.pit_serve.specs.Inside.Turning.{IsHeard, HearsNone};

use crate::asked::{Asked, LINE_MAX, asked_of};
use crate::fault::RequestFault;
use crate::session_end::SessionEnd;
use pit_file::{LineFault, Taken, take_line};
use pit_model::Instance;
use std::alloc::Allocator;
use std::io::BufRead;

/// The next line of an input, by what it asks for, and whether it is the last. The text of the line is left in `line`, in place of what that held.
#[tactic(auto, using(crate::proofs::Heard::hearing))]
pub(crate) fn hear<I: BufRead, A: Allocator + Copy + Drop, B: Allocator>(
    input: &mut I,
    line: &mut Vec<u8, B>,
    is_open: bool,
    pit: &Instance<A>,
) -> Result<(Asked, bool), SessionEnd>
    ensures heard { IfOk result (λ heard. IsHeard pit.now is_open (I.remaining input.old) (I.remaining input.new) heard.0 heard.1) }
    ensures in_range { IfOk result (λ heard. IsAskedIn pit.now heard.0) }
    ensures none { IfErr result (HearsNone (I.remaining input.old)) }
{
    match take_line(input, LINE_MAX, line) {
        Ok(Taken::Line { is_last }) => {
            let asked = asked_of(line.as_slice(), is_open, pit);
            Ok((asked, is_last))
        }
        Ok(Taken::TooLong { is_last }) => { Ok((Asked::Wrong(RequestFault::LineTooLong), is_last)) }
        Ok(Taken::End) => Err(SessionEnd::Input),
        Err(LineFault::Failed) => Err(SessionEnd::NoStream),
        Err(LineFault::NoMemory) => Err(SessionEnd::NoMemory),
    }
}

ghost use Rattle.pit_step.specs.Steps.{IsResultOf};
ghost use Rattle.pit_step.specs.Devices.{writing_of, write_step};

use super::fault::CliFault;
use super::status::Status;
use pit_num::{Sink, write_text};

/// Writes a text that was gathered, and answers the status that goes with it.
pub fn write_answer<W: Sink>(out: &mut W, text: &[u8], status: Status) -> Result<Status, CliFault>
    ensures { let written = writing_of (W.contents out.old) (W.contents out.new) (W.has_failed out.new) in
        IsResultOf (write_step written (λ (given : Unit {0}). text.now) (λ given. status)) tt result }
{
    match write_text(out, text) {
        Ok(()) => Ok(status),
        Err(_) => Err(CliFault::CannotWrite),
    }
}

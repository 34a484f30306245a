ghost use Rattle.std.specs.Prelude.{◌≡◌, false};

use crate::fault::say_fault;
use crate::given::Given;
use crate::passed::say_passed;
use pit_num::{Sink, write_text};
use pit_step::CliFault;
use std::alloc::Global;

/// Writes where a fault is, what is wrong there and what helps; where there is no fault, what the model passes over: header lines that begin with no
/// key, and that it has no profit or no limit at all. Each line stands behind two blanks. Nothing is written where there is no terminal, and nothing
/// out of memory.
pub fn explain<G: Given, W: Sink>(
    alloc: Global,
    is_terminal: bool,
    given: &G,
    fault: Option<&CliFault>,
    w: &mut W,
)
    ensures { is_terminal ≡ false → w.new ≡ w.old }
{
    if is_terminal {
        let mut said = String::new(alloc);
        let written = match fault {
            Some(fault) => say_fault(&mut said, given, fault),
            None => say_passed(&mut said, given),
        };
        if written.is_ok() {
            let _ = write_text(w, said.as_bytes());
        }
    }
}

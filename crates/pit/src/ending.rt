//! How the program ends.
ghost use Rattle.std.specs.Prelude.{◌≡◌, ◌≤◌};
ghost use Rattle.std.specs.Process.{exit_status};
ghost use Rattle.pit_step.specs.Statuses.{fault_status};
ghost use Rattle.pit.specs.Ending.{IsCommandStatus, IsStatusOf};

use crate::fault::Fault;
use pit_cli::{CliFault, Status};
use pit_num::{Out, write_text};
use pit_step::Text;
use std::alloc::Global;
use std::process::ExitCode;

/// The status where the words of the command line are refused.
const REFUSED: u8 = 2;

/// Ends the program. Where there is no answer, it prints why, or the help that was asked for.
pub fn ended(rt: &HostRuntime, answer: Result<Status, Fault>) -> ExitCode
    ensures { IsStatusOf answer (exit_status result) }
{
    match answer {
        Ok(found) => ExitCode::from(found.code()),
        Err(Fault::Engine(fault)) => ExitCode::from(with_fault(rt, &fault)),
        Err(Fault::Command(error)) => ExitCode::from(with_command(rt, &error)),
    }
}

/// Prints the line of a fault, which a planner that stopped has in the report. The status is the fault's, whether or not the line could be written.
fn with_fault(rt: &HostRuntime, fault: &CliFault) -> u8
    ensures is { result ≡ fault_status fault.now }
    ensures range { (2 ≤ result) × (result ≤ 3) }
{
    if *fault != CliFault::Stopped {
        let _ = rt.eprintln(fault);
    }
    fault.status()
}

/// Prints the text of the command line's parser: a refusal on the standard error, and help on the standard output.
fn with_command(rt: &HostRuntime, error: &clap::Error) -> u8
    ensures { IsCommandStatus error.now result }
{
    if error.use_stderr() {
        let _ = rt.eprint(error);
        return REFUSED;
    }
    if rt.print(error).is_err() {
        return with_fault(rt, &CliFault::CannotWrite);
    }
    0
}

/// Writes notes behind all else. Whether they could be written changes nothing.
pub fn note(rt: &HostRuntime, notes: Text<Global>) {
    let mut out = Out::new(rt.stderr());
    let _ = write_text(&mut out, notes.into_inner().as_slice());
}

ghost use Rattle.std.specs.Prelude.{◌≡◌, ◌≢◌};
ghost use Rattle.clap.specs.Values.{kind_of};
ghost use Rattle.clap.specs.declared.error.kind.ErrorKind.TheVariants.{OutOfMemory};
ghost use Rattle.pit_step.specs.declared.fault.CliFault.TheVariants.{NoMemory};
ghost use Rattle.pit.specs.declared.fault.Fault.TheVariants.{Engine, Command};

use clap::error::ErrorKind;
use pit_cli::CliFault;
use std::alloc::AllocError;

/// Why the program has no answer.
#[derive(Drop)]
pub enum Fault {
    /// An engine's, or that of a file that can't be opened.
    Engine(CliFault),
    /// The words of the command line are refused, or ask for help.
    Command(clap::Error),
}

impl From<CliFault> for Fault {
    ghost from_gives = { λ fault f. f ≡ Engine fault };

    fn from(fault: CliFault) -> Fault {
        Fault::Engine(fault)
    }
}

impl From<AllocError> for Fault {
    ghost from_gives = { λ _ f. f ≡ Engine NoMemory };

    fn from(_error: AllocError) -> Fault {
        Fault::Engine(CliFault::NoMemory)
    }
}

impl From<clap::Error> for Fault {
    ghost from_gives = { λ error f. (kind_of error ≡ OutOfMemory → f ≡ Engine NoMemory)
        × (kind_of error ≢ OutOfMemory → f ≡ Command error) };

    fn from(error: clap::Error) -> Fault {
        match error.kind() {
            ErrorKind::OutOfMemory => Fault::Engine(CliFault::NoMemory),
            _ => Fault::Command(error),
        }
    }
}

ghost use Rattle.std.specs.Prelude.{◌≡◌};
ghost use Rattle.pit_base.specs.Bases.{fault_of};

use pit_step::{CliFault, Input};

/// Why no base is known of an edit.
#[derive(Clone, Copy, Debug, PartialEq, Eq)]
pub enum BaseFault {
    /// A commit of the edit that isn't shared revises a limit.
    RevisedLimit,
    /// The first line of a solution is of another history: there are fewer commits, or their entries have another sum.
    AnotherHistory,
    /// Nothing says what a solution was made from, and a history was resumed.
    BaseMissing,
    /// There are only so many commits, and fewer than the caller says.
    FewCommits { commits: u32 },
    /// There was no memory for the line of an entry, whose sum is taken.
    NoMemory,
}

/// The fault of the edit that is named.
pub fn fault_of(file: Input, fault: BaseFault) -> CliFault
    ensures { result ≡ fault_of file fault }
{
    match fault {
        BaseFault::RevisedLimit => CliFault::RevisedLimit(file),
        BaseFault::AnotherHistory => CliFault::AnotherHistory(file),
        BaseFault::BaseMissing => CliFault::BaseMissing(file),
        BaseFault::FewCommits { commits } => CliFault::FewBaseCommits { file, commits },
        BaseFault::NoMemory => CliFault::NoMemory,
    }
}

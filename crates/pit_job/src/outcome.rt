ghost use Rattle.std.specs.Prelude.{◌≡◌};
ghost use Rattle.pit_job.specs.Inside.Outcomes.{outcome_of as outcome_by};

use pit_desk::{EntryReply, Refusal};

/// What ends a planner's run before its last job.
#[derive(Clone, Copy, Debug, PartialEq, Eq)]
pub enum JobStop {
    /// The history has as many entries as it may have.
    Full,
    /// A growth was refused.
    NoMemory,
    /// The planner wasn't let in at the board.
    NoEntry,
}

/// How one try ended.
#[derive(Clone, Copy, Debug, PartialEq, Eq)]
pub enum Tried {
    /// A block that was read has been written since, so the try is repeated.
    Moved { block: u32, version: u32 },
    /// The transaction was answered so, and not by Moved.
    Answered(EntryReply),
    /// The transaction got no reply, for this reason: nothing was entered.
    Stopped(JobStop),
}

/// How a job ended, after so many tries.
#[derive(Clone, Copy, Debug, PartialEq, Eq)]
pub enum Outcome {
    /// Its last try made the commit of this number, counted from 1.
    Committed { number: u32, tries: u32 },
    /// It ends by `abort`, or a shift or an expectation of it failed.
    Withdrawn { tries: u32 },
    /// Its last try was refused, for this reason: Moved only where no retry was left.
    Refused { refusal: Refusal, tries: u32 },
}

/// How a planner's run ended. Where it ended before a job, numbered from 1, each job before that has its outcome.
#[derive(Clone, Copy, Debug, PartialEq, Eq)]
pub enum RunEnd {
    /// Each job of the script has its outcome.
    Whole,
    /// Before this job, since the history has as many entries as it may have.
    Full { job: u32 },
    /// Before this job, since a growth was refused.
    NoMemory { job: u32 },
    /// Before this job, since the planner wasn't let in at the board.
    NoEntry { job: u32 },
    /// No thread could be started for it.
    NoThread,
}

pub(crate) fn outcome_of(reply: EntryReply, tries: u32) -> Outcome
    ensures { result ≡ outcome_by reply tries }
{
    match reply {
        EntryReply::Committed { number } => Outcome::Committed { number, tries },
        EntryReply::Refused(refusal) => Outcome::Refused { refusal, tries },
        EntryReply::Withdrawn => Outcome::Withdrawn { tries },
    }
}

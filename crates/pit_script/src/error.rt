ghost use Rattle.std.specs.Prelude.{◌≡◌};

use pit_num::NumError;
use thiserror::Error;

/// What is wrong with a line of a script, or with its end.
#[derive(Clone, Copy, Debug, PartialEq, Eq, Error)]
pub enum ScriptCause {
    /// A field that is read holds a byte above 127.
    #[error("not ascii")]
    NotAscii,
    /// No line begins with this word.
    #[error("unknown word")]
    UnknownWord,
    /// The line has fewer fields behind its word than that takes, or more.
    #[error("field count")]
    FieldCount,
    /// A field isn't a number such as its place needs.
    #[error("{0}")]
    BadNumber(NumError),
    /// A block is not below the number of blocks.
    #[error("block out of range")]
    BlockRange,
    /// A resource is not below the number of resources.
    #[error("resource out of range")]
    ResourceRange,
    /// A period is not below the number of periods.
    #[error("period out of range")]
    PeriodRange,
    /// A `begin` inside a job, or another line outside one.
    #[error("job order")]
    Order,
    /// No block lies at that height.
    #[error("no such bench")]
    NoBench,
    /// A `begin` past `JOBS_MAX` jobs.
    #[error("too many jobs")]
    JobCount,
    /// The text ends inside a job.
    #[error("job not ended")]
    Unended,
    /// A growth was refused.
    #[error("no memory")]
    NoMemory,
}

/// What a line of a script, or its end, is judged to be wrong with: each cause of the same name but `NoMemory`.
#[derive(Clone, Copy)]
pub enum ScriptFault {
    NotAscii,
    UnknownWord,
    FieldCount,
    BadNumber(NumError),
    BlockRange,
    ResourceRange,
    PeriodRange,
    Order,
    NoBench,
    JobCount,
    Unended,
}

impl From<ScriptFault> for ScriptCause {
    ghost use Rattle.pit_script.specs.Causes.{script_cause_of};

    ghost from_gives = { λ fault cause. cause ≡ script_cause_of fault };

    fn from(fault: ScriptFault) -> ScriptCause {
        match fault {
            ScriptFault::NotAscii => ScriptCause::NotAscii,
            ScriptFault::UnknownWord => ScriptCause::UnknownWord,
            ScriptFault::FieldCount => ScriptCause::FieldCount,
            ScriptFault::BadNumber(error) => ScriptCause::BadNumber(error),
            ScriptFault::BlockRange => ScriptCause::BlockRange,
            ScriptFault::ResourceRange => ScriptCause::ResourceRange,
            ScriptFault::PeriodRange => ScriptCause::PeriodRange,
            ScriptFault::Order => ScriptCause::Order,
            ScriptFault::NoBench => ScriptCause::NoBench,
            ScriptFault::JobCount => ScriptCause::JobCount,
            ScriptFault::Unended => ScriptCause::Unended,
        }
    }
}

/// The first faulty line of a script, counted from 1, and what is wrong with it. Where memory ran out: a line up to which nothing is wrong, or the
/// end of a text that has no line.
#[derive(Clone, Copy, Debug, PartialEq, Eq, Error)]
#[error("line {line}: {cause}")]
pub struct ScriptError {
    /// At the end of a text: the line of `EOF`, or else one past the last line.
    pub line: u64,
    /// What is wrong there, or that memory ran out.
    pub cause: ScriptCause,
}

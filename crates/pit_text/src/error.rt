ghost use Rattle.std.specs.Prelude.{◌≡◌, ◌≢◌};

use super::model::Key;
use pit_model::BuildError;
use pit_num::NumError;
use std::alloc::AllocFailed;
use thiserror::Error;

/// What is wrong with a line, or with the end of a text.
#[derive(Clone, Copy, Debug, PartialEq, Eq, Error)]
pub enum Cause {
    /// A field that is read holds a byte above 127.
    #[error("not ascii")]
    NotAscii,
    /// The header ends without this key, the first of those needed.
    #[error("missing {0}")]
    MissingHeader(Key),
    /// The key came before, or hasn't exactly one value, or one of another form or out of range.
    #[error("bad {0}")]
    BadHeader(Key),
    /// The model is of another problem than CPIT.
    #[error("not cpit")]
    NotCpit,
    /// More than one destination, or constraints of a general kind.
    #[error("unsupported {0}")]
    Unsupported(Key),
    /// A section line of this section came before.
    #[error("section twice")]
    SectionTwice,
    /// The line has fewer fields than its form, or more.
    #[error("field count")]
    FieldCount,
    /// A field isn't a number such as its place needs.
    #[error("{0}")]
    BadNumber(NumError),
    /// What is known of the pit refuses the fact. Its refusal is never `NoMemory`.
    #[error("{0}")]
    Build(BuildError),
    /// A precedence line has another number of predecessors than it says.
    #[error("predecessor count")]
    CountWrong,
    /// A solution schedules a part of a block.
    #[error("part of a block")]
    PartBlock,
    /// A limit is neither at most, nor at least, nor between.
    #[error("bad limit kind")]
    BadKind,
    /// A growth was refused.
    #[error("no memory")]
    NoMemory,
}

/// What a line, or the end of a text, is judged to be wrong with: each cause of the same name but `NoMemory`.
#[derive(Clone, Copy)]
pub enum Fault {
    NotAscii,
    MissingHeader(Key),
    BadHeader(Key),
    NotCpit,
    Unsupported(Key),
    SectionTwice,
    FieldCount,
    BadNumber(NumError),
    Build(BuildError),
    CountWrong,
    PartBlock,
    BadKind,
}

impl From<Fault> for Cause {
    ghost use Rattle.pit_text.specs.Causes.{cause_of};

    ghost from_gives = { λ fault cause. cause ≡ cause_of fault };

    fn from(fault: Fault) -> Cause {
        match fault {
            Fault::NotAscii => Cause::NotAscii,
            Fault::MissingHeader(key) => Cause::MissingHeader(key),
            Fault::BadHeader(key) => Cause::BadHeader(key),
            Fault::NotCpit => Cause::NotCpit,
            Fault::Unsupported(key) => Cause::Unsupported(key),
            Fault::SectionTwice => Cause::SectionTwice,
            Fault::FieldCount => Cause::FieldCount,
            Fault::BadNumber(error) => Cause::BadNumber(error),
            Fault::Build(refusal) => Cause::Build(refusal),
            Fault::CountWrong => Cause::CountWrong,
            Fault::PartBlock => Cause::PartBlock,
            Fault::BadKind => Cause::BadKind,
        }
    }
}

impl From<BuildError> for Cause {
    ghost use Rattle.pit_model.specs.declared.error.BuildError.TheVariants.{NoMemory};
    ghost use Rattle.pit_text.specs.declared.error.Cause.TheVariants.{Build, NoMemory as WantsMemory};

    ghost from_gives = { λ error cause. (error ≡ NoMemory → cause ≡ WantsMemory) × (error ≢ NoMemory → cause ≡ Build error) };

    fn from(error: BuildError) -> Cause {
        match error {
            BuildError::NoMemory => Cause::NoMemory,
            _ => Cause::Build(error),
        }
    }
}

impl From<AllocFailed<u32>> for Cause {
    ghost use Rattle.pit_text.specs.declared.error.Cause.TheVariants.{NoMemory};

    ghost from_gives = { λ _ cause. cause ≡ NoMemory };

    fn from(_error: AllocFailed<u32>) -> Cause {
        Cause::NoMemory
    }
}

/// The first faulty line of a text, counted from 1, and what is wrong with it. Where memory ran out, a line up to which nothing is wrong.
#[derive(Clone, Copy, Debug, PartialEq, Eq, Error)]
#[error("line {line}: {cause}")]
pub struct TextError {
    /// For what is missing at the end of a text, and where memory ran out there: the line of `EOF`, or else one past the last line.
    pub line: u64,
    /// What is wrong there, or that memory ran out.
    pub cause: Cause,
}

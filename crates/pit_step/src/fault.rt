ghost use Rattle.std.specs.Prelude.{◌≡◌, ◌≤◌};

use super::breach_line::BreachLine;
use super::input::Input;
use pit_lines::LinesError;
use pit_num::NoMemory;
use pit_script::ScriptError;
use pit_text::TextError;
use thiserror::Error;

/// Why an engine gives no answer. The text of a fault is the line that the program prints of it, but for `Stopped`, which has none.
#[derive(Clone, Copy, Debug, PartialEq, Eq, Error)]
pub enum CliFault {
    /// The first fault of the text of an input other than a script or a history. To be out of memory is none.
    #[error("pit: {file} {error}")]
    Text { file: Input, error: TextError },
    /// The first fault of a script, by its number, counted from 1.
    #[error("pit: script {number} {error}")]
    Script { number: u64, error: ScriptError },
    /// The first fault of the text of a history.
    #[error("pit: {file} {error}")]
    Lines { file: Input, error: LinesError },
    /// The first entry of a history, by its place, counted from 1, that doesn't fit the pit; of a history that is begun with, the first that an audit
    /// finds wrong.
    #[error("pit: {file}: illegal {place}")]
    Illegal { file: Input, place: u32 },
    /// More than `INPUT_BYTES_MAX` bytes came, or a history that is begun with has more than `ENTRIES_MAX` entries.
    #[error("pit: {0}: too long")]
    TooLong(Input),
    /// The least period, and in it the least resource, whose upper limit is below zero, so that the empty schedule is above it.
    #[error("pit: model: upper limit below zero {resource} {period}")]
    LimitBelowZero { resource: u32, period: u32 },
    /// The schedule has fewer commits than were asked for.
    #[error("pit: at: {commits} commits")]
    FewCommits { commits: u32 },
    /// An edit, whose first line doesn't say of what it was made, would be made of more commits than there are.
    #[error("pit: {file}: {commits} commits")]
    FewBaseCommits { file: Input, commits: u32 },
    /// The first line of an edit is that of another history.
    #[error("pit: {0}: another history")]
    AnotherHistory(Input),
    /// A commit of an edit that is not shared revises a limit.
    #[error("pit: {0}: revised limit")]
    RevisedLimit(Input),
    /// Nothing says of what an edit was made.
    #[error("pit: {0}: base missing")]
    BaseMissing(Input),
    /// The first breach of the start.
    #[error("pit: start: {0}")]
    Start(BreachLine),
    /// There are not 1 to 64 scripts.
    #[error("pit: planner count")]
    PlannerCount,
    /// A file that can't be opened, or a device that failed.
    #[error("pit: cannot read {0}")]
    CannotRead(Input),
    /// An output's device failed, or the history's file couldn't be made ready or replaced.
    #[error("pit: cannot write")]
    CannotWrite,
    /// Another program holds the lock of the history's file.
    #[error("pit: history is in use")]
    HistoryInUse,
    /// The file of the history is one that is read as another input.
    #[error("pit: history is an input")]
    HistoryIsInput,
    /// A growth was refused.
    #[error("pit: no memory")]
    NoMemory,
    /// A planner can't be given a place to read the schedule from.
    #[error("pit: no place")]
    NoPlace,
    /// The planners' own logs contradict the history.
    #[error("pit: not closed")]
    NotClosed,
    /// Some planner did not do all of its script, as the report says.
    #[error("")]
    Stopped,
}

impl From<NoMemory> for CliFault {
    ghost use Rattle.pit_step.specs.declared.fault.CliFault.TheVariants.{NoMemory as WantsMemory};

    ghost from_gives = { λ _ fault. fault ≡ WantsMemory };

    fn from(_error: NoMemory) -> CliFault {
        CliFault::NoMemory
    }
}

impl CliFault {
    ghost use Rattle.pit_step.specs.Statuses.{fault_status};

    /// The status that the program ends with: 2 where an input, the start or the number of planners is refused; 3 where memory runs out, a device
    /// fails, a thread or a place can't be had, the history's file is in use, a planner stopped, or the logs don't close the workspace.
    pub fn status(&self) -> u8
        ensures is { result ≡ fault_status self.now }
        ensures range { (2 ≤ result) × (result ≤ 3) }
    {
        match self {
            CliFault::CannotRead(_)
            | CliFault::CannotWrite
            | CliFault::HistoryInUse
            | CliFault::NoMemory
            | CliFault::NoPlace
            | CliFault::NotClosed
            | CliFault::Stopped => 3,
            _ => 2,
        }
    }
}

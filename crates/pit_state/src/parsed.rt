//! What a text stands for. The text is freed.
ghost use Rattle.std.specs.Prelude.{◌<◌, length, IfOk, MatchResult};
ghost use Rattle.pit_lines.specs.Lines.{StandsForHistory};
ghost use Rattle.pit_step.specs.Inputs.{IsSolutionOf, IsSolutionFault, IsScheduleOf, IsHistoryFault};

use pit_desk::Entry;
use pit_model::Deposit;
use pit_step::{CliFault, Input, history_of, schedule_of};
use std::alloc::{Allocator, Global};

/// The entries of a history. Takes the memory of the entries, and by `json` that of the JSON value of one line.
pub fn entries_of<A: Allocator + Copy + Drop>(
    alloc: A,
    json: Global,
    file: Input,
    text: Vec<u8, A>,
) -> Result<Vec<Entry<A>, A>, CliFault>
    ensures result { MatchResult result (λ entries. StandsForHistory text.items entries.items) (IsHistoryFault file text.items) }
    ensures few { IfOk result (λ entries. length entries.items < length text.items) }
{
    history_of(alloc, json, file, &text)
}

/// The blocks and periods of a solution, by rising block. Takes the memory of the facts, and of the pairs.
pub fn pairs_of<A: Allocator + Copy + Drop>(
    alloc: A,
    file: Input,
    text: Vec<u8, A>,
    pit: &Deposit<A>,
) -> Result<Vec<(u32, u32), A>, CliFault>
    ensures result { MatchResult result (λ schedule. IsSolutionOf pit.now text.items schedule.items) (IsSolutionFault file pit.now text.items) }
    ensures fits { IfOk result (λ schedule. IsScheduleOf pit.now schedule.items) }
{
    schedule_of(alloc, file, &text, pit)
}

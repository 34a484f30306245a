//! Laws of the definitions, each as the contract of a function that does nothing.
ghost use Rattle.std.specs.Prelude.{◌≡◌, ℕ, ◌≤◌, Bool, List, [], ◌++◌, length, map, All, Option, option_map, IsSome, IfSome};
ghost use Rattle.pit_model.specs.Pit.{IsSound};
ghost use Rattle.pit_plan.specs.declared.plan.TheConstants.{COMMITS_MAX};
ghost use Rattle.pit_desk.specs.History.{Answered, commits_of};
ghost use Rattle.pit_step.specs.Steps.{HasOneOutcome, want_aside};
ghost use Rattle.pit_step.specs.Devices.{Reading, Writing};
ghost use Rattle.pit_step.specs.declared.status.Status.{Status as StatusState};
ghost use Rattle.pit_output.specs.Outputs.{Keeping};
ghost use Rattle.pit_merge.specs.declared.engine.TheConstants.{EDITS_MAX};
ghost use Rattle.pit_base.specs.Again.{IsShownOf};
ghost use Rattle.pit_edit.specs.Changes.{Edit as EditState, changes_of};
ghost use Rattle.pit_merge.specs.declared.options.MergeOptions.{MergeOptions as OptionsState};
ghost use Rattle.pit_merge.specs.Prepared.{Prepared, prepare_run};
ghost use Rattle.pit_merge.specs.Merge.{merge_outputs, merge_run};
ghost use Rattle.pit_merge.specs.MergedHistory.{IsOfOneMerge};
ghost use Rattle.pit_merge.specs.Edits.{Ground as GroundState, Merged, IsEditOf, IsTaken};
ghost use Rattle.pit_merge.specs.EndAlike.{EndAlike};

use pit_base::{shown_again, shown_base};
use pit_desk::one_reply;
use pit_edit::unchanged_edits;
use pit_lines::laws::{one_history, one_result};
use pit_opening::{one_beginning, one_opening};
use pit_step::CliFault;

/// A law of merges: where one ended with an answer, what it has written is that of one history of one thread, which begins with what the merge began with.
/// Each committed edit read what the schedule then held, and its writes stand right behind it; after each entry the schedule is good under the limits then in
/// force; and the value is that of the solution.
pub fn one_merged_history()
    ensures { (options : OptionsState) (begun : Prepared) (edits : List Reading) (out lines : Writing) (kept : Option Keeping) (status : StatusState)
        → (merge_run options begun edits out lines kept).Gives tt status → IsOfOneMerge options begun edits out lines kept status }
{}

/// A law of merges: where devices tell their bytes, these say how one ended. What it begins with is one, or is refused for one fault, out of memory aside;
/// then it has one status or one fault. On the same bytes each further one begins with the same, answers and writes the same, or is refused for the same
/// fault, whatever it writes to; but memory may run out, or a device may fail.
pub fn one_outcome()
    ensures begun { (is_carried_on : Bool) (model precedence : Reading) (start : Option Reading)
        → IsSome model.before → IsSome precedence.before → IfSome start (λ source. IsSome source.before)
        → HasOneOutcome CliFault.NoMemory (want_aside CliFault.NoMemory (prepare_run is_carried_on model precedence start)) }
    ensures ended { (options : OptionsState) (begun : Prepared) (edits : List Reading) (out lines : Writing) (kept : Option Keeping)
        → All (λ source. IsSome source.before) edits → IsSome lines.before
        → HasOneOutcome CliFault.NoMemory (merge_run options begun edits out lines kept) }
    ensures begun_again { (is_carried_on : Bool) (model precedence other_model other_precedence : Reading) (start other_start : Option Reading)
        → IsSome model.before → IsSome precedence.before → IfSome start (λ source. IsSome source.before)
        → other_model.before ≡ model.before → other_precedence.before ≡ precedence.before
        → option_map (λ source. source.before) other_start ≡ option_map (λ source. source.before) start
        → EndAlike (prepare_run is_carried_on model precedence start) (prepare_run is_carried_on other_model other_precedence other_start) }
    ensures ended_again { (options : OptionsState) (begun : Prepared) (edits other_edits : List Reading)
        (out lines : Writing) (kept : Option Keeping) (other_out other_lines : Writing) (other_kept : Option Keeping)
        → All (λ source. IsSome source.before) edits → map (λ source. source.before) other_edits ≡ map (λ source. source.before) edits
        → EndAlike (merge_run options begun edits out lines kept) (merge_run options begun other_edits other_out other_lines other_kept) }
    ensures written_again { (options : OptionsState) (begun : Prepared) (edits other_edits : List Reading) (status other : StatusState)
        (out lines : Writing) (kept : Option Keeping) (other_out other_lines : Writing) (other_kept : Option Keeping)
        → All (λ source. IsSome source.before) edits → map (λ source. source.before) other_edits ≡ map (λ source. source.before) edits
        → (merge : IsOfOneMerge options begun edits out lines kept status)
        → (again : IsOfOneMerge options begun other_edits other_out other_lines other_kept other)
        → merge_outputs begun.is_new merge.merged ≡ merge_outputs begun.is_new again.merged }
{
    one_history();
    one_result();
    one_reply();
    one_beginning();
    one_opening();
}

/// A law of edits: what is shown of a history, whole or up to a commit, is an edit of that history and of each that goes on from it, whatever the caller
/// says. It changes nothing, whatever is held; so it makes no entry, and is merged whole.
pub fn shown_edits()
    ensures some { (given : GroundState) (at from : Option ℕ) (entries rest : List Answered) (answer : List ℕ) (number : ℕ)
        → IsSound given.pit → length (commits_of entries) ≤ COMMITS_MAX → given.ours ≡ entries ++ rest → IsShownOf at given.pit entries answer
        → (edit : EditState) × IsEditOf given from number answer edit }
    ensures unchanged { (given : GroundState) (at from : Option ℕ) (entries rest : List Answered) (answer : List ℕ) (number : ℕ) (edit : EditState) (held : ℕ → Option ℕ)
        → IsSound given.pit → length (commits_of entries) ≤ COMMITS_MAX → given.ours ≡ entries ++ rest → IsShownOf at given.pit entries answer
        → IsEditOf given from number answer edit → changes_of given.pit.blocks edit held ≡ [] }
    ensures taken { (options : OptionsState) (at : Option ℕ) (entries rest : List Answered) (answer : List ℕ) (number : ℕ) (old new : Merged)
        → IsSound old.merging.desk.plan.pit → length (commits_of entries) ≤ COMMITS_MAX → old.ours ≡ entries ++ rest → IsShownOf at old.merging.desk.plan.pit entries answer
        → IsTaken options number answer old new → (new.merging.desk.history ≡ old.merging.desk.history) × (new.merging.is_whole ≡ old.merging.is_whole) }
{
    one_history();
    shown_again();
    shown_base();
    unchanged_edits();
}

/// A law of merges, in numbers: at most 64 edits.
pub fn edit_limit()
    ensures { EDITS_MAX ≡ 64 }
{}

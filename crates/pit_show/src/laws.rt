//! Laws of the definitions, each as the contract of a function that does nothing.
ghost use Rattle.std.specs.Prelude.{◌≡◌, ◌↔◌, ℕ, ◌≤◌, List, [], ◌∷◌, ◌++◌, length, take, Option, Some, None, IsSome, All};
ghost use Rattle.std.specs.Io.KnownBytes.{Keeps};
ghost use Rattle.pit_model.specs.Pit.{Pit};
ghost use Rattle.pit_plan.specs.Schedule.{Commit};
ghost use Rattle.pit_desk.specs.History.{Answered, commit_of, commits_by, commits_of};
ghost use Rattle.pit_lines.specs.Ranges.{IsInRange};
ghost use Rattle.pit_lines.specs.Texts.{history_text};
ghost use Rattle.pit_step.specs.LineTexts.{left_text};
ghost use Rattle.pit_step.specs.Steps.{HasOneOutcome, want_aside};
ghost use Rattle.pit_step.specs.Devices.{Reading, Writing, HasToldOutcome};
ghost use Rattle.pit_state.specs.States.{EachFits, IsStateOf};
ghost use Rattle.pit_show.specs.Fronts.{IsFront};
ghost use Rattle.pit_show.specs.ShowText.{history_comment};
ghost use Rattle.pit_show.specs.Show.{IsShown, show_run};

use pit_lines::laws::{one_history, one_result};
use pit_step::CliFault;

/// A law of fronts: where there are so many commits, the entries have one front up to the last of them. Its commits are the first ones, and
/// it ends with the entry that made the last.
pub fn one_front()
    ensures some { (entries : List Answered) (count : ℕ) → count ≤ length (commits_of entries) → (front : List Answered) × IsFront entries count front }
    ensures once { (entries : List Answered) (count : ℕ) (front other : List Answered) → IsFront entries count front → IsFront entries count other → front ≡ other }
    ensures commits { (entries : List Answered) (count : ℕ) (front : List Answered) → IsFront entries count front → commits_of front ≡ take count (commits_of entries) }
    ensures last { (entries : List Answered) (count : ℕ) (before : List Answered) (e : Answered) → IsFront entries count (before ++ e ∷ []) → commits_by e ≡ commit_of e.call ∷ [] }
{}

/// A law of what is shown: after as many commits as there are, the same is shown as where no number is asked for.
pub fn shown_at_all()
    ensures { (pit : Pit) (text answer : List ℕ) (commits : List Commit) → IsStateOf pit text commits
        → IsShown None pit text answer ↔ IsShown (Some (length commits)) pit text answer }
{
    one_history();
    one_result();
}

/// A law of histories: where the numbers of one are in the ranges of their types, the comment on its entries up to the last commit is shown of its
/// text, and then the solution that all its commits leave. This is shown of each such history whose entries fit the pit.
pub fn shown_history()
    ensures is { (pit : Pit) (history : List Answered) (answer : List ℕ) → All IsInRange history → IsShown None pit (history_text history) answer
        → (front : List Answered) × IsFront history (length (commits_of history)) front × (answer ≡ history_comment front ++ left_text pit (commits_of history)) }
    ensures shown { (pit : Pit) (history front : List Answered) → All IsInRange history → EachFits pit history → IsFront history (length (commits_of history)) front
        → IsShown None pit (history_text history) (history_comment front ++ left_text pit (commits_of history)) }
{
    one_history();
}

/// A law of runs: where devices tell their bytes, these say how a run ended. Of a solution that mines no block nothing is written, and then they
/// don't show whether memory ran out.
pub fn one_outcome()
    ensures seen { (at : Option ℕ) (model schedule : Reading) (out : Writing) → IsSome model.before → IsSome schedule.before
        → HasOneOutcome CliFault.NoMemory (want_aside CliFault.NoMemory (show_run at model schedule out)) }
    ensures written { (at : Option ℕ) (model schedule : Reading) (out : Writing)
        → HasToldOutcome (model ∷ schedule ∷ []) (Keeps out.before out.after → ⊥) (show_run at model schedule out) }
{
    one_history();
    one_result();
}

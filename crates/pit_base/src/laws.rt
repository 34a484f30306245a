//! Laws of the definitions, each as the contract of a function that does nothing.
ghost use Rattle.std.specs.Prelude.{◌≡◌, ◌↔◌, ℕ, ◌≤◌, ◌<◌, Bool, false, List, ◌++◌, length, take, Option, All};
ghost use Rattle.pit_model.specs.Pit.{Pit, IsSound};
ghost use Rattle.pit_plan.specs.Schedule.{held_period};
ghost use Rattle.pit_plan.specs.declared.plan.TheConstants.{COMMITS_MAX};
ghost use Rattle.pit_desk.specs.History.{Answered, commits_of};
ghost use Rattle.pit_lines.specs.Ranges.{IsInRange};
ghost use Rattle.pit_lines.specs.Texts.{history_text};
ghost use Rattle.pit_text.specs.Solution.{schedule_of};
ghost use Rattle.pit_text.specs.SolutionText.{solution_text};
ghost use Rattle.pit_step.specs.Inputs.{IsSolutionOf};
ghost use Rattle.pit_state.specs.States.{is_history, commits_of_schedule};
ghost use Rattle.pit_show.specs.Show.{shown_count, IsShown};
ghost use Rattle.pit_base.specs.Again.{ArePeriodsOf, IsLeadingComment, StandsForLeft, IsShownOf};
ghost use Rattle.pit_base.specs.Bases.{IsSolutionBase};

use pit_lines::laws::one_history;

/// A law of solutions: what is written of a schedule of a sound pit, alone or behind a comment of one line, is no history, and stands for that
/// schedule. Its one commit, or none, leaves each block what the schedule has.
pub fn solution_again()
    ensures kind { (pit : Pit) (comment : List ℕ) (period : ℕ → Option ℕ) → IsSound pit → IsLeadingComment comment
        → is_history (comment ++ solution_text (schedule_of pit.blocks period)) ≡ false }
    ensures stands { (pit : Pit) (comment : List ℕ) (period : ℕ → Option ℕ) → IsSound pit → IsLeadingComment comment → ArePeriodsOf pit period
        → IsSolutionOf pit (comment ++ solution_text (schedule_of pit.blocks period)) (schedule_of pit.blocks period) }
    ensures left { (blocks b : ℕ) (period : ℕ → Option ℕ) → b < blocks → held_period (commits_of_schedule (schedule_of blocks period)) b ≡ period b }
{}

/// A law of what is shown, of a solution or of a history: it is a solution, and stands for the schedule that the commits leave which are shown. What is
/// shown of the text of `to_lines` is shown of its history, where its numbers are in the ranges of their types.
pub fn shown_again()
    ensures any { (at : Option ℕ) (pit : Pit) (text answer : List ℕ) → IsSound pit → (shown : IsShown at pit text answer) → length shown.commits ≤ COMMITS_MAX
        → StandsForLeft pit answer (take (shown_count at shown.commits) shown.commits) }
    ensures history { (at : Option ℕ) (pit : Pit) (entries : List Answered) (answer : List ℕ) → IsSound pit → length (commits_of entries) ≤ COMMITS_MAX
        → IsShownOf at pit entries answer → StandsForLeft pit answer (take (shown_count at (commits_of entries)) (commits_of entries)) }
    ensures written { (at : Option ℕ) (pit : Pit) (history : List Answered) (answer : List ℕ) → All IsInRange history → IsShown at pit (history_text history) answer
        → IsShownOf at pit history answer }
{
    one_history();
}

/// A law of bases: what is shown of a history was made from the commits that it shows, of that history and of each that goes on from it, whatever the
/// caller says. It was made from nothing else.
pub fn shown_base()
    ensures { (at from : Option ℕ) (pit : Pit) (entries rest : List Answered) (answer : List ℕ) (is_resumed : Bool) (count : ℕ)
        → length (commits_of entries) ≤ COMMITS_MAX → IsShownOf at pit entries answer
        → IsSolutionBase (entries ++ rest) is_resumed from answer count ↔ (count ≡ shown_count at (commits_of entries)) }
{
    one_history();
}

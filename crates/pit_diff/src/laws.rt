//! Laws of the definitions, each as the contract of a function that does nothing.
ghost use Rattle.std.specs.Prelude.{◌≡◌, ◌↔◌, ℕ, ◌<◌, [], ◌∷◌, List, Option, IfSome, IsSome, length};
ghost use Rattle.std.specs.Io.KnownBytes.{Keeps};
ghost use Rattle.pit_model.specs.Pit.{Pit};
ghost use Rattle.pit_plan.specs.Schedule.{Commit};
ghost use Rattle.pit_step.specs.declared.status.Status.TheVariants.{Fine, Failed};
ghost use Rattle.pit_step.specs.Steps.{HasOneOutcome, want_aside};
ghost use Rattle.pit_step.specs.Devices.{Reading, Writing, HasToldOutcome};
ghost use Rattle.pit_diff.specs.Changes.{changes_of, moves_of};
ghost use Rattle.pit_diff.specs.Laid.{LeadOver, LeaveTheSame, all_moved};
ghost use Rattle.pit_diff.specs.DiffText.{diff_text, diff_answer};
ghost use Rattle.pit_diff.specs.Diff.{diff_run};

use pit_lines::laws::{one_history, one_result};
use pit_step::CliFault;

/// A law of texts: there is none exactly where two lists of commits leave the same periods and the same limits, and the status says so.
pub fn nothing_differs()
    ensures text { (pit : Pit) (old new : List Commit) → (diff_text pit old new ≡ []) ↔ LeaveTheSame pit old new }
    ensures fine { (pit : Pit) (old new : List Commit) → ((diff_answer pit old new).1 ≡ Fine) ↔ LeaveTheSame pit old new }
{}

/// A law of changes: their blocks rise, each has another period, and laid over the old schedule they are the new one.
pub fn changes_lead_over()
    ensures { (blocks : ℕ) (old new : ℕ → Option ℕ) → LeadOver blocks (changes_of blocks old new) old new }
{}

/// A law of moves: where all periods are in range, they are of as many blocks as have another period.
pub fn moves_add_up()
    ensures { (blocks periods : ℕ) (old new : ℕ → Option ℕ)
        → ((b : ℕ) → b < blocks → IfSome (old b) (λ t. t < periods)) → ((b : ℕ) → b < blocks → IfSome (new b) (λ t. t < periods))
        → all_moved (moves_of blocks periods old new) ≡ length (changes_of blocks old new) }
{}

/// A law of runs: where devices tell their bytes, these say how a run ended, with which status or with which fault. A run that wrote nothing may have
/// been out of memory, which no device shows.
pub fn one_outcome()
    ensures seen { (model old new : Reading) (out : Writing)
        → IsSome model.before → IsSome old.before → IsSome new.before
        → HasOneOutcome CliFault.NoMemory (want_aside CliFault.NoMemory (diff_run model old new out)) }
    ensures written { (model old new : Reading) (out : Writing)
        → HasToldOutcome (model ∷ old ∷ new ∷ []) (Keeps out.before out.after → ⊥) (diff_run model old new out) }
{
    one_history();
    one_result();
}

ghost use Rattle.std.specs.Prelude.{[], ◌∷◌, IsSome};
ghost use Rattle.pit_step.specs.Devices.{Reading, Writing, HasToldOutcome};
ghost use Rattle.pit_view.specs.Value.{value_run};
ghost use Rattle.pit_view.specs.Check.{check_run};
ghost use Rattle.pit_view.specs.Replay.{replay_run};

use pit_desk::one_wrong_place;
use pit_lines::laws::{one_history, one_result};

/// A law of runs: where devices tell their bytes, these say how a run ended, with which status or with which fault.
pub fn one_outcome()
    ensures value { (model solution : Reading) (out : Writing) → HasToldOutcome (model ∷ solution ∷ []) (IsSome out.before) (value_run model solution out) }
    ensures check { (model precedence solution : Reading) (out : Writing)
        → HasToldOutcome (model ∷ precedence ∷ solution ∷ []) (IsSome out.before) (check_run model precedence solution out) }
    ensures replay { (model precedence history : Reading) (out : Writing)
        → HasToldOutcome (model ∷ precedence ∷ history ∷ []) (IsSome out.before) (replay_run model precedence history out) }
{
    one_history();
    one_result();
    one_wrong_place();
}

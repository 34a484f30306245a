//! Laws of the definitions, each as the contract of a function that does nothing.
ghost use Rattle.std.specs.Prelude.{◌≡◌, ◌+◌, not, List, [], ◌∷◌, flat_map, filter, All, IsSome, Option};
ghost use Rattle.std.specs.List.{count_by, range_with_len};
ghost use Rattle.pit_model.specs.Pit.{Pit};
ghost use Rattle.pit_text.specs.Cutting.{Cut};
ghost use Rattle.pit_step.specs.Devices.{Reading, Writing, HasToldOutcome};
ghost use Rattle.pit_info.specs.Figures.{has_preds, root_count};
ghost use Rattle.pit_info.specs.Info.{IsToldIf, info_run};
ghost use Rattle.pit_info.specs.LongestRuns.{IsLongestRun};
ghost use Rattle.pit_info.specs.Unknown.{has_known_key, unknown_runs};

/// A law of precedences: the blocks without a predecessor and those that have one are all blocks.
pub fn roots_and_others()
    ensures { (pit : Pit) → root_count pit + count_by (has_preds pit) (range_with_len 0 pit.blocks) ≡ pit.blocks }
{}

/// A law of unknown keys: each run has a line, holds no known key, and stands between lines with known keys or at an end; one behind the other
/// they are all lines whose keys aren't known.
pub fn unknown_runs_are_longest()
    ensures longest { (lines : List Cut) → All (IsLongestRun lines) (unknown_runs lines) }
    ensures all { (lines : List Cut) → flat_map (λ run. run) (unknown_runs lines) ≡ filter (λ line. not (has_known_key line)) lines }
{}

/// A law of runs: where devices tell their bytes, these say how a run ended, with which status or with which fault.
pub fn one_outcome()
    ensures { (model precedence : Reading) (blocks : Option Reading) (out : Writing)
        → HasToldOutcome (model ∷ precedence ∷ []) (IsToldIf blocks × IsSome out.before) (info_run model precedence blocks out) }
{}

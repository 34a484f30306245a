//! Laws of the definitions, each as the contract of a function that does nothing.
ghost use Rattle.std.specs.Prelude.{◌≡◌, ◌<◌, List, ℕ, length};
ghost use Rattle.pit_file.specs.declared.hold.TheConstants.{OPENINGS_MAX};
ghost use Rattle.pit_file.specs.OutputState.{OutputState, HasKept, HasNotKept, IsAsBefore, IsTold};

/// A law of outputs: a text isn't both kept and not kept; and where an output tells what it holds, a text of some bytes that is kept shows there.
pub fn kept_or_not()
    ensures apart { (text : List ℕ) (before after : OutputState) → HasKept text before after → HasNotKept text before after → ⊥ }
    ensures shown { (text : List ℕ) (before after : OutputState) → IsTold before → 0 < length text → HasKept text before after → IsAsBefore before after → ⊥ }
{}

/// A law of new files, in numbers: one is opened at most 1,000 times.
pub fn opening_limit()
    ensures { OPENINGS_MAX ≡ 1000 }
{}

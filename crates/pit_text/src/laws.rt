//! Laws of the definitions, each as the contract of a function that does nothing.
ghost use Rattle.std.specs.Prelude.{◌≢◌, ℕ, List};
ghost use Rattle.pit_model.specs.Tightest.{AreTightest};
ghost use Rattle.pit_text.specs.Causes.{cause_of};
ghost use Rattle.pit_text.specs.Cutting.{Cut};
ghost use Rattle.pit_text.specs.Stands.{Judge, EndTest, StandsFor, FailsFirst, StandsWhole, FailsWhole, HasOneResult};
ghost use Rattle.pit_text.specs.Model.{Fact, model_line, pit_of};
ghost use Rattle.pit_text.specs.LimitLines.{limit_lines};

use super::error::{Cause, Fault};

/// Each text has exactly one result, however its lines are judged: facts, or the place and the cause of a fault.
pub fn one_result<F, C>()
    ensures lines { (judge : Judge F C) (lines : List Cut) → HasOneResult (StandsFor judge lines) (FailsFirst judge lines) }
    ensures whole { (judge : Judge F C) (end_test : EndTest F C) (lines : List Cut) (end : ℕ)
        → HasOneResult (StandsWhole judge end_test lines) (FailsWhole judge end_test lines end) }
{}

/// A law of causes: to be out of memory is no fault. So a reader answers it only where it has stopped for it.
pub fn no_fault_wants_memory()
    ensures { (fault : Fault) → cause_of fault ≢ Cause.NoMemory }
{}

/// A law of models: in the pit of a text each resource in each period has the greatest lower and the least upper bound that the limit lines
/// for it give, and none where none of them gives one.
pub fn limits_are_tightest()
    ensures { (lines : List Cut) (facts : List Fact) → StandsFor model_line lines facts → AreTightest (pit_of facts) (limit_lines facts) }
{}

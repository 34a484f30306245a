//! Laws of the definitions, each as the contract of a function that does nothing.
ghost use Rattle.std.specs.Prelude.{◌≡◌, ◌↔◌, [], ◌∷◌, List, IsSome};
ghost use Rattle.pit_model.specs.Pit.{Pit, IsSound};
ghost use Rattle.pit_plan.specs.Schedule.{Commit, held_period, limit_of};
ghost use Rattle.pit_plan.specs.Shortfalls.{shortfalls_of};
ghost use Rattle.pit_plan.specs.Breaches.{AreGood, IsBreachOf};
ghost use Rattle.pit_step.specs.declared.status.Status.TheVariants.{Fine};
ghost use Rattle.pit_step.specs.Devices.{Reading, Writing, HasToldOutcome};
ghost use Rattle.pit_all.specs.Breaches.{breaches_of, first_of};
ghost use Rattle.pit_all.specs.AllText.{all_answer};
ghost use Rattle.pit_all.specs.CheckAll.{check_all_run};
ghost use Rattle.pit_all.specs.declared.outs.TheConstants.{PAIRS_SHOWN};

use pit_lines::laws::{one_history, one_result};

/// A law of breaches: the first of all is the first breach, and the status says that nothing is wrong exactly where what the commits leave is good
/// and nothing falls short.
pub fn all_breaches()
    ensures first { (pit : Pit) (commits : List Commit) → IsSound pit → IsBreachOf pit commits (first_of (breaches_of pit (held_period commits) (limit_of pit commits))) }
    ensures fine { (pit : Pit) (commits : List Commit) → IsSound pit → ((all_answer pit commits).1 ≡ Fine) ↔ (AreGood pit commits × (shortfalls_of pit (held_period commits) ≡ [])) }
{}

/// A law of runs: where devices tell their bytes, these say how a run ended, with which status or with which fault.
pub fn one_outcome()
    ensures { (model precedence schedule : Reading) (out : Writing)
        → HasToldOutcome (model ∷ precedence ∷ schedule ∷ []) (IsSome out.before) (check_all_run model precedence schedule out) }
{
    one_history();
    one_result();
}

/// A law of pairs out of order, in numbers: the first 1,000 are shown.
pub fn pair_limit()
    ensures { PAIRS_SHOWN ≡ 1000 }
{}

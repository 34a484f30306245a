//! Laws of the definitions, each as the contract of a function that does nothing.
ghost use Rattle.std.specs.Prelude.{◌≡◌, ℕ, ℤ, ◌+◌, ◌++◌, ◌∷◌, [], List, length, Option, None, unwrap_or, is_some, if◌then◌else◌};
ghost use Rattle.pit_model.specs.Pit.{Pit, upper_of};
ghost use Rattle.pit_plan.specs.Schedule.{Commit, write_of, revision_of, held_period, last_number, limit_of};
ghost use Rattle.pit_plan.specs.Breaches.{IsFirstBreach};
ghost use Rattle.pit_plan.specs.declared.breach.Breach.{Breach};
ghost use Rattle.pit_plan.specs.declared.plan.TheConstants.{COMMITS_MAX};

/// A law of commits: what none leaves, and what one more at the end changes of each block, and of each limit in force.
pub fn commits_follow()
    ensures held_none { (b : ℕ) → held_period [] b ≡ None }
    ensures held_more { (commits : List Commit) (commit : Commit) (b : ℕ) → held_period (commits ++ commit ∷ []) b ≡ unwrap_or (write_of commit b) (held_period commits b) }
    ensures last_none { (b : ℕ) → last_number [] b ≡ 0 }
    ensures last_more { (commits : List Commit) (commit : Commit) (b : ℕ) → last_number (commits ++ commit ∷ []) b ≡ (if is_some (write_of commit b) then length commits + 1 else last_number commits b) }
    ensures limit_none { (pit : Pit) (r t : ℕ) → limit_of pit [] r t ≡ upper_of pit r t }
    ensures limit_more { (pit : Pit) (commits : List Commit) (commit : Commit) (r t : ℕ)
        → limit_of pit (commits ++ commit ∷ []) r t ≡ unwrap_or (revision_of commit r t) (limit_of pit commits r t) }
{}

/// A law of breaches: each schedule is good or has a first breach, and never both, nor two of them.
pub fn one_breach()
    ensures some { (pit : Pit) (schedule : ℕ → Option ℕ) (limit : ℕ → ℕ → Option ℤ) → (breach : Option Breach) × IsFirstBreach pit schedule limit breach }
    ensures same { (pit : Pit) (schedule : ℕ → Option ℕ) (limit : ℕ → ℕ → Option ℤ) (breach other : Option Breach)
        → IsFirstBreach pit schedule limit breach → IsFirstBreach pit schedule limit other → breach ≡ other }
{}

/// A law of plans, in numbers: at most 4,294,967,295 commits.
pub fn commit_limit()
    ensures { COMMITS_MAX ≡ 4294967295 }
{}

//! Laws of the definitions, each as the contract of a function that does nothing.
ghost use Rattle.std.specs.Prelude.{◌≡◌, ◌++◌, ℕ, List, Option};
ghost use Rattle.pit_model.specs.Pit.{Pit};
ghost use Rattle.pit_share.specs.Planners.{PlannerState};
ghost use Rattle.pit_serve.specs.Entries.{session_entries_of};
ghost use Rattle.pit_serve.specs.Sessions.{IsSession};

use crate::session_end::SessionEnd;

/// A law of sessions: the log that a planner hands in has what it had before, and then an entry for each ending that was answered, in order, with that
/// reply. An entry reads and writes what the lines since its `begun` say, by their answers. So no other answer makes an entry, and each is told once.
pub fn session_entries()
    ensures { (pit : Pit) (max_entries : ℕ) (planner : PlannerState) (input before after : Option (List ℕ)) (end : SessionEnd) (replies : ℕ) (log : PlannerState)
        (session : IsSession pit max_entries planner input before after end replies log)
        → log.items ≡ planner.items ++ session_entries_of pit planner.number (session.turns.told ++ session.turns.cut) }
{}

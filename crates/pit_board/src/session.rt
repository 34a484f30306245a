//! What the planners of one workspace have in common, by a name for contracts.
ghost use Rattle.std.specs.Prelude.{ℕ, List, []};
ghost use Rattle.logbook.specs.Pages.{Book};
ghost use Rattle.pit_model.specs.Pit.{Pit};
ghost use Rattle.pit_desk.specs.History.{Answered};

use std::marker::Brand;
use std::sync::ledger::Ledger;

/// A session: a name by which the types of a workspace speak of the same facts. It has no value. A caller works in a function over a
/// session, and calls that with `Brand`, which takes the facts that the conditions ask for.
pub trait Session: Ledger {
    /// The book that keeps the list of entries.
    ghost book: { Book };

    /// The pit that is planned.
    ghost instance: { Pit };

    /// The history with which the workspace was opened.
    ghost opening: { List Answered };

    /// How many entries the history may have.
    ghost max_entries: { ℕ };

    /// How many planners there are.
    ghost planners: { ℕ };
}

impl Session for Brand {
    ghost book = { record { number = 0; log_name = 0; cells_name = 0 } };

    ghost instance = { record { blocks = 0; periods = 0; resources = 0; rate = 0; profits = []; coefs = []; preds = []; bounds = []; places = [] } };

    ghost opening = { [] };

    ghost max_entries = { 0 };

    ghost planners = { 0 };
}

//! A schedule as any of its texts tells it: a solution, or a history.
//!
//! Either stands for a list of commits, a solution for one at most, and a history for those of its entries that were answered Committed. Each
//! entry of a history has to fit the pit, but no reply is looked at, so that a schedule can be read after its model was changed. `read_state`
//! gives the plan that these commits leave; all that is said of a schedule is said of this plan.
#![tactic(auto)]

mod kind;
mod parsed;
mod plans;
mod state;

pub use kind::is_history;
pub use parsed::{entries_of, pairs_of};
pub use plans::{history_plan, schedule_plan};
pub use state::read_state;

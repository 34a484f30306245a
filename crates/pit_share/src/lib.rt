//! The workspace: many planners edit one schedule, each in transactions.
//!
//! A `Workspace` has the desk behind its lock, and a `Seat` for each planner. A `Planner` begins a `Transaction`, which reads without the
//! lock: all its reads are of one snapshot, the commits that the planner has seen when it begins. `commit` and `abort` take the lock, and
//! make one entry of the history and one item of the planner's log; `abandon` makes neither. Whenever the lock is free, the history behind
//! it is one of one thread, and what is published is just its commits. `Workspace::close` takes the logs back, and shows that each entry past
//! the opening history is an item of a log.
#![tactic(auto)]

mod account;
mod ahead;
mod closed;
mod comparing;
mod error;
mod floor;
mod laws;
mod log;
mod new_session;
mod planner;
mod seat;
mod transaction;
mod workspace;

pub use closed::Closed;
pub use error::{CloseError, OpenError, ReadStop};
pub use laws::{committed_is_seen, one_shared_history, planner_limit};
pub use log::PlannerLog;
pub use new_session::{NewSession, PLANNERS_MAX};
pub use pit_board::Session;
pub use planner::Planner;
pub use seat::Seat;
pub use transaction::Transaction;
pub use workspace::Workspace;

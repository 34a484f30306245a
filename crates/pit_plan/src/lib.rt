//! A plan: which block of a pit is mined in which period, as commits leave it, and what that loads, earns and breaks.
//!
//! Contracts see a plan as a pit, a number of commits, for each block its period and the number of the last commit that named it, and the
//! upper limits in force. A plan stands for a list of commits where these are what the list says; its load, its value, its first breach and
//! its shortfalls are then those of the list, by sums over all blocks.
#![tactic(auto)]

mod breach;
mod cell_list;
mod judging;
mod laws;
mod limits;
mod loads;
mod moving;
mod overlay;
mod plan;
mod plan_view;
mod schedule;
mod short;
mod tally;
mod writes;

pub use breach::Breach;
pub use laws::{commit_limit, commits_follow, one_breach};
pub use plan::{COMMITS_MAX, Plan};
pub use plan_view::PlanView;
pub use schedule::keeps_order;
pub use short::Short;
pub use writes::writes_of;

//! A schedule as a table: `table` writes a row for each period, with the number of its blocks, what they earn, what is earned up to it, and for
//! each resource the load, its limits, and the room below the upper one.
//!
//! The schedule is a solution or a history, as `pit_state` reads them. What a row says is a sum over all blocks, and all rows are found in one
//! pass over these. The values of the rows add up to the value of the schedule, as the laws say.
#![tactic(auto)]

mod csv_text;
mod engine;
mod laws;
mod mined;

pub use engine::table;
pub use laws::{one_outcome, rows_add_up};

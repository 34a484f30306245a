//! What differs between two schedules of one model: `diff` writes each block whose period differs, how many blocks went from which period to
//! which, each upper limit in force and each load that differs, and the values where they do.
//!
//! Each schedule is a solution or a history, as `pit_state` reads them. Nothing is written exactly where both leave the same periods and the same
//! limits; and the old schedule, with the changes of its blocks laid over it, is the new one, as the laws say.
#![tactic(auto)]

mod blocks;
mod cells;
mod counts;
mod diff_text;
mod engine;
mod laws;
mod moves;

pub use engine::diff;
pub use laws::{changes_lead_over, moves_add_up, nothing_differs, one_outcome};

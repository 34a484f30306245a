//! What an edit was made from: how many of the commits that a merge begins with.
//!
//! An edit is a schedule that somebody made. What a history was made from is told by the entries that it shares with the one that the merge begins
//! with, as by `git merge-base`; what a solution was made from, by its first line, where `show` wrote it. Of any other solution the caller says it. The
//! blocks of an edit and of its base are lists of periods.
//!
//! What `show` wrote is such a solution: it stands for the schedule that was shown, and was made from the commits that it shows. Laws say so.
#![tactic(auto)]

mod base;
mod common;
mod error;
mod held;
mod laws;
mod mark;

pub use base::{history_base, solution_base};
pub use error::{BaseFault, fault_of};
pub use held::{base_periods, history_periods, schedule_periods};
pub use laws::{shown_again, shown_base, solution_again};

//! The solution that a schedule leaves: `show` writes it as the program's other solutions are written, after all commits or after the first ones.
//!
//! The schedule is a solution or a history, as `pit_state` reads them. Of a history a comment goes before the solution: how many commits are
//! shown, and the SHA-256 of the entries up to the last of these, each by its line in format 2, so that two histories that have the same
//! entries so far have the same sum, whatever format they are written in.
#![tactic(auto)]

mod comment;
mod engine;
mod front;
mod laws;
mod left;
mod shown;

pub use comment::sum_of;
pub use engine::show;
pub use front::front_to;
pub use laws::{one_front, one_outcome, shown_at_all, shown_history};

//! What a run leaves is written: a solution, a report, and the lines of a history.
//!
//! `write_outputs` writes the three, and ends as it was asked to. The history of a run that is carried on is given to its file before the others are
//! written, so that what they say is in the file; another is written last. `lines_if` gathers its lines, and `write_new_line` begins the report of one
//! that wasn't there.
#![tactic(auto)]

mod output;

pub use output::{OutputTexts, lines_if, status_of_shorts, write_new_line, write_outputs};

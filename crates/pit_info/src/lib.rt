//! A pit in numbers: `info` writes how large it is, how much of it is set, its pairs and its benches, and what may be a slip of its texts:
//! resources without an upper limit, a limit that can't be met, and the keys of the model's header that aren't listed.
//!
//! Each number is a count of what the pit has, as `specs/Figures.antt` says. A misspelt section line is skipped with the lines below it, so it
//! shows as a run of unknown keys.
#![tactic(auto)]

mod benches;
mod blocks;
mod engine;
mod info_text;
mod laws;
mod limits;
mod unknown;

pub use engine::info;
pub use laws::{one_outcome, roots_and_others, unknown_runs_are_longest};

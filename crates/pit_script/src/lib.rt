//! Scripts: the texts that say what one planner does, job after job.
//!
//! A script is cut into lines and fields as every text is. It stands for its jobs, each a list of steps and how the job ends, or has its first fault;
//! the parser answers exactly that; or that it is out of memory, where the lines so far have no fault. A script keeps the pit that it is for, and the
//! pit's benches, so each of its jobs is in the ranges of that pit.
#![tactic(auto)]

mod benches;
mod draft;
mod error;
mod fact;
pub mod laws;
mod line;
mod number;
mod script;
mod step;
mod word;

pub use benches::Benches;
pub use error::{ScriptCause, ScriptError, ScriptFault};
pub use fact::ScriptFact;
pub use line::line_of_word;
pub use script::Script;
pub use step::{JOBS_MAX, JobEnd, SHIFT_MAX, Step, Way};
pub use word::{Word, word_of};

//! Planners in threads of their own, each with a script, who edit one schedule at once.
//!
//! Each planner's thread does the jobs of its script in order, as `pit_job` says, on one workspace, which is then closed. What is proved of the
//! closed history is said of each planner's own entries: which job left which, with which effect, and that the outcomes tell it.
//!
//! Or they take turns in one thread, each on a workspace of its own. The closed history then has the planners' entries in the order of their numbers.
#![tactic(auto)]

mod in_turn;
pub mod laws;
mod planner_run;
mod report;
mod runner;
mod running;
mod shared;
mod threads;

pub use in_turn::run_in_turn;
pub use pit_job::{Gate, Open, Outcome, RETRIES_MAX, RunEnd, laws as job_laws, run_script};
pub use pit_script::{
    Benches, JOBS_MAX, JobEnd, SHIFT_MAX, Script, ScriptCause, ScriptError, Step, Way, Word,
    laws as script_laws,
};
pub use planner_run::PlannerRun;
pub use report::{InTurnError, Report, RunError};
pub use running::run;

//! The jobs of one planner: what a job does to a schedule, what a try of it does, how often it is repeated, and what becomes of a script.
//!
//! A job's effect over what is known of some blocks is what it writes and revises, or nothing, where a shift or an expectation fails or the
//! job ends by `abort`. Where it reads no block that isn't known, each schedule that holds what is known has the same effect.
//!
//! A try is a transaction of its own, which does the steps of the job in order and ends as the job does. Only a try that finds that a block has moved
//! is repeated. What is proved is said of the planner's log: which entries a job leaves there, that each has its job's effect over its own reads, and
//! that the outcome is the last one's reply, or Moved where the job is given up.
#![tactic(auto)]

mod attempt;
mod carry;
mod doing;
mod gate;
pub mod laws;
mod outcome;
mod planner_run;
mod shift;

pub use gate::{Gate, Open};
pub use outcome::{JobStop, Outcome, RunEnd, Tried};
pub use planner_run::{RETRIES_MAX, run_script};

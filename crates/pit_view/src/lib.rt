//! The engines of one thread: what a solution is worth and what it breaks, and whether a history is one that could have been.
//!
//! Each is a run of the steps of `pit_step`: it reads its inputs whole from devices and parses them, one after another, and writes the text of
//! what they stand for. Or it writes nothing, and the fault is the first one. As `one_outcome` says, what the devices show tells how a run
//! ended.
#![tactic(auto)]

mod audited;
mod check_text;
mod engines;
mod outcome;

pub use audited::{write_illegal, write_legal};
pub use engines::check::check;
pub use engines::replay::replay;
pub use engines::value::value;
pub use outcome::one_outcome;

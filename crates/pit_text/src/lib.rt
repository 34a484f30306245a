//! MineLib's texts (2013): how they are cut into lines and fields, and which facts or which first fault they stand for.
//!
//! Contracts see a text as its list of lines that are read. A text stands for exactly one result, as `one_result` says of every kind of text at once,
//! and each reader answers that result, or that it is out of memory.
#![tactic(auto)]

mod blocks;
mod cutting;
mod error;
mod laws;
mod model;
mod number;
mod precedence;
mod solution;
mod solution_text;
mod table;

pub use blocks::read_blocks;
pub use cutting::{Fields, Line, Lines, is_last, is_read, without_return};
pub use error::{Cause, Fault, TextError};
pub use laws::{limits_are_tightest, no_fault_wants_memory, one_result};
pub use model::{Key, Section, SectionFact, key_of, read_model, section_of, upper_bound};
pub use number::is_ascii;
pub use precedence::read_precedence;
pub use solution::{read_solution, read_solution_of};
pub use solution_text::write_solution;
pub use table::look_up;

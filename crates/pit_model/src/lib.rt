//! A pit: an instance of MineLib's problem CPIT (2013), put together fact by fact, and then read.
//!
//! Contracts see a pit as a record of plain lists. Each setter adds its fact to the record or answers the first refusal that is due, and
//! then the record is as it was; each reader is a function of the record.
#![tactic(auto)]

mod block_set;
mod bounds;
mod builder;
mod coefficients;
mod counts;
mod deposit;
mod error;
mod instance;
mod places;
mod predecessors;
mod profits;
mod sorted_coefficients;
mod successors;

pub use block_set::BlockSet;
pub use bounds::bounds_are_tightest;
pub use builder::Builder;
pub use counts::{BLOCKS_MAX, RESOURCES_MAX, pit_limits};
pub use deposit::Deposit;
pub use error::BuildError;
pub use instance::Instance;

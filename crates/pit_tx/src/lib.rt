//! What one transaction has read, written and revised.
//!
//! A `Work` keeps a read set and a write set, which are blocks, each with a period or none, and its revisions, which are resources
//! in periods, each with an upper limit or none. All three are `IndexMap`s, in the order of first use. It promises the three exact lists after
//! each call, that their blocks, periods and resources are in range, and that nothing stands twice in one of them. A block that
//! was read keeps the value that was noted first, so that a later validation compares what was really seen (Kung and Robinson
//! 1981). What was written or revised keeps its place and has its last value.
#![tactic(auto)]

mod error;
mod work;

pub use error::WorkError;
pub use work::{FIRST_ROOM, LimitMap, PeriodMap, Work};

//! Maps whose room for a first key is there, and one of numbers behind a filter.
//!
//! `insert` puts a key into an `IndexMap` and tells when that may take memory: a first key has its room from the start. `insert_each` puts several, or
//! none. A `FilteredSet` is a map of numbers for callers who mostly look for numbers that aren't there.
#![tactic(auto)]

mod filtered_set;
mod inserting;
mod keys;

pub use filtered_set::FilteredSet;
pub use inserting::{insert, insert_each};
pub use keys::{KeyHasher, Keys};

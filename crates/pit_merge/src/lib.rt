//! Edits that were made elsewhere are merged: from the bytes of a pit, of what is begun with, and of edits to a solution, a report and a history. As
//! `one_outcome` says, what the devices show tells how a merge ended, and on the same bytes each ends alike.
//!
//! `MergeInput::read` reads and parses the pit and what is begun with, so that the caller can make the history's output ready behind it. `merge` opens a
//! desk with that, and takes the edits one after another: each is read, parsed and committed before the next one is looked at. An edit is a solution or
//! a history; the base that it was made from is a front of the commits that the merge begins with. What `show` wrote of that history changes nothing.
#![tactic(auto)]

mod engine;
mod ground;
mod input;
mod laws;
mod made;
mod merger;
mod options;
mod parts;
mod report;

pub use engine::{EDITS_MAX, merge};
pub use input::MergeInput;
pub use laws::{edit_limit, one_merged_history, one_outcome, shown_edits};
pub use options::MergeOptions;
pub use pit_edit::{
    CONFLICTS_SHOWN, edit_writes, laid_over_in_order, late_edits, reported_conflicts,
    unchanged_edits,
};

//! Merging: an edit that somebody made elsewhere becomes a transaction that began at its base, and the desk says whether it stands.
//!
//! What the transaction read are the base's periods of the blocks that the edit changes, and what it writes are the edit's. So an edit that somebody has
//! made already is no change, a block that somebody else has changed since is a conflict, and the rules of the pit are judged on the merged schedule.
//! `Merging` keeps the desk, the lines that report the edits, and whether each was merged whole.
#![tactic(auto)]

mod answer;
mod answering;
mod changes;
mod conflicts;
mod edit;
mod laws;
mod line;
mod merging;
mod review;
mod work;

pub use conflicts::CONFLICTS_SHOWN;
pub use edit::Edit;
pub use laws::{edit_writes, laid_over_in_order, late_edits, reported_conflicts, unchanged_edits};
pub use merging::Merging;

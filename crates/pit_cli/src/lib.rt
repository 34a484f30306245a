//! Several planners, each with a script, edit one schedule at once: from the texts of the inputs to the solution, the report and the history.
//!
//! The texts are parsed in order. A desk is opened with what the plan begins with, a schedule or a history, and a workspace on the desk, with a planner
//! for each script. What is proved of their run is what `pit_run` says, behind the entries that the desk has then; or the first fault is answered: of the
//! texts, of the pit's limits, of the beginning, or of the number of planners. What is written is the solution that the closed history leaves, the report
//! of the runs, and the history where it is asked for, which is first where one is carried on. As `one_outcome` says, whether the texts are refused, and for which fault, is theirs alone, and the answer says what was
//! written.
#![tactic(auto)]

mod engine;
mod laws;
mod outcome;
mod plan_input;
mod plan_options;
mod report;
mod report_text;
mod running;
mod texts;

pub use engine::plan;
pub use laws::one_solution;
pub use outcome::{one_closed_history, one_outcome, same_in_turn};
pub use pit_all::check_all;
pub use pit_diff::diff;
pub use pit_file::{HistoryOut, Stream};
pub use pit_info::info;
pub use pit_keyed::Keys;
pub use pit_live::{LiveFile, LiveInput, SessionEnd, Sitting, live, one_live_history};
pub use pit_log::log;
pub use pit_merge::{
    CONFLICTS_SHOWN, EDITS_MAX, MergeInput, MergeOptions, edit_writes, laid_over_in_order,
    late_edits, merge, one_merged_history, reported_conflicts, shown_edits, unchanged_edits,
};
pub use pit_opening::{Beginning, Opening, opening_of};
pub use pit_show::show;
pub use pit_step::{
    BreachLine, CliFault, INPUT_BYTES_MAX, Input, ReadError, Status, bytes_of, read_all,
};
pub use pit_table::table;
pub use pit_view::{check, replay, value};
pub use plan_input::PlanInput;
pub use plan_options::PlanOptions;
pub use report::write_report;
pub use running::run_scripts;

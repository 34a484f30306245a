//! All that is wrong with a schedule: `check_all` writes its value, each pair of a block and its predecessor that is out of order, each load
//! above its limit in force, and each shortfall.
//!
//! The schedule is a solution or a history, as `pit_state` reads them. The first of all breaches is the one that `Plan::check` answers, and it
//! is fine exactly where nothing is broken and nothing falls short, as the laws say.
#![tactic(auto)]

mod all_text;
mod engine;
mod laws;
mod out_of_order;
mod outs;
mod overs;

pub use engine::check_all;
pub use laws::{all_breaches, one_outcome, pair_limit};
pub use out_of_order::OutOfOrder;
pub use outs::{Outs, PAIRS_SHOWN};

//! What a plan begins with, and the desk that it is opened on.
//!
//! A plan begins with nothing, with a schedule, or with a history that it carries on. Where the schedule is a solution, it is the first entry of the
//! desk's history. Where it is a history, or a history is carried on, its entries are the desk's, once an audit has found them legal.
#![tactic(auto)]

mod beginning;
mod desk;
mod laws;
mod opening;
mod parsed;

pub use beginning::Beginning;
pub use desk::desk_of;
pub use laws::{one_beginning, one_opening};
pub use opening::Opening;
pub use parsed::opening_of;

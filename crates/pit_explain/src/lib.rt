//! Further lines on a fault, for people at a terminal: the line of the input that it is about, what is wrong there, and what helps. And what a model
//! that was read passed over, and what helps against a refusal that a report tells.
//!
//! They stand behind an answer and can't change it: `explain` looks at the inputs again, and a report goes through `Watched`, which passes all on. The
//! contracts of `explain` and `advise` say that nothing is written where there is no terminal; what `explain` writes else, and what is found in a
//! report, is only tested.
#![tactic(auto)]

mod counts;
mod encoding;
mod excerpt;
mod explaining;
mod fault;
mod forms;
mod given;
mod history;
mod holder;
mod keys;
mod model;
mod passed;
mod script;
mod text;
mod watched;

pub use explaining::explain;
pub use given::Given;
pub use holder::holder_in;
pub use watched::Watched;

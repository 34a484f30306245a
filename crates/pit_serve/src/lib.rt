//! The session of one planner: requests as they come, one a line, and one answer a line to each.
//!
//! A line is cut and judged as one of a script is, and asks for something in the ranges of the pit, or has its first fault.
#![tactic(auto)]

mod answer;
mod asked;
mod fault;
mod hearing;
mod laws;
mod phase;
mod reply;
mod request;
mod serving;
mod session_end;
mod sitting;
mod word;
mod words;

pub use answer::Answer;
pub use asked::{Asked, LINE_MAX, asked_of};
pub use fault::RequestFault;
pub use laws::session_entries;
pub use phase::Phase;
pub use request::Request;
pub use serving::{Served, serve};
pub use session_end::SessionEnd;
pub use sitting::{SatDown, sit};
pub use word::RequestWord;

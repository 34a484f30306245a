//! A workspace at which planners sit down as they come: from the bytes of a pit and of a history to a session for each planner, and the history's file.
//!
//! `LiveInput::read` reads and parses the pit and the history, of which it leaves out a torn end. `live` opens a desk with them, replaces the history's
//! file whole and keeps it open, and has each planner served in a thread of its own, over streams that this opens. What an ending was answered is told
//! only once its entry is in the file and synced. When all sessions have ended, the closed history is one of one thread, and standard error is told.
#![tactic(auto)]

mod engine;
mod host;
mod input;
mod laws;
mod live_file;
mod notices;
mod report;
mod seating;
mod sessions;
mod sitting;
mod threads;

pub use engine::live;
pub use input::LiveInput;
pub use laws::one_live_history;
pub use live_file::LiveFile;
pub use pit_serve::SessionEnd;
pub use sitting::Sitting;

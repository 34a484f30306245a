//! The command line of `pit`: which words are taken, and what they ask for.
//!
//! `matched` has `clap` go over the words; what it takes names a subcommand, and gives all that this requires. `asked` says what it asks for: a
//! `Command`, with paths, numbers and flags as fields, or why it is refused. Behind that nothing knows `clap`'s matches or an option's name.
#![tactic(auto)]

mod argument;
mod command;
mod commands;
mod live_words;
mod merge_words;
mod notes;
mod origin;
mod plan_words;
mod rules;
mod streams;
mod subcommand;
mod words;

pub use command::{matched, refusal};
pub use commands::{Command, asked};
pub use live_words::LiveWords;
pub use merge_words::MergeWords;
pub use origin::{NewWords, Origin};
pub use plan_words::PlanWords;
pub use streams::stream_paths;
pub use words::{
    CheckWords, DiffWords, InfoWords, LogWords, ReplayWords, ShowWords, TableWords, ValueWords,
};

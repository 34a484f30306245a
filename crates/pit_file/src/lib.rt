//! The file of a history, which is replaced whole or not at all, and may grow then.
//!
//! Such a history has two names: its own, and that of the new file beside it, `NAME.pit-new`. The new file is opened and locked, written from
//! empty, synced, and only then renamed to the history's name. `TwoNames` has the steps, each with what it does to what stands at the history's
//! name: nothing, but for the renaming, which needs a new file that is whole and synced, and for what is added to that file afterwards. So whoever
//! takes these steps, in whatever order, leaves at each moment the old history there, or the whole new one with a front of what was added.
//!
//! `HistoryFile` takes them in their order. `HistoryOut` is an output that is such a file, or a stream. `KeptFile` goes on with a file that was
//! renamed: it is `Appending`, and says what no crash takes away. `found` tells where a path leads, and `is_among` whether a file is one of the
//! inputs. `HostNames` has the steps over the system's files, of which nothing is told.
#![tactic(auto)]

mod appending;
mod fault;
mod history_file;
mod hold;
mod host_names;
mod host_paths;
mod host_streams;
mod identity;
mod input_lines;
mod kept;
mod kept_file;
mod laws;
mod out;
mod paths;
mod replace;
mod stage;
mod streams;
mod two_names;

pub use appending::Appending;
pub use fault::FileFault;
pub use history_file::HistoryFile;
pub use host_names::HostNames;
pub use host_paths::{identity_at, identity_behind, identity_of, open_stream};
pub use host_streams::{HostInput, HostOutput, open_streams};
pub use identity::{FileIdentity, is_among};
pub use input_lines::{LineFault, Taken, take_line};
pub use kept_file::KeptFile;
pub use laws::{kept_or_not, opening_limit};
pub use out::{HistoryOut, HistoryOutput, Stream};
pub use paths::{Kind, Paths, Place, found};
pub use stage::{Look, Stage};
pub use streams::{StreamFault, Streams};
pub use two_names::TwoNames;

//! The standard streams.
use std::fs::File;
use std::os::fd::AsRawFd;

/// Files that hold the places of streams that were closed.
#[derive(Drop)]
pub struct Places(Option<File>, Option<File>, Option<File>);

/// Holds the place of each standard stream that is closed, so that no file that is opened later takes it. What is written to that stream then fails,
/// and goes into no file.
pub fn hold(rt: &HostRuntime) -> Places {
    Places(low(rt), low(rt), low(rt))
}

/// A folder in the place of a stream. It can't be written to.
fn low(rt: &HostRuntime) -> Option<File> {
    match File::open(rt, "/") {
        Ok(folder) if folder.as_raw_fd() <= 2 => Some(folder),
        _ => None,
    }
}

use std::io::{BufRead, Write};

/// Why a planner's streams aren't opened.
#[derive(Clone, Copy, Debug, PartialEq, Eq)]
pub enum StreamFault {
    /// One can't be opened, or what is to be written is a file that may not be.
    NoStream,
    /// There is no memory for a buffer.
    NoMemory,
}

/// The streams of planners. Each is opened by its planner's own thread, since a pipe opens only once its other end does.
pub trait Streams {
    /// Where a planner's requests come from.
    type Input: BufRead + Send + Drop;

    /// Where its replies go.
    type Output: Write + Send + Drop;

    /// Opens the streams of the planner of this number, from 1: where its requests come from, and then where its replies go.
    fn open(&self, planner: u64) -> Result<(Self::Input, Self::Output), StreamFault>;
}

/// How a planner's session ended.
#[derive(Clone, Copy, Debug, PartialEq, Eq)]
pub enum SessionEnd {
    /// By the end of its input.
    Input,
    /// Its output failed.
    Output,
    /// Its input or its output couldn't be opened, or its input couldn't be read.
    NoStream,
    /// It had no thread.
    NoThread,
    /// There was no memory for a line, or for a reply.
    NoMemory,
}

use pit_serve::SessionEnd;

/// How a planner's session ended.
#[derive(Clone, Copy, Debug, PartialEq, Eq)]
pub struct Sitting {
    /// The planner's number, counted from 1.
    pub planner: u32,
    /// How many replies were written.
    pub replies: u64,
    /// How many entries of the history past the opening one are the planner's.
    pub entries: u64,
    /// Why it ended.
    pub ended: SessionEnd,
}

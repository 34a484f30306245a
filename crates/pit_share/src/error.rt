//! What a workspace and a transaction refuse.

/// Why no workspace was opened. The number of planners is looked at first. No contract says which of the other two is answered.
#[derive(Clone, Copy, Debug, PartialEq, Eq)]
pub enum OpenError {
    /// There are no planners, or more than `PLANNERS_MAX`.
    PlannerCount,
    /// A planner got no place at the board.
    NoPlace,
    /// A growth was refused.
    NoMemory,
}

/// Why a block wasn't read. What the transaction reads, writes and revises is as it was.
#[derive(Clone, Copy, Debug, PartialEq, Eq)]
pub enum ReadStop {
    /// The block is not below the number of blocks.
    NoBlock,
    /// The planner wasn't let in at the board.
    NoEntry,
    /// The block was written since the start, last by the commit of this number.
    Moved { block: u32, version: u32 },
    /// The read set could not grow.
    NoMemory,
}

/// Why a workspace wasn't closed: the first of these that applies.
#[derive(Clone, Copy, Debug, PartialEq, Eq)]
pub enum CloseError {
    /// The least planner whose log isn't there.
    Missing { planner: u32 },
    /// The least planner whose entries past the opening history aren't its log; or where each planner's are, the planner of the first log, in the
    /// order in which they are handed in, that has seen more than the history has. Nothing leads to the second.
    Differs { planner: u32 },
}

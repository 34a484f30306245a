/// The greatest number of jobs of a script.
pub const JOBS_MAX: u32 = 1_000_000;

/// The greatest number of periods by which a line shifts a block.
pub const SHIFT_MAX: u32 = 1000;

/// What one line of a job does.
#[derive(Clone, Copy, Debug, PartialEq, Eq)]
pub enum Step {
    /// Reads a block.
    Read {
        block: u32,
    },
    /// Puts a block into a period.
    Put {
        block: u32,
        period: u32,
    },
    /// Takes a block out of its period.
    Clear {
        block: u32,
    },
    /// Puts a block so many periods later, or earlier where it goes back.
    Shift {
        block: u32,
        is_back: bool,
        by: u32,
    },
    /// Puts each block at a height, in millionths, into a period, by rising block.
    Bench {
        height: i64,
        period: u32,
    },
    /// Reads a block. The job goes on only where the block has just this: a period, or none.
    Expect {
        block: u32,
        period: Option<u32>,
    },
    /// Puts a block, where it is late (early), and what is carried along with it into a period, by rising block.
    Carry {
        way: Way,
        block: u32,
        period: u32,
    },
    /// Revises the upper limit, in millionths, of a resource in a period; none is no limit.
    Revise {
        resource: u32,
        period: u32,
        upper: Option<i64>,
    },
}

/// What is carried along with a block.
#[derive(Clone, Copy, Debug, PartialEq, Eq)]
pub enum Way {
    /// What stands in its way: predecessors that have no period or a later one.
    Cone,
    /// What depends on it: successors that have an earlier period.
    Push,
}

/// How a job ends.
#[derive(Clone, Copy, Debug, PartialEq, Eq)]
pub enum JobEnd {
    /// The transaction of the job commits.
    Commit,
    /// The transaction of the job aborts, and makes an entry.
    Abort,
}

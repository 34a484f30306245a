/// What a line asks for. Each block and period is one of the pit.
#[derive(Clone, Copy, Debug, PartialEq, Eq)]
pub enum Request {
    /// A transaction begins.
    Begin,
    /// The period of a block, which is noted.
    Read { block: u32 },
    /// A block is put into a period.
    Put { block: u32, period: u32 },
    /// A block is taken out of its period.
    Clear { block: u32 },
    /// The transaction ends by its writes.
    Commit,
    /// The transaction is given up, and makes no entry.
    Abandon,
    /// The value of the locked schedule.
    Value,
}

use crate::fault::RequestFault;
use pit_desk::EntryReply;

/// What a request is answered.
#[derive(Clone, Copy)]
pub enum Answer {
    /// A transaction has begun, the session's first, second, .., after so many commits.
    Begun { job: u32, start: u32 },
    /// What the transaction knows of a block: its period, or none.
    Held { block: u32, period: Option<u32> },
    /// The block was written since the start, last by the commit of this number. It isn't noted.
    Moved { block: u32, version: u32 },
    /// The planner wasn't let in at the board, and may ask again.
    Busy,
    /// It was written so.
    Done,
    /// The transaction ended by an entry, with this reply. The entry is saved where it was synced before this is told; else the journal has failed.
    Ended { reply: EntryReply, is_saved: bool },
    /// The history may have no further entry.
    Full,
    /// The transaction was given up.
    Abandoned,
    /// How many commits the locked schedule has, and its value in units of 10^-18.
    Value { commits: u32, value: i128 },
    /// The line is refused.
    Wrong(RequestFault),
}

//! What a transaction's sets refuse.

/// Why a block or a revision was not taken into a set. The first that applies is answered, in this order, and the sets stay as they
/// were.
#[derive(Clone, Copy, Debug, PartialEq, Eq)]
pub enum WorkError {
    /// The block is not below the number of blocks.
    NoBlock,
    /// The resource is not below the number of resources.
    NoResource,
    /// The period is not below the number of periods.
    NoPeriod,
    /// The set could not grow. It has room for a first pair from the start, and what is there needs none.
    NoMemory,
}

/// A block and its predecessor that are out of order, each with its period.
#[derive(Clone, Copy, Debug, PartialEq, Eq)]
pub struct OutOfOrder {
    /// The block, numbered from 0.
    pub block: u32,
    /// Its predecessor, numbered from 0.
    pub before: u32,
    /// The period of the block.
    pub period: Option<u32>,
    /// The period of its predecessor, or none.
    pub earlier: Option<u32>,
}

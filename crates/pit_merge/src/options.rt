use pit_keyed::Keys;

/// How edits are merged.
#[derive(Clone, Copy, Debug, PartialEq, Eq)]
pub struct MergeOptions {
    /// Of how many commits an edit was made that doesn't say it itself.
    pub from: Option<u32>,
    /// Whether the blocks of an edit that a commit behind its base has written are left out.
    pub is_partial: bool,
    /// By which keys the sets of transactions hash. No output depends on them.
    pub keys: Keys,
}

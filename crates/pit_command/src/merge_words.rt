ghost use Rattle.std.specs.Prelude.{◌≤◌, length};
ghost use Rattle.pit_command.specs.Limits.{edits_max};

use crate::origin::Origin;

/// What `merge` is given.
#[derive(Clone, Copy)]
pub struct MergeWords<'a> {
    /// The path of the model.
    pub model: &'a str,
    /// The path of its precedences.
    pub precedence: &'a str,
    /// What is begun with, and where the history is written.
    pub origin: Origin<'a>,
    /// The paths of the edits.
    pub edits: &'a [&'a str],
    /// Of how many commits an edit was made that doesn't say it.
    pub from: Option<u32>,
    /// Whether what somebody else has changed is left out of an edit.
    pub is_partial: bool,
    pub ghost few: { length edits.now ≤ edits_max },
}

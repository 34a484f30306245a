ghost use Rattle.std.specs.Prelude.{◌≤◌};
ghost use Rattle.pit_command.specs.Limits.{retries_max};

use crate::origin::Origin;

/// What `plan` is given.
#[derive(Clone, Copy)]
pub struct PlanWords<'a> {
    /// The path of the model.
    pub model: &'a str,
    /// The path of its precedences.
    pub precedence: &'a str,
    /// The path of the blocks' places.
    pub blocks: Option<&'a str>,
    /// What is begun with, and where the history is written.
    pub origin: Origin<'a>,
    /// The paths of the scripts.
    pub scripts: &'a [&'a str],
    /// How often a job is repeated.
    pub retries: u32,
    /// Whether one thread does the scripts of all planners, one after another.
    pub is_in_turn: bool,
    /// Whether a plan of which a job was refused has failed.
    pub is_strict: bool,
    pub ghost few: { retries ≤ retries_max },
}

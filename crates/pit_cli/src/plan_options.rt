use pit_keyed::Keys;

/// How a plan is run and reported.
#[derive(Clone, Copy, Debug, PartialEq, Eq)]
pub struct PlanOptions {
    /// How often a job that meets a change of another planner is repeated, up to `RETRIES_MAX` times.
    pub retries: u32,
    /// Whether one thread does the scripts, planner after planner.
    pub is_in_turn: bool,
    /// Whether a job that was refused is a reason to answer `Failed`.
    pub is_strict: bool,
    /// By which keys the sets of transactions hash. No output depends on them.
    pub keys: Keys,
}

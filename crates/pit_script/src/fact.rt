use super::step::{JobEnd, Step};

/// What a line of a script says.
#[derive(Clone, Copy, Debug, PartialEq, Eq)]
pub enum ScriptFact {
    /// The next job begins.
    Begin,
    /// The job does this.
    Does(Step),
    /// The job ends so.
    Ends(JobEnd),
}

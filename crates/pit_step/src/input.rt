use std::fmt;

/// An input of the program, by the word that faults name it with.
#[derive(Clone, Copy, Debug, PartialEq, Eq)]
pub enum Input {
    /// The model: header, profits, coefficients and limits.
    Model,
    /// The predecessors of its blocks.
    Precedence,
    /// The places of its blocks.
    Blocks,
    /// What a plan or a merge begins with: a solution or a history.
    Start,
    /// Of `value` and `check`: blocks with their periods.
    Solution,
    /// By its number, counted from 1.
    Script(u64),
    /// Of `replay` and `log`; of `plan` and `merge` the one that is carried on.
    History,
    /// Of a view: a solution or a history.
    Schedule,
    /// The earlier of two schedules that are compared.
    Old,
    /// The later one.
    New,
    /// Of a merge, by its number, counted from 1.
    Edit(u64),
}

impl fmt::Display for Input {
    ghost use Rattle.std.specs.Prelude.{Some};
    ghost use Rattle.pit_step.specs.Inputs.{input_name};

    ghost output = { λ input. Some (input_name input) };

    fn fmt<W: fmt::Write>(&self, f: &mut fmt::Formatter<W>) -> fmt::Result {
        match self {
            Input::Model => write!(f, "model"),
            Input::Precedence => write!(f, "precedence"),
            Input::Blocks => write!(f, "blocks"),
            Input::Start => write!(f, "start"),
            Input::Solution => write!(f, "solution"),
            Input::Script(number) => write!(f, "script {number}"),
            Input::History => write!(f, "history"),
            Input::Schedule => write!(f, "schedule"),
            Input::Old => write!(f, "old"),
            Input::New => write!(f, "new"),
            Input::Edit(number) => write!(f, "edit {number}"),
        }
    }
}

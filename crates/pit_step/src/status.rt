ghost use Rattle.std.specs.Prelude.{◌≡◌, ◌≤◌};

/// What an engine found.
#[derive(Clone, Copy, Debug, PartialEq, Eq)]
pub enum Status {
    /// Nothing is wrong.
    Fine,
    /// Something is broken or falls short.
    Failed,
}

impl Status {
    ghost use Rattle.pit_step.specs.Statuses.{answer_status};

    /// The status that the program ends with.
    pub fn code(&self) -> u8
        ensures is { result ≡ answer_status self.now }
        ensures range { result ≤ 1 }
    {
        match self {
            Status::Fine => 0,
            Status::Failed => 1,
        }
    }
}

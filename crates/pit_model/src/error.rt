use pit_num::NoMemory;
use thiserror::Error;

/// Why a fact is refused by what is known of the pit already. The first that applies is answered, in this order.
#[derive(Clone, Copy, Debug, PartialEq, Eq, Error)]
pub enum BuildError {
    /// A block is not below the number of blocks.
    #[error("block out of range")]
    BlockRange,
    /// A resource is not below the number of resources.
    #[error("resource out of range")]
    ResourceRange,
    /// A period is not below the number of periods.
    #[error("period out of range")]
    PeriodRange,
    /// This block's profit, its coefficient of this resource, its predecessors or its place were set before, to whatever value.
    #[error("repeated")]
    Repeated,
    /// The lower bound is above the upper bound.
    #[error("empty interval")]
    Interval,
    /// A growth was refused.
    #[error("no memory")]
    NoMemory,
}

impl From<NoMemory> for BuildError {
    ghost use Rattle.std.specs.Prelude.{◌≡◌};
    ghost use Rattle.pit_model.specs.declared.error.BuildError.{BuildError};

    ghost from_gives = { λ _ e. e ≡ BuildError.NoMemory };

    fn from(_error: NoMemory) -> BuildError {
        BuildError::NoMemory
    }
}

//! The limits of a pit. Those of periods and rates are `pit_num`'s, whose factors rest on them.
ghost use Rattle.std.specs.Prelude.{◌≡◌};

/// The greatest number of blocks. There is at least one; they are numbered from 0.
pub const BLOCKS_MAX: u32 = 4_194_304;

/// The greatest number of resources. They are numbered from 0.
pub const RESOURCES_MAX: u32 = 64;

/// A law of pits, in numbers: at most 4,194,304 blocks and 64 resources.
pub fn pit_limits()
    ensures blocks { BLOCKS_MAX ≡ 4194304 }
    ensures resources { RESOURCES_MAX ≡ 64 }
{}

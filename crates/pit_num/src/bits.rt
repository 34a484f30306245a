//! Sets of small numbers, as the bits of a word.
ghost use Rattle.std.specs.Prelude.{◌≡◌, ◌<◌, ◌==◌};
ghost use Rattle.std.specs.Int.{bit_at};
ghost use Rattle.pit_num.specs.Bits.{IsWithBit};

/// Whether a number is in the set.
pub fn has_bit(bits: u64, r: u32) -> bool
    requires { r < 64 }
    ensures { result ≡ (bit_at bits r == 1) }
{
    bits >> r & 1 == 1
}

/// The set with one number more.
pub fn with_bit(bits: u64, r: u32) -> u64
    requires { r < 64 }
    ensures { IsWithBit bits r result }
{
    bits | 1u64 << r
}

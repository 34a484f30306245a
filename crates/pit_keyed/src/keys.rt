//! A hash of small numbers that can be another in each run.
ghost use Rattle.std.specs.Prelude.{◌≡◌};
ghost use Rattle.pit_keyed.specs.Inside.Hashing as hashing;

use std::hash::{BuildHasher, Hasher};

/// Multiply-shift (Dietzfelbinger et al. 1997): a number is multiplied, and the upper half of the product is its hash. Of two numbers few odd
/// multipliers make one hash, so whoever doesn't know the multiplier can't choose numbers that a map takes badly. What a map holds, and in which
/// order, doesn't depend on it.
#[derive(Clone, Copy, Debug, PartialEq, Eq)]
pub struct Keys {
    multiplier: u64,
}

impl Keys {
    /// By a number of 64 bits that was drawn.
    pub fn new(drawn: u64) -> Keys {
        Keys {
            multiplier: drawn | 1,
        }
    }
}

impl Default for Keys {
    /// By a multiplier that everybody knows: 2^64 by the golden ratio.
    fn default() -> Keys {
        Keys::new(0x9e37_79b9_7f4a_7c15)
    }
}

impl BuildHasher for Keys {
    type Hasher = KeyHasher;

    ghost build_hasher = { hashing.begun };

    #[inline(always)]
    fn build_hasher(&self) -> KeyHasher {
        KeyHasher {
            state: 0,
            multiplier: self.multiplier,
        }
    }
}

/// What a hash has come to.
#[derive(Clone, Copy)]
pub struct KeyHasher {
    state: u64,
    multiplier: u64,
}

impl Hasher for KeyHasher {
    ghost write = { hashing.written };

    ghost finish = { hashing.finished };

    #[inline(always)]
    fn finish(&self) -> u64 {
        self.state >> 32
    }

    #[inline(always)]
    #[tactic(auto, unfolding(crate::specs::Inside::Hashing::written, crate::specs::Inside::Hashing::mixed))]
    fn write(&mut self, bytes: &[u8]) {
        let sum = self.state.wrapping_add(number_of(bytes));
        self.state = sum.wrapping_mul(self.multiplier);
    }
}

/// The first four bytes as a number.
#[inline(always)]
#[tactic(auto, unfolding(crate::specs::Inside::Hashing::number_of))]
fn number_of(bytes: &[u8]) -> u64
    ensures { result ≡ hashing.number_of bytes.now }
{
    if bytes.len() < 4 {
        return 0;
    }
    u64::from(u32::from_le_bytes([bytes[0], bytes[1], bytes[2], bytes[3]]))
}

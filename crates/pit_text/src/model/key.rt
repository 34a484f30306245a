ghost use Rattle.std.specs.Prelude.{◌≡◌};
ghost use Rattle.pit_text.specs.Keys.{key_of};

use crate::table::look_up;
use std::fmt;

/// A key of a model's header.
#[derive(Clone, Copy, Debug, PartialEq, Eq)]
pub enum Key {
    /// The kind of the problem.
    Kind,
    /// The number of blocks.
    Blocks,
    /// The number of periods.
    Periods,
    /// The number of resources.
    Resources,
    /// The discount rate.
    Rate,
    /// The number of destinations of a block.
    Destinations,
    /// The number of constraints of a general kind.
    Generals,
}

/// The keys with their texts in a model, each at its number.
const KEYS: &[(&str, Key)] = &[
    ("TYPE", Key::Kind),
    ("NBLOCKS", Key::Blocks),
    ("NPERIODS", Key::Periods),
    ("NRESOURCE_SIDE_CONSTRAINTS", Key::Resources),
    ("DISCOUNT_RATE", Key::Rate),
    ("NDESTINATIONS", Key::Destinations),
    ("NGENERAL_SIDE_CONSTRAINTS", Key::Generals),
];

impl Key {
    ghost use Rattle.pit_text.specs.Keys.{key_number, key_text};

    pub(crate) fn number(self) -> usize
        ensures { result ≡ key_number self }
    {
        self as usize
    }

    fn text(self) -> &'static str
        ensures { result.now ≡ key_text self }
    {
        KEYS[self.number()].0
    }
}

impl fmt::Display for Key {
    ghost use Rattle.std.specs.Prelude.{Some};
    ghost use Rattle.pit_text.specs.Keys.{key_text};

    ghost output = { λ key. Some (key_text key) };

    fn fmt<W: fmt::Write>(&self, f: &mut fmt::Formatter<W>) -> fmt::Result {
        f.write_str(self.text())
    }
}

/// The key that a header line begins with.
#[tactic(auto, unfolding(crate::specs::Keys::key_of))]
pub fn key_of(field: &[u8]) -> Option<Key>
    ensures { result ≡ key_of field.now }
{
    look_up(KEYS, field)
}

//! What a session begins with.
ghost use Rattle.std.specs.Prelude.{◌≡◌};
ghost use Rattle.pit_share.specs.declared.new_session.TheConstants.{PLANNERS_MAX};

use pit_board::EmptyList;
use std::marker::Model;
use std::sync::ledger;

/// The greatest number of planners. The count of entries is cut into as many parts.
pub const PLANNERS_MAX: u32 = 64;

/// A count of no entries and a list of none, which no session has named yet. Contracts see what names them.
#[derive(Drop)]
pub struct NewSession {
    shares: ledger::Blank,
    list: EmptyList,
}

impl Model for NewSession {
    ghost use Rattle.std.specs.Prelude.{◌≡◌};
    ghost use Rattle.pit_share.specs.Opening.{Unnamed};
    ghost use Rattle.pit_share.specs.declared.new_session.TheConstants.{PLANNERS_MAX};

    ghost Value = { Unnamed };

    ghost view = { λ b. record { ledger = b.shares.name; book = b.list } };

    ghost invariant = { λ b. b.shares.parts ≡ PLANNERS_MAX };
}

impl NewSession {
    /// A new count and a new list. Takes no memory.
    pub fn new() -> NewSession {
        NewSession {
            shares: ledger::Blank::new(u64::from(PLANNERS_MAX)),
            list: EmptyList::new(),
        }
    }

    pub(crate) fn into_parts(self) -> (ledger::Blank, EmptyList)
        ensures ledger { result.0.name ≡ self.ledger }
        ensures parts { result.0.parts ≡ PLANNERS_MAX }
        ensures book { result.1 ≡ self.book }
    {
        let NewSession { shares, list } = self;
        (shares, list)
    }
}

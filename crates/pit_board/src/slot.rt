//! What a board shows of one block, and how it is kept.
ghost use Rattle.std.specs.Prelude.{◌≡◌, ◌<◌, IfSome};
ghost use Rattle.pit_num.specs.declared.limits.TheConstants.{PERIODS_MAX};

use std::marker::Model;

/// A block after the commits that a board shows.
#[derive(Clone, Copy, Debug, PartialEq, Eq)]
pub struct Slot {
    /// The period in which the block is mined, or none.
    pub period: Option<u32>,
    /// The number of the last commit that named the block, or 0.
    pub version: u32,
}

/// A slot as a board keeps it. Contracts see the slot.
#[derive(Clone, Copy)]
pub(crate) struct KeptSlot {
    // the number after the period, or 0 where there is none
    until: u32,
    version: u32,
}

// Each of two boards has one for each block.
const _: () = prove!(size_of::<KeptSlot>() == 8);

impl Model for KeptSlot {
    ghost use Rattle.pit_board.specs.declared.slot.Slot.{Slot};
    ghost use Rattle.pit_board.specs.Inside.Slots.{period_until, until_of, until_of-period_until};

    ghost Value = { Slot };

    ghost view = { λ kept. record { period = period_until kept.until; version = kept.version } };

    ghost inverse = { λ slot. record { until = until_of slot.period; version = slot.version } };

    ghost inverse_ok = { λ kept h i. record { until = until_of-period_until kept.until i; version = kept.version } };
}

impl KeptSlot {
    /// Keeps a slot.
    pub(crate) fn new(slot: Slot) -> KeptSlot
        requires { IfSome slot.period (λ t. t < PERIODS_MAX) }
        ensures { result ≡ slot }
    {
        let Some(period) = slot.period else {
            return KeptSlot {
                until: 0,
                version: slot.version,
            };
        };
        KeptSlot {
            until: period + 1,
            version: slot.version,
        }
    }

    /// The slot that is kept.
    pub(crate) fn slot(&self) -> Slot
        ensures { result ≡ self.now }
    {
        Slot {
            period: self.until.checked_sub(1),
            version: self.version,
        }
    }
}

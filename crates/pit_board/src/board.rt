//! The board that readers see.
ghost use Rattle.std.specs.Prelude.{◌≡◌, ◌<◌, ◌≤◌, ℕ, Some, length, All, IfSome, slice_index_or, nat_eq, if◌then◌else◌};
ghost use Rattle.pit_num.specs.declared.limits.TheConstants.{PERIODS_MAX};
ghost use Rattle.pit_desk.specs.History.{commits_of};
ghost use Rattle.pit_board.specs.Inside.Boards.{ShowsAll, slot_after, taken_in};
ghost use Rattle.pit_board.specs.declared.slot.Slot.{Slot};

use crate::prefix::Prefix;
use crate::publication::{Operation, Publication};
use crate::session::Session;
use crate::slot::{KeptSlot, Slot};
use left_right::Absorb;
use std::alloc::{AllocError, Allocator};
use std::marker::Model;

/// A slot for each block, and the prefix whose commits they show. Contracts see the prefix.
#[derive(Drop)]
pub struct Board<S: Session, A: Allocator + Copy + Drop> {
    slots: Vec<KeptSlot, A>,
    prefix: Prefix<S>,
}

impl<S: Session, A: Allocator + Copy + Drop> Model for Board<S, A> {
    ghost use Rattle.std.specs.Prelude.{◌≤◌, List};
    ghost use Rattle.pit_num.specs.declared.limits.TheConstants.{PERIODS_MAX};
    ghost use Rattle.pit_desk.specs.History.{Answered, commits_of};
    ghost use Rattle.pit_board.specs.Inside.Boards.{ShowsAll};

    ghost Value = { List Answered };

    ghost view = { λ b. b.prefix };

    ghost invariant = { λ b. (S.instance.periods ≤ PERIODS_MAX) × ShowsAll S.instance.blocks (commits_of b.prefix) b.slots.items };
}

impl<S: Session, A: Allocator + Copy + Drop> Board<S, A> {
    /// A board that shows a prefix by these slots.
    pub(crate) fn new(slots: Vec<KeptSlot, A>, prefix: &Prefix<S>) -> Board<S, A>
        requires few_periods { S.instance.periods ≤ PERIODS_MAX }
        requires slots { ShowsAll S.instance.blocks (commits_of prefix.now) slots.items }
        ensures { result ≡ prefix.now }
    {
        Board {
            slots,
            prefix: prefix.copy(),
        }
    }

    /// The prefix whose commits it shows.
    pub(crate) fn prefix(&self) -> &Prefix<S>
        ensures { result.now ≡ self.now }
    {
        &self.prefix
    }

    /// A slot for each block.
    pub(crate) fn slots(&self) -> &[KeptSlot]
        ensures { ShowsAll S.instance.blocks (commits_of self.now) result.now }
    {
        self.slots.as_slice()
    }

    /// Takes in a commit, if it is the next one. Takes no memory.
    fn take_in(&mut self, publication: &Publication<S, A>)
        ensures { self.new ≡ taken_in self.old (Some publication.now) }
    {
        if self.prefix.has_commits_of(&publication.before) {
            let prefix = publication.after.copy();
            write_slots(
                &mut self.slots,
                prefix.count(),
                publication.changes.writes(),
            );
            self.prefix = prefix;
        }
    }
}

/// Writes each block's slot, from the last write to the first: so the first one would stand, if a block had two.
fn write_slots<A: Allocator + Copy + Drop>(
    slots: &mut Vec<KeptSlot, A>,
    number: u32,
    writes: &[(u32, Option<u32>)],
)
    requires { All (λ write. IfSome write.1 (λ t. t < PERIODS_MAX)) writes.now }
    ensures many { length slots.new.items ≡ length slots.old.items }
    ensures each { (b : ℕ) (d : Slot) → b < length slots.old.items
        → slice_index_or slots.new.items b d ≡ slot_after number writes.now b (slice_index_or slots.old.items b d) }
{
    let mut left = writes.len();
    while left > 0 {
        left -= 1;
        let (block, period) = writes[left];
        let slot = Slot {
            period,
            version: number,
        };
        write_slot(slots, block, KeptSlot::new(slot));
    }
}

/// Writes the slot of a block, if there is one.
fn write_slot<A: Allocator + Copy + Drop>(slots: &mut Vec<KeptSlot, A>, block: u32, slot: KeptSlot)
    ensures many { length slots.new.items ≡ length slots.old.items }
    ensures each { (b : ℕ) (d : Slot) → b < length slots.old.items
        → slice_index_or slots.new.items b d ≡ (if nat_eq b block then slot else slice_index_or slots.old.items b d) }
{
    let at = block as usize;
    if at < slots.len() {
        slots[at] = slot;
    }
}

impl<S: Session, A: Allocator + Copy + Drop> Absorb<Operation<S, A>> for Board<S, A> {
    ghost use Rattle.pit_board.specs.Inside.Boards.{taken_in};

    /// The prefix that both have.
    type State = Prefix<S>;

    ghost state = { λ board. board };

    ghost applied = { taken_in };

    ghost never_fails = { Unit {0} };

    fn absorb_first(
        &mut self,
        operation: &Operation<S, A>,
        _other: &Board<S, A>,
    ) -> Result<(), AllocError> {
        if let Some(publication) = &operation.publication {
            self.take_in(publication);
        }
        Ok(())
    }

    fn absorb_second(
        &mut self,
        operation: Operation<S, A>,
        _other: &Board<S, A>,
    ) -> Result<(), Operation<S, A>> {
        let Operation { publication } = operation;
        if let Some(publication) = publication {
            self.take_in(&publication);
        }
        Ok(())
    }
}

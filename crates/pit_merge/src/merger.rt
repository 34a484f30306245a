//! Edits are taken one after another.
ghost use Rattle.std.specs.Prelude.{◌≡◌, ◌≤◌, ◌+◌, ℕ, length, take, IfOk, OnOk, MatchResult};
ghost use Rattle.pit_desk.specs.History.{commits_of};
ghost use Rattle.pit_desk.specs.State.{IsDeskKept};
ghost use Rattle.pit_step.specs.Steps.{through};
ghost use Rattle.pit_step.specs.Devices.{reading_of, readings_by};
ghost use Rattle.pit_step.specs.declared.read.TheConstants.{INPUT_BYTES_MAX};
ghost use Rattle.pit_edit.specs.Changes.{IsEditOn};
ghost use Rattle.pit_edit.specs.Merging.{IsMerged};
ghost use Rattle.pit_merge.specs.declared.engine.TheConstants.{EDITS_MAX};
ghost use Rattle.pit_merge.specs.Edits.{IsEditOf, IsEditFault, IsTaken, edit_step, ground_of};
ghost use Rattle.pit_merge.specs.Merge.{IsBegun, IsNoDesk};
ghost use Rattle.pit_merge.specs.Inside.Begun.{IsBegunOn, IsMergedOn};

use crate::engine::EDITS_MAX;
use crate::ground::Ground;
use crate::input::MergeInput;
use crate::made::Made;
use crate::options::MergeOptions;
use crate::parts::wanted_of;
use pit_base::base_periods;
use pit_desk::Desk;
use pit_edit::{Edit, Merging};
use pit_keyed::Keys;
use pit_num::{NoMemory, Source};
use pit_opening::desk_of;
use pit_step::{CliFault, INPUT_BYTES_MAX, Input, bytes_of};
use std::alloc::{Allocator, Global};
use std::marker::Model;

/// A merge, and how many of its entries it began with.
#[derive(Drop)]
pub(crate) struct Merger<A: Allocator + Copy + Drop> {
    merging: Merging<A>,
    ours: usize,
    is_resumed: bool,
}

impl<A: Allocator + Copy + Drop> Model for Merger<A> {
    ghost use Rattle.std.specs.Prelude.{◌≤◌, length, take};
    ghost use Rattle.pit_merge.specs.Edits.{Merged};

    ghost Value = { Merged };

    ghost view = { λ m. record { ours = take m.ours m.merging.desk.history; is_resumed = m.is_resumed; merging = m.merging } };

    ghost invariant = { λ m. m.ours ≤ length m.merging.desk.history };
}

impl<A: Allocator + Copy + Drop> Merger<A> {
    /// Opens a desk with what is begun with. That is freed on a fault.
    pub(crate) fn begin(alloc: A, keys: Keys, input: MergeInput<A>) -> Result<Merger<A>, CliFault>
        ensures { MatchResult result (IsBegun input) (IsNoDesk input) }
    {
        let is_resumed = input.opening.is_resumed();
        match desk_of(alloc, input.pit.keyed(keys), input.opening) {
            Ok(desk) => Merger::begin_on(alloc, desk, is_resumed),
            Err(fault) => Err(fault),
        }
    }

    /// Begins on a desk.
    fn begin_on(alloc: A, desk: Desk<A>, is_resumed: bool) -> Result<Merger<A>, CliFault>
        ensures { MatchResult result (IsBegunOn desk is_resumed) (λ fault. fault ≡ CliFault.NoMemory) }
    {
        let ours = desk.history().len();
        match Merging::begin(alloc, desk) {
            Ok(merging) => Ok(Merger {
                merging,
                ours,
                is_resumed,
            }),
            Err(_) => Err(CliFault::NoMemory),
        }
    }

    /// The merge.
    pub(crate) fn merging(&self) -> &Merging<A>
        ensures { result.now ≡ self.now.merging }
    {
        &self.merging
    }

    /// Reads and merges each edit; the first has this number.
    pub(crate) fn take_each<E: Source>(
        self,
        alloc: A,
        json: Global,
        options: MergeOptions,
        edits: &mut [E],
        number: u32,
    ) -> Result<Merger<A>, CliFault>
        requires few { number + length edits.old ≤ EDITS_MAX + 1 }
        ensures taken { let read = readings_by (λ (old new : E). reading_of (E.remaining old) (E.remaining new) (E.has_failed new)) edits.old edits.new in
            MatchResult result ((through (edit_step options) number read).Gives self) ((through (edit_step options) number read).Fails self) }
        ensures same { length edits.new ≡ length edits.old }
    {
        let Some((first, rest)) = edits.split_first_mut() else {
            return Ok(self);
        };
        match self.take(alloc, json, options, first, number) {
            Ok(merger) => merger.take_each(alloc, json, options, rest, number + 1),
            Err(fault) => Err(fault),
        }
    }

    /// Reads and merges an edit.
    fn take<E: Source>(
        self,
        alloc: A,
        json: Global,
        options: MergeOptions,
        edit: &mut E,
        number: u32,
    ) -> Result<Merger<A>, CliFault>
        ensures { let read = reading_of (E.remaining edit.old) (E.remaining edit.new) (E.has_failed edit.new) in
            MatchResult result ((edit_step options number read).Gives self) ((edit_step options number read).Fails self) }
    {
        match bytes_of(alloc, edit, Input::Edit(u64::from(number))) {
            Ok(text) => self.take_text(alloc, json, options, number, text),
            Err(fault) => {
                drop(self);
                Err(fault)
            }
        }
    }

    /// Merges the edit of a text, which is freed.
    fn take_text(
        self,
        alloc: A,
        json: Global,
        options: MergeOptions,
        number: u32,
        text: Vec<u8, A>,
    ) -> Result<Merger<A>, CliFault>
        requires short { length text.items ≤ INPUT_BYTES_MAX }
        ensures { MatchResult result (IsTaken options number text.items self) (IsEditFault (ground_of self) options.from number text.items) }
    {
        match self.made(alloc, json, options.from, number, text) {
            Ok(edit) => self.merge(alloc, &edit, options.is_partial),
            Err(fault) => {
                drop(self);
                Err(fault)
            }
        }
    }

    /// The edit of a text.
    fn made(
        &self,
        alloc: A,
        json: Global,
        from: Option<u32>,
        number: u32,
        text: Vec<u8, A>,
    ) -> Result<Made<A>, CliFault>
        requires short { length text.items ≤ INPUT_BYTES_MAX }
        ensures edit { MatchResult result (IsEditOf (ground_of self.now) from number text.items) (IsEditFault (ground_of self.now) from number text.items) }
        ensures on { IfOk result (IsEditOn self.now.merging.desk.plan.pit (commits_of self.now.merging.desk.history)) }
    {
        let ground = self.ground();
        let (start, wanted) = match wanted_of(alloc, json, &ground, from, number, text) {
            Ok(found) => found,
            Err(fault) => return Err(fault),
        };
        let Ok(base) = base_periods(alloc, ground.pit, ground.ours, start) else {
            return Err(CliFault::NoMemory);
        };
        Ok(Made {
            number,
            start,
            base,
            wanted,
        })
    }

    /// What edits are read on.
    fn ground(&self) -> Ground<'_, A>
        ensures ground { result ≡ ground_of self.now }
        ensures front { (n : ℕ) × (self.now.ours ≡ take n self.now.merging.desk.history) }
        ensures kept { IsDeskKept self.now.merging.desk }
    {
        Ground {
            pit: self.merging.desk().plan().instance().deposit(),
            ours: &self.merging.desk().history()[..self.ours],
            is_resumed: self.is_resumed,
        }
    }

    /// Merges an edit.
    fn merge(self, alloc: A, edit: &Made<A>, is_partial: bool) -> Result<Merger<A>, CliFault>
        requires { IsEditOn self.merging.desk.plan.pit (commits_of self.merging.desk.history) edit.now }
        ensures { MatchResult result (IsMergedOn is_partial edit.now self) (λ fault. fault ≡ CliFault.NoMemory) }
    {
        let Merger {
            mut merging,
            ours,
            is_resumed,
        } = self;
        match merge_into(alloc, &mut merging, edit, is_partial) {
            Ok(()) => Ok(Merger {
                merging,
                ours,
                is_resumed,
            }),
            Err(_) => {
                drop(merging);
                Err(CliFault::NoMemory)
            }
        }
    }
}

fn merge_into<A: Allocator + Copy + Drop>(
    alloc: A,
    merging: &mut Merging<A>,
    edit: &Made<A>,
    is_partial: bool,
) -> Result<(), NoMemory>
    requires { IsEditOn merging.old.desk.plan.pit (commits_of merging.old.desk.history) edit.now }
    ensures { OnOk result (IsMerged is_partial edit.now merging.old merging.new) }
{
    let lent = Edit {
        number: edit.number,
        start: edit.start,
        base: &edit.base,
        wanted: &edit.wanted,
    };
    merging.merge(alloc, &lent, is_partial)
}

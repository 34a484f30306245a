ghost use Rattle.std.specs.Prelude.{◌≡◌, MatchResult, is_some};
ghost use Rattle.pit_step.specs.Steps.{IsResultOf};
ghost use Rattle.pit_step.specs.Devices.{reading_of, known_if};
ghost use Rattle.pit_opening.specs.Beginnings.{IsOpeningFault};
ghost use Rattle.pit_merge.specs.Prepared.{IsPrepared, opening_step, prepare_run};

use pit_model::Instance;
use pit_num::Source;
use pit_opening::{Beginning, Opening, opening_of};
use pit_step::{CliFault, read_ordered_pit};
use std::alloc::{Allocator, Global};
use std::marker::Model;

/// A pit, and what a merge on it begins with.
#[derive(Drop)]
pub struct MergeInput<A: Allocator + Copy + Drop> {
    pub(crate) pit: Instance<A>,
    pub(crate) opening: Opening<A>,
    pub(crate) is_carried_on: bool,
    pub(crate) is_new: bool,
}

impl<A: Allocator + Copy + Drop> Model for MergeInput<A> {
    ghost use Rattle.pit_opening.specs.Openings.{IsOpeningIn};
    ghost use Rattle.pit_merge.specs.Prepared.{Prepared};

    ghost Value = { Prepared };

    ghost view = { λ m. record { pit = m.pit; opening = m.opening; is_carried_on = m.is_carried_on; is_new = m.is_new } };

    ghost invariant = { λ m. IsOpeningIn m.pit m.opening };
}

impl<A: Allocator + Copy + Drop> MergeInput<A> {
    /// Reads and parses a model, its precedences, and what is begun with: a history that is carried on, or else a schedule, if there is an input for
    /// it. The first fault ends it. Takes the memory of one input at a time, and of the facts; and by `json` that of the JSON value of one line.
    pub fn read<M: Source, P: Source, S: Source>(
        alloc: A,
        json: Global,
        model: &mut M,
        precedence: &mut P,
        start: &mut Option<S>,
        is_carried_on: bool,
    ) -> Result<MergeInput<A>, CliFault>
        ensures read { let model_read = reading_of (M.remaining model.old) (M.remaining model.new) (M.has_failed model.new) in
            let precedence_read = reading_of (P.remaining precedence.old) (P.remaining precedence.new) (P.has_failed precedence.new) in
            let start_read = known_if (λ old new. reading_of (S.remaining old) (S.remaining new) (S.has_failed new)) start.old start.new in
            IsResultOf (prepare_run is_carried_on model_read precedence_read start_read) tt result }
        ensures same { is_some start.new ≡ is_some start.old }
    {
        let pit = match read_ordered_pit(alloc, model, precedence) {
            Ok(pit) => pit,
            Err(fault) => return Err(fault),
        };
        begun_on(alloc, json, pit, start, is_carried_on)
    }
}

/// Reads what is begun with on a pit, which is freed on a fault.
fn begun_on<A: Allocator + Copy + Drop, S: Source>(
    alloc: A,
    json: Global,
    pit: Instance<A>,
    start: &mut Option<S>,
    is_carried_on: bool,
) -> Result<MergeInput<A>, CliFault>
    ensures read { let start_read = known_if (λ old new. reading_of (S.remaining old) (S.remaining new) (S.has_failed new)) start.old start.new in
        IsResultOf (opening_step is_carried_on start_read) pit result }
    ensures same { is_some start.new ≡ is_some start.old }
{
    match Beginning::read(alloc, start, is_carried_on) {
        Ok(beginning) => opened_on(alloc, json, pit, beginning),
        Err(fault) => {
            drop(pit);
            Err(fault)
        }
    }
}

/// Parses it.
fn opened_on<A: Allocator + Copy + Drop>(
    alloc: A,
    json: Global,
    pit: Instance<A>,
    beginning: Beginning<A>,
) -> Result<MergeInput<A>, CliFault>
    ensures { MatchResult result (IsPrepared pit beginning) (IsOpeningFault pit beginning) }
{
    let is_carried_on = beginning.is_carried_on();
    let is_new = beginning.is_new();
    match opening_of(alloc, json, beginning, &pit) {
        Ok(opening) => Ok(MergeInput {
            pit,
            opening,
            is_carried_on,
            is_new,
        }),
        Err(fault) => {
            drop(pit);
            Err(fault)
        }
    }
}

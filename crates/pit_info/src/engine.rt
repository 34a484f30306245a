ghost use Rattle.std.specs.Prelude.{◌≡◌, MatchResult, is_some};
ghost use Rattle.pit_step.specs.Steps.{IsResultOf};
ghost use Rattle.pit_step.specs.Devices.{reading_of, writing_of, known_if};
ghost use Rattle.pit_step.specs.Inputs.{IsModelFault, places_if_step};
ghost use Rattle.pit_info.specs.Info.{IsHeaded, IsInfo, headed_step, ordered_step, inputs_step, info_run};

use crate::benches::benches_if;
use crate::info_text::write_info;
use crate::unknown::unknown_lines;
use pit_model::{Builder, Deposit};
use pit_num::{Sink, Source};
use pit_step::{
    CliFault, Input, Status, builder_of, bytes_of, deposited, empty_text, gathered, read_order,
    read_places, write_answer,
};
use std::alloc::Allocator;

/// Writes a pit in numbers, and the unknown keys of its model's header; always `Fine`. The model, the precedences and, where there is a source
/// for them, the places are read and parsed in this order; a fault is the first one, and nothing is written before all are right. Takes the
/// memory of one input at a time, of the facts, of the lines of the unknown keys, of the heights of places, and of the text.
pub fn info<A: Allocator + Copy + Drop, M: Source, P: Source, B: Source, W: Sink>(
    alloc: A,
    model: &mut M,
    precedence: &mut P,
    blocks: &mut Option<B>,
    out: &mut W,
) -> Result<Status, CliFault>
    ensures done { let model_read = reading_of (M.remaining model.old) (M.remaining model.new) (M.has_failed model.new) in
        let precedence_read = reading_of (P.remaining precedence.old) (P.remaining precedence.new) (P.has_failed precedence.new) in
        let blocks_read = known_if (λ old new. reading_of (B.remaining old) (B.remaining new) (B.has_failed new)) blocks.old blocks.new in
        let written = writing_of (W.contents out.old) (W.contents out.new) (W.has_failed out.new) in
        IsResultOf (info_run model_read precedence_read blocks_read written) tt result }
    ensures same { is_some blocks.new ≡ is_some blocks.old }
{
    let (given, unknown) = match read_inputs(alloc, model, precedence, blocks) {
        Ok(read) => read,
        Err(fault) => return Err(fault),
    };
    let text = match rendered(alloc, given, blocks.is_some(), &unknown) {
        Ok(text) => text,
        Err(fault) => return Err(fault),
    };
    write_answer(out, &text, Status::Fine)
}

/// The pit of all inputs, and the lines of the unknown keys.
fn read_inputs<A: Allocator + Copy + Drop, M: Source, P: Source, B: Source>(
    alloc: A,
    model: &mut M,
    precedence: &mut P,
    blocks: &mut Option<B>,
) -> Result<(Builder<A>, Vec<u8, A>), CliFault>
    ensures done { let model_read = reading_of (M.remaining model.old) (M.remaining model.new) (M.has_failed model.new) in
        let precedence_read = reading_of (P.remaining precedence.old) (P.remaining precedence.new) (P.has_failed precedence.new) in
        let blocks_read = known_if (λ old new. reading_of (B.remaining old) (B.remaining new) (B.has_failed new)) blocks.old blocks.new in
        let step = inputs_step model_read precedence_read blocks_read in
        MatchResult result (λ read. step.Gives tt (read.0, read.1.items)) (step.Fails tt) }
    ensures same { is_some blocks.new ≡ is_some blocks.old }
{
    let (given, unknown) = match read_headed(alloc, model) {
        Ok(headed) => headed,
        Err(fault) => return Err(fault),
    };
    match read_ordered(alloc, precedence, blocks, given) {
        Ok(pit) => Ok((pit, unknown)),
        Err(fault) => Err(fault),
    }
}

/// The pit of a model, and the lines of the unknown keys. Its text is freed.
fn read_headed<A: Allocator + Copy + Drop, M: Source>(
    alloc: A,
    model: &mut M,
) -> Result<(Builder<A>, Vec<u8, A>), CliFault>
    ensures { let read = reading_of (M.remaining model.old) (M.remaining model.new) (M.has_failed model.new) in
        MatchResult result (λ headed. (headed_step read).Gives tt (headed.0, headed.1.items)) ((headed_step read).Fails tt) }
{
    let bytes = bytes_of(alloc, model, Input::Model)?;
    headed(alloc, &bytes)
}

/// The pit that a model stands for, and the lines of the unknown keys.
fn headed<A: Allocator + Copy + Drop>(
    alloc: A,
    model: &[u8],
) -> Result<(Builder<A>, Vec<u8, A>), CliFault>
    ensures { MatchResult result (λ headed. IsHeaded model.now (headed.0, headed.1.items)) (IsModelFault model.now) }
{
    let given = builder_of(alloc, model)?;
    match unknown_lines(alloc, model) {
        Ok(unknown) => Ok((given, unknown)),
        Err(_) => Err(CliFault::NoMemory),
    }
}

/// The pit with the precedences of an input, and then the places of another, where there is a source for them.
fn read_ordered<A: Allocator + Copy + Drop, P: Source, B: Source>(
    alloc: A,
    precedence: &mut P,
    blocks: &mut Option<B>,
    given: Builder<A>,
) -> Result<Builder<A>, CliFault>
    ensures done { let precedence_read = reading_of (P.remaining precedence.old) (P.remaining precedence.new) (P.has_failed precedence.new) in
        let blocks_read = known_if (λ old new. reading_of (B.remaining old) (B.remaining new) (B.has_failed new)) blocks.old blocks.new in
        IsResultOf (ordered_step precedence_read blocks_read) given result }
    ensures same { is_some blocks.new ≡ is_some blocks.old }
{
    let given = match read_order(alloc, precedence, given) {
        Ok(given) => given,
        Err(fault) => return Err(fault),
    };
    read_places_if(alloc, blocks, given)
}

/// The pit with the places of an input, where there is a source for them.
fn read_places_if<A: Allocator + Copy + Drop, B: Source>(
    alloc: A,
    blocks: &mut Option<B>,
    given: Builder<A>,
) -> Result<Builder<A>, CliFault>
    ensures done { let read = known_if (λ old new. reading_of (B.remaining old) (B.remaining new) (B.has_failed new)) blocks.old blocks.new in
        IsResultOf (places_if_step read) given result }
    ensures same { is_some blocks.new ≡ is_some blocks.old }
{
    let Some(source) = blocks else {
        return Ok(given);
    };
    read_places(alloc, source, given)
}

/// What is to be written of a pit, which is freed, and of the lines of the unknown keys.
fn rendered<A: Allocator + Copy + Drop>(
    alloc: A,
    given: Builder<A>,
    with_places: bool,
    unknown: &[u8],
) -> Result<Vec<u8, A>, CliFault>
    ensures { MatchResult result (λ text. IsInfo with_places given unknown.now text.items) (λ fault. fault ≡ CliFault.NoMemory) }
{
    let pit = deposited(given)?;
    text_of(alloc, &pit, with_places, unknown)
}

/// What is to be written of a pit and of the lines of the unknown keys.
fn text_of<A: Allocator + Copy + Drop>(
    alloc: A,
    pit: &Deposit<A>,
    with_places: bool,
    unknown: &[u8],
) -> Result<Vec<u8, A>, CliFault>
    ensures { MatchResult result (λ text. IsInfo with_places pit.now unknown.now text.items) (λ fault. fault ≡ CliFault.NoMemory) }
{
    let benches = benches_if(alloc, pit, with_places)?;
    let mut text = empty_text(alloc);
    let written = write_info(&mut text, pit, benches, pit.unmeetable(), unknown);
    Ok(gathered(text, written)?)
}

ghost use Rattle.std.specs.Prelude.{◌≡◌, ◌<◌, ℕ, IfOk, IfSome};
ghost use Rattle.pit_model.specs.Pit.{Pit};
ghost use Rattle.pit_text.specs.Left.{fields_left};
ghost use Rattle.pit_script.specs.Ranges.{IsFactIn, IsStepIn};
ghost use Rattle.pit_script.specs.Lines.{line_fact, ranged_fact, known_bench, line_of_word, bench_step, revise_step, begin_line, end_line_of, read_step, clear_step, put_step, shift_step, expect_step, placing, below, below_if_some, MayStand};

use super::benches::Benches;
use super::error::ScriptFault;
use super::fact::ScriptFact;
use super::number::{decimal, period_or_none, shift, upper, whole};
use super::step::{JOBS_MAX, JobEnd, Step, Way};
use super::word::{Word, word_in};
use pit_model::Instance;
use pit_text::Fields;
use std::alloc::Allocator;

/// What a line says, where so many jobs have ended, and one is open or none.
#[tactic(auto, unfolding(crate::specs::Lines::line_fact))]
pub(crate) fn line_fact<A: Allocator + Copy + Drop>(
    fields: Fields<'_>,
    is_open: bool,
    jobs: u32,
    benches: &Benches<A>,
) -> Result<ScriptFact, ScriptFault>
    ensures value { result ≡ line_fact benches.now is_open jobs (fields_left fields.entry) }
    ensures stands { IfOk result (MayStand is_open jobs) }
    ensures in_range { IfOk result (IsFactIn benches.now) }
{
    let fact = ranged_fact(fields, is_open, jobs, benches.pit())?;
    known_bench(fact, benches)
}

/// What a line says by itself: whether a bench that it names has a block isn't asked.
#[tactic(auto, unfolding(crate::specs::Lines::ranged_fact))]
pub(crate) fn ranged_fact<A: Allocator + Copy + Drop>(
    mut fields: Fields<'_>,
    is_open: bool,
    jobs: u32,
    pit: &Instance<A>,
) -> Result<ScriptFact, ScriptFault>
    ensures value { result ≡ ranged_fact pit.now is_open jobs (fields_left fields.entry) }
    ensures stands { IfOk result (MayStand is_open jobs) }
    ensures in_range { IfOk result (IsFactIn pit.now) }
{
    let Some(first) = fields.next() else {
        return Err(ScriptFault::UnknownWord);
    };
    let word = word_in(first)?;
    line_of_word(word, fields, is_open, jobs, pit)
}

/// The same, where a bench that it names has a block.
fn known_bench<A: Allocator + Copy + Drop>(
    fact: ScriptFact,
    benches: &Benches<A>,
) -> Result<ScriptFact, ScriptFault>
    ensures value { result ≡ known_bench benches.now fact }
    ensures same { IfOk result (λ known. known ≡ fact) }
{
    if let ScriptFact::Does(Step::Bench { height, .. }) = fact {
        if !benches.has(height) {
            return Err(ScriptFault::NoBench);
        }
    }
    Ok(fact)
}

/// What a line says that begins with a word, by its fields behind it, where so many jobs have ended, and one is open or none. Whether a bench that it
/// names has a block isn't asked.
pub fn line_of_word<A: Allocator + Copy + Drop>(
    word: Word,
    fields: Fields<'_>,
    is_open: bool,
    jobs: u32,
    pit: &Instance<A>,
) -> Result<ScriptFact, ScriptFault>
    ensures value { result ≡ line_of_word pit.now is_open jobs word (fields_left fields.entry) }
    ensures stands { IfOk result (MayStand is_open jobs) }
    ensures in_range { IfOk result (IsFactIn pit.now) }
{
    match word {
        Word::Begin => begin_line(fields, is_open, jobs),
        Word::Read => read_step(fields, is_open, pit.blocks()),
        Word::Put => put_step(fields, is_open, None, pit.blocks(), pit.periods()),
        Word::Clear => clear_step(fields, is_open, pit.blocks()),
        Word::Shift => shift_step(fields, is_open, pit.blocks()),
        Word::Bench => bench_step(fields, is_open, pit.periods()),
        Word::Expect => expect_step(fields, is_open, pit.blocks(), pit.periods()),
        Word::Cone => put_step(
            fields,
            is_open,
            Some(Way::Cone),
            pit.blocks(),
            pit.periods(),
        ),
        Word::Push => put_step(
            fields,
            is_open,
            Some(Way::Push),
            pit.blocks(),
            pit.periods(),
        ),
        Word::Revise => revise_step(fields, is_open, pit.resources(), pit.periods()),
        Word::Commit => end_line_of(fields, is_open, JobEnd::Commit),
        Word::Abort => end_line_of(fields, is_open, JobEnd::Abort),
    }
}

#[tactic(auto, unfolding(crate::specs::Lines::bench_step))]
fn bench_step(
    mut fields: Fields<'_>,
    is_open: bool,
    periods: u32,
) -> Result<ScriptFact, ScriptFault>
    ensures value { result ≡ bench_step periods is_open (fields_left fields.entry) }
    ensures stands { (jobs : ℕ) → IfOk result (MayStand is_open jobs) }
    ensures in_range { (pit : Pit) → pit.periods ≡ periods → IfOk result (IsFactIn pit) }
{
    let (Some(z), Some(t), None) = (fields.next(), fields.next(), fields.next()) else {
        return Err(ScriptFault::FieldCount);
    };
    if !is_open {
        return Err(ScriptFault::Order);
    }
    let height = decimal(z)?;
    let period = whole(t)?;
    let period = below(periods, period, ScriptFault::PeriodRange)?;
    Ok(ScriptFact::Does(Step::Bench { height, period }))
}

#[tactic(auto, unfolding(crate::specs::Lines::revise_step))]
fn revise_step(
    mut fields: Fields<'_>,
    is_open: bool,
    resources: u32,
    periods: u32,
) -> Result<ScriptFact, ScriptFault>
    ensures value { result ≡ revise_step resources periods is_open (fields_left fields.entry) }
    ensures stands { (jobs : ℕ) → IfOk result (MayStand is_open jobs) }
    ensures in_range { (pit : Pit) → pit.resources ≡ resources → pit.periods ≡ periods → IfOk result (IsFactIn pit) }
{
    let (Some(r), Some(t), Some(v), None) = (
        fields.next(),
        fields.next(),
        fields.next(),
        fields.next(),
    ) else {
        return Err(ScriptFault::FieldCount);
    };
    if !is_open {
        return Err(ScriptFault::Order);
    }
    let resource = whole(r)?;
    let period = whole(t)?;
    let upper = upper(v)?;
    let resource = below(resources, resource, ScriptFault::ResourceRange)?;
    let period = below(periods, period, ScriptFault::PeriodRange)?;
    Ok(ScriptFact::Does(Step::Revise {
        resource,
        period,
        upper,
    }))
}

#[tactic(auto, unfolding(crate::specs::Lines::begin_line))]
fn begin_line(mut fields: Fields<'_>, is_open: bool, jobs: u32) -> Result<ScriptFact, ScriptFault>
    ensures value { result ≡ begin_line is_open jobs (fields_left fields.entry) }
    ensures stands { IfOk result (MayStand is_open jobs) }
    ensures in_range { (pit : Pit) → IfOk result (IsFactIn pit) }
{
    let None = fields.next() else {
        return Err(ScriptFault::FieldCount);
    };
    if is_open {
        return Err(ScriptFault::Order);
    }
    if jobs >= JOBS_MAX {
        return Err(ScriptFault::JobCount);
    }
    Ok(ScriptFact::Begin)
}

#[tactic(auto, unfolding(crate::specs::Lines::end_line_of))]
fn end_line_of(
    mut fields: Fields<'_>,
    is_open: bool,
    end: JobEnd,
) -> Result<ScriptFact, ScriptFault>
    ensures value { result ≡ end_line_of end is_open (fields_left fields.entry) }
    ensures stands { (jobs : ℕ) → IfOk result (MayStand is_open jobs) }
    ensures in_range { (pit : Pit) → IfOk result (IsFactIn pit) }
{
    let None = fields.next() else {
        return Err(ScriptFault::FieldCount);
    };
    if !is_open {
        return Err(ScriptFault::Order);
    }
    Ok(ScriptFact::Ends(end))
}

#[tactic(auto, unfolding(crate::specs::Lines::read_step))]
fn read_step(mut fields: Fields<'_>, is_open: bool, blocks: u32) -> Result<ScriptFact, ScriptFault>
    ensures value { result ≡ read_step blocks is_open (fields_left fields.entry) }
    ensures stands { (jobs : ℕ) → IfOk result (MayStand is_open jobs) }
    ensures in_range { (pit : Pit) → pit.blocks ≡ blocks → IfOk result (IsFactIn pit) }
{
    let (Some(b), None) = (fields.next(), fields.next()) else {
        return Err(ScriptFault::FieldCount);
    };
    if !is_open {
        return Err(ScriptFault::Order);
    }
    let block = below(blocks, whole(b)?, ScriptFault::BlockRange)?;
    Ok(ScriptFact::Does(Step::Read { block }))
}

#[tactic(auto, unfolding(crate::specs::Lines::clear_step))]
fn clear_step(mut fields: Fields<'_>, is_open: bool, blocks: u32) -> Result<ScriptFact, ScriptFault>
    ensures value { result ≡ clear_step blocks is_open (fields_left fields.entry) }
    ensures stands { (jobs : ℕ) → IfOk result (MayStand is_open jobs) }
    ensures in_range { (pit : Pit) → pit.blocks ≡ blocks → IfOk result (IsFactIn pit) }
{
    let (Some(b), None) = (fields.next(), fields.next()) else {
        return Err(ScriptFault::FieldCount);
    };
    if !is_open {
        return Err(ScriptFault::Order);
    }
    let block = below(blocks, whole(b)?, ScriptFault::BlockRange)?;
    Ok(ScriptFact::Does(Step::Clear { block }))
}

#[tactic(auto, unfolding(crate::specs::Lines::put_step))]
fn put_step(
    mut fields: Fields<'_>,
    is_open: bool,
    carried: Option<Way>,
    blocks: u32,
    periods: u32,
) -> Result<ScriptFact, ScriptFault>
    ensures value { result ≡ put_step carried blocks periods is_open (fields_left fields.entry) }
    ensures stands { (jobs : ℕ) → IfOk result (MayStand is_open jobs) }
    ensures in_range { (pit : Pit) → pit.blocks ≡ blocks → pit.periods ≡ periods → IfOk result (IsFactIn pit) }
{
    let (Some(b), Some(t), None) = (fields.next(), fields.next(), fields.next()) else {
        return Err(ScriptFault::FieldCount);
    };
    if !is_open {
        return Err(ScriptFault::Order);
    }
    let block = whole(b)?;
    let period = whole(t)?;
    let block = below(blocks, block, ScriptFault::BlockRange)?;
    let period = below(periods, period, ScriptFault::PeriodRange)?;
    Ok(ScriptFact::Does(placing(carried, block, period)))
}

#[tactic(auto, unfolding(crate::specs::Lines::shift_step))]
fn shift_step(mut fields: Fields<'_>, is_open: bool, blocks: u32) -> Result<ScriptFact, ScriptFault>
    ensures value { result ≡ shift_step blocks is_open (fields_left fields.entry) }
    ensures stands { (jobs : ℕ) → IfOk result (MayStand is_open jobs) }
    ensures in_range { (pit : Pit) → pit.blocks ≡ blocks → IfOk result (IsFactIn pit) }
{
    let (Some(b), Some(d), None) = (fields.next(), fields.next(), fields.next()) else {
        return Err(ScriptFault::FieldCount);
    };
    if !is_open {
        return Err(ScriptFault::Order);
    }
    let block = whole(b)?;
    let (is_back, by) = shift(d)?;
    let block = below(blocks, block, ScriptFault::BlockRange)?;
    Ok(ScriptFact::Does(Step::Shift { block, is_back, by }))
}

#[tactic(auto, unfolding(crate::specs::Lines::expect_step))]
fn expect_step(
    mut fields: Fields<'_>,
    is_open: bool,
    blocks: u32,
    periods: u32,
) -> Result<ScriptFact, ScriptFault>
    ensures value { result ≡ expect_step blocks periods is_open (fields_left fields.entry) }
    ensures stands { (jobs : ℕ) → IfOk result (MayStand is_open jobs) }
    ensures in_range { (pit : Pit) → pit.blocks ≡ blocks → pit.periods ≡ periods → IfOk result (IsFactIn pit) }
{
    let (Some(b), Some(t), None) = (fields.next(), fields.next(), fields.next()) else {
        return Err(ScriptFault::FieldCount);
    };
    if !is_open {
        return Err(ScriptFault::Order);
    }
    let block = whole(b)?;
    let period = period_or_none(t)?;
    let block = below(blocks, block, ScriptFault::BlockRange)?;
    let period = below_if_some(periods, period)?;
    Ok(ScriptFact::Does(Step::Expect { block, period }))
}

/// A step that puts a block into a period, with what is carried along, if a way is named.
fn placing(carried: Option<Way>, block: u32, period: u32) -> Step
    ensures value { result ≡ placing carried block period }
    ensures in_range { (pit : Pit) → block < pit.blocks → period < pit.periods → IsStepIn pit result }
{
    match carried {
        None => Step::Put { block, period },
        Some(way) => Step::Carry { way, block, period },
    }
}

/// A period, if it is one, that is below their count, or the cause that it isn't.
fn below_if_some(periods: u32, period: Option<u32>) -> Result<Option<u32>, ScriptFault>
    ensures value { result ≡ below_if_some periods period }
    ensures below { IfOk result (λ period. IfSome period (λ t. t < periods)) }
{
    let Some(t) = period else {
        return Ok(None);
    };
    Ok(Some(below(periods, t, ScriptFault::PeriodRange)?))
}

/// A number that is below a count, or the cause that it isn't.
fn below(count: u32, n: u32, cause: ScriptFault) -> Result<u32, ScriptFault>
    ensures value { result ≡ below count n cause }
    ensures below { IfOk result (λ n. n < count) }
{
    if n >= count {
        return Err(cause);
    }
    Ok(n)
}

//! The steps of a job, done in a transaction.
ghost use Rattle.std.specs.Prelude.{◌≡◌, ◌<◌, true, map, IfOk, IfErr, OnOk, OnErr, Ok, Err, All};
ghost use Rattle.pit_script.specs.Ranges.{IsStepIn};
ghost use Rattle.pit_share.specs.Planners.{SeesOn};
ghost use Rattle.pit_job.specs.Outcomes.{IsRead, IsReadBy};
ghost use Rattle.pit_job.specs.Cones.{Reaches};
ghost use Rattle.pit_job.specs.Effect.{leads_to, same_period as same_period_of};
ghost use Rattle.pit_job.specs.Shifts.{shifted as shifted_of};
ghost use Rattle.pit_job.specs.Inside.Doing.{LooksUp, Puts, DoesStep, DoesSteps, StopsAt, StepStopsAt, IsUnseen, Meets, MeetsNone};
ghost use Rattle.pit_job.specs.Inside.Walking.{PutsEach};

use crate::carry::{Walk, carry};
use crate::shift::shifted;
use pit_board::Session;
use pit_script::{Benches, Step, Way};
use pit_share::{ReadStop, Transaction};
use pit_tx::WorkError;
use std::alloc::Allocator;
use std::sync::Wait;

/// Why a step was not done.
#[derive(Clone, Copy)]
pub(crate) enum StepStop {
    Moved { block: u32, version: u32 },
    NoMemory,
    NoEntry,
}

/// Does the steps in order, and says whether all of them were done. Where not, a shift or an expectation failed.
pub(crate) fn do_steps<
    'a,
    S: Session,
    R: Wait + Drop,
    A: Allocator + Copy + Drop,
    B: Allocator + Copy + Drop,
>(
    t: &mut Transaction<'a, S, R, A>,
    walk: &mut Walk<A>,
    benches: &Benches<B>,
    steps: &[Step],
) -> Result<bool, StepStop>
    requires pit { benches.now ≡ S.instance }
    requires in_range { All (IsStepIn S.instance) steps.now }
    ensures ok { IfOk result (λ goes. DoesSteps S.instance t.old steps.now goes t.new) }
    ensures err { IfErr result (Meets (IsRead S.instance steps.now) t.old.work.start t.new.planner.seen) }
    ensures unmoved { MeetsNone (IsRead S.instance steps.now) t.old result t.new }
    ensures sees { SeesOn t.old.planner t.new.planner }
{
    for step in steps {
        if !do_step(t, walk, benches, step)? {
            return Ok(false);
        }
    }
    Ok(true)
}

/// Does a step, and says whether it was done. Where not, a shift or an expectation failed.
fn do_step<'a, S: Session, R: Wait + Drop, A: Allocator + Copy + Drop, B: Allocator + Copy + Drop>(
    t: &mut Transaction<'a, S, R, A>,
    walk: &mut Walk<A>,
    benches: &Benches<B>,
    step: &Step,
) -> Result<bool, StepStop>
    requires pit { benches.now ≡ S.instance }
    requires in_range { IsStepIn S.instance step.now }
    ensures ok { IfOk result (λ goes. DoesStep S.instance t.old step.now goes t.new) }
    ensures err { IfErr result (λ stop. StepStopsAt S.instance t.old step.now stop t.new) }
    ensures unmoved { MeetsNone (λ c. IsReadBy S.instance c step.now) t.old result t.new }
    ensures sees { SeesOn t.old.planner t.new.planner }
{
    match *step {
        Step::Read { block } => read(t, block),
        Step::Put { block, period } => write(t, block, Some(period)),
        Step::Clear { block } => write(t, block, None),
        Step::Shift { block, is_back, by } => shift(t, benches, block, is_back, by),
        Step::Bench { height, period } => bench(t, benches, height, period),
        Step::Expect { block, period } => expect(t, block, period),
        Step::Carry { way, block, period } => carry_along(t, walk, benches, way, block, period),
        Step::Revise {
            resource,
            period,
            upper,
        } => revise(t, resource, period, upper),
    }
}

fn read<'a, S: Session, R: Wait + Drop, A: Allocator + Copy + Drop>(
    t: &mut Transaction<'a, S, R, A>,
    b: u32,
) -> Result<bool, StepStop>
    requires { b < S.instance.blocks }
    ensures ok { IfOk result (λ goes. DoesStep S.instance t.old (Step.Read b) goes t.new) }
    ensures err { IfErr result (λ stop. StepStopsAt S.instance t.old (Step.Read b) stop t.new) }
    ensures unmoved { MeetsNone (λ c. c ≡ b) t.old result t.new }
    ensures sees { SeesOn t.old.planner t.new.planner }
{
    let _period = look(t, b)?;
    Ok(true)
}

/// Reads a block, and says whether what it holds is just this: a period, or none.
fn expect<'a, S: Session, R: Wait + Drop, A: Allocator + Copy + Drop>(
    t: &mut Transaction<'a, S, R, A>,
    b: u32,
    period: Option<u32>,
) -> Result<bool, StepStop>
    requires { b < S.instance.blocks }
    ensures ok { IfOk result (λ goes. DoesStep S.instance t.old (Step.Expect b period) goes t.new) }
    ensures err { IfErr result (λ stop. StepStopsAt S.instance t.old (Step.Expect b period) stop t.new) }
    ensures unmoved { MeetsNone (λ c. c ≡ b) t.old result t.new }
    ensures sees { SeesOn t.old.planner t.new.planner }
{
    let held = look(t, b)?;
    Ok(same_period(held, period))
}

/// Puts a block into a period with what is carried along.
fn carry_along<
    'a,
    S: Session,
    R: Wait + Drop,
    A: Allocator + Copy + Drop,
    B: Allocator + Copy + Drop,
>(
    t: &mut Transaction<'a, S, R, A>,
    walk: &mut Walk<A>,
    benches: &Benches<B>,
    way: Way,
    b: u32,
    period: u32,
) -> Result<bool, StepStop>
    requires pit { benches.now ≡ S.instance }
    requires block { b < S.instance.blocks }
    ensures ok { IfOk result (λ goes. DoesStep S.instance t.old (Step.Carry way b period) goes t.new) }
    ensures err { IfErr result (λ stop. StepStopsAt S.instance t.old (Step.Carry way b period) stop t.new) }
    ensures unmoved { MeetsNone (Reaches (leads_to S.instance way) b) t.old result t.new }
    ensures sees { SeesOn t.old.planner t.new.planner }
{
    carry(t, walk, benches, way, b, period)?;
    Ok(true)
}

fn same_period(one: Option<u32>, other: Option<u32>) -> bool
    ensures { result ≡ same_period_of one other }
{
    match (one, other) {
        (None, None) => true,
        (Some(t), Some(u)) => t == u,
        _ => false,
    }
}

fn revise<'a, S: Session, R: Wait + Drop, A: Allocator + Copy + Drop>(
    t: &mut Transaction<'a, S, R, A>,
    resource: u32,
    period: u32,
    upper: Option<i64>,
) -> Result<bool, StepStop>
    ensures ok { IfOk result (λ goes. DoesStep S.instance t.old (Step.Revise resource period upper) goes t.new) }
    ensures memory { IfErr result (λ stop. stop ≡ StepStop.NoMemory) }
    ensures stays { OnErr result (t.new ≡ t.old) }
    ensures planner { t.new.planner ≡ t.old.planner }
    ensures sees { SeesOn t.old.planner t.new.planner }
{
    answered(t.revise(resource, period, upper))
}

/// Puts each block of a bench into a period.
fn bench<'a, S: Session, R: Wait + Drop, A: Allocator + Copy + Drop, B: Allocator + Copy + Drop>(
    t: &mut Transaction<'a, S, R, A>,
    benches: &Benches<B>,
    height: i64,
    period: u32,
) -> Result<bool, StepStop>
    requires { benches.now ≡ S.instance }
    ensures ok { IfOk result (λ goes. DoesStep S.instance t.old (Step.Bench height period) goes t.new) }
    ensures memory { IfErr result (λ stop. stop ≡ StepStop.NoMemory) }
    ensures stays { OnErr result (t.new ≡ t.old) }
    ensures planner { t.new.planner ≡ t.old.planner }
    ensures sees { SeesOn t.old.planner t.new.planner }
{
    let blocks = blocks_of(*t.reads().allocator(), benches.bench(height))?;
    put_each(t, &blocks, period)?;
    Ok(true)
}

fn blocks_of<A: Allocator + Copy + Drop>(
    alloc: A,
    placed: &[(i64, u32)],
) -> Result<Vec<u32, A>, StepStop>
    ensures blocks { IfOk result (λ blocks. blocks.items ≡ map (λ p. p.1) placed.now) }
    ensures memory { IfErr result (λ stop. stop ≡ StepStop.NoMemory) }
{
    let mut blocks = Vec::new(alloc);
    for one in placed {
        let Ok(()) = blocks.push(one.1) else {
            return Err(StepStop::NoMemory);
        };
    }
    Ok(blocks)
}

/// Puts each of these blocks into a period: all of them, or, where memory runs out, none.
pub(crate) fn put_each<'a, S: Session, R: Wait + Drop, A: Allocator + Copy + Drop>(
    t: &mut Transaction<'a, S, R, A>,
    blocks: &[u32],
    period: u32,
) -> Result<(), StepStop>
    ensures ok { OnOk result (PutsEach t.old blocks.now period t.new) }
    ensures memory { IfErr result (λ stop. stop ≡ StepStop.NoMemory) }
    ensures stays { OnErr result (t.new ≡ t.old) }
    ensures planner { t.new.planner ≡ t.old.planner }
    ensures sees { SeesOn t.old.planner t.new.planner }
{
    match t.put_each(blocks, period) {
        Ok(()) => Ok(()),
        Err(_) => Err(StepStop::NoMemory),
    }
}

fn shift<'a, S: Session, R: Wait + Drop, A: Allocator + Copy + Drop, B: Allocator + Copy + Drop>(
    t: &mut Transaction<'a, S, R, A>,
    benches: &Benches<B>,
    b: u32,
    is_back: bool,
    by: u32,
) -> Result<bool, StepStop>
    requires pit { benches.now ≡ S.instance }
    requires block { b < S.instance.blocks }
    ensures ok { IfOk result (λ goes. DoesStep S.instance t.old (Step.Shift b is_back by) goes t.new) }
    ensures err { IfErr result (λ stop. StepStopsAt S.instance t.old (Step.Shift b is_back by) stop t.new) }
    ensures unmoved { MeetsNone (λ c. c ≡ b) t.old result t.new }
    ensures sees { SeesOn t.old.planner t.new.planner }
{
    let Some(now) = look(t, b)? else {
        return Ok(false);
    };
    let Some(then) = shifted_in(benches, is_back, by, now) else {
        return Ok(false);
    };
    write(t, b, Some(then))
}

/// The period of the pit that lies so much later, or earlier where it goes back, if it is one.
fn shifted_in<B: Allocator + Copy + Drop>(
    benches: &Benches<B>,
    is_back: bool,
    by: u32,
    t: u32,
) -> Option<u32>
    ensures { result ≡ shifted_of benches.now.periods is_back by t }
{
    shifted(benches.pit().periods(), is_back, by, t)
}

/// Reads a block of the pit.
pub(crate) fn look<'a, S: Session, R: Wait + Drop, A: Allocator + Copy + Drop>(
    t: &mut Transaction<'a, S, R, A>,
    b: u32,
) -> Result<Option<u32>, StepStop>
    requires { b < S.instance.blocks }
    ensures ok { IfOk result (λ period. LooksUp t.old b period t.new) }
    ensures err { IfErr result (λ stop. StopsAt (λ c. c ≡ b) t.old stop t.new) }
    ensures unseen { IfErr result (λ stop. IsUnseen t.old b stop t.new) }
    ensures unmoved { MeetsNone (λ c. c ≡ b) t.old result t.new }
    ensures sees { SeesOn t.old.planner t.new.planner }
{
    match t.read(b) {
        Ok(period) => Ok(period),
        Err(ReadStop::Moved { block, version }) => Err(StepStop::Moved { block, version }),
        Err(ReadStop::NoEntry) => Err(StepStop::NoEntry),
        Err(_) => Err(StepStop::NoMemory),
    }
}

/// Writes that a block has a period, or none.
fn write<'a, S: Session, R: Wait + Drop, A: Allocator + Copy + Drop>(
    t: &mut Transaction<'a, S, R, A>,
    b: u32,
    period: Option<u32>,
) -> Result<bool, StepStop>
    ensures ok { IfOk result (λ goes. Puts t.old b period goes t.new) }
    ensures memory { IfErr result (λ stop. stop ≡ StepStop.NoMemory) }
    ensures stays { OnErr result (t.new ≡ t.old) }
    ensures planner { t.new.planner ≡ t.old.planner }
    ensures sees { SeesOn t.old.planner t.new.planner }
{
    match period {
        Some(period) => answered(t.put(b, period)),
        None => answered(t.clear(b)),
    }
}

/// What a step that writes or revises tells: in range it is refused only where it is out of memory.
fn answered(told: Result<(), WorkError>) -> Result<bool, StepStop>
    ensures done { OnOk told (result ≡ Ok true) }
    ensures stop { OnErr told (result ≡ Err StepStop.NoMemory) }
{
    match told {
        Ok(()) => Ok(true),
        Err(_) => Err(StepStop::NoMemory),
    }
}

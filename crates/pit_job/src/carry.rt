//! A block is put into a period with what is carried along: what stands in its way, or what depends on it.
ghost use Rattle.std.specs.Prelude.{◌≡◌, ℕ, ◌<◌, ◌≤◌, ◌++◌, ◌∷◌, [], length, true, false, slice_get, nat_eq, Some, IfOk, IfErr, OnOk, OnErr};
ghost use Rattle.std.specs.List.{All, Contains, list_any};
ghost use Rattle.std.specs.List.Sorted.{IsSorted, IsPermutation};
ghost use Rattle.std.specs.Ordering.{nat_cmp};
ghost use Rattle.pit_share.specs.Planners.{SeesOn};
ghost use Rattle.pit_job.specs.Effect.{is_carried as is_carried_of, leads_to, members_of, read_in, seen};
ghost use Rattle.pit_job.specs.Cones.{Reaches};
ghost use Rattle.pit_job.specs.Inside.Doing.{DoesStep, MeetsNone, StopsAt, own_of};
ghost use Rattle.pit_job.specs.Inside.Walking.{IsVisited, VisitsEach, IsGone, IsReadNow};

use crate::doing::{StepStop, look, put_each};
use pit_board::Session;
use pit_model::{BLOCKS_MAX, BlockSet, Instance};
use pit_script::{Benches, Step, Way};
use pit_share::Transaction;
use std::alloc::Allocator;
use std::marker::Model;
use std::sync::Wait;

/// The blocks that a walk has read, in their order, and of these what it has found to be carried along. One serves line after line. Its memory grows with
/// what one line reads, and once by a bit for each block.
#[derive(Drop)]
pub(crate) struct Walk<A: Allocator + Copy + Drop> {
    marks: BlockSet<A>,
    visited: Vec<u32, A>,
    found: Vec<u32, A>,
}

impl<A: Allocator + Copy + Drop> Model for Walk<A> {
    ghost use Rattle.pit_job.specs.Inside.Walking.{WalkState, AreMarked};

    ghost Value = { WalkState };

    ghost view = { λ w. record { visited = w.visited.items; found = w.found.items } };

    ghost invariant = { λ w. AreMarked w.marks w.visited.items };
}

impl<A: Allocator + Copy + Drop> Walk<A> {
    /// A walk that has read nothing. Takes no memory.
    pub(crate) fn new(alloc: A) -> Walk<A>
        ensures { result ≡ record { visited = []; found = [] } }
    {
        Walk {
            marks: BlockSet::new(alloc),
            visited: Vec::new(alloc),
            found: Vec::new(alloc),
        }
    }

    /// Forgets what was read. The room stays.
    fn restart(&mut self)
        ensures { self.new ≡ record { visited = []; found = [] } }
    {
        self.marks.clear(&self.visited);
        self.visited.clear();
        self.found.clear();
    }

    fn has_visited(&self, b: u32) -> bool
        ensures { result ≡ list_any (nat_eq b) self.now.visited }
    {
        self.marks.contains(b)
    }

    /// Takes a block as visited that wasn't.
    fn enter(&mut self, b: u32) -> Result<(), StepStop>
        requires few { b < BLOCKS_MAX }
        requires fresh { list_any (nat_eq b) self.old.visited ≡ false }
        ensures visited { OnOk result (self.new.visited ≡ self.old.visited ++ b ∷ []) }
        ensures found { OnOk result (self.new.found ≡ self.old.found) }
        ensures memory { IfErr result (λ stop. stop ≡ StepStop.NoMemory) }
    {
        let Ok(()) = self.marks.reserve(b + 1) else {
            return Err(StepStop::NoMemory);
        };
        let Ok(()) = self.visited.push(b) else {
            return Err(StepStop::NoMemory);
        };
        self.marks.insert(b);
        Ok(())
    }

    /// Takes a block as found.
    fn add(&mut self, b: u32) -> Result<(), StepStop>
        ensures visited { OnOk result (self.new.visited ≡ self.old.visited) }
        ensures found { OnOk result (self.new.found ≡ self.old.found ++ b ∷ []) }
        ensures memory { IfErr result (λ stop. stop ≡ StepStop.NoMemory) }
    {
        match self.found.push(b) {
            Ok(()) => Ok(()),
            Err(_) => Err(StepStop::NoMemory),
        }
    }

    /// The block that was found as number `i`.
    fn member(&self, i: u32) -> Option<u32>
        ensures { result ≡ slice_get self.now.found i }
    {
        self.found.get(i as usize).copied()
    }

    /// Sorts what was found by rising block.
    fn sort(&mut self)
        ensures visited { self.new.visited ≡ self.old.visited }
        ensures sorted { IsSorted nat_cmp self.new.found }
        ensures permutation { IsPermutation self.old.found self.new.found }
    {
        self.found.sort_unstable();
    }

    fn found(&self) -> &[u32]
        ensures { result.now ≡ self.now.found }
    {
        &self.found
    }
}

/// Puts a block and what is carried along with it into a period, once all that they lead to is read. The walk then has what was put, rising.
pub(crate) fn carry<
    'a,
    S: Session,
    R: Wait + Drop,
    A: Allocator + Copy + Drop,
    B: Allocator + Copy + Drop,
>(
    t: &mut Transaction<'a, S, R, A>,
    walk: &mut Walk<A>,
    benches: &Benches<B>,
    way: Way,
    b: u32,
    period: u32,
) -> Result<(), StepStop>
    requires pit { benches.now ≡ S.instance }
    requires block { b < S.instance.blocks }
    ensures ok { OnOk result (DoesStep S.instance t.old (Step.Carry way b period) true t.new) }
    ensures members { OnOk result (walk.new.found ≡ members_of S.instance way (λ c. seen (read_in t.new.work.reads) (own_of t.old.work) c) b period) }
    ensures err { IfErr result (λ stop. StopsAt (IsReadNow S.instance way b period t.new) t.old stop t.new) }
    ensures unmoved { MeetsNone (Reaches (leads_to S.instance way) b) t.old result t.new }
    ensures sees { SeesOn t.old.planner t.new.planner }
{
    walked(t, walk, benches.pit(), way, b, period)?;
    walk.sort();
    put_each(t, walk.found(), period)?;
    Ok(())
}

/// Reads from a queue: the block, and then of each that is found what it leads to.
fn walked<'a, S: Session, R: Wait + Drop, A: Allocator + Copy + Drop, B: Allocator + Copy + Drop>(
    t: &mut Transaction<'a, S, R, A>,
    walk: &mut Walk<A>,
    pit: &Instance<B>,
    way: Way,
    b: u32,
    period: u32,
) -> Result<(), StepStop>
    requires pit { pit.now ≡ S.instance }
    requires block { b < S.instance.blocks }
    ensures ok { OnOk result ((i : ℕ) × (length walk.new.found ≤ i) × IsGone S.instance way b period t.old t.new walk.new i) }
    ensures err { IfErr result (λ stop. StopsAt (IsReadNow S.instance way b period t.new) t.old stop t.new) }
    ensures unmoved { MeetsNone (Reaches (leads_to S.instance way) b) t.old result t.new }
    ensures sees { SeesOn t.old.planner t.new.planner }
{
    let blocks = pit.blocks();
    walk.restart();
    visit(t, walk, way, period, b)?;
    for i in 0..blocks {
        let Some(m) = walk.member(i) else {
            return Ok(());
        };
        visit_each(t, walk, way, period, led_by(pit, way, m))?;
    }
    Ok(())
}

/// The predecessors of a block, or its successors.
fn led_by<B: Allocator + Copy + Drop>(pit: &Instance<B>, way: Way, b: u32) -> &[u32]
    requires { b < pit.now.blocks }
    ensures value { result.now ≡ leads_to pit.now way b }
    ensures below { All (λ a. a < pit.now.blocks) result.now }
{
    match way {
        Way::Cone => pit.preds(b),
        Way::Push => pit.succs(b),
    }
}

fn visit_each<'a, S: Session, R: Wait + Drop, A: Allocator + Copy + Drop>(
    t: &mut Transaction<'a, S, R, A>,
    walk: &mut Walk<A>,
    way: Way,
    period: u32,
    blocks: &[u32],
) -> Result<(), StepStop>
    requires few { S.instance.blocks ≤ BLOCKS_MAX }
    requires blocks { All (λ b. b < S.instance.blocks) blocks.now }
    ensures ok { OnOk result (VisitsEach way period t.old walk.old blocks.now t.new walk.new) }
    ensures err { IfErr result (λ stop. StopsAt (Contains blocks.now) t.old stop t.new) }
    ensures unmoved { MeetsNone (Contains blocks.now) t.old result t.new }
    ensures sees { SeesOn t.old.planner t.new.planner }
{
    for b in blocks {
        if walk.has_visited(*b) {
            continue;
        }
        visit(t, walk, way, period, *b)?;
    }
    Ok(())
}

/// Reads a block that wasn't visited.
fn visit<'a, S: Session, R: Wait + Drop, A: Allocator + Copy + Drop>(
    t: &mut Transaction<'a, S, R, A>,
    walk: &mut Walk<A>,
    way: Way,
    period: u32,
    b: u32,
) -> Result<(), StepStop>
    requires few { S.instance.blocks ≤ BLOCKS_MAX }
    requires block { b < S.instance.blocks }
    requires fresh { list_any (nat_eq b) walk.old.visited ≡ false }
    ensures ok { OnOk result (IsVisited way period t.old walk.old b t.new walk.new) }
    ensures err { IfErr result (λ stop. StopsAt (λ c. c ≡ b) t.old stop t.new) }
    ensures unmoved { MeetsNone (λ c. c ≡ b) t.old result t.new }
    ensures sees { SeesOn t.old.planner t.new.planner }
{
    walk.enter(b)?;
    let held = look(t, b)?;
    if is_carried(way, period, held) {
        walk.add(b)?;
    }
    Ok(())
}

/// Whether a block that holds this is carried along.
fn is_carried(way: Way, period: u32, held: Option<u32>) -> bool
    ensures { result ≡ is_carried_of way period (Some held) }
{
    match (way, held) {
        (Way::Cone, None) => true,
        (Way::Cone, Some(held)) => held > period,
        (Way::Push, None) => false,
        (Way::Push, Some(held)) => held < period,
    }
}

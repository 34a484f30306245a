//! The sets of a transaction, in the order of first use.
ghost use Rattle.std.specs.Prelude.{◌≡◌, ◌+◌, ◌<◌, ◌≤◌, [], ◌∷◌, ◌++◌, length, None, nat_eq, All, IfOk, OnOk, OnErr, IfSome, IfNone, IsErrOf};
ghost use Rattle.pit_model.specs.Fitting.{Fits, RevisionsFit, pair_eq};
ghost use Rattle.pit_num.specs.Refused.{IsRefusedBy};
ghost use Rattle.pit_keyed.specs.Keyed.{IsFurther, at_key, with_each, with_read, with_write};
ghost use Rattle.pit_tx.specs.Refusals.{refusal_of, first_refusal_of, revision_refusal_of};
ghost use Rattle.pit_tx.specs.Sets.{empty_sets, known_of, AreSound};
ghost use Rattle.pit_tx.specs.Inside.Kept.{IsEmptied};

use crate::error::WorkError;
use indexmap::IndexMap;
use pit_keyed::{FilteredSet, Keys, insert, insert_each};
use pit_model::{BLOCKS_MAX, Instance, RESOURCES_MAX};
use pit_num::{NoMemory, PERIODS_MAX};
use std::alloc::Allocator;
use std::marker::Model;

/// There is room for so many pairs of each set from the start.
pub const FIRST_ROOM: usize = 2;

/// Blocks, each with a period or none.
pub type PeriodMap<A> = IndexMap<u32, Option<u32>, Keys, A>;

/// Resources in periods, each with an upper limit in millionths, or none.
pub type LimitMap<A> = IndexMap<(u32, u32), Option<i64>, Keys, A>;

/// The reads and the writes of a transaction, each a block with a period or none, and the upper limits that it revises, in the order
/// of first use. A transaction is what one planner does for one of its jobs, after so many commits. Only `new`, `over`, `note`, `note_unknown`,
/// `put`, `put_each`, `clear` and `revise` take memory, and a refused one leaves all as it was.
#[derive(Drop)]
pub struct Work<A: Allocator + Copy + Drop> {
    planner: u32,
    job: u32,
    start: u32,
    blocks: u32,
    periods: u32,
    resources: u32,
    /// On the heap, so that a work that is handed on takes few bytes.
    sets: Box<Kept<A>, A>,
}

/// The sets of a work.
#[derive(Drop)]
struct Kept<A: Allocator + Copy + Drop> {
    reads: FilteredSet<Option<u32>, A>,
    writes: PeriodMap<A>,
    revises: LimitMap<A>,
}

/// Empty sets, which hash by these keys, with room for so many reads.
fn empty_kept<A: Allocator + Copy + Drop>(
    alloc: A,
    keys: Keys,
    room: usize,
) -> Result<Box<Kept<A>, A>, NoMemory>
    requires { 1 ≤ room }
    ensures { IfOk result (λ sets. IsEmptied sets.value) }
{
    let reads = FilteredSet::new(alloc, keys, room)?;
    let writes = IndexMap::with_capacity_and_hasher(alloc, FIRST_ROOM, keys)?;
    let revises = IndexMap::with_capacity_and_hasher(alloc, FIRST_ROOM, keys)?;
    let kept = Kept {
        reads,
        writes,
        revises,
    };
    match Box::new(alloc, kept) {
        Ok(sets) => Ok(sets),
        Err(_) => Err(NoMemory),
    }
}

impl<A: Allocator + Copy + Drop> Model for Work<A> {
    ghost use Rattle.pit_keyed.specs.Keyed.{HasFirstRoom};
    ghost use Rattle.pit_tx.specs.Sets.{Sets, AreSound};

    ghost Value = { Sets };

    ghost view = { λ w. record {
      planner = w.planner;
      job = w.job;
      start = w.start;
      blocks = w.blocks;
      periods = w.periods;
      resources = w.resources;
      reads = w.sets.value.reads;
      writes = w.sets.value.writes.entries;
      revises = w.sets.value.revises.entries;
    } };

    ghost invariant = { λ w. AreSound (record {
      planner = w.planner;
      job = w.job;
      start = w.start;
      blocks = w.blocks;
      periods = w.periods;
      resources = w.resources;
      reads = w.sets.value.reads;
      writes = w.sets.value.writes.entries;
      revises = w.sets.value.revises.entries;
    }) × HasFirstRoom w.sets.value.writes × HasFirstRoom w.sets.value.revises };
}

impl<A: Allocator + Copy + Drop> Work<A> {
    /// Empty sets over blocks, periods and resources that are numbered from 0. Takes memory once for some pairs of each set.
    pub fn new(
        alloc: A,
        planner: u32,
        job: u32,
        start: u32,
        blocks: u32,
        periods: u32,
        resources: u32,
    ) -> Result<Self, NoMemory>
        requires some_block { 1 ≤ blocks }
        requires few_blocks { blocks ≤ BLOCKS_MAX }
        requires some_period { 1 ≤ periods }
        requires few_periods { periods ≤ PERIODS_MAX }
        requires few_resources { resources ≤ RESOURCES_MAX }
        ensures { IfOk result (λ w. w ≡ record {
          planner = planner;
          job = job;
          start = start;
          blocks = blocks;
          periods = periods;
          resources = resources;
          reads = [];
          writes = [];
          revises = [];
        }) }
    {
        let sets = empty_kept(alloc, Keys::default(), FIRST_ROOM)?;
        Ok(Work {
            planner,
            job,
            start,
            blocks,
            periods,
            resources,
            sets,
        })
    }

    /// Empty sets over what a pit has, with room for so many reads, which hash by the pit's keys. Takes memory as `new` does.
    pub fn over<B: Allocator + Copy + Drop>(
        alloc: A,
        pit: &Instance<B>,
        planner: u32,
        job: u32,
        start: u32,
        room: usize,
    ) -> Result<Self, NoMemory>
        requires { 1 ≤ room }
        ensures { IfOk result (λ w. w ≡ empty_sets pit.now planner job start) }
    {
        pit.shows_sound();
        let sets = empty_kept(alloc, pit.keys(), room)?;
        Ok(Work {
            planner,
            job,
            start,
            blocks: pit.blocks(),
            periods: pit.periods(),
            resources: pit.resources(),
            sets,
        })
    }

    /// Empty sets, as `over` makes them, in the memory of this work's sets, which hash as they did. Takes no memory.
    pub fn emptied<B: Allocator + Copy + Drop>(
        self,
        pit: &Instance<B>,
        planner: u32,
        job: u32,
        start: u32,
    ) -> Work<A>
        ensures { result ≡ empty_sets pit.now planner job start }
    {
        pit.shows_sound();
        let Work { mut sets, .. } = self;
        sets.reads.clear();
        sets.writes.clear();
        if !sets.revises.is_empty() {
            sets.revises.clear();
        }
        Work {
            planner,
            job,
            start,
            blocks: pit.blocks(),
            periods: pit.periods(),
            resources: pit.resources(),
            sets,
        }
    }

    /// Who plans, numbered from 1. 0 is the opening schedule.
    pub fn planner(&self) -> u32
        ensures { result ≡ self.now.planner }
    {
        self.planner
    }

    /// The job of that planner, numbered from 1.
    pub fn job(&self) -> u32
        ensures { result ≡ self.now.job }
    {
        self.job
    }

    /// How many commits the transaction has seen.
    pub fn start(&self) -> u32
        ensures { result ≡ self.now.start }
    {
        self.start
    }

    /// The number of blocks, 1 to 4,194,304.
    pub fn blocks(&self) -> u32
        ensures count { result ≡ self.now.blocks }
        ensures sound { AreSound self.now }
    {
        self.blocks
    }

    /// Shows that the sets are sound.
    pub fn shows_sound(&self)
        ensures { AreSound self.now }
    {
        let _ = &self.blocks;
    }

    /// The number of periods, 1 to 1,000.
    pub fn periods(&self) -> u32
        ensures count { result ≡ self.now.periods }
        ensures sound { AreSound self.now }
    {
        self.periods
    }

    /// The number of resources, 0 to 64.
    pub fn resources(&self) -> u32
        ensures count { result ≡ self.now.resources }
        ensures sound { AreSound self.now }
    {
        self.resources
    }

    /// The own write of a block, else its first noted read (TL2 2006). A block out of range is not known.
    pub fn known(&self, b: u32) -> Option<Option<u32>>
        ensures { result ≡ known_of self.now b }
    {
        match self.written(b) {
            Some(period) => Some(period),
            None => self.sets.reads.get(b),
        }
    }

    /// Notes what a block was seen to have. A block that was noted before keeps its first value. Takes memory where the read set
    /// has other blocks, and not this one.
    pub fn note(&mut self, b: u32, period: Option<u32>) -> Result<(), WorkError>
        ensures ok { OnOk result (self.new ≡ record self.old { reads = with_read nat_eq self.old.reads b period }) }
        ensures err { OnErr result (self.new ≡ self.old) }
        ensures cause { IsRefusedBy WorkError.NoMemory result (refusal_of self.old b period) }
        ensures memory { IsErrOf result WorkError.NoMemory → IsFurther nat_eq self.old.reads b }
    {
        if let Some(error) = self.refusal(b, period) {
            return Err(error);
        }
        match self.sets.reads.note(b, period) {
            Ok(()) => Ok(()),
            Err(_) => Err(WorkError::NoMemory),
        }
    }

    /// Notes what a block of the pit that isn't known was seen to have, without looking for it again. Takes memory where the read set has other
    /// blocks.
    pub fn note_unknown(&mut self, b: u32, period: Option<u32>) -> Result<(), NoMemory>
        requires block { b < self.old.blocks }
        requires period { IfSome period (λ t. t < self.old.periods) }
        requires unknown { known_of self.old b ≡ None }
        ensures ok { OnOk result (self.new ≡ record self.old { reads = self.old.reads ++ (b, period) ∷ [] }) }
        ensures err { OnErr result (self.new ≡ self.old) }
        ensures memory { OnErr result (IsFurther nat_eq self.old.reads b) }
    {
        self.sets.reads.add(b, period)
    }

    /// Writes that a block has a period. A block that was written before keeps its place. Takes memory where the write set has
    /// other blocks, and not this one.
    pub fn put(&mut self, b: u32, t: u32) -> Result<(), WorkError>
        ensures ok { OnOk result (self.new ≡ record self.old { writes = with_write nat_eq self.old.writes b (Some t) }) }
        ensures err { OnErr result (self.new ≡ self.old) }
        ensures cause { IsRefusedBy WorkError.NoMemory result (refusal_of self.old b (Some t)) }
        ensures memory { IsErrOf result WorkError.NoMemory → IsFurther nat_eq self.old.writes b }
    {
        self.write(b, Some(t))
    }

    /// Writes of one block after another that it has a period: of each, or of none. Blocks that were written before keep their places. Takes memory for
    /// all of them first, where there are two or more, those of the write set counted too.
    pub fn put_each(&mut self, blocks: &[u32], t: u32) -> Result<(), WorkError>
        ensures ok { OnOk result (self.new ≡ record self.old { writes = with_each nat_eq self.old.writes blocks.now (Some t) }) }
        ensures err { OnErr result (self.new ≡ self.old) }
        ensures cause { IsRefusedBy WorkError.NoMemory result (first_refusal_of self.old blocks.now t) }
        ensures memory { IsErrOf result WorkError.NoMemory → 2 ≤ length self.old.writes + length blocks.now }
    {
        if let Some(error) = self.first_refusal(blocks, t) {
            return Err(error);
        }
        match insert_each(&mut self.sets.writes, blocks, Some(t)) {
            Ok(()) => Ok(()),
            Err(_) => Err(WorkError::NoMemory),
        }
    }

    /// Writes that a block has no period. The pair is kept, in its place or last, and memory is taken, as in `put`.
    pub fn clear(&mut self, b: u32) -> Result<(), WorkError>
        ensures ok { OnOk result (self.new ≡ record self.old { writes = with_write nat_eq self.old.writes b None }) }
        ensures err { OnErr result (self.new ≡ self.old) }
        ensures cause { IsRefusedBy WorkError.NoMemory result (refusal_of self.old b None) }
        ensures memory { IsErrOf result WorkError.NoMemory → IsFurther nat_eq self.old.writes b }
    {
        self.write(b, None)
    }

    /// Revises the upper limit of a resource in a period; `None` is no limit. A pair that was revised before keeps its place. Takes
    /// memory where other pairs are revised, and not this one.
    pub fn revise(&mut self, r: u32, t: u32, upper: Option<i64>) -> Result<(), WorkError>
        ensures ok { OnOk result (self.new ≡ record self.old { revises = with_write pair_eq self.old.revises (r, t) upper }) }
        ensures err { OnErr result (self.new ≡ self.old) }
        ensures cause { IsRefusedBy WorkError.NoMemory result (revision_refusal_of self.old r t) }
        ensures memory { IsErrOf result WorkError.NoMemory → IsFurther pair_eq self.old.revises (r, t) }
    {
        if let Some(error) = self.revision_refusal(r, t) {
            return Err(error);
        }
        match insert(&mut self.sets.revises, (r, t), upper) {
            Ok(()) => Ok(()),
            Err(_) => Err(WorkError::NoMemory),
        }
    }

    /// The read set: each block with what it was first seen to have.
    pub fn reads(&self) -> &PeriodMap<A>
        ensures pairs { result.now.entries ≡ self.now.reads }
        ensures fit { Fits self.now.blocks self.now.periods self.now.reads }
    {
        self.sets.reads.map()
    }

    /// The write set: each block with what it was last given.
    pub fn writes(&self) -> &PeriodMap<A>
        ensures pairs { result.now.entries ≡ self.now.writes }
        ensures fit { Fits self.now.blocks self.now.periods self.now.writes }
    {
        &self.sets.writes
    }

    /// The revisions: each pair of a resource and a period with the upper limit that it was last given.
    pub fn revises(&self) -> &LimitMap<A>
        ensures pairs { result.now.entries ≡ self.now.revises }
        ensures fit { RevisionsFit self.now.resources self.now.periods self.now.revises }
    {
        &self.sets.revises
    }

    /// The own write of a block. Most often there is none yet, and then no hash is made.
    fn written(&self, b: u32) -> Option<Option<u32>>
        ensures { result ≡ at_key nat_eq self.now.writes b }
    {
        if self.sets.writes.is_empty() {
            return None;
        }
        match self.sets.writes.get(&b) {
            Some(period) => Some(*period),
            None => None,
        }
    }

    /// Writes a block with a period or none.
    fn write(&mut self, b: u32, period: Option<u32>) -> Result<(), WorkError>
        ensures ok { OnOk result (self.new ≡ record self.old { writes = with_write nat_eq self.old.writes b period }) }
        ensures err { OnErr result (self.new ≡ self.old) }
        ensures cause { IsRefusedBy WorkError.NoMemory result (refusal_of self.old b period) }
        ensures memory { IsErrOf result WorkError.NoMemory → IsFurther nat_eq self.old.writes b }
    {
        if let Some(error) = self.refusal(b, period) {
            return Err(error);
        }
        match insert(&mut self.sets.writes, b, period) {
            Ok(()) => Ok(()),
            Err(_) => Err(WorkError::NoMemory),
        }
    }

    /// Why a block with a period or none can't stand in a set, if it can't.
    fn refusal(&self, b: u32, period: Option<u32>) -> Option<WorkError>
        ensures due { result ≡ refusal_of self.now b period }
        ensures fits { IfNone result ((b < self.now.blocks) × IfSome period (λ t. t < self.now.periods)) }
    {
        if b >= self.blocks {
            return Some(WorkError::NoBlock);
        }
        match period {
            Some(t) if t >= self.periods => Some(WorkError::NoPeriod),
            _ => None,
        }
    }

    /// Why the first of the blocks that can't stand in a set with a period can't, if there is one.
    fn first_refusal(&self, blocks: &[u32], t: u32) -> Option<WorkError>
        ensures due { result ≡ first_refusal_of self.now blocks.now t }
        ensures fits { IfNone result (All (λ b. (b < self.now.blocks) × (t < self.now.periods)) blocks.now) }
    {
        for b in blocks {
            if let Some(error) = self.refusal(*b, Some(t)) {
                return Some(error);
            }
        }
        None
    }

    /// Why a resource in a period can't be revised, if it can't.
    fn revision_refusal(&self, r: u32, t: u32) -> Option<WorkError>
        ensures due { result ≡ revision_refusal_of self.now r t }
        ensures fits { IfNone result ((r < self.now.resources) × (t < self.now.periods)) }
    {
        if r >= self.resources {
            return Some(WorkError::NoResource);
        }
        if t >= self.periods {
            return Some(WorkError::NoPeriod);
        }
        None
    }
}

ghost use Rattle.std.specs.Prelude.{◌≡◌, ◌≢◌, ℕ, ◌*◌, ◌<◌, ◌⊎◌, ◌++◌, ◌∷◌, [], List, IfOk, IfErr, IfSome, OnOk, OnErr, IsOk, length, replicate, All};
ghost use Rattle.pit_model.specs.Fitting.{Fits, RevisionsFit, revisions_of};
ghost use Rattle.pit_model.specs.Pit.{upper_of};
ghost use Rattle.pit_plan.specs.Schedule.{Commit, held_period, load_of, value_of};
ghost use Rattle.pit_plan.specs.Standing.{IsPlanOf, period_of, version_of, limit_in_force, Adds};
ghost use Rattle.pit_plan.specs.Inside.Plan.{with_writes};
ghost use Rattle.pit_plan.specs.Inside.Totals.{IsTally};
ghost use Rattle.pit_plan.specs.Limits.{cell_limit, at_cell};
ghost use Rattle.pit_plan.specs.Breaches.{IsBreachOf, IsGoodNow};
ghost use Rattle.pit_plan.specs.Shortfalls.{shortfalls_of};

use crate::breach::Breach;
use crate::judging::first_breach_after;
use crate::limits::{Limits, limits_of, revise};
use crate::plan::COMMITS_MAX;
use crate::schedule;
use crate::short::Short;
use crate::tally::Tally;
use pit_model::{Deposit, Instance};
use pit_num::NoMemory;
use std::alloc::Allocator;
use std::marker::Model;

/// A plan of a pit that has no successors: all of a `Plan` but that it judges no commit before that is added.
///
/// The body keeps each block's period and version, each load and limit, and the value.
#[derive(Drop)]
pub struct PlanView<A: Allocator + Drop> {
    pit: Deposit<A>,
    commits: u32,
    tally: Tally<A>,
    versions: Vec<u32, A>,
    limits: Vec<Option<i64>, A>,
}

impl<A: Allocator + Drop> Model for PlanView<A> {
    ghost use Rattle.pit_plan.specs.Standing.{Standing};
    ghost use Rattle.pit_plan.specs.Inside.Plan.{IsPlanKept};

    ghost Value = { Standing };

    ghost view = { λ plan. record {
      pit = plan.pit;
      commits = plan.commits;
      periods = plan.tally.periods;
      versions = plan.versions.items;
      limits = plan.limits.items;
    } };

    ghost invariant = { λ plan. IsPlanKept plan.pit plan.tally plan.versions.items plan.limits.items };
}

impl<A: Allocator + Copy + Drop> PlanView<A> {
    /// A plan after no commit, in which no block has a period. Where memory runs out, the pit is handed back.
    pub fn empty(alloc: A, pit: Deposit<A>) -> Result<PlanView<A>, (Deposit<A>, NoMemory)>
        ensures ok { IfOk result (λ plan. (plan.pit ≡ pit) × IsPlanOf plan []) }
        ensures err { IfErr result (λ refused. refused.0 ≡ pit) }
    {
        match nothing(alloc, &pit) {
            Err(no_memory) => Err((pit, no_memory)),
            Ok((tally, versions, limits)) => Ok(PlanView {
                pit,
                commits: 0,
                tally,
                versions,
                limits,
            }),
        }
    }

    /// The pit.
    pub fn deposit(&self) -> &Deposit<A>
        ensures { result.now ≡ self.now.pit }
    {
        &self.pit
    }

    /// The pit, taken out of the plan.
    pub fn into_deposit(self) -> Deposit<A>
        ensures { result ≡ self.pit }
    {
        let PlanView { pit, .. } = self;
        pit
    }

    /// The number of commits. They are numbered from 1.
    pub fn commits(&self) -> u32
        ensures { result ≡ self.now.commits }
    {
        self.commits
    }

    /// The period of a block, or none.
    pub fn period(&self, b: u32) -> Option<u32>
        requires { b < self.now.pit.blocks }
        ensures period { result ≡ period_of self.now b }
        ensures in_range { IfSome result (λ t. t < self.now.pit.periods) }
    {
        self.tally.periods[b as usize]
    }

    /// The period of each block, or none, by rising block.
    pub fn periods(&self) -> &[Option<u32>]
        ensures periods { result.now ≡ self.now.periods }
        ensures count { length result.now ≡ self.now.pit.blocks }
    {
        &self.tally.periods
    }

    /// The number of the last commit that named a block, or 0.
    pub(crate) fn version(&self, b: u32) -> u32
        requires { b < self.now.pit.blocks }
        ensures { result ≡ version_of self.now b }
    {
        self.versions[b as usize]
    }

    /// The load of a resource in a period, in millionths.
    pub fn load(&self, r: u32, t: u32) -> i128
        requires resource { r < self.now.pit.resources }
        requires period { t < self.now.pit.periods }
        ensures { (commits : List Commit) → IsPlanOf self.now commits
            → result ≡ load_of self.now.pit (held_period commits) r t }
    {
        schedule::load(&self.pit, &self.tally, r, t)
    }

    /// The upper limit in force on the load of a resource in a period, in millionths, or none: what the last commit that revised it
    /// gave, and the pit's least upper bound where no commit did.
    pub fn limit(&self, r: u32, t: u32) -> Option<i64>
        requires resource { r < self.now.pit.resources }
        requires period { t < self.now.pit.periods }
        ensures { result ≡ limit_in_force self.now r t }
    {
        self.limits.limit(self.pit.cell(r, t))
    }

    /// The discounted profit, in units of 10^-18, which is exact.
    pub fn value(&self) -> i128
        ensures { (commits : List Commit) → IsPlanOf self.now commits
            → result ≡ value_of self.now.pit (held_period commits) }
    {
        self.tally.worth
    }

    /// The first breach of the plan: the least pair of a block and its predecessor that is out of order; else the load of the
    /// least period, and in it of the least resource, that is above the limit in force.
    pub fn check(&self) -> Option<Breach>
        ensures { (commits : List Commit) → IsPlanOf self.now commits
            → IsBreachOf self.now.pit commits result }
    {
        schedule::first_breach(&self.pit, &self.tally, &self.limits)
    }

    /// The first breach that the plan would have after the writes and the revisions. The pit is given once more, with its successors.
    pub(crate) fn judge(
        &self,
        pit: &Instance<A>,
        writes: &[(u32, Option<u32>)],
        revises: &[(u32, u32, Option<i64>)],
    ) -> Result<Option<Breach>, NoMemory>
        requires same { pit.now ≡ self.now.pit }
        requires writes { Fits self.now.pit.blocks self.now.pit.periods writes.now }
        requires revises { RevisionsFit self.now.pit.resources self.now.pit.periods (revisions_of revises.now) }
        requires good { IsGoodNow self.now }
        ensures breach { IfOk result (λ breach. (commits : List Commit) → IsPlanOf self.now commits
            → IsBreachOf self.now.pit (commits ++ (record { writes = writes.now; revises = revisions_of revises.now }) ∷ []) breach) }
        ensures refused { IfErr result (λ e. (writes.now ≢ []) ⊎ (revises.now ≢ [])) }
    {
        first_breach_after(
            *self.versions.allocator(),
            pit,
            &self.tally,
            &self.limits,
            writes,
            revises,
        )
    }

    /// Adds the writes and the revisions as one more commit. Takes no memory, and is never refused.
    pub fn apply(
        &mut self,
        writes: &[(u32, Option<u32>)],
        revises: &[(u32, u32, Option<i64>)],
    ) -> Result<(), NoMemory>
        requires writes { Fits self.old.pit.blocks self.old.pit.periods writes.now }
        requires revises { RevisionsFit self.old.pit.resources self.old.pit.periods (revisions_of revises.now) }
        requires room { self.old.commits < COMMITS_MAX }
        ensures ok { OnOk result (Adds self.old (record { writes = writes.now; revises = revisions_of revises.now }) self.new) }
        ensures err { OnErr result (self.new ≡ self.old) }
        ensures done { IsOk result }
    {
        self.commits += 1;
        self.tally.write(&self.pit, writes);
        write_versions(&mut self.versions, writes, self.commits);
        revise(&self.pit, &mut self.limits, revises);
        Ok(())
    }

    /// Each load that is below its lower limit, by rising period, and in it by rising resource. Takes the memory of these, so none where
    /// there is none.
    pub fn shortfalls(&self) -> Result<Vec<Short, A>, NoMemory>
        ensures shorts { IfOk result (λ shorts. (commits : List Commit) → IsPlanOf self.now commits
            → shorts.items ≡ shortfalls_of self.now.pit (held_period commits)) }
        ensures refused { IfErr result (λ e. (commits : List Commit) → IsPlanOf self.now commits
            → shortfalls_of self.now.pit (held_period commits) ≢ []) }
    {
        schedule::shortfalls(*self.versions.allocator(), &self.pit, &self.tally)
    }
}

/// No period and the version 0 for each block, and the limits of the pit.
fn nothing<A: Allocator + Copy + Drop>(
    alloc: A,
    pit: &Deposit<A>,
) -> Result<(Tally<A>, Vec<u32, A>, Vec<Option<i64>, A>), NoMemory>
    ensures tally { IfOk result (λ parts. IsTally pit.now parts.0) }
    ensures periods { IfOk result (λ parts. parts.0.periods ≡ replicate pit.now.blocks None) }
    ensures versions { IfOk result (λ parts. parts.1.items ≡ replicate pit.now.blocks 0) }
    ensures len { IfOk result (λ parts. length parts.2.items ≡ pit.now.periods * pit.now.resources) }
    ensures limits { IfOk result (λ parts. (r t : ℕ) → r < pit.now.resources → t < pit.now.periods → at_cell pit.now (cell_limit parts.2.items) r t ≡ upper_of pit.now r t) }
{
    let tally = Tally::none(alloc, pit)?;
    let versions = vec![in alloc; 0; pit.blocks() as usize]?;
    let limits = limits_of(alloc, pit)?;
    Ok((tally, versions, limits))
}

/// Gives each written block the number of the commit.
fn write_versions<A: Allocator + Drop>(
    versions: &mut Vec<u32, A>,
    writes: &[(u32, Option<u32>)],
    number: u32,
)
    requires { All (λ w. w.0 < length versions.old.items) writes.now }
    ensures { versions.new.items ≡ with_writes (λ w. number) versions.old.items writes.now }
{
    for (block, _) in writes {
        versions[*block as usize] = number;
    }
}

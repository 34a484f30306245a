ghost use Rattle.std.specs.Prelude.{◌≡◌, ◌≢◌, ◌<◌, ◌⊎◌, ◌++◌, ◌∷◌, [], List, IfOk, IfErr, IfSome, OnOk, OnErr, IsOk, length};
ghost use Rattle.pit_model.specs.Fitting.{Fits, RevisionsFit, revisions_of};
ghost use Rattle.pit_plan.specs.Schedule.{Commit, held_period, load_of, value_of};
ghost use Rattle.pit_plan.specs.Standing.{IsPlanOf, period_of, version_of, limit_in_force, Adds};
ghost use Rattle.pit_plan.specs.Breaches.{IsBreachOf, IsGoodNow};
ghost use Rattle.pit_plan.specs.Shortfalls.{shortfalls_of};

use crate::breach::Breach;
use crate::plan_view::PlanView;
use crate::short::Short;
use pit_model::Instance;
use pit_num::NoMemory;
use std::alloc::Allocator;
use std::marker::Model;

/// The greatest number of commits of a plan.
pub const COMMITS_MAX: u32 = 4_294_967_295;

/// Which block of a pit is mined in which period, as a list of commits leaves it.
///
/// Writes are blocks, each with its new period or none. They fit where blocks and periods are in range and no block stands twice.
/// Revisions are resources and periods, each pair with its new upper limit in millionths, or none where there is to be no limit. They fit
/// where both are in range and no pair stands twice.
#[derive(Drop)]
pub struct Plan<A: Allocator + Drop> {
    pit: Instance<A>,
    seen: PlanView<A>,
}

impl<A: Allocator + Drop> Model for Plan<A> {
    ghost use Rattle.std.specs.Prelude.{◌≡◌};
    ghost use Rattle.pit_plan.specs.Standing.{Standing};

    ghost Value = { Standing };

    ghost view = { λ plan. plan.seen };

    ghost invariant = { λ plan. plan.pit ≡ plan.seen.pit };
}

impl<A: Allocator + Copy + Drop> Plan<A> {
    /// A plan after no commit, in which no block has a period. Where memory runs out, the pit is handed back.
    pub fn empty(alloc: A, pit: Instance<A>) -> Result<Plan<A>, (Instance<A>, NoMemory)>
        ensures ok { IfOk result (λ plan. (plan.pit ≡ pit) × IsPlanOf plan []) }
        ensures err { IfErr result (λ refused. refused.0 ≡ pit) }
    {
        match empty_view(alloc, &pit) {
            Ok(seen) => Ok(Plan { pit, seen }),
            Err(no_memory) => Err((pit, no_memory)),
        }
    }

    /// The pit.
    pub fn instance(&self) -> &Instance<A>
        ensures { result.now ≡ self.now.pit }
    {
        &self.pit
    }

    /// The pit, taken out of the plan.
    pub fn into_instance(self) -> Instance<A>
        ensures { result ≡ self.pit }
    {
        let Plan { pit, .. } = self;
        pit
    }

    /// The number of commits. They are numbered from 1.
    pub fn commits(&self) -> u32
        ensures { result ≡ self.now.commits }
    {
        self.seen.commits()
    }

    /// The period of a block, or none.
    pub fn period(&self, b: u32) -> Option<u32>
        requires { b < self.now.pit.blocks }
        ensures period { result ≡ period_of self.now b }
        ensures in_range { IfSome result (λ t. t < self.now.pit.periods) }
    {
        self.seen.period(b)
    }

    /// The period of each block, or none, by rising block.
    pub fn periods(&self) -> &[Option<u32>]
        ensures periods { result.now ≡ self.now.periods }
        ensures count { length result.now ≡ self.now.pit.blocks }
    {
        self.seen.periods()
    }

    /// The number of the last commit that named a block, or 0.
    pub fn version(&self, b: u32) -> u32
        requires { b < self.now.pit.blocks }
        ensures { result ≡ version_of self.now b }
    {
        self.seen.version(b)
    }

    /// The load of a resource in a period, in millionths.
    pub fn load(&self, r: u32, t: u32) -> i128
        requires resource { r < self.now.pit.resources }
        requires period { t < self.now.pit.periods }
        ensures { (commits : List Commit) → IsPlanOf self.now commits
            → result ≡ load_of self.now.pit (held_period commits) r t }
    {
        self.seen.load(r, t)
    }

    /// The upper limit in force on the load of a resource in a period, in millionths, or none: what the last commit that revised it
    /// gave, and the pit's least upper bound where no commit did.
    pub fn limit(&self, r: u32, t: u32) -> Option<i64>
        requires resource { r < self.now.pit.resources }
        requires period { t < self.now.pit.periods }
        ensures { result ≡ limit_in_force self.now r t }
    {
        self.seen.limit(r, t)
    }

    /// The discounted profit, in units of 10^-18, which is exact.
    pub fn value(&self) -> i128
        ensures { (commits : List Commit) → IsPlanOf self.now commits
            → result ≡ value_of self.now.pit (held_period commits) }
    {
        self.seen.value()
    }

    /// The first breach of the plan: the least pair of a block and its predecessor that is out of order; else the load of the
    /// least period, and in it of the least resource, that is above the limit in force.
    pub fn check(&self) -> Option<Breach>
        ensures { (commits : List Commit) → IsPlanOf self.now commits
            → IsBreachOf self.now.pit commits result }
    {
        self.seen.check()
    }

    /// The first breach that the plan would have after the writes and the revisions. Takes the memory of these, and of the loads that they move and
    /// revise: so none where there are neither writes nor revisions.
    pub fn judge(
        &self,
        writes: &[(u32, Option<u32>)],
        revises: &[(u32, u32, Option<i64>)],
    ) -> Result<Option<Breach>, NoMemory>
        requires writes { Fits self.now.pit.blocks self.now.pit.periods writes.now }
        requires revises { RevisionsFit self.now.pit.resources self.now.pit.periods (revisions_of revises.now) }
        requires good { IsGoodNow self.now }
        ensures breach { IfOk result (λ breach. (commits : List Commit) → IsPlanOf self.now commits
            → IsBreachOf self.now.pit (commits ++ (record { writes = writes.now; revises = revisions_of revises.now }) ∷ []) breach) }
        ensures refused { IfErr result (λ e. (writes.now ≢ []) ⊎ (revises.now ≢ [])) }
    {
        self.seen.judge(&self.pit, writes, revises)
    }

    /// Adds the writes and the revisions as one more commit. Takes no memory, and is never refused.
    pub fn apply(
        &mut self,
        writes: &[(u32, Option<u32>)],
        revises: &[(u32, u32, Option<i64>)],
    ) -> Result<(), NoMemory>
        requires writes { Fits self.old.pit.blocks self.old.pit.periods writes.now }
        requires revises { RevisionsFit self.old.pit.resources self.old.pit.periods (revisions_of revises.now) }
        requires room { self.old.commits < COMMITS_MAX }
        ensures ok { OnOk result (Adds self.old (record { writes = writes.now; revises = revisions_of revises.now }) self.new) }
        ensures err { OnErr result (self.new ≡ self.old) }
        ensures done { IsOk result }
    {
        self.seen.apply(writes, revises)
    }

    /// Each load that is below its lower limit, by rising period, and in it by rising resource. Takes the memory of these, so none where
    /// there is none.
    pub fn shortfalls(&self) -> Result<Vec<Short, A>, NoMemory>
        ensures shorts { IfOk result (λ shorts. (commits : List Commit) → IsPlanOf self.now commits
            → shorts.items ≡ shortfalls_of self.now.pit (held_period commits)) }
        ensures refused { IfErr result (λ e. (commits : List Commit) → IsPlanOf self.now commits
            → shortfalls_of self.now.pit (held_period commits) ≢ []) }
    {
        self.seen.shortfalls()
    }
}

/// What is seen of a plan after no commit.
fn empty_view<A: Allocator + Copy + Drop>(
    alloc: A,
    pit: &Instance<A>,
) -> Result<PlanView<A>, NoMemory>
    ensures { IfOk result (λ seen. (seen.pit ≡ pit.now) × IsPlanOf seen []) }
{
    match PlanView::empty(alloc, pit.deposit().share()?) {
        Ok(seen) => Ok(seen),
        Err((_, no_memory)) => Err(no_memory),
    }
}

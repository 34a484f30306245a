//! The pairs of a plan that are out of order.
ghost use Rattle.std.specs.Prelude.{◌≡◌, ◌≤◌, ◌<◌, ◌+◌, ◌^◌, [], ◌∷◌, ◌++◌, List, take, IfOk, OnOk};
ghost use Rattle.pit_plan.specs.Schedule.{Commit, held_period};
ghost use Rattle.pit_plan.specs.Standing.{IsPlanOf};
ghost use Rattle.pit_all.specs.Breaches.{out_at, outs_in, outs_of};
ghost use Rattle.pit_all.specs.Outs.{Counts, Notes};
ghost use Rattle.pit_all.specs.declared.out_of_order.OutOfOrder.{OutOfOrder as Pair};

use crate::out_of_order::OutOfOrder;
use pit_num::NoMemory;
use pit_plan::{PlanView, keeps_order};
use std::alloc::Allocator;
use std::marker::Model;

/// The greatest number of pairs that are shown.
pub const PAIRS_SHOWN: u64 = 1_000;

/// The first pairs out of order, and how many there are.
#[derive(Drop)]
pub struct Outs<A: Allocator + Drop> {
    first: Vec<OutOfOrder, A>,
    count: u64,
}

impl<A: Allocator + Drop> Model for Outs<A> {
    ghost use Rattle.pit_all.specs.Outs.{Counted};

    ghost Value = { Counted };

    ghost view = { λ outs. record { first = outs.first.items; count = outs.count } };
}

impl<A: Allocator + Copy + Drop> Outs<A> {
    /// The pairs of a block and its predecessor that are out of order in a plan, rising. Takes the memory of those that are shown.
    pub fn of(alloc: A, plan: &PlanView<A>) -> Result<Outs<A>, NoMemory>
        ensures { IfOk result (λ outs. (commits : List Commit) → IsPlanOf plan.now commits → Counts outs (outs_of plan.now.pit (held_period commits))) }
    {
        let mut outs = Outs {
            first: Vec::new(alloc),
            count: 0,
        };
        for b in 0..plan.deposit().blocks() {
            outs.note_block(plan, b)?;
        }
        Ok(outs)
    }

    /// The first ones, `PAIRS_SHOWN` at most.
    pub fn first(&self) -> &[OutOfOrder]
        ensures { result.now ≡ self.now.first }
    {
        &self.first
    }

    /// How many there are.
    pub fn count(&self) -> u64
        ensures { result ≡ self.now.count }
    {
        self.count
    }

    /// Adds the pairs of a block.
    fn note_block(&mut self, plan: &PlanView<A>, b: u32) -> Result<(), NoMemory>
        requires known { b < plan.now.pit.blocks }
        requires room { self.old.count + plan.now.pit.blocks < 2 ^ 64 }
        ensures count { OnOk result (self.new.count ≤ self.old.count + plan.now.pit.blocks) }
        ensures notes { OnOk result ((commits : List Commit) → IsPlanOf plan.now commits
            → Notes self.old (outs_in plan.now.pit (held_period commits) b) self.new) }
    {
        for a in plan.deposit().preds(b) {
            self.note(plan, b, *a)?;
        }
        Ok(())
    }

    /// Adds the pair of a block and its predecessor, where it is out of order.
    fn note(&mut self, plan: &PlanView<A>, b: u32, a: u32) -> Result<(), NoMemory>
        requires block { b < plan.now.pit.blocks }
        requires before { a < plan.now.pit.blocks }
        requires room { self.old.count + 1 < 2 ^ 64 }
        ensures count { OnOk result (self.new.count ≤ self.old.count + 1) }
        ensures notes { OnOk result ((commits : List Commit) → IsPlanOf plan.now commits
            → Notes self.old (out_at (held_period commits) b a) self.new) }
    {
        let period = plan.period(b);
        let earlier = plan.period(a);
        if keeps_order(period, earlier) {
            return Ok(());
        }
        self.add(OutOfOrder {
            block: b,
            before: a,
            period,
            earlier,
        })
    }

    fn add(&mut self, pair: OutOfOrder) -> Result<(), NoMemory>
        requires room { self.old.count + 1 < 2 ^ 64 }
        ensures count { OnOk result (self.new.count ≡ self.old.count + 1) }
        ensures notes { OnOk result (Notes self.old (pair ∷ []) self.new) }
    {
        keep(&mut self.first, pair)?;
        self.count += 1;
        Ok(())
    }
}

/// Appends a pair, where fewer than `PAIRS_SHOWN` are kept.
fn keep<A: Allocator + Drop>(
    first: &mut Vec<OutOfOrder, A>,
    pair: OutOfOrder,
) -> Result<(), NoMemory>
    ensures { OnOk result ((pairs : List Pair) → first.old.items ≡ take PAIRS_SHOWN pairs
        → first.new.items ≡ take PAIRS_SHOWN (pairs ++ pair ∷ [])) }
{
    if first.len() as u64 >= PAIRS_SHOWN {
        return Ok(());
    }
    first.push(pair)?;
    Ok(())
}

ghost use Rattle.std.specs.Prelude.{◌≡◌, ◌<◌, ◌*◌, ◌^◌, pos, ◌≤ℤ◌, IfOk, MatchOption};
ghost use Rattle.pit_num.specs.Least.{IsLeast};
ghost use Rattle.pit_model.specs.Pit.{IsSound, profit_of, factor_of, coefs_of, preds_of, lower_of, upper_of, cell_of, place_of, IsUnmeetable, IsFirstUnmeetable, IsMeetable, AreCoefs, ArePreds};

use crate::bounds::{Bounds, is_below_zero};
use crate::places::Places;
use crate::predecessors::Predecessors;
use crate::profits::Profits;
use crate::sorted_coefficients::SortedCoefficients;
use pit_num::{Discount, NoMemory};
use std::alloc::Allocator;
use std::marker::Model;
use std::sync::Arc;

/// A pit without successors: all that it takes to look at a schedule. Its readers take no memory.
#[derive(Drop)]
pub struct Deposit<A: Allocator + Drop> {
    pub(crate) blocks: u32,
    pub(crate) periods: u32,
    pub(crate) resources: u32,
    pub(crate) tables: Arc<Tables<A>, A>,
}

/// What a pit has of each block, period and resource. It never changes, so one may serve several threads.
#[derive(Drop)]
pub(crate) struct Tables<A: Allocator + Drop> {
    pub(crate) discount: Discount<A>,
    pub(crate) profits: Profits<A>,
    pub(crate) coefs: SortedCoefficients<A>,
    pub(crate) preds: Predecessors<A>,
    pub(crate) bounds: Vec<Bounds, A>,
    pub(crate) places: Places<A>,
}

impl<A: Allocator + Drop> Model for Deposit<A> {
    ghost use Rattle.std.specs.Prelude.{◌≡◌};
    ghost use Rattle.pit_model.specs.Pit.{Pit, IsSound};

    ghost Value = { Pit };

    ghost view = { λ d. record { blocks = d.blocks; periods = d.periods; resources = d.resources; rate = d.tables.value.discount.rate; profits = d.tables.value.profits; coefs = d.tables.value.coefs; preds = d.tables.value.preds; bounds = d.tables.value.bounds.items; places = d.tables.value.places } };

    ghost invariant = { λ d. IsSound (record { blocks = d.blocks; periods = d.periods; resources = d.resources; rate = d.tables.value.discount.rate; profits = d.tables.value.profits; coefs = d.tables.value.coefs; preds = d.tables.value.preds; bounds = d.tables.value.bounds.items; places = d.tables.value.places })
        × (d.tables.value.discount.periods ≡ d.periods) };
}

impl<A: Allocator + Copy + Drop> Deposit<A> {
    /// The same pit once more. Its tables are shared, so that it takes no memory; it is refused where there are 2^63 already.
    pub fn share(&self) -> Result<Deposit<A>, NoMemory>
        ensures { IfOk result (λ shared. shared ≡ self.now) }
    {
        Ok(Deposit {
            blocks: self.blocks,
            periods: self.periods,
            resources: self.resources,
            tables: Arc::try_clone(&self.tables)?,
        })
    }

    /// The number of blocks; they are numbered from 0.
    pub fn blocks(&self) -> u32
        ensures count { result ≡ self.now.blocks }
        ensures sound { IsSound self.now }
    {
        self.blocks
    }

    /// Shows that the pit is sound.
    pub fn shows_sound(&self)
        ensures { IsSound self.now }
    {
        let _ = &self.blocks;
    }

    /// The number of periods; they are numbered from 0.
    pub fn periods(&self) -> u32
        ensures { result ≡ self.now.periods }
    {
        self.periods
    }

    /// The number of resources; they are numbered from 0.
    pub fn resources(&self) -> u32
        ensures { result ≡ self.now.resources }
    {
        self.resources
    }

    /// The discount rate of a period, in millionths.
    pub fn rate(&self) -> u32
        ensures { result ≡ self.now.rate }
    {
        self.tables.discount.rate()
    }

    /// The profit of a block, in millionths; 0 where none was set.
    pub fn profit(&self, b: u32) -> i64
        requires { b < self.now.blocks }
        ensures { result ≡ profit_of self.now b }
    {
        self.tables.profits.profit(b).unwrap_or(0)
    }

    /// The discount factor of a period, in units of 10^-12.
    pub fn factor(&self, t: u32) -> i64
        requires { t < self.now.periods }
        ensures value { result ≡ factor_of self.now t }
        ensures low { pos 0 ≤ℤ result }
        ensures high { result ≤ℤ pos (10 ^ 12) }
    {
        self.tables.discount.factor(t)
    }

    /// The coefficients of a block that were set, each with its resource, in millionths, rising by resource. The others are 0.
    pub fn coefs(&self, b: u32) -> &[(u32, i64)]
        requires { b < self.now.blocks }
        ensures value { result.now ≡ coefs_of self.now b }
        ensures sound { AreCoefs self.now.resources result.now }
    {
        self.tables.coefs.row(b)
    }

    /// The blocks that have to be mined no later than a block: rising, each once, and without the block.
    pub fn preds(&self, b: u32) -> &[u32]
        requires { b < self.now.blocks }
        ensures value { result.now ≡ preds_of self.now b }
        ensures sound { ArePreds self.now.blocks b result.now }
    {
        self.tables.preds.row(b)
    }

    /// The cell of a resource in a period: cells go by period, and in it by resource.
    pub fn cell(&self, r: u32, t: u32) -> u32
        requires resource { r < self.now.resources }
        requires period { t < self.now.periods }
        ensures cell { result ≡ cell_of self.now r t }
        ensures within { result < self.now.periods * self.now.resources }
    {
        t * self.resources + r
    }

    /// The greatest lower bound that was given for the load of a resource in a period, in millionths.
    pub fn lower(&self, r: u32, t: u32) -> Option<i64>
        requires resource { r < self.now.resources }
        requires period { t < self.now.periods }
        ensures { result ≡ lower_of self.now r t }
    {
        self.tables.bounds[self.cell(r, t) as usize].0
    }

    /// The least upper bound that was given for the load of a resource in a period, in millionths.
    pub fn upper(&self, r: u32, t: u32) -> Option<i64>
        requires resource { r < self.now.resources }
        requires period { t < self.now.periods }
        ensures { result ≡ upper_of self.now r t }
    {
        self.tables.bounds[self.cell(r, t) as usize].1
    }

    /// The place of a block, each coordinate in millionths.
    pub fn place(&self, b: u32) -> Option<(i64, i64, i64)>
        requires { b < self.now.blocks }
        ensures { result ≡ place_of self.now b }
    {
        self.tables.places.place(b)
    }

    /// The first upper bound that is below zero, as its resource and its period: the least such period, and in it the least resource.
    pub fn unmeetable(&self) -> Option<(u32, u32)>
        ensures { MatchOption result (IsMeetable self.now) (IsFirstUnmeetable self.now) }
    {
        for t in 0..self.periods() {
            if let Some(r) = self.unmeetable_in(t) {
                return Some((r, t));
            }
        }
        None
    }

    /// The least resource whose upper bound in a period is below zero.
    fn unmeetable_in(&self, t: u32) -> Option<u32>
        requires { t < self.now.periods }
        ensures { IsLeast ◌<◌ (λ r. IsUnmeetable self.now (t, r)) result }
    {
        for r in 0..self.resources() {
            if is_below_zero(self.upper(r, t)) {
                return Some(r);
            }
        }
        None
    }
}

ghost use Rattle.std.specs.Prelude.{◌≡◌, ◌≤◌, ◌<◌, false, nat_le, None, is_some, slice_index_or, All, IfOk, IfErr, OnOk, OnErr, IsOk, MatchOption, IsErrOf};
ghost use Rattle.std.specs.List.{list_any};
ghost use Rattle.pit_num.specs.declared.limits.TheConstants.{PERIODS_MAX, RATE_MAX};
ghost use Rattle.pit_model.specs.declared.counts.TheConstants.{BLOCKS_MAX, RESOURCES_MAX};
ghost use Rattle.pit_model.specs.Pit.{empty_pit, with_profit, with_coef, with_preds, with_limit, with_place};
ghost use Rattle.pit_model.specs.Refusals.{profit_refusal, coef_refusal, preds_refusal, limit_refusal, place_refusal};
ghost use Rattle.pit_num.specs.Refused.{IsRefusedBy};

use crate::bounds::{Bounds, cell_of, is_empty_interval, tighter_bounds};
use crate::coefficients::Coefficients;
use crate::deposit::{Deposit, Tables};
use crate::error::BuildError;
use crate::instance::Instance;
use crate::places::Places;
use crate::predecessors::Predecessors;
use crate::profits::Profits;
use crate::successors::Successors;
use pit_keyed::Keys;
use pit_num::{Discount, NoMemory};
use std::alloc::Allocator;
use std::marker::Model;
use std::sync::Arc;

/// A pit that is being put together: MineLib's problem CPIT (2013), fact by fact.
///
/// A refusal leaves the pit as it was.
#[derive(Drop)]
pub struct Builder<A: Allocator + Drop> {
    blocks: u32,
    periods: u32,
    resources: u32,
    rate: u32,
    profits: Profits<A>,
    coefs: Coefficients<A>,
    preds: Predecessors<A>,
    bounds: Vec<Bounds, A>,
    places: Places<A>,
}

impl<A: Allocator + Drop> Model for Builder<A> {
    ghost use Rattle.pit_model.specs.Pit.{Pit, IsSound};

    ghost Value = { Pit };

    ghost view = { λ b. record { blocks = b.blocks; periods = b.periods; resources = b.resources; rate = b.rate; profits = b.profits; coefs = b.coefs; preds = b.preds; bounds = b.bounds.items; places = b.places } };

    ghost invariant = { λ b. IsSound (record { blocks = b.blocks; periods = b.periods; resources = b.resources; rate = b.rate; profits = b.profits; coefs = b.coefs; preds = b.preds; bounds = b.bounds.items; places = b.places }) };
}

impl<A: Allocator + Copy + Drop> Builder<A> {
    /// A pit of so many blocks, periods and resources, with a discount rate in millionths, and nothing set.
    pub fn new(
        alloc: A,
        blocks: u32,
        periods: u32,
        resources: u32,
        rate: u32,
    ) -> Result<Builder<A>, NoMemory>
        requires blocks { (1 ≤ blocks) × (blocks ≤ BLOCKS_MAX) }
        requires periods { (1 ≤ periods) × (periods ≤ PERIODS_MAX) }
        requires resources { resources ≤ RESOURCES_MAX }
        requires rate { rate ≤ RATE_MAX }
        ensures { IfOk result (λ builder. builder ≡ empty_pit blocks periods resources rate) }
    {
        let profits = Profits::new(alloc, blocks)?;
        let coefs = Coefficients::new(alloc, blocks);
        let preds = Predecessors::new(alloc, blocks);
        let bounds = vec![in alloc; (None, None); (periods * resources) as usize]?;
        let places = Places::new(alloc, blocks);
        Ok(Builder {
            blocks,
            periods,
            resources,
            rate,
            profits,
            coefs,
            preds,
            bounds,
            places,
        })
    }

    /// The number of blocks; they are numbered from 0.
    pub fn blocks(&self) -> u32
        ensures { result ≡ self.now.blocks }
    {
        self.blocks
    }

    /// The number of periods; they are numbered from 0.
    pub fn periods(&self) -> u32
        ensures { result ≡ self.now.periods }
    {
        self.periods
    }

    /// The number of resources; they are numbered from 0.
    pub fn resources(&self) -> u32
        ensures { result ≡ self.now.resources }
    {
        self.resources
    }

    /// Whether the predecessors of a block were set.
    pub fn has_preds(&self, b: u32) -> bool
        requires { b < self.now.blocks }
        ensures { result ≡ is_some (slice_index_or self.now.preds b None) }
    {
        self.preds.is_set(b)
    }

    /// Sets the profit of a block, in millionths. Takes no memory.
    pub fn set_profit(&mut self, b: u32, v: i64) -> Result<(), BuildError>
        ensures ok { OnOk result (self.new ≡ with_profit self.old b v) }
        ensures err { OnErr result (self.new ≡ self.old) }
        ensures cause { MatchOption (profit_refusal self.old b) (IsOk result) (IsErrOf result) }
    {
        if b >= self.blocks {
            return Err(BuildError::BlockRange);
        }
        if self.profits.is_set(b) {
            return Err(BuildError::Repeated);
        }
        self.profits.set(b, v);
        Ok(())
    }

    /// Sets how much of a resource the mining of a block takes, in millionths.
    pub fn set_coef(&mut self, b: u32, r: u32, v: i64) -> Result<(), BuildError>
        ensures ok { OnOk result (self.new ≡ with_coef self.old b r v) }
        ensures err { OnErr result (self.new ≡ self.old) }
        ensures cause { IsRefusedBy BuildError.NoMemory result (coef_refusal self.old b r) }
    {
        if b >= self.blocks {
            return Err(BuildError::BlockRange);
        }
        if r >= self.resources {
            return Err(BuildError::ResourceRange);
        }
        if self.coefs.is_set(b, r) {
            return Err(BuildError::Repeated);
        }
        self.coefs.add(b, r, v, self.resources)?;
        Ok(())
    }

    /// Sets the blocks that have to be mined no later than a block. The block itself is dropped from the list, and one that is listed
    /// twice is kept once.
    pub fn set_preds(&mut self, b: u32, listed: &[u32]) -> Result<(), BuildError>
        ensures ok { OnOk result (self.new ≡ with_preds self.old b listed.now) }
        ensures err { OnErr result (self.new ≡ self.old) }
        ensures cause { IsRefusedBy BuildError.NoMemory result (preds_refusal self.old b listed.now) }
    {
        if b >= self.blocks || is_out_of_range(listed, self.blocks) {
            return Err(BuildError::BlockRange);
        }
        if self.preds.is_set(b) {
            return Err(BuildError::Repeated);
        }
        self.preds.set(b, listed)?;
        Ok(())
    }

    /// Adds a line of limits: in the period, the load of the resource is at least `lo` and at most `hi`, in millionths, where they are given.
    /// Lines for one resource and period all apply. Takes no memory.
    pub fn add_limit(
        &mut self,
        r: u32,
        t: u32,
        lo: Option<i64>,
        hi: Option<i64>,
    ) -> Result<(), BuildError>
        ensures ok { OnOk result (self.new ≡ with_limit self.old r t lo hi) }
        ensures err { OnErr result (self.new ≡ self.old) }
        ensures cause { MatchOption (limit_refusal self.old r t lo hi) (IsOk result) (IsErrOf result) }
    {
        if r >= self.resources {
            return Err(BuildError::ResourceRange);
        }
        if t >= self.periods {
            return Err(BuildError::PeriodRange);
        }
        if is_empty_interval(lo, hi) {
            return Err(BuildError::Interval);
        }
        let cell = cell_of(self.resources, r, t);
        self.bounds[cell] = tighter_bounds(self.bounds[cell], lo, hi);
        Ok(())
    }

    /// Sets the place of a block, each coordinate in millionths.
    pub fn set_place(&mut self, b: u32, x: i64, y: i64, z: i64) -> Result<(), BuildError>
        ensures ok { OnOk result (self.new ≡ with_place self.old b (x, y, z)) }
        ensures err { OnErr result (self.new ≡ self.old) }
        ensures cause { IsRefusedBy BuildError.NoMemory result (place_refusal self.old b) }
    {
        if b >= self.blocks {
            return Err(BuildError::BlockRange);
        }
        if self.places.place(b).is_some() {
            return Err(BuildError::Repeated);
        }
        self.places.set(b, (x, y, z))?;
        Ok(())
    }

    /// The pit as it was set. Where memory runs out, the builder is handed back.
    pub fn build(self) -> Result<Instance<A>, (Builder<A>, NoMemory)>
        ensures ok { IfOk result (λ instance. instance ≡ self) }
        ensures err { IfErr result (λ refused. refused.0 ≡ self) }
    {
        let succs = match Successors::shared(*self.bounds.allocator(), &self.preds) {
            Ok(succs) => succs,
            Err(error) => return Err((self, error)),
        };
        match self.build_deposit() {
            Ok(deposit) => Ok(Instance {
                deposit,
                succs,
                keys: Keys::default(),
            }),
            Err(refused) => Err(refused),
        }
    }

    /// The pit as it was set, without its successors. Where memory runs out, the builder is handed back.
    pub fn build_deposit(self) -> Result<Deposit<A>, (Builder<A>, NoMemory)>
        ensures ok { IfOk result (λ deposit. deposit ≡ self) }
        ensures err { IfErr result (λ refused. refused.0 ≡ self) }
    {
        let alloc = *self.bounds.allocator();
        let discount = match Discount::new(alloc, self.rate, self.periods) {
            Ok(discount) => discount,
            Err(error) => return Err((self, error)),
        };
        let Builder {
            blocks,
            periods,
            resources,
            rate,
            profits,
            coefs,
            preds,
            bounds,
            places,
        } = self;
        let tables = Tables {
            discount,
            profits,
            coefs: coefs.sorted(),
            preds,
            bounds,
            places,
        };
        match Arc::new(alloc, tables) {
            Ok(tables) => Ok(Deposit {
                blocks,
                periods,
                resources,
                tables,
            }),
            Err(refused) => {
                let Tables {
                    profits,
                    coefs,
                    preds,
                    bounds,
                    places,
                    ..
                } = refused.value;
                let builder = Builder {
                    blocks,
                    periods,
                    resources,
                    rate,
                    profits,
                    coefs: Coefficients::unsorted(coefs),
                    preds,
                    bounds,
                    places,
                };
                Err((builder, NoMemory))
            }
        }
    }
}

/// Whether a block is listed that is not below the number of blocks.
fn is_out_of_range(listed: &[u32], blocks: u32) -> bool
    ensures value { result ≡ list_any (λ a. nat_le blocks a) listed.now }
    ensures none { result ≡ false → All (λ a. a < blocks) listed.now }
{
    listed.iter().any(|a| *a >= blocks)
}

ghost use Rattle.std.specs.Prelude.{◌≡◌, ◌<◌, ◌*◌, ◌^◌, pos, ◌≤ℤ◌, IfOk, MatchOption};
ghost use Rattle.pit_model.specs.Pit.{IsSound, profit_of, factor_of, coefs_of, preds_of, succs_of, lower_of, upper_of, cell_of, place_of, IsFirstUnmeetable, IsMeetable, AreCoefs, ArePreds};

use crate::deposit::Deposit;
use crate::successors::Successors;
use pit_keyed::Keys;
use pit_num::NoMemory;
use std::alloc::Allocator;
use std::marker::Model;
use std::sync::Arc;

/// A pit: an instance of MineLib's problem CPIT (2013). Its readers take no memory.
#[derive(Drop)]
pub struct Instance<A: Allocator + Drop> {
    pub(crate) deposit: Deposit<A>,
    pub(crate) succs: Arc<Successors<A>, A>,
    pub(crate) keys: Keys,
}

impl<A: Allocator + Drop> Model for Instance<A> {
    ghost use Rattle.std.specs.Prelude.{◌≡◌, map, length};
    ghost use Rattle.std.specs.List.{range_with_len};
    ghost use Rattle.pit_model.specs.Pit.{Pit, IsSound, succs_in};

    ghost Value = { Pit };

    ghost view = { λ i. i.deposit };

    ghost invariant = { λ i. IsSound i.deposit × (i.succs.value ≡ map (succs_in i.deposit.preds) (range_with_len 0 (length i.deposit.preds))) };
}

impl<A: Allocator + Copy + Drop> Instance<A> {
    /// The same pit once more. What it has is shared, so that it takes no memory; it is refused where there are 2^63 already.
    pub fn share(&self) -> Result<Instance<A>, NoMemory>
        ensures { IfOk result (λ shared. shared ≡ self.now) }
    {
        Ok(Instance {
            deposit: self.deposit.share()?,
            succs: Arc::try_clone(&self.succs)?,
            keys: self.keys,
        })
    }

    /// The pit without its successors.
    pub fn deposit(&self) -> &Deposit<A>
        ensures { result.now ≡ self.now }
    {
        &self.deposit
    }

    /// The same pit, by whose keys the sets of its transactions hash from now on.
    pub fn keyed(self, keys: Keys) -> Instance<A>
        ensures { result ≡ self }
    {
        Instance { keys, ..self }
    }

    /// By which keys the sets of a transaction hash: `Keys::default()`, unless others were given.
    pub fn keys(&self) -> Keys {
        self.keys
    }

    /// The number of blocks; they are numbered from 0.
    pub fn blocks(&self) -> u32
        ensures count { result ≡ self.now.blocks }
        ensures sound { IsSound self.now }
    {
        self.deposit.blocks()
    }

    /// Shows that the pit is sound.
    pub fn shows_sound(&self)
        ensures { IsSound self.now }
    {
        self.deposit.shows_sound();
    }

    /// The number of periods; they are numbered from 0.
    pub fn periods(&self) -> u32
        ensures { result ≡ self.now.periods }
    {
        self.deposit.periods()
    }

    /// The number of resources; they are numbered from 0.
    pub fn resources(&self) -> u32
        ensures { result ≡ self.now.resources }
    {
        self.deposit.resources()
    }

    /// The discount rate of a period, in millionths.
    pub fn rate(&self) -> u32
        ensures { result ≡ self.now.rate }
    {
        self.deposit.rate()
    }

    /// The profit of a block, in millionths; 0 where none was set.
    pub fn profit(&self, b: u32) -> i64
        requires { b < self.now.blocks }
        ensures { result ≡ profit_of self.now b }
    {
        self.deposit.profit(b)
    }

    /// The discount factor of a period, in units of 10^-12.
    pub fn factor(&self, t: u32) -> i64
        requires { t < self.now.periods }
        ensures value { result ≡ factor_of self.now t }
        ensures low { pos 0 ≤ℤ result }
        ensures high { result ≤ℤ pos (10 ^ 12) }
    {
        self.deposit.factor(t)
    }

    /// The coefficients of a block that were set, each with its resource, in millionths, rising by resource. The others are 0.
    pub fn coefs(&self, b: u32) -> &[(u32, i64)]
        requires { b < self.now.blocks }
        ensures value { result.now ≡ coefs_of self.now b }
        ensures sound { AreCoefs self.now.resources result.now }
    {
        self.deposit.coefs(b)
    }

    /// The blocks that have to be mined no later than a block: rising, each once, and without the block.
    pub fn preds(&self, b: u32) -> &[u32]
        requires { b < self.now.blocks }
        ensures value { result.now ≡ preds_of self.now b }
        ensures sound { ArePreds self.now.blocks b result.now }
    {
        self.deposit.preds(b)
    }

    /// The blocks that have a block among their predecessors, rising.
    pub fn succs(&self, b: u32) -> &[u32]
        requires { b < self.now.blocks }
        ensures value { result.now ≡ succs_of self.now b }
        ensures sound { ArePreds self.now.blocks b result.now }
    {
        self.succs.row(b)
    }

    /// The cell of a resource in a period: cells go by period, and in it by resource.
    pub fn cell(&self, r: u32, t: u32) -> u32
        requires resource { r < self.now.resources }
        requires period { t < self.now.periods }
        ensures cell { result ≡ cell_of self.now r t }
        ensures within { result < self.now.periods * self.now.resources }
    {
        self.deposit.cell(r, t)
    }

    /// The greatest lower bound that was given for the load of a resource in a period, in millionths.
    pub fn lower(&self, r: u32, t: u32) -> Option<i64>
        requires resource { r < self.now.resources }
        requires period { t < self.now.periods }
        ensures { result ≡ lower_of self.now r t }
    {
        self.deposit.lower(r, t)
    }

    /// The least upper bound that was given for the load of a resource in a period, in millionths.
    pub fn upper(&self, r: u32, t: u32) -> Option<i64>
        requires resource { r < self.now.resources }
        requires period { t < self.now.periods }
        ensures { result ≡ upper_of self.now r t }
    {
        self.deposit.upper(r, t)
    }

    /// The place of a block, each coordinate in millionths.
    pub fn place(&self, b: u32) -> Option<(i64, i64, i64)>
        requires { b < self.now.blocks }
        ensures { result ≡ place_of self.now b }
    {
        self.deposit.place(b)
    }

    /// The first upper bound that is below zero, as its resource and its period: the least such period, and in it the least resource.
    pub fn unmeetable(&self) -> Option<(u32, u32)>
        ensures { MatchOption result (IsMeetable self.now) (IsFirstUnmeetable self.now) }
    {
        self.deposit.unmeetable()
    }
}

//! Planners between two transactions.
ghost use Rattle.std.specs.Prelude.{◌≡◌, IfOk, IfErr};
ghost use Rattle.pit_desk.specs.History.{commits_of};
ghost use Rattle.pit_board.specs.Prefixes.{AreLawful};
ghost use Rattle.pit_share.specs.Planners.{SeesOn, Begins};

use crate::account::Account;
use crate::floor::Floor;
use crate::log::PlannerLog;
use crate::transaction::Transaction;
use pit_board::{Prefix, Session};
use pit_num::NoMemory;
use std::alloc::Allocator;
use std::marker::Model;
use std::sync::{Mutex, Wait};

/// A planner of a workspace, between two transactions. Contracts see its number, the items of its log, and the entries that it has seen.
#[derive(Drop)]
pub struct Planner<'a, S: Session, R: Wait + Drop, A: Allocator + Copy + Drop> {
    floor: &'a Mutex<Floor<S, R, A>>,
    account: Box<Account<S, A>, A>,
}

impl<'a, S: Session, R: Wait + Drop, A: Allocator + Copy + Drop> Model for Planner<'a, S, R, A> {
    ghost use Rattle.pit_share.specs.Planners.{PlannerState};

    ghost Value = { PlannerState };

    ghost view = { λ p. p.account.value };
}

impl<'a, S: Session, R: Wait + Drop, A: Allocator + Copy + Drop> Planner<'a, S, R, A> {
    pub(crate) fn new(
        floor: &'a Mutex<Floor<S, R, A>>,
        account: Box<Account<S, A>, A>,
    ) -> Planner<'a, S, R, A>
        ensures { result ≡ account.value }
    {
        Planner { floor, account }
    }

    /// Its number, counted from 1. What it has seen leaves a good schedule, as does each prefix of that.
    pub fn number(&self) -> u32
        ensures number { result ≡ self.now.number }
        ensures lawful { AreLawful S.instance (commits_of self.now.seen) }
    {
        self.account.prefix().shows_lawful();
        self.account.number()
    }

    /// The entries that it has seen.
    pub fn prefix(&self) -> &Prefix<S>
        ensures { result.now ≡ self.now.seen }
    {
        self.account.prefix()
    }

    /// Begins a transaction for a job, after all commits that the planner sees. Looks at the board for them; where it isn't let in, the transaction
    /// begins after those that it had seen. Waits for nobody. Where it is out of memory, the planner is handed back.
    pub fn begin(
        self,
        job: u32,
    ) -> Result<Transaction<'a, S, R, A>, (Planner<'a, S, R, A>, NoMemory)>
        ensures begun { IfOk result (Begins S.instance self.entry job) }
        ensures err { IfErr result (λ refused. SeesOn self.entry refused.0) }
    {
        let Planner { floor, mut account } = self;
        let start = account.begin();
        match account.work(job, start) {
            Ok(work) => Ok(Transaction::new(floor, account, work)),
            Err(error) => Err((Planner { floor, account }, error)),
        }
    }

    /// Gives its place at the board back, and hands in its log. Takes no memory.
    pub fn finish(self) -> PlannerLog<S, A>
        ensures { result ≡ self.entry }
    {
        let Planner { floor: _, account } = self;
        Box::into_inner(account).into_log()
    }
}

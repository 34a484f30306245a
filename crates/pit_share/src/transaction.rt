//! Transactions of planners.
ghost use Rattle.std.specs.Prelude.{◌≡◌, ℕ, ◌+◌, ◌<◌, ◌≤◌, [], ◌∷◌, ◌++◌, length, take, nat_eq, Option, IfOk, IfErr, OnOk, OnErr, IfSome, IsErrOf};
ghost use Rattle.pit_model.specs.Fitting.{Fits, RevisionsFit, pair_eq};
ghost use Rattle.pit_num.specs.Refused.{IsRefusedBy};
ghost use Rattle.pit_plan.specs.Schedule.{held_period};
ghost use Rattle.pit_keyed.specs.Keyed.{IsFurther, with_each, with_write};
ghost use Rattle.pit_tx.specs.Refusals.{refusal_of, first_refusal_of, revision_refusal_of};
ghost use Rattle.pit_tx.specs.Sets.{known_of};
ghost use Rattle.pit_desk.specs.History.{commits_of};
ghost use Rattle.pit_desk.specs.Calls.{work_call, entry_reply};
ghost use Rattle.pit_desk.specs.declared.entry.Act.TheVariants.{Commit as commit_act, Withdraw as withdraw_act};
ghost use Rattle.pit_desk.specs.declared.reply.EntryReply.TheVariants.{Withdrawn as withdrawn};
ghost use Rattle.pit_board.specs.Prefixes.{AreLawful};
ghost use Rattle.pit_share.specs.Endings.{IsEnded, IsStopped};
ghost use Rattle.pit_share.specs.Planners.{SeesOn, IsTransactionKept};
ghost use Rattle.pit_share.specs.Reads.{IsLookedUp};

use crate::account::Account;
use crate::error::ReadStop;
use crate::floor::Floor;
use crate::planner::Planner;
use pit_board::{Prefix, Session};
use pit_desk::{Reply, Stop};
use pit_num::NoMemory;
use pit_tx::{LimitMap, PeriodMap, Work, WorkError};
use std::alloc::Allocator;
use std::marker::Model;
use std::sync::{Mutex, Wait};

/// A transaction of a planner, which ends by `commit`, `abort` or `abandon`: it can't be dropped. All its reads are of one snapshot, the first
/// `start` of the commits that the planner has seen. Contracts see the planner, and the sets.
pub struct Transaction<'a, S: Session, R: Wait + Drop, A: Allocator + Copy + Drop> {
    floor: &'a Mutex<Floor<S, R, A>>,
    account: Box<Account<S, A>, A>,
    work: Work<A>,
}

impl<'a, S: Session, R: Wait + Drop, A: Allocator + Copy + Drop> Model
    for Transaction<'a, S, R, A> {
    ghost use Rattle.pit_share.specs.Planners.{TransactionState, IsTransactionKept};

    ghost Value = { TransactionState };

    ghost view = { λ t. record { planner = t.account.value; work = t.work } };

    ghost invariant = { λ t. IsTransactionKept S.instance (record { planner = t.account.value; work = t.work }) };
}

impl<'a, S: Session, R: Wait + Drop, A: Allocator + Copy + Drop> Transaction<'a, S, R, A> {
    pub(crate) fn new(
        floor: &'a Mutex<Floor<S, R, A>>,
        account: Box<Account<S, A>, A>,
        work: Work<A>,
    ) -> Transaction<'a, S, R, A>
        requires { IsTransactionKept S.instance (record { planner = account.value; work = work }) }
        ensures { result ≡ record { planner = account.value; work = work } }
    {
        Transaction {
            floor,
            account,
            work,
        }
    }

    /// After how many commits it began.
    pub fn start(&self) -> u32
        ensures start { result ≡ self.now.work.start }
        ensures kept { IsTransactionKept S.instance self.now }
        ensures lawful { AreLawful S.instance (commits_of self.now.planner.seen) }
    {
        self.account.prefix().shows_lawful();
        self.work.start()
    }

    /// The entries that its planner has seen.
    pub fn prefix(&self) -> &Prefix<S>
        ensures { result.now ≡ self.now.planner.seen }
    {
        self.account.prefix()
    }

    /// The read set: each block with what it held at the start.
    pub fn reads(&self) -> &PeriodMap<A>
        ensures pairs { result.now.entries ≡ self.now.work.reads }
        ensures fit { Fits S.instance.blocks S.instance.periods self.now.work.reads }
    {
        self.work.reads()
    }

    /// The write set: each block with what it was last given.
    pub fn writes(&self) -> &PeriodMap<A>
        ensures pairs { result.now.entries ≡ self.now.work.writes }
        ensures fit { Fits S.instance.blocks S.instance.periods self.now.work.writes }
    {
        self.work.writes()
    }

    /// The revisions: each pair of a resource and a period with the upper limit, in millionths, that it was last given.
    pub fn revises(&self) -> &LimitMap<A>
        ensures pairs { result.now.entries ≡ self.now.work.revises }
        ensures fit { RevisionsFit S.instance.resources S.instance.periods self.now.work.revises }
    {
        self.work.revises()
    }

    /// The period of a block: the own write, else what was noted before, else what it held at the start, which is then noted. Any of these may be
    /// none. The board is looked at for the last alone. Waits for nobody. After a refusal the transaction may still end in any way.
    pub fn read(&mut self, block: u32) -> Result<Option<u32>, ReadStop>
        ensures sees { SeesOn self.old.planner self.new.planner }
        ensures out { S.instance.blocks ≤ block → (result ≡ Err ReadStop.NoBlock) × (self.new ≡ self.old) }
        ensures known { (period : Option ℕ) → block < S.instance.blocks → known_of self.old.work block ≡ Some period
            → (result ≡ Ok period) × (self.new ≡ self.old) }
        ensures unknown { block < S.instance.blocks → known_of self.old.work block ≡ None → IsLookedUp self.old block result self.new }
    {
        if block >= self.work.blocks() {
            return Err(ReadStop::NoBlock);
        }
        if let Some(period) = self.work.known(block) {
            return Ok(period);
        }
        self.look_up(block)
    }

    /// Writes that a block has a period. A block that was written before keeps its place.
    pub fn put(&mut self, block: u32, period: u32) -> Result<(), WorkError>
        ensures planner { self.new.planner ≡ self.old.planner }
        ensures ok { OnOk result (self.new.work ≡ record self.old.work { writes = with_write nat_eq self.old.work.writes block (Some period) }) }
        ensures err { OnErr result (self.new ≡ self.old) }
        ensures cause { IsRefusedBy WorkError.NoMemory result (refusal_of self.old.work block (Some period)) }
        ensures memory { IsErrOf result WorkError.NoMemory → IsFurther nat_eq self.old.work.writes block }
    {
        self.work.put(block, period)
    }

    /// Writes of one block after another that it has a period: of each, or, where memory runs out or one is refused, of none.
    pub fn put_each(&mut self, blocks: &[u32], period: u32) -> Result<(), WorkError>
        ensures planner { self.new.planner ≡ self.old.planner }
        ensures ok { OnOk result (self.new.work ≡ record self.old.work { writes = with_each nat_eq self.old.work.writes blocks.now (Some period) }) }
        ensures err { OnErr result (self.new ≡ self.old) }
        ensures cause { IsRefusedBy WorkError.NoMemory result (first_refusal_of self.old.work blocks.now period) }
        ensures memory { IsErrOf result WorkError.NoMemory → 2 ≤ length self.old.work.writes + length blocks.now }
    {
        self.work.put_each(blocks, period)
    }

    /// Writes that a block has no period. A block that was written before keeps its place.
    pub fn clear(&mut self, block: u32) -> Result<(), WorkError>
        ensures planner { self.new.planner ≡ self.old.planner }
        ensures ok { OnOk result (self.new.work ≡ record self.old.work { writes = with_write nat_eq self.old.work.writes block None }) }
        ensures err { OnErr result (self.new ≡ self.old) }
        ensures cause { IsRefusedBy WorkError.NoMemory result (refusal_of self.old.work block None) }
        ensures memory { IsErrOf result WorkError.NoMemory → IsFurther nat_eq self.old.work.writes block }
    {
        self.work.clear(block)
    }

    /// Revises the upper limit of a resource in a period, in millionths; `None` is no limit. A pair that was revised before keeps its place.
    pub fn revise(
        &mut self,
        resource: u32,
        period: u32,
        upper: Option<i64>,
    ) -> Result<(), WorkError>
        ensures planner { self.new.planner ≡ self.old.planner }
        ensures ok { OnOk result (self.new.work
            ≡ record self.old.work { revises = with_write pair_eq self.old.work.revises (resource, period) upper }) }
        ensures err { OnErr result (self.new ≡ self.old) }
        ensures cause { IsRefusedBy WorkError.NoMemory result (revision_refusal_of self.old.work resource period) }
        ensures memory { IsErrOf result WorkError.NoMemory → IsFurther pair_eq self.old.work.revises (resource, period) }
    {
        self.work.revise(resource, period, upper)
    }

    /// Ends it by its writes and revisions, which are applied and published where it is answered Committed. Each answer makes one entry and one
    /// item of the planner's log, and shows the planner all commits up to the entry. On a stop the transaction is handed back. Where memory
    /// ran out it is as it was. On `Full` its planner has seen the full history, maybe more than before, and nothing else of it has changed. Waits
    /// for the lock, for readers that still look at the board from before, and, though nothing leads to it, for the list, for room or for a place.
    pub fn commit<W: Wait>(
        self,
        rt: &W,
    ) -> Result<(Planner<'a, S, R, A>, Reply), (Transaction<'a, S, R, A>, Stop)>
        ensures ended { IfOk result (λ answered.
            IsEnded S.instance self.entry.planner (work_call self.entry.work commit_act) (entry_reply answered.1) answered.0) }
        ensures stop { IfErr result (λ stopped. IsStopped S.max_entries self.entry stopped.1 stopped.0) }
    {
        let Transaction {
            floor,
            mut account,
            work,
        } = self;
        match account.commit(floor, rt, work) {
            Ok(reply) => Ok((Planner::new(floor, account), reply)),
            Err((work, stop)) => Err((Transaction::new(floor, account, work), stop)),
        }
    }

    /// Ends it without its writes and revisions. The answer makes one entry, which is Withdrawn, and one item of the planner's log, and shows
    /// the planner all commits up to the entry. On a stop the transaction is handed back, as by `commit`. Waits for the lock, and,
    /// though nothing leads to it, for the list and for a place.
    pub fn abort<W: Wait>(
        self,
        rt: &W,
    ) -> Result<Planner<'a, S, R, A>, (Transaction<'a, S, R, A>, Stop)>
        ensures ended { IfOk result (IsEnded S.instance self.entry.planner (work_call self.entry.work withdraw_act) withdrawn) }
        ensures stop { IfErr result (λ stopped. IsStopped S.max_entries self.entry stopped.1 stopped.0) }
    {
        let Transaction {
            floor,
            mut account,
            work,
        } = self;
        match account.withdraw(floor, rt, work) {
            Ok(()) => Ok(Planner::new(floor, account)),
            Err((work, stop)) => Err((Transaction::new(floor, account, work), stop)),
        }
    }

    /// Gives it up. Makes no entry and no item, takes no memory, and waits for nobody.
    pub fn abandon(self) -> Planner<'a, S, R, A>
        ensures { result ≡ self.entry.planner }
    {
        let Transaction {
            floor,
            mut account,
            work,
        } = self;
        account.keep(work);
        Planner::new(floor, account)
    }

    /// Looks up what a block held at the start, and notes it.
    fn look_up(&mut self, block: u32) -> Result<Option<u32>, ReadStop>
        requires block { block < S.instance.blocks }
        requires unknown { known_of self.old.work block ≡ None }
        ensures sees { SeesOn self.old.planner self.new.planner }
        ensures looked { IsLookedUp self.old block result self.new }
    {
        let Some(slot) = self.account.read(block) else {
            return Err(ReadStop::NoEntry);
        };
        let version = slot.version;
        if version > self.work.start() {
            return Err(ReadStop::Moved { block, version });
        }
        let Ok(()) = self.note(block, slot.period) else {
            return Err(ReadStop::NoMemory);
        };
        Ok(slot.period)
    }

    /// Notes what a block held at the start.
    fn note(&mut self, block: u32, period: Option<u32>) -> Result<(), NoMemory>
        requires block { block < S.instance.blocks }
        requires period { IfSome period (λ t. t < S.instance.periods) }
        requires unknown { known_of self.old.work block ≡ None }
        requires held { period ≡ held_period (take self.old.work.start (commits_of self.old.planner.seen)) block }
        ensures planner { self.new.planner ≡ self.old.planner }
        ensures ok { OnOk result (self.new.work ≡ record self.old.work { reads = self.old.work.reads ++ (block, period) ∷ [] }) }
        ensures err { OnErr result (self.new ≡ self.old) }
    {
        self.work.note_unknown(block, period)
    }
}

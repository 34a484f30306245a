//! Workspaces.
ghost use Rattle.std.specs.Prelude.{◌≡◌, ◌++◌, ◌↔◌, IsTrue, IfOk, IfErr};
ghost use Rattle.pit_share.specs.Closing.{IsClosed, IsCloseError};
ghost use Rattle.pit_share.specs.Locked.{IsLockedValue};
ghost use Rattle.pit_share.specs.Inside.Closing.{AreBeside};
ghost use Rattle.pit_share.specs.Opening.{IsPlannerCount, AreSeats, IsOpenError};
ghost use Rattle.pit_share.specs.declared.new_session.TheConstants.{PLANNERS_MAX};

use crate::closed::Closed;
use crate::error::{CloseError, OpenError};
use crate::floor::Floor;
use crate::log::PlannerLog;
use crate::new_session::{NewSession, PLANNERS_MAX};
use crate::seat::{Seat, seats_of};
use pit_board::{Prefix, Publisher, Session};
use pit_desk::{Desk, Entry};
use pit_num::NoMemory;
use std::alloc::Allocator;
use std::sync::{Mutex, Wait};

/// A desk behind its lock, and what is published of it. Whenever the lock is free, the history of the desk goes on from the opening one, it is
/// one of one thread, and its commits are those that are published.
#[derive(Drop)]
pub struct Workspace<S: Session, R: Wait + Drop, A: Allocator + Copy + Drop> {
    floor: Mutex<Floor<S, R, A>>,
}

impl<S: Session, R: Wait + Drop, A: Allocator + Copy + Drop> Workspace<S, R, A> {
    /// Opens a workspace on a desk, with a seat for each of so many planners, 1 to `PLANNERS_MAX`. The session names the desk's pit, its history and
    /// its limit of entries, the number of planners, and a new count and list. The handle is kept, since who ends the board waits for its
    /// readers. On a refusal the desk is handed back, and the rest is freed.
    pub fn open(
        rt: R,
        alloc: A,
        desk: Desk<A>,
        planners: u32,
        new_session: NewSession,
    ) -> Result<(Workspace<S, R, A>, Vec<Seat<S, A>, A>), (Desk<A>, OpenError)>
        requires pit { desk.plan.pit ≡ S.instance }
        requires history { desk.history ≡ S.opening }
        requires limit { desk.max_entries ≡ S.max_entries }
        requires planners { planners ≡ S.planners }
        requires ledger { new_session.ledger ≡ S.name }
        requires parts { S.parts ≡ PLANNERS_MAX }
        requires book { new_session.book ≡ S.book }
        ensures count { IfOk result (λ opened. IsPlannerCount planners) }
        ensures seats { IfOk result (λ opened. AreSeats planners opened.1.items) }
        ensures desk { IfErr result (λ refused. refused.0 ≡ desk) }
        ensures err { IfErr result (λ refused. IsOpenError planners refused.1) }
    {
        if !is_planner_count(planners) {
            return Err((desk, OpenError::PlannerCount));
        }
        let (shares, list) = new_session.into_parts();
        let (total, mut rest) = shares.open::<S>();
        // its board has a place for each planner
        let mut publisher = match Publisher::open(rt, alloc, list, &desk, planners) {
            Ok(publisher) => publisher,
            Err(_) => return Err((desk, OpenError::NoMemory)),
        };
        let pit = desk.plan().instance();
        let seats = match seats_of(alloc, &mut publisher, &mut rest, pit, planners) {
            Ok(seats) => seats,
            Err(error) => return Err((desk, error)),
        };
        let Ok(items) = Vec::with_capacity(alloc, planners as usize) else {
            return Err((desk, OpenError::NoMemory));
        };
        let floor = Mutex::new(Floor::new(desk, publisher, total, rest, planners, items));
        Ok((Workspace { floor }, seats))
    }

    /// Closes the workspace by the logs of its planners, in any order. First each log has to be there, then each has to be what the history has of
    /// its planner, then the history has to begin with what each planner has seen; then the shares of the count are joined, which shows that no
    /// entry is left over. On a refusal the workspace and the logs are handed back whole. Takes no memory. Waits for readers. None is left: each
    /// planner gave its place back when it handed in its log.
    pub fn close(
        self,
        logs: Vec<PlannerLog<S, A>, A>,
    ) -> Result<Closed<A>, (Workspace<S, R, A>, Vec<PlannerLog<S, A>, A>, CloseError)>
        ensures ok { IfOk result (IsClosed S.instance S.opening S.max_entries S.planners logs.items) }
        ensures logs { IfErr result (λ refused. refused.1 ≡ logs) }
        ensures err { IfErr result (λ refused. IsCloseError S.instance S.opening S.max_entries S.planners logs.items refused.2) }
    {
        match self.into_floor(logs.as_slice()) {
            Ok(floor) => Ok(floor.into_closed(logs)),
            Err((workspace, error)) => Err((workspace, logs, error)),
        }
    }

    /// Closes the workspace as `close` does, and says whether a prefix is all of its history.
    pub fn close_beside(
        self,
        logs: Vec<PlannerLog<S, A>, A>,
        known: &Prefix<S>,
    ) -> Result<(Closed<A>, bool), (Workspace<S, R, A>, Vec<PlannerLog<S, A>, A>, CloseError)>
        ensures ok { IfOk result (λ made. IsClosed S.instance S.opening S.max_entries S.planners logs.items made.0) }
        ensures known { IfOk result (λ made. IsTrue made.1 ↔ (known.now ≡ made.0.history)) }
        ensures logs { IfErr result (λ refused. refused.1 ≡ logs) }
        ensures err { IfErr result (λ refused. IsCloseError S.instance S.opening S.max_entries S.planners logs.items refused.2) }
    {
        let floor = match self.into_floor(logs.as_slice()) {
            Ok(floor) => floor,
            Err((workspace, error)) => return Err((workspace, logs, error)),
        };
        let is_all = floor.is_all(known);
        Ok((floor.into_closed(logs), is_all))
    }

    /// Copies of the entries that the history has behind a prefix of it, and the prefix that is all of it. Takes the memory of the copies. Waits for
    /// the lock, and, though nothing leads to it, for a history that has what the prefix has.
    pub fn behind<W: Wait>(
        &self,
        rt: &W,
        from: &Prefix<S>,
    ) -> Result<(Vec<Entry<A>, A>, Prefix<S>), NoMemory>
        ensures { IfOk result (λ found. found.1 ≡ from.now ++ found.0.items) }
    {
        for _ in rt.forever() {
            if let Some(found) = self.floor.lock(rt).behind(from)? {
                return Ok(found);
            }
        }
        unreachable!()
    }

    /// The number of commits of the schedule behind the lock, and its value in units of 10^-18, where its history has what a planner has seen. Waits
    /// for the lock, and, though nothing leads to it, for a history that has that.
    pub fn value<W: Wait>(&self, rt: &W, seen: &Prefix<S>) -> (u32, i128)
        ensures { IsLockedValue S.instance seen.now result.0 result.1 }
    {
        for _ in rt.forever() {
            if let Some(value) = self.floor.lock(rt).value_behind(seen) {
                return value;
            }
        }
        unreachable!()
    }

    pub(crate) fn floor(&self) -> &Mutex<Floor<S, R, A>> {
        &self.floor
    }

    /// What stands behind the lock, where nothing speaks against closing it by these logs.
    fn into_floor(
        self,
        logs: &[PlannerLog<S, A>],
    ) -> Result<Floor<S, R, A>, (Workspace<S, R, A>, CloseError)>
        ensures beside { IfOk result (λ floor. AreBeside S.opening floor.history S.planners logs.now) }
        ensures err { IfErr result (λ refused. IsCloseError S.instance S.opening S.max_entries S.planners logs.now refused.1) }
    {
        let Workspace { floor } = self;
        let floor = floor.into_inner();
        match floor.close_error(logs) {
            None => Ok(floor),
            Some(error) => {
                let floor = Mutex::new(floor);
                Err((Workspace { floor }, error))
            }
        }
    }
}

/// Whether there may be so many planners.
fn is_planner_count(planners: u32) -> bool
    ensures { IsTrue result ↔ IsPlannerCount planners }
{
    planners >= 1 && planners <= PLANNERS_MAX
}

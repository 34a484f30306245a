//! Seats of a workspace.
ghost use Rattle.std.specs.Prelude.{◌≡◌, ◌≢◌, ◌+◌, ◌<◌, ◌≤◌, [], IfOk, OnOk, IfErr};
ghost use Rattle.pit_share.specs.Logs.{IsPlanner};
ghost use Rattle.pit_share.specs.Opening.{AreSeats};
ghost use Rattle.pit_share.specs.Planners.{planner_of};

use crate::account::Account;
use crate::error::OpenError;
use crate::planner::Planner;
use crate::workspace::Workspace;
use pit_board::{Prefix, Publisher, Session};
use pit_model::Instance;
use std::alloc::Allocator;
use std::marker::Model;
use std::sync::Wait;
use std::sync::ledger::Share;

/// The right to be one planner of a workspace. Contracts see the planner's number.
#[derive(Drop)]
pub struct Seat<S: Session, A: Allocator + Copy + Drop> {
    account: Box<Account<S, A>, A>,
}

impl<S: Session, A: Allocator + Copy + Drop> Model for Seat<S, A> {
    ghost use Rattle.std.specs.Prelude.{◌≡◌, ℕ, []};
    ghost use Rattle.pit_share.specs.Planners.{planner_of};

    ghost Value = { ℕ };

    ghost view = { λ s. s.account.value.number };

    ghost invariant = { λ s. s.account.value ≡ planner_of s.account.value.number [] S.opening };
}

impl<S: Session, A: Allocator + Copy + Drop> Seat<S, A> {
    /// Takes the seat: the planner has an empty log, and has seen the opening history. Takes no memory.
    pub fn sit<'a, R: Wait + Drop>(self, workspace: &'a Workspace<S, R, A>) -> Planner<'a, S, R, A>
        ensures { result ≡ planner_of self [] S.opening }
    {
        let Seat { account } = self;
        Planner::new(workspace.floor(), account)
    }

    /// The entries that its planner will have seen: the opening history.
    pub fn prefix(&self) -> &Prefix<S>
        ensures { result.now ≡ S.opening }
    {
        self.account.prefix()
    }

    fn new(account: Box<Account<S, A>, A>) -> Seat<S, A>
        requires { account.value ≡ planner_of account.value.number [] S.opening }
        ensures { result ≡ account.value.number }
    {
        Seat { account }
    }
}

/// The seats of so many planners, each with a place at the board and a part of the count.
pub(crate) fn seats_of<S: Session, R: Wait + Drop, A: Allocator + Copy + Drop>(
    alloc: A,
    publisher: &mut Publisher<S, R, A>,
    rest: &mut Share<S>,
    pit: &Instance<A>,
    planners: u32,
) -> Result<Vec<Seat<S, A>, A>, OpenError>
    requires publisher { publisher.old ≡ S.opening }
    requires planners { planners ≡ S.planners }
    requires few { planners ≤ rest.old.parts }
    requires none_left { rest.old.amount ≡ 0 }
    requires pit { pit.now ≡ S.instance }
    ensures publisher { publisher.new ≡ publisher.old }
    ensures seats { IfOk result (λ seats. AreSeats planners seats.items) }
    ensures parts { OnOk result (rest.new.parts + planners ≡ rest.old.parts) }
    ensures none_left { rest.new.amount ≡ 0 }
    ensures count { IfErr result (λ error. error ≢ OpenError.PlannerCount) }
{
    let mut seats: Vec<Seat<S, A>, A> = Vec::new(alloc);
    for before in 0..planners {
        let seat = match seat_of(alloc, publisher, rest, pit, before + 1) {
            Ok(seat) => seat,
            Err(error) => return Err(error),
        };
        let Ok(()) = seats.push(seat) else {
            return Err(OpenError::NoMemory);
        };
    }
    Ok(seats)
}

/// One seat, where a place at the board is left.
fn seat_of<S: Session, R: Wait + Drop, A: Allocator + Copy + Drop>(
    alloc: A,
    publisher: &mut Publisher<S, R, A>,
    rest: &mut Share<S>,
    pit: &Instance<A>,
    number: u32,
) -> Result<Seat<S, A>, OpenError>
    requires publisher { publisher.old ≡ S.opening }
    requires number { IsPlanner S.planners number }
    requires part { 0 < rest.old.parts }
    requires none_left { rest.old.amount ≡ 0 }
    requires pit { pit.now ≡ S.instance }
    ensures publisher { publisher.new ≡ publisher.old }
    ensures seat { IfOk result (λ seat. seat ≡ number) }
    ensures parts { OnOk result (rest.new.parts + 1 ≡ rest.old.parts) }
    ensures none_left { rest.new.amount ≡ 0 }
    ensures count { IfErr result (λ error. error ≢ OpenError.PlannerCount) }
{
    let Some(view) = publisher.view(rest) else {
        return Err(OpenError::NoPlace);
    };
    let Ok(pit) = pit.share() else {
        return Err(OpenError::NoMemory);
    };
    match Box::new(alloc, Account::new(alloc, number, view, pit)) {
        Ok(account) => Ok(Seat::new(account)),
        Err(_) => Err(OpenError::NoMemory),
    }
}

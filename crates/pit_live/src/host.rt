//! What the threads of all planners share, and how a planner's session is served there.
ghost use Rattle.std.specs.Prelude.{◌≡◌, ℕ, []};
ghost use Rattle.pit_share.specs.Planners.{planner_of};
ghost use Rattle.pit_live.specs.Sat.{IsUnseated, PlannerSat};

use crate::sitting::Sitting;
use pit_board::Session;
use pit_file::{Appending, StreamFault, Streams};
use pit_journal::SharedJournal;
use pit_model::Instance;
use pit_num::Out;
use pit_serve::{SessionEnd, sit};
use pit_share::{Planner, PlannerLog, Seat, Workspace};
use std::alloc::Allocator;
use std::io::{BufRead, Write};
use std::marker::Model;
use std::sync::Wait;
use std::sync::atomic::{AtomicU64, Ordering};

/// A workspace and its journal, and what serves a planner there.
#[derive(Drop)]
pub(crate) struct Host<
    's,
    S: Session,
    O: Wait + Drop,
    A: Allocator + Copy + Drop,
    K: Appending + Drop,
    V,
> {
    pub(crate) rt: &'s O,
    alloc: A,
    pit: &'s Instance<A>,
    workspace: &'s Workspace<S, O, A>,
    journal: &'s SharedJournal<S, K>,
    server: &'s V,
    /// The number of the planner whose thread was refused last; 0 at first.
    pub(crate) refused: AtomicU64,
}

impl<'s, S: Session, O: Wait + Drop, A: Allocator + Copy + Drop, K: Appending + Drop, V> Model
    for Host<'s, S, O, A, K, V> {
    ghost use Rattle.std.specs.Prelude.{◌≡◌};

    ghost Value = { Unit {0} };

    ghost view = { λ h. tt };

    ghost invariant = { λ h. h.pit.now ≡ S.instance };
}

impl<'s, S: Session, O: Wait + Drop, A: Allocator + Copy + Drop, K: Appending + Drop, V> Host<
    's,
    S,
    O,
    A,
    K,
    V,
> {
    pub(crate) fn new(
        rt: &'s O,
        alloc: A,
        pit: &'s Instance<A>,
        workspace: &'s Workspace<S, O, A>,
        journal: &'s SharedJournal<S, K>,
        server: &'s V,
    ) -> Host<'s, S, O, A, K, V>
        requires { pit.now ≡ S.instance }
    {
        Host {
            rt,
            alloc,
            pit,
            workspace,
            journal,
            server,
            refused: AtomicU64::new(0),
        }
    }
}

/// What has a planner's session served.
pub(crate) trait Serves {
    /// Serves the session of a planner that has just sat down.
    fn serve<'a, S: Session, O: Wait + Drop, A: Allocator + Copy + Drop, K: Appending + Drop, V>(
        &self,
        host: &Host<'_, S, O, A, K, V>,
        planner: Planner<'a, S, O, A>,
    ) -> (PlannerLog<S, A>, Sitting)
        ensures { (seat : ℕ) → planner.entry ≡ planner_of seat [] S.opening → PlannerSat S.instance S.max_entries S.opening seat result.0 result.1 };
}

/// Serves over streams that it opens.
#[derive(Drop)]
pub(crate) struct Opener<'s, D> {
    pub(crate) streams: &'s D,
}

impl<'s, D: Streams> Serves for Opener<'s, D> {
    fn serve<'a, S: Session, O: Wait + Drop, A: Allocator + Copy + Drop, K: Appending + Drop, V>(
        &self,
        host: &Host<'_, S, O, A, K, V>,
        planner: Planner<'a, S, O, A>,
    ) -> (PlannerLog<S, A>, Sitting)
        ensures { (seat : ℕ) → planner.entry ≡ planner_of seat [] S.opening → PlannerSat S.instance S.max_entries S.opening seat result.0 result.1 }
    {
        match self.streams.open(u64::from(planner.number())) {
            Ok((input, output)) => seated(host, planner, input, output),
            Err(StreamFault::NoStream) => unseated(planner, SessionEnd::NoStream),
            Err(StreamFault::NoMemory) => unseated(planner, SessionEnd::NoMemory),
        }
    }
}

/// Has a planner's session served, or hands in its empty log, where its thread was refused.
pub(crate) fn sit_down<
    S: Session,
    O: Wait + Drop,
    A: Allocator + Copy + Drop,
    K: Appending + Drop,
    V: Serves,
>(host: &Host<'_, S, O, A, K, V>, seat: Seat<S, A>) -> (PlannerLog<S, A>, Sitting)
    ensures { PlannerSat S.instance S.max_entries S.opening seat result.0 result.1 }
{
    let planner = seat.sit(host.workspace);
    if host.refused.load(Ordering::SeqCst) == u64::from(planner.number()) {
        return unseated(planner, SessionEnd::NoThread);
    }
    host.server.serve(host, planner)
}

/// Hands in the log of a planner of whom no request is looked at.
fn unseated<'a, S: Session, O: Wait + Drop, A: Allocator + Copy + Drop>(
    planner: Planner<'a, S, O, A>,
    ended: SessionEnd,
) -> (PlannerLog<S, A>, Sitting)
    requires { IsUnseated ended }
    ensures { (seat : ℕ) → planner.entry ≡ planner_of seat [] S.opening → PlannerSat S.instance S.max_entries S.opening seat result.0 result.1 }
{
    let sitting = Sitting {
        planner: planner.number(),
        replies: 0,
        entries: 0,
        ended,
    };
    (planner.finish(), sitting)
}

/// Has a planner's session served over its streams.
fn seated<
    'a,
    S: Session,
    O: Wait + Drop,
    A: Allocator + Copy + Drop,
    K: Appending + Drop,
    V,
    I: BufRead + Drop,
    W: Write + Drop,
>(
    host: &Host<'_, S, O, A, K, V>,
    planner: Planner<'a, S, O, A>,
    input: I,
    output: W,
) -> (PlannerLog<S, A>, Sitting)
    ensures { (seat : ℕ) → planner.entry ≡ planner_of seat [] S.opening → PlannerSat S.instance S.max_entries S.opening seat result.0 result.1 }
{
    let number = planner.number();
    let mut input = input;
    let mut output = Out::new(output);
    let sat = sit(
        host.rt,
        host.alloc,
        host.pit,
        host.workspace,
        host.journal,
        planner,
        &mut input,
        &mut output,
    );
    let sitting = Sitting {
        planner: number,
        replies: sat.replies,
        entries: sat.log.items().len() as u64,
        ended: sat.ended,
    };
    (sat.log, sitting)
}

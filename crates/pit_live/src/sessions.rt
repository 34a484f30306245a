//! The sessions of planners, from the opened workspace to how it is closed.
ghost use Rattle.std.specs.Prelude.{◌≡◌, ◌⊎◌, ℕ, true, false, List, Ok, Err, length, IfOk, IfErr, IfSome, IsFalse, MatchResult};
ghost use Rattle.pit_desk.specs.declared.entry.TheConstants.{ENTRIES_MAX};
ghost use Rattle.pit_file.specs.Kept.{latest};
ghost use Rattle.pit_journal.specs.Journals.{journal_text, Tells};
ghost use Rattle.pit_share.specs.Closing.{IsClosed, IsCloseError};
ghost use Rattle.pit_share.specs.declared.error.CloseError.{CloseError};
ghost use Rattle.pit_share.specs.Opening.{AreSeats, IsPlannerCount};
ghost use Rattle.pit_step.specs.Steps.{IsResultOf};
ghost use Rattle.pit_step.specs.Devices.{writing_of};
ghost use Rattle.pit_live.specs.Live.{HasLived, IsUntoldFault, IsSeatedFault, IsTold, IsLiveEnd, filing_of, carrying, carried_step};
ghost use Rattle.pit_live.specs.Sat.{AllSat};
ghost use Rattle.pit_live.specs.Inside.Threads.{IsReady, AreSat};
ghost use Rattle.pit_live.specs.Inside.Sessions.{KnowsAll, IsReported};

use crate::host::{Host, Opener};
use crate::live_file::LiveFile;
use crate::report::reported;
use crate::seating::Seating;
use crate::sitting::Sitting;
use crate::threads::sit_scoped;
use pit_board::{Prefix, Session};
use pit_file::{Appending, KeptFile, Streams, TwoNames};
use pit_journal::{SharedJournal, room_behind};
use pit_model::Instance;
use pit_num::{Sink, write_text};
use pit_share::{Closed, PlannerLog, Seat, Workspace};
use pit_step::{CliFault, Status};
use std::alloc::Allocator;
use std::marker::Model;
use std::mem::forget;
use std::sync::Wait;
use std::thread::Threads;

/// What planners left, and the file that was their journal; with what that has of the history, unless it has failed.
#[derive(Drop)]
struct Sat<S: Session, A: Allocator + Copy + Drop, K: Appending + Drop> {
    logs: Vec<PlannerLog<S, A>, A>,
    sittings: Vec<Sitting, A>,
    file: K,
    known: Option<Prefix<S>>,
}

/// A closed workspace, how its sessions ended, and whether the file has all of its history.
#[derive(Drop)]
struct Lived<A: Allocator + Copy + Drop> {
    closed: Closed<A>,
    sittings: Vec<Sitting, A>,
    is_filed: bool,
}

impl<A: Allocator + Copy + Drop> Model for Lived<A> {
    ghost use Rattle.pit_live.specs.Live.{Lived as LivedState};

    ghost Value = { LivedState };

    ghost view = { λ l. record { desk = l.closed; sittings = l.sittings.items; is_filed = l.is_filed } };
}

/// Keeps the file open with the text of the opening history, and has planners sit down.
pub(crate) fn live_at<
    S: Session + Send + Sync,
    O: Threads + Wait + Drop + Send + Sync,
    A: Allocator + Copy + Drop + Send + Sync,
    P: TwoNames + Drop + Send,
    D: Streams + Sync,
    L: Sink,
>(
    rt: &O,
    alloc: A,
    pit: &Instance<A>,
    workspace: Workspace<S, O, A>,
    seats: Vec<Seat<S, A>, A>,
    notices: &[u8],
    text: &[u8],
    file: &mut LiveFile<P>,
    streams: &D,
    report: &mut L,
) -> Result<Status, CliFault>
    requires count { IsPlannerCount S.planners }
    requires seats { AreSeats S.planners seats.items }
    requires most { S.max_entries ≡ ENTRIES_MAX }
    requires pit { pit.now ≡ S.instance }
    requires text { text.now ≡ journal_text S.opening }
    ensures { let lines = writing_of (L.contents report.old) (L.contents report.new) (L.has_failed report.new) in
        IsResultOf (carried_step (carrying S.instance S.opening S.planners notices.now) (filing_of file.old file.new) lines) tt result }
{
    let Ok(logs) = Vec::with_capacity(alloc, seats.len()) else {
        return Err(CliFault::NoMemory);
    };
    let Ok(sittings) = Vec::with_capacity(alloc, seats.len()) else {
        return Err(CliFault::NoMemory);
    };
    let kept = match file.keep(text) {
        Ok(kept) => kept,
        Err(fault) => return Err(fault),
    };
    let seating = Seating {
        seats,
        logs,
        sittings,
        room: room_behind(text),
    };
    live_kept(
        rt, alloc, pit, workspace, seating, kept, notices, file, streams, report,
    )
}

/// The same once the file is kept open.
fn live_kept<
    S: Session + Send + Sync,
    O: Threads + Wait + Drop + Send + Sync,
    A: Allocator + Copy + Drop + Send + Sync,
    P: TwoNames + Drop + Send,
    D: Streams + Sync,
    L: Sink,
>(
    rt: &O,
    alloc: A,
    pit: &Instance<A>,
    workspace: Workspace<S, O, A>,
    seating: Seating<S, A>,
    kept: KeptFile<P>,
    notices: &[u8],
    file: &mut LiveFile<P>,
    streams: &D,
    report: &mut L,
) -> Result<Status, CliFault>
    requires count { IsPlannerCount S.planners }
    requires ready { IsReady seating }
    requires each { length seating.seats ≡ S.planners }
    requires most { S.max_entries ≡ ENTRIES_MAX }
    requires filed { Tells (latest (P.stood kept.names)) S.opening × Tells (P.synced kept.names) S.opening }
    requires sound { IsFalse kept.has_failed }
    requires pit { pit.now ≡ S.instance }
    ensures { let lines = writing_of (L.contents report.old) (L.contents report.new) (L.has_failed report.new) in
        let carried = carrying S.instance S.opening S.planners notices.now in
        MatchResult result (λ status. IsLiveEnd carried file.new lines (Ok status)) (IsSeatedFault carried file.new lines) }
{
    let is_told = tell(report, notices);
    let sat = sat_down(rt, alloc, pit, &workspace, seating, kept, streams);
    let lived = match finished(workspace, sat, file) {
        Ok(lived) => lived,
        Err(fault) => return Err(fault),
    };
    let answer = told(alloc, &lived, is_told, report);
    forget(lived);
    answer
}

/// Gives a text to standard error, and says whether it got it.
fn tell<L: Sink>(report: &mut L, text: &[u8]) -> bool
    ensures { IsTold (writing_of (L.contents report.old) (L.contents report.new) (L.has_failed report.new)) text.now result }
{
    match write_text(report, text) {
        Ok(()) => true,
        Err(_) => false,
    }
}

/// Has planners sit down at a journal over the file, which is written and synced to its end when all have ended.
fn sat_down<
    S: Session + Send + Sync,
    O: Threads + Wait + Drop + Send + Sync,
    A: Allocator + Copy + Drop + Send + Sync,
    K: Appending + Drop + Send,
    D: Streams + Sync,
>(
    rt: &O,
    alloc: A,
    pit: &Instance<A>,
    workspace: &Workspace<S, O, A>,
    seating: Seating<S, A>,
    file: K,
    streams: &D,
) -> Sat<S, A, K>
    requires count { IsPlannerCount S.planners }
    requires ready { IsReady seating }
    requires each { length seating.seats ≡ S.planners }
    requires filed { Tells (K.written file) S.opening × Tells (K.synced file) S.opening }
    requires sound { IsFalse (K.has_failed file) }
    requires pit { pit.now ≡ S.instance }
    ensures sat { AllSat S.instance S.max_entries S.opening 1 result.logs.items result.sittings.items }
    ensures many { length result.sittings.items ≡ S.planners }
    ensures filed { IfSome result.known (λ known. Tells (K.written result.file) known × Tells (K.synced result.file) known) }
{
    let journal = SharedJournal::open(file, seating.seats[0].prefix(), seating.room);
    let seating = sit_at(rt, alloc, pit, workspace, &journal, streams, seating);
    let Seating {
        seats: _,
        logs,
        sittings,
        room: _,
    } = seating;
    match journal.finish(rt, alloc, workspace) {
        Ok(journal) => {
            let known = journal.prefix().copy();
            Sat {
                logs,
                sittings,
                file: journal.into_device(),
                known: Some(known),
            }
        }
        Err(file) => Sat {
            logs,
            sittings,
            file,
            known: None,
        },
    }
}

/// Has planners sit down at a journal.
fn sit_at<
    S: Session + Send + Sync,
    O: Threads + Wait + Drop + Send + Sync,
    A: Allocator + Copy + Drop + Send + Sync,
    K: Appending + Drop + Send,
    D: Streams + Sync,
>(
    rt: &O,
    alloc: A,
    pit: &Instance<A>,
    workspace: &Workspace<S, O, A>,
    journal: &SharedJournal<S, K>,
    streams: &D,
    seating: Seating<S, A>,
) -> Seating<S, A>
    requires ready { IsReady seating }
    requires pit { pit.now ≡ S.instance }
    ensures { AreSat S.instance S.max_entries S.opening (length seating.seats) result }
{
    let server = Opener { streams };
    let host = Host::new(rt, alloc, pit, workspace, journal, &server);
    let sat = sit_scoped(&host, seating);
    drop(host);
    sat
}

/// Lets the file go, and closes the workspace.
fn finished<S: Session, O: Wait + Drop, A: Allocator + Copy + Drop, P: TwoNames + Drop>(
    workspace: Workspace<S, O, A>,
    sat: Sat<S, A, KeptFile<P>>,
    file: &mut LiveFile<P>,
) -> Result<Lived<A>, CliFault>
    requires most { S.max_entries ≡ ENTRIES_MAX }
    requires sat { AllSat S.instance S.max_entries S.opening 1 sat.logs.items sat.sittings.items }
    requires many { length sat.sittings.items ≡ S.planners }
    requires filed { IfSome sat.known (λ known. Tells (latest (P.stood sat.file.names)) known × Tells (P.synced sat.file.names) known) }
    ensures ok { (notices : List ℕ) → IfOk result (λ lived. HasLived (carrying S.instance S.opening S.planners notices) file.new lived) }
    ensures err { (notices : List ℕ) → IfErr result (IsUntoldFault (carrying S.instance S.opening S.planners notices) file.new) }
{
    let Sat {
        logs,
        sittings,
        file: kept,
        known,
    } = sat;
    let is_let_go = file.let_go(kept);
    match closed(workspace, logs, known) {
        Ok((closed, is_all)) => Ok(Lived {
            closed,
            sittings,
            is_filed: is_filed(is_let_go, is_all),
        }),
        Err(fault) => Err(fault),
    }
}

/// Whether the file was let go at its name, and has all of the history.
fn is_filed(is_let_go: bool, is_all: bool) -> bool
    ensures { result ≡ true → is_all ≡ true }
{
    is_let_go && is_all
}

/// Closes the workspace, and says whether what is known is all of its history.
fn closed<S: Session, O: Wait + Drop, A: Allocator + Copy + Drop>(
    workspace: Workspace<S, O, A>,
    logs: Vec<PlannerLog<S, A>, A>,
    known: Option<Prefix<S>>,
) -> Result<(Closed<A>, bool), CliFault>
    ensures ok { IfOk result (λ made. IsClosed S.instance S.opening S.max_entries S.planners logs.items made.0) }
    ensures all { IfOk result (λ made. made.1 ≡ true → KnowsAll known made.0.history) }
    ensures err { IfErr result (λ fault. (fault ≡ CliFault.NotClosed) × ((cause : CloseError) × IsCloseError S.instance S.opening S.max_entries S.planners logs.items cause)) }
{
    let Some(known) = known else {
        return closed_alone(workspace, logs);
    };
    match workspace.close_beside(logs, &known) {
        Ok(made) => Ok(made),
        Err(_) => Err(CliFault::NotClosed),
    }
}

/// Closes the workspace where nothing is known.
fn closed_alone<S: Session, O: Wait + Drop, A: Allocator + Copy + Drop>(
    workspace: Workspace<S, O, A>,
    logs: Vec<PlannerLog<S, A>, A>,
) -> Result<(Closed<A>, bool), CliFault>
    ensures ok { IfOk result (λ made. IsClosed S.instance S.opening S.max_entries S.planners logs.items made.0) }
    ensures all { IfOk result (λ made. made.1 ≡ true → ⊥) }
    ensures err { IfErr result (λ fault. (fault ≡ CliFault.NotClosed) × ((cause : CloseError) × IsCloseError S.instance S.opening S.max_entries S.planners logs.items cause)) }
{
    match workspace.close(logs) {
        Ok(closed) => Ok((closed, false)),
        Err(_) => Err(CliFault::NotClosed),
    }
}

/// Tells standard error how the sessions ended, where it got what came before.
fn told<A: Allocator + Copy + Drop, L: Sink>(
    alloc: A,
    lived: &Lived<A>,
    is_told: bool,
    report: &mut L,
) -> Result<Status, CliFault>
    ensures ok { let lines = writing_of (L.contents report.old) (L.contents report.new) (L.has_failed report.new) in
        IfOk result (λ status. IsReported lived.now is_told lines (Ok status)) }
    ensures err { let lines = writing_of (L.contents report.old) (L.contents report.new) (L.has_failed report.new) in
        IfErr result (λ fault. ((fault ≡ CliFault.NoMemory) × (report.new ≡ report.old)) ⊎ IsReported lived.now is_told lines (Err fault)) }
    ensures untold { is_told ≡ false → report.new ≡ report.old }
{
    let desk = lived.closed.desk();
    let Ok((lines, ended)) = reported(alloc, desk, &lived.sittings, lived.is_filed) else {
        return Err(CliFault::NoMemory);
    };
    if !is_told {
        return Err(CliFault::CannotWrite);
    }
    match write_text(report, &lines) {
        Ok(()) => ended,
        Err(_) => Err(CliFault::CannotWrite),
    }
}

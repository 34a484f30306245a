//! The engine: a desk is opened, the history's file is replaced and kept open, and planners sit down.
ghost use Rattle.std.specs.Prelude.{◌≡◌, ◌⊎◌, length};
ghost use Rattle.pit_desk.specs.History.{commits_of};
ghost use Rattle.pit_desk.specs.declared.entry.TheConstants.{ENTRIES_MAX};
ghost use Rattle.pit_journal.specs.Journals.{journal_text};
ghost use Rattle.pit_share.specs.Opening.{IsPlannerCount};
ghost use Rattle.pit_share.specs.declared.new_session.TheConstants.{PLANNERS_MAX};
ghost use Rattle.pit_step.specs.Steps.{IsResultOf};
ghost use Rattle.pit_step.specs.Devices.{writing_of};
ghost use Rattle.pit_live.specs.Notices.{notices_text};
ghost use Rattle.pit_live.specs.Live.{filing_of, carrying, carried_step, live_run};

use crate::input::LiveInput;
use crate::live_file::LiveFile;
use crate::notices::notices;
use crate::sessions::live_at;
use pit_board::Session;
use pit_desk::Desk;
use pit_file::{Streams, TwoNames};
use pit_keyed::Keys;
use pit_lines::{Format, to_lines_in};
use pit_model::Instance;
use pit_num::Sink;
use pit_opening::desk_of;
use pit_share::{NewSession, OpenError, Workspace};
use pit_step::{CliFault, Status};
use std::alloc::Allocator;
use std::marker::Brand;
use std::sync::Wait;
use std::thread::Threads;

/// Opens a workspace on the history that is carried on. Its file is replaced whole, by the text in format 2, and kept open; then standard error is told
/// what is carried on, and each planner sits down in a thread of its own and is served until its input ends. What an ending was answered is told only
/// once its entry is in the file and synced. When all sessions have ended, the file is let go, and standard error is told how. Answers `Failed` where
/// a load falls short. The first fault ends it, and where no planner has sat down, nothing is told. The keys change no output. The memory of what was
/// closed is not given back: the program ends then.
pub fn live<
    R: Threads + Wait + Sync,
    A: Allocator + Copy + Drop + Send + Sync,
    P: TwoNames + Drop + Send,
    D: Streams + Sync,
    L: Sink,
>(
    rt: &R,
    alloc: A,
    input: LiveInput<A>,
    planners: u32,
    keys: Keys,
    file: &mut LiveFile<P>,
    streams: &D,
    report: &mut L,
) -> Result<Status, CliFault>
    requires { IsPlannerCount planners }
    ensures { let lines = writing_of (L.contents report.old) (L.contents report.new) (L.has_failed report.new) in
        IsResultOf (live_run input planners (filing_of file.old file.new) lines) tt result }
{
    let is_new = input.is_new;
    let cut = input.cut;
    match desk_of(alloc, input.pit.keyed(keys), input.opening) {
        Ok(desk) => live_on(
            rt, alloc, desk, is_new, cut, planners, file, streams, report,
        ),
        Err(fault) => Err(fault),
    }
}

/// The same on a desk.
fn live_on<
    R: Threads + Wait + Sync,
    A: Allocator + Copy + Drop + Send + Sync,
    P: TwoNames + Drop + Send,
    D: Streams + Sync,
    L: Sink,
>(
    rt: &R,
    alloc: A,
    desk: Desk<A>,
    is_new: bool,
    cut: u64,
    planners: u32,
    file: &mut LiveFile<P>,
    streams: &D,
    report: &mut L,
) -> Result<Status, CliFault>
    requires count { IsPlannerCount planners }
    requires limit { desk.max_entries ≡ ENTRIES_MAX }
    ensures { let lines = writing_of (L.contents report.old) (L.contents report.new) (L.has_failed report.new) in
        let text = notices_text is_new cut planners (length (commits_of desk.history)) (length desk.history) in
        IsResultOf (carried_step (carrying desk.plan.pit desk.history planners text) (filing_of file.old file.new) lines) tt result }
{
    let Ok(notices) = notices(alloc, is_new, cut, planners, &desk) else {
        return Err(CliFault::NoMemory);
    };
    let Ok(text) = to_lines_in(alloc, Format::Two, desk.history()) else {
        return Err(CliFault::NoMemory);
    };
    let Ok(pit) = desk.plan().instance().share() else {
        return Err(CliFault::NoMemory);
    };
    live_in::<Brand, _, _, _, _, _>(
        rt,
        &rt,
        alloc,
        &pit,
        desk,
        planners,
        NewSession::new(),
        &notices,
        &text,
        file,
        streams,
        report,
    )
}

/// The same under a session's name. `own` is the handle that the board's writer keeps.
fn live_in<
    S: Session + Send + Sync,
    O: Threads + Wait + Drop + Send + Sync,
    A: Allocator + Copy + Drop + Send + Sync,
    P: TwoNames + Drop + Send,
    D: Streams + Sync,
    L: Sink,
>(
    own: O,
    rt: &O,
    alloc: A,
    pit: &Instance<A>,
    desk: Desk<A>,
    planners: u32,
    new_session: NewSession,
    notices: &[u8],
    text: &[u8],
    file: &mut LiveFile<P>,
    streams: &D,
    report: &mut L,
) -> Result<Status, CliFault>
    requires count { IsPlannerCount planners }
    requires pit { desk.plan.pit ≡ S.instance }
    requires history { desk.history ≡ S.opening }
    requires limit { desk.max_entries ≡ S.max_entries }
    requires most { S.max_entries ≡ ENTRIES_MAX }
    requires planners { planners ≡ S.planners }
    requires ledger { new_session.ledger ≡ S.name }
    requires parts { S.parts ≡ PLANNERS_MAX }
    requires book { new_session.book ≡ S.book }
    requires shared { pit.now ≡ S.instance }
    requires text { text.now ≡ journal_text S.opening }
    ensures { let lines = writing_of (L.contents report.old) (L.contents report.new) (L.has_failed report.new) in
        IsResultOf (carried_step (carrying S.instance S.opening S.planners notices.now) (filing_of file.old file.new) lines) tt result }
{
    match Workspace::<S, O, A>::open(own, alloc, desk, planners, new_session) {
        Ok((workspace, seats)) => live_at(
            rt, alloc, pit, workspace, seats, notices, text, file, streams, report,
        ),
        Err((_desk, error)) => Err(open_fault(error)),
    }
}

/// The fault of a workspace that can't be opened for as many planners as there may be.
fn open_fault(error: OpenError) -> CliFault
    ensures { (result ≡ CliFault.NoMemory) ⊎ (result ≡ CliFault.NoPlace) }
{
    match error {
        OpenError::NoPlace => CliFault::NoPlace,
        // `PlannerCount` doesn't come: there may be so many planners.
        OpenError::PlannerCount | OpenError::NoMemory => CliFault::NoMemory,
    }
}

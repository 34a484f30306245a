//! The run of `live` on the files that the words name. The history is held from before the first input is opened to the end.
ghost use Rattle.std.specs.Prelude.{◌≡◌, ◌≤◌, IfSome, length};
ghost use Rattle.pit_step.specs.Steps.{IsResultOf};
ghost use Rattle.pit_step.specs.Devices.{writing_of};
ghost use Rattle.pit_command.specs.Limits.{planners_max};
ghost use Rattle.pit_share.specs.Opening.{IsPlannerCount};
ghost use Rattle.pit_live.specs.Live.{Filing};
ghost use Rattle.pit_live.specs.LiveFiles.{known_names};
ghost use Rattle.pit.specs.LiveRun.{live_by, held_live, planner_count};

use crate::live_disk::{LiveDisk, held, let_unkept_go};
use crate::live_files::live_files;
use pit_cli::{CliFault, Keys, Status};
use pit_command::LiveWords;
use pit_file::HistoryFile;
use pit_live::{LiveFile, LiveInput, live};
use pit_num::Sink;
use std::alloc::Global;
use std::sync::Wait;
use std::thread::Threads;

/// Where no planner sat down, no new file of a history is left.
pub fn run_live<D: LiveDisk, R: Threads + Wait + Sync, L: Sink>(
    rt: &R,
    alloc: Global,
    keys: Keys,
    disk: &D,
    words: &LiveWords<'_>,
    report: &mut L,
) -> Result<Status, CliFault>
    ensures { let lines = writing_of (L.contents report.old) (L.contents report.new) (L.has_failed report.new) in
        IsResultOf (live_by (D.told disk.now) words.now lines (report.new ≡ report.old)) tt result }
{
    let file = match held(disk, words) {
        Ok(file) => file,
        Err(fault) => return Err(fault),
    };
    let (answer, unkept) = carry_on(rt, alloc, keys, disk, words, file, report);
    let_unkept_go(disk, words, unkept);
    answer
}

/// The same, once the history is held; and its file, where that isn't kept open.
fn carry_on<D: LiveDisk, R: Threads + Wait + Sync, L: Sink>(
    rt: &R,
    alloc: Global,
    keys: Keys,
    disk: &D,
    words: &LiveWords<'_>,
    file: HistoryFile<D::Names>,
    report: &mut L,
) -> (Result<Status, CliFault>, Option<HistoryFile<D::Names>>)
    ensures { let lines = writing_of (L.contents report.old) (L.contents report.new) (L.has_failed report.new) in
        (filing : Filing) × (filing.before ≡ known_names D.Names.stood D.Names.synced file.names)
        × IsResultOf (held_live (D.told disk.now) words.now filing lines ((filing.after ≡ filing.before) × (report.new ≡ report.old))) tt result.0 }
{
    let is_there = disk.is_there(words.history);
    let (mut files, streams) = match live_files(alloc, disk, words, &file, is_there) {
        Ok(opened) => opened,
        Err(fault) => return (Err(fault), Some(file)),
    };
    let input = match LiveInput::read(
        alloc,
        alloc,
        &mut files.model,
        &mut files.precedence,
        &mut files.blocks,
        &mut files.history,
    ) {
        Ok(input) => input,
        Err(fault) => return (Err(fault), Some(file)),
    };
    let planners = planner_count(words.streams);
    let mut kept = LiveFile::new(file);
    let answer = live(
        rt, alloc, input, planners, keys, &mut kept, &streams, report,
    );
    (answer, kept.into_unkept())
}

/// How many planners the words name. Without a word there is one.
fn planner_count(streams: Option<&[&str]>) -> u32
    requires few { IfSome streams (λ words. length words.now ≤ planners_max) }
    ensures is { result ≡ planner_count streams.entry }
    ensures count { IsPlannerCount result }
{
    match streams {
        Some(words) if !words.is_empty() => words.len() as u32,
        _ => 1,
    }
}

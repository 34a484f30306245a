//! The runs of the engines on the files that the words name. Files are opened in the order of the engine's inputs, and each before one is read.
ghost use Rattle.std.specs.Prelude.{◌≡◌};
ghost use Rattle.pit_step.specs.Steps.{IsResultOf};
ghost use Rattle.pit_step.specs.Devices.{writing_of};
ghost use Rattle.pit_command.specs.declared.commands.Command.TheVariants.{Value as value_command, Check as check_command, Table as table_command, Diff as diff_command, Info as info_command, Show as show_command, Replay as replay_command, Log as log_command};
ghost use Rattle.pit.specs.Runs.{IsRunOf, view_run, checked_input};

use crate::files::{Disk, three_files, two_files};
use crate::live_disk::LiveDisk;
use crate::lives::run_live;
use crate::merge_files::source_if;
use crate::merges::run_merge;
use crate::plans::run_plan;
use crate::source_files::{PitFiles, open_pit};
use pit_cli::{
    CliFault, Input, Keys, Status, check, check_all, diff, info, log, replay, show, table, value,
};
use pit_command::{
    CheckWords, Command, DiffWords, InfoWords, LogWords, ReplayWords, ShowWords, TableWords,
    ValueWords,
};
use pit_num::{In, Sink};
use std::alloc::Global;
use std::sync::Wait;
use std::thread::Threads;

/// Does what the words ask for, with these keys. Only `plan`, `merge` and `live` write a report, and a history. The first input whose file can't be opened is answered, and then nothing is written.
pub fn run<D: LiveDisk, R: Threads + Wait + Sync, W: Sink, L: Sink>(
    rt: &R,
    alloc: Global,
    keys: Keys,
    disk: &D,
    command: &Command<'_>,
    out: &mut W,
    report: &mut L,
) -> Result<Status, CliFault>
    ensures { let written = writing_of (W.contents out.old) (W.contents out.new) (W.has_failed out.new) in
        let lines = writing_of (L.contents report.old) (L.contents report.new) (L.has_failed report.new) in
        IsRunOf keys command.now (D.told disk.now) (out.new ≡ out.old) (report.new ≡ report.old) written lines result }
{
    match command {
        Command::Value(words) => run_value(alloc, disk, words, out),
        Command::Check(words) => run_check(alloc, disk, words, out),
        Command::Table(words) => run_table(alloc, disk, words, out),
        Command::Diff(words) => run_diff(alloc, disk, words, out),
        Command::Info(words) => run_info(alloc, disk, words, out),
        Command::Show(words) => run_show(alloc, disk, words, out),
        Command::Plan(words) => run_plan(rt, alloc, keys, disk, words, out, report),
        Command::Replay(words) => run_replay(alloc, disk, words, out),
        Command::Log(words) => run_log(alloc, disk, words, out),
        Command::Merge(words) => run_merge(alloc, keys, disk, words, out, report),
        Command::Live(words) => run_live(rt, alloc, keys, disk, words, report),
    }
}

fn run_value<D: Disk, W: Sink>(
    alloc: Global,
    disk: &D,
    words: &ValueWords<'_>,
    out: &mut W,
) -> Result<Status, CliFault>
    ensures { let written = writing_of (W.contents out.old) (W.contents out.new) (W.has_failed out.new) in
        IsResultOf (view_run (D.told disk.now) (value_command words.now) written (out.new ≡ out.old)) tt result }
{
    let (mut model, mut solution) = two_files(
        disk,
        (Input::Model, words.model),
        (Input::Solution, words.solution),
    )?;
    value(alloc, &mut model, &mut solution, out)
}

fn run_check<D: Disk, W: Sink>(
    alloc: Global,
    disk: &D,
    words: &CheckWords<'_>,
    out: &mut W,
) -> Result<Status, CliFault>
    ensures { let written = writing_of (W.contents out.old) (W.contents out.new) (W.has_failed out.new) in
        IsResultOf (view_run (D.told disk.now) (check_command words.now) written (out.new ≡ out.old)) tt result }
{
    let (mut model, mut precedence, mut solution) = three_files(
        disk,
        (Input::Model, words.model),
        (Input::Precedence, words.precedence),
        (checked_input(words.is_all), words.solution),
    )?;
    if words.is_all {
        return check_all(
            alloc,
            alloc,
            &mut model,
            &mut precedence,
            &mut solution,
            out,
        );
    }
    check(alloc, &mut model, &mut precedence, &mut solution, out)
}

/// What is checked: a solution, or any schedule where all is asked for.
pub fn checked_input(is_all: bool) -> Input
    ensures { result ≡ checked_input is_all }
{
    if is_all {
        return Input::Schedule;
    }
    Input::Solution
}

fn run_table<D: Disk, W: Sink>(
    alloc: Global,
    disk: &D,
    words: &TableWords<'_>,
    out: &mut W,
) -> Result<Status, CliFault>
    ensures { let written = writing_of (W.contents out.old) (W.contents out.new) (W.has_failed out.new) in
        IsResultOf (view_run (D.told disk.now) (table_command words.now) written (out.new ≡ out.old)) tt result }
{
    let (mut model, mut schedule) = two_files(
        disk,
        (Input::Model, words.model),
        (Input::Schedule, words.schedule),
    )?;
    table(alloc, alloc, &mut model, &mut schedule, out)
}

fn run_diff<D: Disk, W: Sink>(
    alloc: Global,
    disk: &D,
    words: &DiffWords<'_>,
    out: &mut W,
) -> Result<Status, CliFault>
    ensures { let written = writing_of (W.contents out.old) (W.contents out.new) (W.has_failed out.new) in
        IsResultOf (view_run (D.told disk.now) (diff_command words.now) written (out.new ≡ out.old)) tt result }
{
    let (mut model, mut old, mut new) = three_files(
        disk,
        (Input::Model, words.model),
        (Input::Old, words.old),
        (Input::New, words.new),
    )?;
    diff(alloc, alloc, &mut model, &mut old, &mut new, out)
}

fn run_info<D: Disk, W: Sink>(
    alloc: Global,
    disk: &D,
    words: &InfoWords<'_>,
    out: &mut W,
) -> Result<Status, CliFault>
    ensures { let written = writing_of (W.contents out.old) (W.contents out.new) (W.has_failed out.new) in
        IsResultOf (view_run (D.told disk.now) (info_command words.now) written (out.new ≡ out.old)) tt result }
{
    let files = open_pit(disk, words.model, words.precedence, words.blocks)?;
    let PitFiles {
        model,
        precedence,
        blocks,
    } = files;
    let mut model = In::new(model.file);
    let mut precedence = In::new(precedence.file);
    let mut blocks = source_if(blocks);
    info(alloc, &mut model, &mut precedence, &mut blocks, out)
}

fn run_show<D: Disk, W: Sink>(
    alloc: Global,
    disk: &D,
    words: &ShowWords<'_>,
    out: &mut W,
) -> Result<Status, CliFault>
    ensures { let written = writing_of (W.contents out.old) (W.contents out.new) (W.has_failed out.new) in
        IsResultOf (view_run (D.told disk.now) (show_command words.now) written (out.new ≡ out.old)) tt result }
{
    let (mut model, mut schedule) = two_files(
        disk,
        (Input::Model, words.model),
        (Input::Schedule, words.schedule),
    )?;
    show(alloc, alloc, &mut model, &mut schedule, words.at, out)
}

fn run_replay<D: Disk, W: Sink>(
    alloc: Global,
    disk: &D,
    words: &ReplayWords<'_>,
    out: &mut W,
) -> Result<Status, CliFault>
    ensures { let written = writing_of (W.contents out.old) (W.contents out.new) (W.has_failed out.new) in
        IsResultOf (view_run (D.told disk.now) (replay_command words.now) written (out.new ≡ out.old)) tt result }
{
    let (mut model, mut precedence, mut history) = three_files(
        disk,
        (Input::Model, words.model),
        (Input::Precedence, words.precedence),
        (Input::History, words.history),
    )?;
    replay(alloc, alloc, &mut model, &mut precedence, &mut history, out)
}

fn run_log<D: Disk, W: Sink>(
    alloc: Global,
    disk: &D,
    words: &LogWords<'_>,
    out: &mut W,
) -> Result<Status, CliFault>
    ensures { let written = writing_of (W.contents out.old) (W.contents out.new) (W.has_failed out.new) in
        IsResultOf (view_run (D.told disk.now) (log_command words.now) written (out.new ≡ out.old)) tt result }
{
    let (mut model, mut precedence, mut history) = three_files(
        disk,
        (Input::Model, words.model),
        (Input::Precedence, words.precedence),
        (Input::History, words.history),
    )?;
    log(
        alloc,
        alloc,
        &mut model,
        &mut precedence,
        &mut history,
        words.with_writes,
        out,
    )
}

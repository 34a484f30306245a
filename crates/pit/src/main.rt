//! `pit` values, checks and edits open pit schedules: it opens the files that its words name, and calls an engine.
#![tactic(auto)]

mod ending;
mod fault;
mod files;
mod histories;
mod keys;
mod live_disk;
mod live_files;
mod lives;
mod looked;
mod merge_files;
mod merges;
mod paths;
mod plan_texts;
mod plans;
mod runs;
mod source_files;
mod sources;
mod streams;
mod system_disk;
mod system_streams;
mod words;

use fault::Fault;
use keys::keys_for;
use looked::Looked;
use pit_cli::{CliFault, Status};
use pit_command::{Command, asked, matched, refusal};
use pit_explain::{Watched, explain};
use pit_num::{Out, Sink};
use pit_step::{Text, empty_text};
use runs::run;
use std::alloc::Global;
use std::io::IsTerminal;
use std::process::ExitCode;
use std::sync::Wait;
use std::thread::Threads;
use system_disk::SystemDisk;

fn main(rt: HostRuntime) -> ExitCode {
    let _places = streams::hold(&rt);
    let mut notes = empty_text(rt.alloc());
    let answer = answer(&rt, &rt, &mut notes);
    let status = ending::ended(&rt, answer);
    ending::note(&rt, notes);
    status
}

/// Reads the words of the command line, and does what they ask, with threads where it takes them. Notes are for people, to be written behind all else.
fn answer<R: Threads + Wait + Sync>(
    rt: &HostRuntime,
    threads: &R,
    notes: &mut Text<Global>,
) -> Result<Status, Fault> {
    let words = words::words(rt)?;
    let matches = matched(rt.alloc(), words.as_slice())?;
    let command = match asked(&matches) {
        Ok(command) => command,
        Err(kind) => return Err(Fault::from(refusal(rt.alloc(), kind))),
    };
    let disk = SystemDisk::new(rt);
    let mut out = Out::new(rt.stdout());
    let is_terminal = rt.stderr().is_terminal();
    let mut report = Watched::new(Out::new(rt.stderr()), is_watched(is_terminal, &command));
    let answer = run(
        threads,
        rt.alloc(),
        keys_for(rt, &command),
        &disk,
        &command,
        &mut out,
        &mut report,
    );
    let looked = Looked::new(rt, &command);
    note(rt, is_terminal, &answer, &looked, &report, notes);
    Ok(answer?)
}

/// Whether a person is told what helps against a refusal: where there is a terminal, and the report is of jobs.
fn is_watched(is_terminal: bool, command: &Command<'_>) -> bool {
    is_terminal && matches!(command, Command::Plan(_))
}

/// On a terminal, notes on a fault; on what a model passes over, where its value was told; or on a refusal in a report.
fn note<W: Sink + Drop>(
    rt: &HostRuntime,
    is_terminal: bool,
    answer: &Result<Status, CliFault>,
    looked: &Looked<'_, '_>,
    report: &Watched<W>,
    notes: &mut Text<Global>,
) {
    match answer {
        Err(CliFault::Stopped) => report.advise(is_terminal, notes),
        Err(fault) => explain(rt.alloc(), is_terminal, looked, Some(fault), notes),
        Ok(_) if looked.tells_value() => explain(rt.alloc(), is_terminal, looked, None, notes),
        Ok(_) => report.advise(is_terminal, notes),
    }
}

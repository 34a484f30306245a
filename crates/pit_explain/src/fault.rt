//! What is said of each fault.
use crate::given::Given;
use crate::history::{say_illegal, say_lines};
use crate::script::say_script;
use crate::text::say_text;
use pit_desk::ENTRIES_MAX;
use pit_step::{CliFault, INPUT_BYTES_MAX, Input};
use std::fmt;
use std::io::ErrorKind;

/// Writes the lines on a fault. Of a planner that stopped there are none, since the report tells of it.
pub(crate) fn say_fault<G: Given, W: fmt::Write>(
    w: &mut W,
    given: &G,
    fault: &CliFault,
) -> fmt::Result {
    match fault {
        CliFault::Text { file, error } => say_text(w, given, *file, *error),
        CliFault::Script { number, error } => say_script(w, given, *number, *error),
        CliFault::Lines { file, error } => say_lines(w, given, *file, *error),
        CliFault::Illegal { file, place } => say_illegal(w, given, *file, *place),
        CliFault::CannotRead(file) => say_unread(w, given, *file),
        CliFault::TooLong(file)
        | CliFault::FewBaseCommits { file, .. }
        | CliFault::AnotherHistory(file)
        | CliFault::RevisedLimit(file)
        | CliFault::BaseMissing(file) => {
            write_path(w, given.path(*file))?;
            write_sentence(w, fault)
        }
        CliFault::LimitBelowZero { .. } => {
            write_path(w, given.path(Input::Model))?;
            write_sentence(w, fault)
        }
        CliFault::Start(_) => {
            write_path(w, given.path(Input::Start))?;
            write_sentence(w, fault)
        }
        CliFault::HistoryIsInput => {
            write_path(w, given.history())?;
            write_sentence(w, fault)
        }
        CliFault::HistoryInUse => say_in_use(w, given),
        CliFault::CannotWrite => say_unwritten(w, given),
        _ => write_sentence(w, fault),
    }
}

/// Writes a sentence on a fault that is about no line.
fn write_sentence<W: fmt::Write>(w: &mut W, fault: &CliFault) -> fmt::Result {
    match fault {
        CliFault::TooLong(_) => writeln!(
            w,
            "  An input has at most {} bytes, and a history that is carried on at most {} entries.",
            INPUT_BYTES_MAX, ENTRIES_MAX
        ),
        _ => w.write_str(sentence_on(fault)),
    }
}

/// Such a sentence, where it names no limit of a crate below.
fn sentence_on(fault: &CliFault) -> &'static str {
    match fault {
        CliFault::LimitBelowZero { .. } => {
            "  Not even the empty schedule keeps an upper limit below zero: look at the limits of this resource and period.\n"
        }
        CliFault::FewCommits { .. } => {
            "  `--at N` asks for the schedule after N commits, and there are no more than these.\n"
        }
        CliFault::FewBaseCommits { .. } => {
            "  `--from` says that the edit was made of more commits than the history has.\n"
        }
        CliFault::AnotherHistory(_) => {
            "  The edit's first line names a beginning that this history hasn't: it was made of another one.\n"
        }
        CliFault::RevisedLimit(_) => {
            "  A merge takes no revised limit over: a script of `plan` revises it in the base first.\n"
        }
        CliFault::BaseMissing(_) => {
            "  Nothing says of what the edit was made: begin from what `pit show` prints, or add `--from N`.\n"
        }
        CliFault::Start(_) => {
            "  The schedule that is begun with breaks a rule: `pit check --all` tells of all that is wrong with it.\n"
        }
        CliFault::PlannerCount => "  A plan has 1 to 64 scripts: put several into one.\n",
        CliFault::HistoryIsInput => {
            "  It is read as an input too: name another file, or carry it on with `--continue`.\n"
        }
        CliFault::NoMemory =>
            "  Nothing was written. Give the program more memory, or less to do at once.\n",
        CliFault::NoPlace =>
            "  A planner has no place to read the schedule from: there was no memory for it.\n",
        CliFault::NotClosed => {
            "  The planners' own logs don't agree with the history: this is an error of the program itself. Please report it.\n"
        }
        _ => "",
    }
}

/// Writes a path in a line of its own.
fn write_path<W: fmt::Write>(w: &mut W, path: Option<&str>) -> fmt::Result {
    match path {
        Some(path) => writeln!(w, "  {path}"),
        None => Ok(()),
    }
}

fn say_unread<G: Given, W: fmt::Write>(w: &mut W, given: &G, file: Input) -> fmt::Result {
    write_path(w, given.path(file))?;
    w.write_str(match given.read(file) {
        Ok(_) => "  It could be read just now: try again.\n",
        Err(error) => match error.kind() {
            ErrorKind::NotFound => "  There is no such file.\n",
            ErrorKind::PermissionDenied => "  You may not read it.\n",
            ErrorKind::IsADirectory => "  It is a folder.\n",
            _ => "  The system can't read it.\n",
        },
    })
}

fn say_in_use<G: Given, W: fmt::Write>(w: &mut W, given: &G) -> fmt::Result {
    write_path(w, given.history())?;
    match given.holder() {
        Some(process) => write!(w, "  Process {process}")?,
        None => w.write_str("  Another program")?,
    }
    w.write_str(" has it open to write it: wait for that to end, or write another history.\n")
}

fn say_unwritten<G: Given, W: fmt::Write>(w: &mut W, given: &G) -> fmt::Result {
    let Some(path) = given.history() else {
        return w.write_str(
            "  Standard output couldn't be written: is the device full, or its reader gone?\n",
        );
    };
    match given.history_refusal() {
        Some(ErrorKind::NotFound) => writeln!(w, "  {path}\n  Its folder isn't there."),
        Some(ErrorKind::IsADirectory) => writeln!(w, "  {path}\n  It is a folder."),
        _ => writeln!(
            w,
            "  Standard output or the history {path} couldn't be written: is there room, and may you write there?"
        ),
    }
}

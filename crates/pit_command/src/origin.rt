//! What a plan or a merge begins with.
ghost use Rattle.std.specs.Prelude.{◌≡◌, false, IfOk, IfErr, OnOk};
ghost use Rattle.pit_command.specs.Words.{IsOrigin, IsConflict, has_conflict};

use crate::argument::{history_path, path_of};
use clap::ArgMatches;
use clap::error::ErrorKind;
use pit_step::Input;

/// What a plan or a merge begins with, and where its history is written.
#[derive(Clone, Copy)]
pub enum Origin<'a> {
    /// It begins anew.
    New(NewWords<'a>),
    /// It carries on the history at this path, which may not be there yet: the history is read as an input, and written back.
    Continued(&'a str),
}

/// What one that begins anew is given.
#[derive(Clone, Copy)]
pub struct NewWords<'a> {
    /// The path of the schedule to begin with; else no block is mined.
    pub start: Option<&'a str>,
    /// The path to which the history is written.
    pub history: Option<&'a str>,
}

/// What the words begin with. A history that is carried on excludes a start, and another file for the history.
pub(crate) fn origin_of<'a>(given: &ArgMatches<'a>) -> Result<Origin<'a>, ErrorKind>
    ensures ok { IfOk result (IsOrigin given.now) }
    ensures free { OnOk result (has_conflict given.now ≡ false) }
    ensures err { IfErr result (IsConflict given.now) }
{
    let start = path_of(given, Input::Start);
    let history = history_path(given);
    let Some(path) = path_of(given, Input::History) else {
        return Ok(Origin::New(NewWords { start, history }));
    };
    if start.is_some() || history.is_some() {
        return Err(ErrorKind::ArgumentConflict);
    }
    Ok(Origin::Continued(path))
}

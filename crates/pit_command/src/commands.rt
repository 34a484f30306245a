//! What the words of the command line ask for.
ghost use Rattle.std.specs.Prelude.{MatchResult};
ghost use Rattle.pit_command.specs.Asked.{Asks, IsFaulty, IsAsked, IsRefusal};

use crate::live_words::LiveWords;
use crate::merge_words::MergeWords;
use crate::plan_words::PlanWords;
use crate::words::{
    CheckWords, DiffWords, InfoWords, LogWords, ReplayWords, ShowWords, TableWords, ValueWords,
    check_words, diff_words, info_words, live_words, log_words, merge_words, plan_words,
    replay_words, show_words, table_words, value_words,
};
use clap::ArgMatches;
use clap::error::ErrorKind;

/// What the program is asked to do, and what it is given for it.
#[derive(Clone, Copy)]
pub enum Command<'a> {
    /// Prints what a solution is worth.
    Value(ValueWords<'a>),
    /// Prints what a solution is worth, its first breach or all that it breaks, and its shortfalls.
    Check(CheckWords<'a>),
    /// Prints what each period of a schedule holds, earns and loads.
    Table(TableWords<'a>),
    /// Prints what differs between two schedules.
    Diff(DiffWords<'a>),
    /// Prints what there is in the files of a pit.
    Info(InfoWords<'a>),
    /// Prints a schedule as a solution.
    Show(ShowWords<'a>),
    /// Has planners do their scripts on one schedule, and prints the solution that is left.
    Plan(PlanWords<'a>),
    /// Audits a history, and prints the value of the schedule that it leaves.
    Replay(ReplayWords<'a>),
    /// Prints what each entry of a history did.
    Log(LogWords<'a>),
    /// Merges edits into one schedule, and prints the solution that is left.
    Merge(MergeWords<'a>),
    /// Has planners change one schedule by requests, and tells them at once what becomes of each.
    Live(LiveWords<'a>),
}

/// The word of the subcommand that values a solution.
pub(crate) const VALUE: &str = "value";

/// The word of the one that checks a solution.
pub(crate) const CHECK: &str = "check";

/// The word of the one that prints the periods of a schedule.
pub(crate) const TABLE: &str = "table";

/// The word of the one that compares two schedules.
pub(crate) const DIFF: &str = "diff";

/// The word of the one that prints what there is in files.
pub(crate) const INFO: &str = "info";

/// The word of the one that prints a schedule.
pub(crate) const SHOW: &str = "show";

/// The word of the one that has planners at work.
pub(crate) const PLAN: &str = "plan";

/// The word of the one that audits a history.
pub(crate) const REPLAY: &str = "replay";

/// The word of the one that prints the entries of a history.
pub(crate) const LOG: &str = "log";

/// The word of the one that merges edits.
pub(crate) const MERGE: &str = "merge";

/// The word of the one that serves requests.
pub(crate) const LIVE: &str = "live";

/// What the words ask for, or why they are refused: no subcommand is named, some exclude one another, there are too many edits or planners, streams
/// aren't a pair of paths, or one that is required isn't there, which the parser has seen to before.
pub fn asked<'m, 'a>(matches: &'m ArgMatches<'a>) -> Result<Command<'m>, ErrorKind>
    ensures { MatchResult result (IsAsked matches.now) (IsRefusal matches.now) }
{
    match matches.subcommand() {
        Some((name, given)) => command_of(name, given),
        None => Err(ErrorKind::MissingSubcommand),
    }
}

/// The same of the words behind the name of a subcommand.
fn command_of<'m, 'a>(name: &str, given: &'m ArgMatches<'a>) -> Result<Command<'m>, ErrorKind>
    ensures { MatchResult result (Asks name.now given.now) (IsFaulty name.now given.now) }
{
    match name {
        VALUE => Ok(Command::Value(value_words(given)?)),
        CHECK => Ok(Command::Check(check_words(given)?)),
        TABLE => Ok(Command::Table(table_words(given)?)),
        DIFF => Ok(Command::Diff(diff_words(given)?)),
        INFO => Ok(Command::Info(info_words(given)?)),
        SHOW => Ok(Command::Show(show_words(given)?)),
        PLAN => Ok(Command::Plan(plan_words(given)?)),
        REPLAY => Ok(Command::Replay(replay_words(given)?)),
        LOG => Ok(Command::Log(log_words(given)?)),
        MERGE => Ok(Command::Merge(merge_words(given)?)),
        LIVE => Ok(Command::Live(live_words(given)?)),
        _ => Err(ErrorKind::MissingSubcommand),
    }
}

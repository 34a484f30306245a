//! The arguments, as the parser is told of each.
ghost use Rattle.std.specs.Prelude.{◌≡◌, false};
ghost use Rattle.clap.specs.Walk.{rule_of};
ghost use Rattle.pit_command.specs.Command.{rule_for, flag_rule, at_rule, file_rule, schedule_rule, option_rule, history_rule, continue_rule, retries_rule, scripts_rule, from_rule, edits_rule, carried_rule, streams_rule};

use crate::argument::{
    ALL, AT, CONTINUE, FROM, HISTORY, IN_TURN, PARTIAL, RETRIES, STREAMS, STRICT, WRITES,
    argument_of,
};
use clap::{Arg, ArgAction, value_parser};
use pit_step::Input;
use std::alloc::Global;

/// An argument that a subcommand has.
#[derive(Clone, Copy)]
pub(crate) enum Argument {
    /// The file of an input, which is required.
    File(Input),
    /// A schedule, which is required.
    Schedule,
    /// The option for the file of an input.
    Option(Input),
    /// The option for the file of the history.
    History,
    /// The option for the history that is carried on.
    Continued,
    /// The flag that asks for all that is wrong.
    All,
    /// The flag that asks for what was written.
    Writes,
    /// The flag for planners one after another.
    InTurn,
    /// The flag by which a refused job is a failure.
    Strict,
    /// The flag by which parts of an edit may be left out.
    Partial,
    /// The option for the number of commits after which a schedule is shown.
    At,
    /// The option for the number of commits that an edit was made from.
    From,
    /// The option for the number of retries.
    Retries,
    /// The scripts, of which one at least is required.
    Scripts,
    /// The edits, of which one at least is required.
    Edits,
    /// The option for the history that is carried on, which is required.
    Carried,
    /// The streams of planners.
    Streams,
}

/// What the parser is told of an argument.
pub(crate) fn clap_argument<'a>(alloc: Global, argument: Argument) -> Arg<'a>
    ensures rule { rule_of result ≡ rule_for argument }
    ensures local { result.global ≡ false }
{
    match argument {
        Argument::File(input) => file(alloc, input),
        Argument::Schedule => schedule(alloc),
        Argument::Option(input) => option(alloc, input),
        Argument::History => history(alloc),
        Argument::Continued => continued(alloc),
        Argument::All => flag(
            alloc,
            ALL,
            "Prints all that is wrong; SOLUTION may then be a history, too",
        ),
        Argument::Writes => flag(
            alloc,
            WRITES,
            "Prints what each commit wrote and revised, and what it replaced",
        ),
        Argument::InTurn => flag(
            alloc,
            IN_TURN,
            "One thread does all scripts, one after another: the same inputs give the same outputs",
        ),
        Argument::Strict => flag(
            alloc,
            STRICT,
            "Ends with status 1 where a job was refused, too",
        ),
        Argument::Partial => flag(
            alloc,
            PARTIAL,
            "Leaves out of each edit the blocks that a commit behind its base has written",
        ),
        Argument::At => at(alloc),
        Argument::From => from(alloc),
        Argument::Retries => retries(alloc),
        Argument::Scripts => scripts(alloc),
        Argument::Edits => edits(alloc),
        Argument::Carried => carried(alloc),
        Argument::Streams => streams(alloc),
    }
}

/// The argument for an input.
fn file<'a>(alloc: Global, input: Input) -> Arg<'a>
    ensures rule { rule_of result ≡ file_rule input }
    ensures local { result.global ≡ false }
{
    Arg::new(alloc, argument_of(input))
        .required(true)
        .help(help_of(input))
}

/// The argument for a schedule.
fn schedule<'a>(alloc: Global) -> Arg<'a>
    ensures rule { rule_of result ≡ schedule_rule }
    ensures local { result.global ≡ false }
{
    Arg::new(alloc, argument_of(Input::Schedule))
        .value_name("SCHEDULE")
        .required(true)
        .help(help_of(Input::Schedule))
}

/// The option for an input.
fn option<'a>(alloc: Global, input: Input) -> Arg<'a>
    ensures rule { rule_of result ≡ option_rule input }
    ensures local { result.global ≡ false }
{
    Arg::new(alloc, argument_of(input))
        .long(argument_of(input))
        .value_name("FILE")
        .help(help_of(input))
}

/// The option for the file of the history.
fn history<'a>(alloc: Global) -> Arg<'a>
    ensures rule { rule_of result ≡ history_rule }
    ensures local { result.global ≡ false }
{
    Arg::new(alloc, HISTORY)
        .long(HISTORY)
        .value_name("FILE")
        .help("Where the history is written, a line of JSON for each ending; `replay` reads it")
}

/// The option for the history that is carried on.
fn continued<'a>(alloc: Global) -> Arg<'a>
    ensures rule { rule_of result ≡ continue_rule }
    ensures local { result.global ≡ false }
{
    Arg::new(alloc, argument_of(Input::History))
        .long(CONTINUE)
        .value_name("FILE")
        .help("A history to begin with, which gets the new entries too; it may not be there yet")
}

/// A flag.
fn flag<'a>(alloc: Global, name: &'a str, help: &'a str) -> Arg<'a>
    ensures rule { rule_of result ≡ flag_rule name.entry.now }
    ensures local { result.global ≡ false }
{
    Arg::new(alloc, name)
        .long(name)
        .action(ArgAction::SetTrue)
        .help(help)
}

/// The option for the number of commits after which a schedule is shown.
fn at<'a>(alloc: Global) -> Arg<'a>
    ensures rule { rule_of result ≡ at_rule }
    ensures local { result.global ≡ false }
{
    Arg::new(alloc, AT)
        .long(AT)
        .value_name("N")
        .value_parser(value_parser!(u32))
        .help("Shows the schedule after the first N commits")
}

/// The option for the number of commits that an edit was made from.
fn from<'a>(alloc: Global) -> Arg<'a>
    ensures rule { rule_of result ≡ from_rule }
    ensures local { result.global ≡ false }
{
    Arg::new(alloc, FROM)
        .long(FROM)
        .value_name("N")
        .value_parser(value_parser!(u32))
        .help("Of how many commits an edit was made whose first line doesn't say it")
}

/// The option for the number of retries.
fn retries<'a>(alloc: Global) -> Arg<'a>
    ensures rule { rule_of result ≡ retries_rule }
    ensures local { result.global ≡ false }
{
    Arg::new(alloc, RETRIES)
        .long(RETRIES)
        .value_name("N")
        // `RETRIES_MAX` and `RETRIES_UNSAID`: `clap` is given a range of `u16` and a text.
        .value_parser(value_parser!(u16).range(0..=1000))
        .default_value("3")
        .help("How often a job is repeated that met a change of another planner, 0 to 1000")
}

/// The arguments for the scripts.
fn scripts<'a>(alloc: Global) -> Arg<'a>
    ensures rule { rule_of result ≡ scripts_rule }
    ensures local { result.global ≡ false }
{
    Arg::new(alloc, argument_of(Input::Script(1)))
        .required(true)
        .num_args(1..)
        .action(ArgAction::Append)
        .help(help_of(Input::Script(1)))
}

/// The arguments for the edits.
fn edits<'a>(alloc: Global) -> Arg<'a>
    ensures rule { rule_of result ≡ edits_rule }
    ensures local { result.global ≡ false }
{
    Arg::new(alloc, argument_of(Input::Edit(1)))
        .required(true)
        .num_args(1..)
        .action(ArgAction::Append)
        .help(help_of(Input::Edit(1)))
}

/// The option for the history that is carried on, where that is required.
fn carried<'a>(alloc: Global) -> Arg<'a>
    ensures rule { rule_of result ≡ carried_rule }
    ensures local { result.global ≡ false }
{
    Arg::new(alloc, argument_of(Input::History))
        .long(CONTINUE)
        .value_name("FILE")
        .required(true)
        .help("The history, which gets each new entry at once; it may not be there yet")
}

/// The arguments for the streams of planners.
fn streams<'a>(alloc: Global) -> Arg<'a>
    ensures rule { rule_of result ≡ streams_rule }
    ensures local { result.global ≡ false }
{
    Arg::new(alloc, STREAMS)
        .value_name("IN:OUT")
        .num_args(1..)
        .action(ArgAction::Append)
        .help(
            "For each planner the files or pipes of its requests and replies; without any, the standard streams",
        )
}

/// What help says of an input.
fn help_of<'a>(input: Input) -> &'a str {
    match input {
        Input::Model => {
            "The model: a CPIT model text of MineLib. Its rate is a fraction: 0.1 is 10 % a period"
        }
        Input::Precedence => {
            "The precedences: `BLOCK COUNT PREDECESSOR..` for each block that has predecessors"
        }
        Input::Blocks => { "The blocks' places: `BLOCK X Y Z` for each block that has one" }
        Input::Start => {
            "A schedule to begin with, a solution or a history; without it or --continue no block is mined"
        }
        Input::Script(_) => "A script of jobs for each planner, 1 to 64 of them",
        Input::History => "The history: the lines of JSON that `plan --history` wrote",
        Input::Schedule => "A solution, or a history that `plan --history` wrote",
        Input::Old => "The earlier schedule: a solution, or a history that `plan --history` wrote",
        Input::New => "The later schedule, likewise",
        Input::Edit(_) =>
            "A schedule that was edited elsewhere, a solution or a history, 1 to 64 of them",
        Input::Solution => {
            "The solution: `BLOCK PERIOD` or `BLOCK DESTINATION PERIOD PART` for a mined block"
        }
    }
}

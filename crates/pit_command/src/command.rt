//! The command line.
ghost use Rattle.std.specs.Prelude.{◌≡◌, ◌⊎◌, IfOk, false, map};
ghost use Rattle.clap.specs.Simple.{app_of, with_subcommand, matches_of, subcommand_of, subcommand_rows_of};
ghost use Rattle.clap.specs.Walk.{rows_of};
ghost use Rattle.clap.specs.Matches.{found_of};
ghost use Rattle.clap.specs.Kinds.{FailsBy};
ghost use Rattle.clap.specs.Faults.{fault_of};
ghost use Rattle.clap.specs.declared.builder.command.Command.TheViews.{out-Command as fields_of};
ghost use Rattle.pit_command.specs.Command.{AsksAll, app_begun, pit_app, shape_for, IsSubcommand};
ghost use Rattle.clap.specs.Values.{kind_of};
ghost use Rattle.clap.specs.declared.error.kind.ErrorKind.TheVariants.{OutOfMemory};

use crate::notes::PIT_NOTES;
use crate::rules::clap_argument;
use crate::subcommand::{SUBCOMMANDS, Subcommand};
use clap::error::ErrorKind;
use clap::{ArgMatches, Command, Error};
use std::alloc::{AllocError, Global};
use std::convert::AsStr;

/// What `--version` prints behind the program's name.
const VERSION: &str = "1.0.0";

/// `pit`, with one subcommand for each engine.
fn command<'a>(alloc: Global) -> Result<Command<'a>, AllocError>
    ensures app { IfOk result (λ c. app_of c ≡ pit_app) }
    ensures local { IfOk result (λ c. (fields_of c).has_globals ≡ false) }
{
    command_with(alloc, SUBCOMMANDS)
}

/// `pit`, with these subcommands.
fn command_with<'a>(alloc: Global, subcommands: &[Subcommand]) -> Result<Command<'a>, AllocError>
    ensures app { IfOk result (λ c. app_of c ≡ app_begun (map shape_for subcommands.now)) }
    ensures local { IfOk result (λ c. (fields_of c).has_globals ≡ false) }
{
    let mut pit = Command::new(alloc, "pit")
        .about("Values, checks, compares and edits schedules of open pit mines")
        .version(VERSION)
        .after_help(PIT_NOTES)
        .subcommand_required(true);
    for subcommand in subcommands {
        pit = with_subcommand(alloc, pit, subcommand)?;
    }
    Ok(pit)
}

/// `pit`, with one more subcommand.
fn with_subcommand<'a>(
    alloc: Global,
    pit: Command<'a>,
    subcommand: &Subcommand,
) -> Result<Command<'a>, AllocError>
    ensures app { (fields_of pit.entry).has_globals ≡ false → IfOk result (λ c. app_of c ≡ with_subcommand (app_of pit.entry) (shape_for subcommand.now)) }
    ensures local { (fields_of pit.entry).has_globals ≡ false → IfOk result (λ c. (fields_of c).has_globals ≡ false) }
{
    pit.subcommand(clap_subcommand(alloc, subcommand)?)
}

/// What the parser is told of a subcommand.
fn clap_subcommand<'a>(alloc: Global, subcommand: &Subcommand) -> Result<Command<'a>, AllocError>
    ensures { IfOk result (IsSubcommand (shape_for subcommand.now)) }
{
    let mut command = Command::new(alloc, subcommand.name)
        .about(subcommand.about)
        .after_help(subcommand.notes);
    for argument in subcommand.arguments {
        command = command.arg(clap_argument(alloc, *argument))?;
    }
    Ok(command)
}

/// What the words, of which the first is the program's name, give and ask for.
pub fn matched<'a, S: AsStr>(alloc: Global, words: &'a [S]) -> Result<ArgMatches<'a>, Error>
    ensures given { IfOk result (λ m. rows_of (found_of m) ≡ matches_of pit_app (map S.text words.entry.now)) }
    ensures asked { IfOk result (λ m. subcommand_rows_of m ≡ subcommand_of pit_app (map S.text words.entry.now)) }
    ensures whole { IfOk result (λ m. AsksAll (subcommand_rows_of m)) }
    ensures fails { FailsBy (fault_of pit_app (map S.text words.entry.now)) result }
{
    let pit = command(alloc)?;
    pit.try_get_matches_from(words)
}

/// The parser's error for what the parser itself isn't asked to judge: a word that is not UTF-8, or what `asked` refuses. Or that it is out of memory.
pub fn refusal(alloc: Global, kind: ErrorKind) -> Error
    ensures { (kind_of result ≡ kind) ⊎ (kind_of result ≡ OutOfMemory) }
{
    let text = match kind {
        ErrorKind::MissingSubcommand => "a subcommand is required",
        ErrorKind::ArgumentConflict => {
            "the argument '--continue <FILE>' cannot be used with '--start <FILE>' or '--history <FILE>'"
        }
        ErrorKind::TooManyValues => "there are more than 64 values for '<EDIT>...'",
        ErrorKind::WrongNumberOfValues => "there are more than 64 values for '[IN:OUT]...'",
        ErrorKind::ValueValidation => {
            "a value for '[IN:OUT]...' isn't two paths with a ':' between them"
        }
        ErrorKind::MissingRequiredArgument => "a required argument was not provided",
        _ => "a word is not UTF-8",
    };
    match command(alloc) {
        Ok(mut command) => match command.error(kind, text) {
            Ok(error) => error,
            Err(error) => Error::from(error),
        },
        Err(error) => Error::from(error),
    }
}

//! The arguments of the command line, by the inputs and the output whose paths they are.
ghost use Rattle.std.specs.Prelude.{◌≡◌, ◌≤◌, ◌∷◌, [], length, map, option_map, codes, true, false, IfOk, IfErr, IfSome, OnOk, OnErr};
ghost use Rattle.pit_command.specs.Inputs.{argument_of, path_of, paths_of, edits_of, streams_of, stream_words, history_path};
ghost use Rattle.pit_command.specs.Limits.{edits_max, planners_max, retries_max};
ghost use Rattle.pit_command.specs.Words.{has_many, AreNoEdits, IsLacking, retries_in, IsRetries, IsNumber, IsFlag, IsStreamsFault};
ghost use Rattle.pit_command.specs.Pairs.{are_pairs};

use crate::streams::are_pairs;
use clap::ArgMatches;
use clap::error::ErrorKind;
use pit_step::Input;

/// The name of the option for the number of retries.
pub(crate) const RETRIES: &str = "retries";

/// The name of the option for the file of the history.
pub(crate) const HISTORY: &str = "history";

/// The name of the option for the number of commits after which a schedule is shown.
pub(crate) const AT: &str = "at";

/// The name of the flag that asks `check` for all that is wrong.
pub(crate) const ALL: &str = "all";

/// The name of the flag that asks `log` for what was written.
pub(crate) const WRITES: &str = "writes";

/// The word of the option for the history that is carried on.
pub(crate) const CONTINUE: &str = "continue";

/// The name of the flag for planners one after another.
pub(crate) const IN_TURN: &str = "in-turn";

/// The name of the flag by which a refused job is a failure.
pub(crate) const STRICT: &str = "strict";

/// The name of the option for the number of commits that an edit was made from.
pub(crate) const FROM: &str = "from";

/// The name of the flag by which parts of an edit may be left out.
pub(crate) const PARTIAL: &str = "partial";

/// The name of the argument for the streams of planners.
pub(crate) const STREAMS: &str = "STREAMS";

/// The name of the argument for an input. Of `plan`, `merge` and `live` the history is the one that is carried on.
pub(crate) fn argument_of<'a>(input: Input) -> &'a str
    ensures { result.now ≡ argument_of input }
{
    match input {
        Input::Model => "MODEL",
        Input::Precedence => "PREC",
        Input::Blocks => "blocks",
        Input::Start => "start",
        Input::Solution => "SOLUTION",
        Input::Script(_) => "SCRIPT",
        Input::History => "HISTORY",
        Input::Schedule => "SOLUTION",
        Input::Old => "OLD",
        Input::New => "NEW",
        Input::Edit(_) => "EDIT",
    }
}

/// The path that the words give for an input; the first one, where they give several.
pub(crate) fn path_of<'a>(given: &ArgMatches<'a>, input: Input) -> Option<&'a str>
    ensures { option_map (λ path. path.now) result ≡ path_of given.now input }
{
    given.get_str(argument_of(input))
}

/// The path that the words give for the history that is written.
pub(crate) fn history_path<'a>(given: &ArgMatches<'a>) -> Option<&'a str>
    ensures { option_map (λ path. path.now) result ≡ history_path given.now }
{
    given.get_str(HISTORY)
}

/// All paths that the words give for an input, which is required.
pub(crate) fn paths_of<'m, 'a>(
    given: &'m ArgMatches<'a>,
    input: Input,
) -> Result<&'m [&'a str], ErrorKind>
    ensures ok { IfOk result (λ paths. map (λ path. path.now) paths.now ≡ paths_of given.now input) }
    ensures none { OnErr result (paths_of given.now input ≡ []) }
    ensures err { IfErr result (IsLacking given.now (input ∷ [])) }
{
    match given.get_strs(argument_of(input)) {
        Some(paths) => Ok(paths),
        None => Err(ErrorKind::MissingRequiredArgument),
    }
}

/// How many edits one merge may have.
const EDITS_MAX: usize = 64;

/// The paths that the words give for edits.
pub(crate) fn edits_of<'m, 'a>(given: &'m ArgMatches<'a>) -> Result<&'m [&'a str], ErrorKind>
    ensures ok { IfOk result (λ paths. (map (λ path. path.now) paths.now ≡ edits_of given.now) × (length paths.now ≤ edits_max)) }
    ensures few { OnOk result (has_many given.now ≡ false) }
    ensures err { IfErr result (AreNoEdits given.now) }
{
    let paths = match paths_of(given, Input::Edit(1)) {
        Ok(paths) => paths,
        Err(kind) => return Err(kind),
    };
    if paths.len() > EDITS_MAX {
        return Err(ErrorKind::TooManyValues);
    }
    Ok(paths)
}

/// How many planners a live workspace may have.
const PLANNERS_MAX: usize = 64;

/// The words for the streams of planners, one for each planner, where there are any.
pub(crate) fn streams_of<'m, 'a>(
    given: &'m ArgMatches<'a>,
) -> Result<Option<&'m [&'a str]>, ErrorKind>
    ensures ok { IfOk result (λ streams. option_map (λ words. map (λ word. word.now) words.now) streams ≡ streams_of given.now) }
    ensures few { IfOk result (λ streams. IfSome streams (λ words. length words.now ≤ planners_max)) }
    ensures pairs { OnOk result (are_pairs (stream_words given.now) ≡ true) }
    ensures err { IfErr result (IsStreamsFault given.now) }
{
    let Some(words) = given.get_strs(STREAMS) else {
        return Ok(None);
    };
    if words.len() > PLANNERS_MAX {
        return Err(ErrorKind::WrongNumberOfValues);
    }
    if !are_pairs(words) {
        return Err(ErrorKind::ValueValidation);
    }
    Ok(Some(words))
}

/// Whether the words ask for all that is wrong.
pub(crate) fn asks_all(given: &ArgMatches<'_>) -> bool
    ensures { IsFlag given.now (codes "all") result }
{
    given.get_flag(ALL)
}

/// Whether the words ask `log` for what each commit wrote and revised.
pub(crate) fn asks_writes(given: &ArgMatches<'_>) -> bool
    ensures { IsFlag given.now (codes "writes") result }
{
    given.get_flag(WRITES)
}

/// Whether one thread does the scripts of all planners, one after another.
pub(crate) fn is_in_turn(given: &ArgMatches<'_>) -> bool
    ensures { IsFlag given.now (codes "in-turn") result }
{
    given.get_flag(IN_TURN)
}

/// Whether a plan of which a job was refused has failed.
pub(crate) fn is_strict(given: &ArgMatches<'_>) -> bool
    ensures { IsFlag given.now (codes "strict") result }
{
    given.get_flag(STRICT)
}

/// Whether what somebody else has changed is left out of an edit.
pub(crate) fn is_partial(given: &ArgMatches<'_>) -> bool
    ensures { IsFlag given.now (codes "partial") result }
{
    given.get_flag(PARTIAL)
}

/// Of how many commits the words say that an edit was made.
pub(crate) fn from_of(given: &ArgMatches<'_>) -> Option<u32>
    ensures { IsNumber given.now (codes "from") 32 result }
{
    given.get_one(FROM)
}

/// How often a job may be repeated at most; the parser takes no greater number.
const RETRIES_MAX: u32 = 1000;

/// How often it is repeated where the words don't say it; the parser is told so, too.
const RETRIES_UNSAID: u32 = 3;

/// How often a job is repeated.
pub(crate) fn retries_of(given: &ArgMatches<'_>) -> u32
    ensures is { IsRetries given.now result }
    ensures few { result ≤ retries_max }
{
    retries_in(retries_given(given))
}

fn retries_in(n: Option<u16>) -> u32
    ensures is { result ≡ retries_in n }
    ensures few { result ≤ retries_max }
{
    match n {
        Some(n) if u32::from(n) <= RETRIES_MAX => u32::from(n),
        Some(_) => RETRIES_MAX,
        None => RETRIES_UNSAID,
    }
}

/// The number of retries that the words give.
fn retries_given(given: &ArgMatches<'_>) -> Option<u16>
    ensures { IsNumber given.now (codes "retries") 16 result }
{
    given.get_one(RETRIES)
}

/// After how many commits the words ask for a schedule.
pub(crate) fn at_of(given: &ArgMatches<'_>) -> Option<u32>
    ensures { IsNumber given.now (codes "at") 32 result }
{
    given.get_one(AT)
}

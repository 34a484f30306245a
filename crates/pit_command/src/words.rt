//! What the words give each subcommand: paths as they were given, and numbers as they are used.
ghost use Rattle.std.specs.Prelude.{◌≡◌, ◌∷◌, [], Some, IfOk, IfErr, MatchResult};
ghost use Rattle.pit_command.specs.Inputs.{path_of, value_inputs, check_inputs, table_inputs, diff_inputs, pit_inputs, show_inputs, replay_inputs, log_inputs};
ghost use Rattle.pit_command.specs.Words.{IsLacking, AreValueWords, AreCheckWords, AreTableWords, AreDiffWords, AreInfoWords, AreShowWords, ArePlanWords, AreReplayWords, AreLogWords, AreMergeWords, AreLiveWords, IsPlanFault, IsMergeFault, IsLiveFault};

use crate::argument::{
    asks_all, asks_writes, at_of, edits_of, from_of, is_in_turn, is_partial, is_strict, path_of,
    paths_of, retries_of, streams_of,
};
use crate::live_words::LiveWords;
use crate::merge_words::MergeWords;
use crate::origin::origin_of;
use crate::plan_words::PlanWords;
use clap::ArgMatches;
use clap::error::ErrorKind;
use pit_step::Input;

/// What `value` is given.
#[derive(Clone, Copy)]
pub struct ValueWords<'a> {
    /// The path of the model.
    pub model: &'a str,
    /// The path of the solution.
    pub solution: &'a str,
}

/// What `check` is given.
#[derive(Clone, Copy)]
pub struct CheckWords<'a> {
    /// The path of the model.
    pub model: &'a str,
    /// The path of its precedences.
    pub precedence: &'a str,
    /// The path of the solution, or of any schedule where all is asked for.
    pub solution: &'a str,
    /// Whether all that is wrong is asked for.
    pub is_all: bool,
}

/// What `table` is given.
#[derive(Clone, Copy)]
pub struct TableWords<'a> {
    /// The path of the model.
    pub model: &'a str,
    /// The path of the schedule.
    pub schedule: &'a str,
}

/// What `diff` is given.
#[derive(Clone, Copy)]
pub struct DiffWords<'a> {
    /// The path of the model.
    pub model: &'a str,
    /// The path of the earlier schedule.
    pub old: &'a str,
    /// The path of the later one.
    pub new: &'a str,
}

/// What `info` is given.
#[derive(Clone, Copy)]
pub struct InfoWords<'a> {
    /// The path of the model.
    pub model: &'a str,
    /// The path of its precedences.
    pub precedence: &'a str,
    /// The path of the blocks' places.
    pub blocks: Option<&'a str>,
}

/// What `show` is given.
#[derive(Clone, Copy)]
pub struct ShowWords<'a> {
    /// The path of the model.
    pub model: &'a str,
    /// The path of the schedule.
    pub schedule: &'a str,
    /// After how many commits it is shown.
    pub at: Option<u32>,
}

/// What `replay` is given.
#[derive(Clone, Copy)]
pub struct ReplayWords<'a> {
    /// The path of the model.
    pub model: &'a str,
    /// The path of its precedences.
    pub precedence: &'a str,
    /// The path of the history.
    pub history: &'a str,
}

/// What `log` is given.
#[derive(Clone, Copy)]
pub struct LogWords<'a> {
    /// The path of the model.
    pub model: &'a str,
    /// The path of its precedences.
    pub precedence: &'a str,
    /// The path of the history.
    pub history: &'a str,
    /// Whether it prints what each commit wrote and revised.
    pub with_writes: bool,
}

/// The paths of two inputs that are required.
fn two_paths<'a>(
    given: &ArgMatches<'a>,
    first: Input,
    second: Input,
) -> Result<(&'a str, &'a str), ErrorKind>
    ensures ok { IfOk result (λ paths. (Some paths.0.now ≡ path_of given.now first) × (Some paths.1.now ≡ path_of given.now second)) }
    ensures err { IfErr result (IsLacking given.now (first ∷ second ∷ [])) }
{
    let Some(one) = path_of(given, first) else {
        return Err(ErrorKind::MissingRequiredArgument);
    };
    let Some(other) = path_of(given, second) else {
        return Err(ErrorKind::MissingRequiredArgument);
    };
    Ok((one, other))
}

/// The paths of three.
fn three_paths<'a>(
    given: &ArgMatches<'a>,
    first: Input,
    second: Input,
    third: Input,
) -> Result<(&'a str, &'a str, &'a str), ErrorKind>
    ensures ok { IfOk result (λ paths. (Some paths.0.now ≡ path_of given.now first) × (Some paths.1.now ≡ path_of given.now second) × (Some paths.2.now ≡ path_of given.now third)) }
    ensures err { IfErr result (IsLacking given.now (first ∷ second ∷ third ∷ [])) }
{
    let Some(one) = path_of(given, first) else {
        return Err(ErrorKind::MissingRequiredArgument);
    };
    let Some(other) = path_of(given, second) else {
        return Err(ErrorKind::MissingRequiredArgument);
    };
    let Some(last) = path_of(given, third) else {
        return Err(ErrorKind::MissingRequiredArgument);
    };
    Ok((one, other, last))
}

/// What the words give `value`.
pub(crate) fn value_words<'a>(given: &ArgMatches<'a>) -> Result<ValueWords<'a>, ErrorKind>
    ensures { MatchResult result (AreValueWords given.now) (IsLacking given.now value_inputs) }
{
    let (model, solution) = two_paths(given, Input::Model, Input::Solution)?;
    Ok(ValueWords { model, solution })
}

/// What the words give `check`.
pub(crate) fn check_words<'a>(given: &ArgMatches<'a>) -> Result<CheckWords<'a>, ErrorKind>
    ensures { MatchResult result (AreCheckWords given.now) (IsLacking given.now check_inputs) }
{
    let (model, precedence, solution) = three_paths(
        given,
        Input::Model,
        Input::Precedence,
        Input::Solution,
    )?;
    Ok(CheckWords {
        model,
        precedence,
        solution,
        is_all: asks_all(given),
    })
}

/// What the words give `table`.
pub(crate) fn table_words<'a>(given: &ArgMatches<'a>) -> Result<TableWords<'a>, ErrorKind>
    ensures { MatchResult result (AreTableWords given.now) (IsLacking given.now table_inputs) }
{
    let (model, schedule) = two_paths(given, Input::Model, Input::Schedule)?;
    Ok(TableWords { model, schedule })
}

/// What the words give `diff`.
pub(crate) fn diff_words<'a>(given: &ArgMatches<'a>) -> Result<DiffWords<'a>, ErrorKind>
    ensures { MatchResult result (AreDiffWords given.now) (IsLacking given.now diff_inputs) }
{
    let (model, old, new) = three_paths(given, Input::Model, Input::Old, Input::New)?;
    Ok(DiffWords { model, old, new })
}

/// What the words give `info`.
pub(crate) fn info_words<'a>(given: &ArgMatches<'a>) -> Result<InfoWords<'a>, ErrorKind>
    ensures { MatchResult result (AreInfoWords given.now) (IsLacking given.now pit_inputs) }
{
    let (model, precedence) = two_paths(given, Input::Model, Input::Precedence)?;
    Ok(InfoWords {
        model,
        precedence,
        blocks: path_of(given, Input::Blocks),
    })
}

/// What the words give `show`.
pub(crate) fn show_words<'a>(given: &ArgMatches<'a>) -> Result<ShowWords<'a>, ErrorKind>
    ensures { MatchResult result (AreShowWords given.now) (IsLacking given.now show_inputs) }
{
    let (model, schedule) = two_paths(given, Input::Model, Input::Schedule)?;
    Ok(ShowWords {
        model,
        schedule,
        at: at_of(given),
    })
}

/// What the words give `plan`.
pub(crate) fn plan_words<'m, 'a>(given: &'m ArgMatches<'a>) -> Result<PlanWords<'m>, ErrorKind>
    ensures { MatchResult result (ArePlanWords given.now) (IsPlanFault given.now) }
{
    let origin = origin_of(given)?;
    let (model, precedence) = two_paths(given, Input::Model, Input::Precedence)?;
    let scripts = paths_of(given, Input::Script(1))?;
    Ok(PlanWords {
        model,
        precedence,
        blocks: path_of(given, Input::Blocks),
        origin,
        scripts,
        retries: retries_of(given),
        is_in_turn: is_in_turn(given),
        is_strict: is_strict(given),
    })
}

/// What the words give `replay`.
pub(crate) fn replay_words<'a>(given: &ArgMatches<'a>) -> Result<ReplayWords<'a>, ErrorKind>
    ensures { MatchResult result (AreReplayWords given.now) (IsLacking given.now replay_inputs) }
{
    let (model, precedence, history) = three_paths(
        given,
        Input::Model,
        Input::Precedence,
        Input::History,
    )?;
    Ok(ReplayWords {
        model,
        precedence,
        history,
    })
}

/// What the words give `log`.
pub(crate) fn log_words<'a>(given: &ArgMatches<'a>) -> Result<LogWords<'a>, ErrorKind>
    ensures { MatchResult result (AreLogWords given.now) (IsLacking given.now log_inputs) }
{
    let (model, precedence, history) = three_paths(
        given,
        Input::Model,
        Input::Precedence,
        Input::History,
    )?;
    Ok(LogWords {
        model,
        precedence,
        history,
        with_writes: asks_writes(given),
    })
}

/// What the words give `merge`.
pub(crate) fn merge_words<'m, 'a>(given: &'m ArgMatches<'a>) -> Result<MergeWords<'m>, ErrorKind>
    ensures { MatchResult result (AreMergeWords given.now) (IsMergeFault given.now) }
{
    let origin = origin_of(given)?;
    let edits = edits_of(given)?;
    let (model, precedence) = two_paths(given, Input::Model, Input::Precedence)?;
    Ok(MergeWords {
        model,
        precedence,
        origin,
        edits,
        from: from_of(given),
        is_partial: is_partial(given),
    })
}

/// What the words give `live`.
pub(crate) fn live_words<'m, 'a>(given: &'m ArgMatches<'a>) -> Result<LiveWords<'m>, ErrorKind>
    ensures { MatchResult result (AreLiveWords given.now) (IsLiveFault given.now) }
{
    let (model, precedence, history) = three_paths(
        given,
        Input::Model,
        Input::Precedence,
        Input::History,
    )?;
    let streams = streams_of(given)?;
    Ok(LiveWords {
        model,
        precedence,
        blocks: path_of(given, Input::Blocks),
        history,
        streams,
    })
}

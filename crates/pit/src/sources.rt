//! The paths of the files that a plan, a merge or a live workspace is made from.
ghost use Rattle.std.specs.Prelude.{◌≡◌, false, [], is_some};
ghost use Rattle.pit.specs.Files.{path_if, file_if};
ghost use Rattle.pit.specs.Sources.{in_order, part_input, part_paths, plan_files, merge_files, live_files, begun_file, has_begun, file_by};

use pit_cli::Input;
use pit_command::{LiveWords, MergeWords, Origin, PlanWords};

/// The paths, by their inputs.
#[derive(Clone, Copy)]
pub struct Sources<'a> {
    /// The model.
    pub model: &'a str,
    /// Its precedences.
    pub precedence: &'a str,
    /// The blocks' places.
    pub blocks: Option<&'a str>,
    /// What is begun with: a start, or the history that is carried on.
    pub begun: Option<(Input, &'a str)>,
    /// What is done to it.
    pub parts: Parts<'a>,
}

/// What is done to a schedule, by the paths of the files.
#[derive(Clone, Copy)]
pub enum Parts<'a> {
    /// A script for each planner.
    Scripts(&'a [&'a str]),
    /// Edits.
    Edits(&'a [&'a str]),
}

impl<'a> Parts<'a> {
    /// The paths.
    pub fn paths(&self) -> &'a [&'a str]
        ensures { result ≡ part_paths self.now }
    {
        match self {
            Parts::Scripts(paths) => paths,
            Parts::Edits(paths) => paths,
        }
    }

    /// The input of a number.
    pub fn input(&self, number: u64) -> Input
        ensures { result ≡ part_input self.now number }
    {
        match self {
            Parts::Scripts(_) => Input::Script(number),
            Parts::Edits(_) => Input::Edit(number),
        }
    }
}

/// Where `plan` finds its inputs. A history that is carried on is one of them where it is there.
pub fn plan_sources<'a>(words: &PlanWords<'a>, is_there: bool) -> Sources<'a>
    ensures order { in_order result ≡ plan_files words.now is_there }
    ensures blocks { is_some result.blocks ≡ is_some words.now.blocks }
    ensures begun { is_some result.begun ≡ has_begun words.now.origin is_there }
{
    Sources {
        model: words.model,
        precedence: words.precedence,
        blocks: words.blocks,
        begun: begun_of(&words.origin, is_there),
        parts: Parts::Scripts(words.scripts),
    }
}

/// Where `merge` does.
pub fn merge_sources<'a>(words: &MergeWords<'a>, is_there: bool) -> Sources<'a>
    ensures order { in_order result ≡ merge_files words.now is_there }
    ensures blocks { is_some result.blocks ≡ false }
    ensures begun { is_some result.begun ≡ has_begun words.now.origin is_there }
{
    Sources {
        model: words.model,
        precedence: words.precedence,
        blocks: None,
        begun: begun_of(&words.origin, is_there),
        parts: Parts::Edits(words.edits),
    }
}

/// Where `live` does.
pub fn live_sources<'a>(words: &LiveWords<'a>, is_there: bool) -> Sources<'a>
    ensures order { in_order result ≡ live_files words.now is_there }
    ensures blocks { is_some result.blocks ≡ is_some words.now.blocks }
    ensures begun { is_some result.begun ≡ is_there }
    ensures parts { (part_paths result.parts).now ≡ [] }
{
    Sources {
        model: words.model,
        precedence: words.precedence,
        blocks: words.blocks,
        begun: begun_of(&Origin::Continued(words.history), is_there),
        parts: Parts::Scripts(&[]),
    }
}

/// The file of what is begun with: the history that is carried on, or the start.
fn begun_of<'a>(origin: &Origin<'a>, is_there: bool) -> Option<(Input, &'a str)>
    ensures file { file_by result ≡ begun_file origin.now is_there }
    ensures is_there { is_some result ≡ has_begun origin.now is_there }
{
    match origin {
        Origin::Continued(path) if is_there => Some((Input::History, path)),
        Origin::Continued(_) => None,
        Origin::New(words) => named(Input::Start, words.start),
    }
}

/// An input, where it has a path.
pub fn named<'a>(input: Input, path: Option<&'a str>) -> Option<(Input, &'a str)>
    ensures files { file_by result ≡ file_if input (path_if path.entry) }
    ensures is_there { is_some result ≡ is_some path.entry }
{
    match path {
        Some(path) => Some((input, path)),
        None => None,
    }
}

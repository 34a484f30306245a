//! The paths that a command names, by their inputs.
use crate::runs::checked_input;
use crate::sources::{Sources, live_sources, merge_sources, plan_sources};
use pit_cli::Input;
use pit_command::Command;

/// The path of an input; none where the command has no such input.
pub fn path_of<'a>(command: &Command<'a>, input: Input) -> Option<&'a str> {
    match command {
        Command::Value(words) => among(
            input,
            &[
                (Input::Model, words.model),
                (Input::Solution, words.solution),
            ],
        ),
        Command::Check(words) => among(
            input,
            &[
                (Input::Model, words.model),
                (Input::Precedence, words.precedence),
                (checked_input(words.is_all), words.solution),
            ],
        ),
        Command::Table(words) => among(
            input,
            &[
                (Input::Model, words.model),
                (Input::Schedule, words.schedule),
            ],
        ),
        Command::Diff(words) => among(
            input,
            &[
                (Input::Model, words.model),
                (Input::Old, words.old),
                (Input::New, words.new),
            ],
        ),
        Command::Info(words) if input == Input::Blocks => words.blocks,
        Command::Info(words) => among(
            input,
            &[
                (Input::Model, words.model),
                (Input::Precedence, words.precedence),
            ],
        ),
        Command::Show(words) => among(
            input,
            &[
                (Input::Model, words.model),
                (Input::Schedule, words.schedule),
            ],
        ),
        Command::Plan(words) => among_sources(input, plan_sources(words, true)),
        Command::Replay(words) => among(
            input,
            &[
                (Input::Model, words.model),
                (Input::Precedence, words.precedence),
                (Input::History, words.history),
            ],
        ),
        Command::Log(words) => among(
            input,
            &[
                (Input::Model, words.model),
                (Input::Precedence, words.precedence),
                (Input::History, words.history),
            ],
        ),
        Command::Merge(words) => among_sources(input, merge_sources(words, true)),
        Command::Live(words) => among_sources(input, live_sources(words, true)),
    }
}

/// The path of an input among these.
fn among<'a>(input: Input, files: &[(Input, &'a str)]) -> Option<&'a str> {
    for (named, path) in files {
        if *named == input {
            return Some(*path);
        }
    }
    None
}

/// The path of an input of a plan or a merge.
fn among_sources<'a>(input: Input, sources: Sources<'a>) -> Option<&'a str> {
    match input {
        Input::Model => Some(sources.model),
        Input::Precedence => Some(sources.precedence),
        Input::Blocks => sources.blocks,
        Input::Script(0) => None,
        Input::Script(number) => part_path(sources, (number - 1) as usize),
        Input::Edit(0) => None,
        Input::Edit(number) => part_path(sources, (number - 1) as usize),
        _ => match sources.begun {
            Some(file) => among(input, &[file]),
            None => None,
        },
    }
}

/// The path of a script or an edit, counted from 0.
fn part_path<'a>(sources: Sources<'a>, i: usize) -> Option<&'a str> {
    sources.parts.paths().get(i).copied()
}

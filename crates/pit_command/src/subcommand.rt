//! The subcommands, each with its help and its arguments.
use crate::commands::{CHECK, DIFF, INFO, LIVE, LOG, MERGE, PLAN, REPLAY, SHOW, TABLE, VALUE};
use crate::notes::{
    CHECK_NOTES, DIFF_NOTES, INFO_NOTES, LIVE_NOTES, LOG_NOTES, MERGE_NOTES, PLAN_NOTES,
    REPLAY_NOTES, SHOW_NOTES, TABLE_NOTES, VALUE_NOTES,
};
use crate::rules::Argument;
use pit_step::Input;

/// A subcommand, as the parser is told of it.
pub(crate) struct Subcommand {
    pub(crate) name: &'static str,
    /// What help says of it in a line.
    pub(crate) about: &'static str,
    /// What help says behind its arguments.
    pub(crate) notes: &'static str,
    pub(crate) arguments: &'static [Argument],
}

/// The subcommands, in the order of help.
pub(crate) const SUBCOMMANDS: &[Subcommand] = &[
    Subcommand {
        name: VALUE,
        about: "Prints the discounted value of a solution",
        notes: VALUE_NOTES,
        arguments: &[
            Argument::File(Input::Model),
            Argument::File(Input::Solution),
        ],
    },
    Subcommand {
        name: CHECK,
        about: "Prints the value of a solution, its first breach and its shortfalls",
        notes: CHECK_NOTES,
        arguments: &[
            Argument::All,
            Argument::File(Input::Model),
            Argument::File(Input::Precedence),
            Argument::File(Input::Solution),
        ],
    },
    Subcommand {
        name: TABLE,
        about: "Prints what each period of a schedule holds, earns and loads, as comma-separated rows",
        notes: TABLE_NOTES,
        arguments: &[Argument::File(Input::Model), Argument::Schedule],
    },
    Subcommand {
        name: DIFF,
        about: "Prints what differs from one schedule to another",
        notes: DIFF_NOTES,
        arguments: &[
            Argument::File(Input::Model),
            Argument::File(Input::Old),
            Argument::File(Input::New),
        ],
    },
    Subcommand {
        name: INFO,
        about: "Prints what there is in the files of a pit, and what of the model nothing reads",
        notes: INFO_NOTES,
        arguments: &[
            Argument::File(Input::Model),
            Argument::File(Input::Precedence),
            Argument::Option(Input::Blocks),
        ],
    },
    Subcommand {
        name: SHOW,
        about: "Prints a schedule as a solution, after all of its commits or the first ones",
        notes: SHOW_NOTES,
        arguments: &[
            Argument::File(Input::Model),
            Argument::Schedule,
            Argument::At,
        ],
    },
    Subcommand {
        name: PLAN,
        about: "Has planners edit one schedule at once, each by a script, and prints what is left",
        notes: PLAN_NOTES,
        arguments: &[
            Argument::File(Input::Model),
            Argument::File(Input::Precedence),
            Argument::Option(Input::Blocks),
            Argument::Option(Input::Start),
            Argument::Continued,
            Argument::History,
            Argument::InTurn,
            Argument::Strict,
            Argument::Retries,
            Argument::Scripts,
        ],
    },
    Subcommand {
        name: REPLAY,
        about: "Audits a history, and prints the value of the schedule that it leaves",
        notes: REPLAY_NOTES,
        arguments: &[
            Argument::File(Input::Model),
            Argument::File(Input::Precedence),
            Argument::File(Input::History),
        ],
    },
    Subcommand {
        name: LOG,
        about: "Prints what each entry of a history did, and why it was refused",
        notes: LOG_NOTES,
        arguments: &[
            Argument::Writes,
            Argument::File(Input::Model),
            Argument::File(Input::Precedence),
            Argument::File(Input::History),
        ],
    },
    Subcommand {
        name: MERGE,
        about: "Merges schedules that were edited elsewhere into one, and prints what is left",
        notes: MERGE_NOTES,
        arguments: &[
            Argument::File(Input::Model),
            Argument::File(Input::Precedence),
            Argument::Option(Input::Start),
            Argument::Continued,
            Argument::History,
            Argument::From,
            Argument::Partial,
            Argument::Edits,
        ],
    },
    Subcommand {
        name: LIVE,
        about: "Has planners change one schedule by requests, and tells each at once what became of it",
        notes: LIVE_NOTES,
        arguments: &[
            Argument::File(Input::Model),
            Argument::File(Input::Precedence),
            Argument::Option(Input::Blocks),
            Argument::Carried,
            Argument::Streams,
        ],
    },
];

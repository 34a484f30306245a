//! The words of faults.
ghost use Rattle.std.specs.Prelude.{◌≡◌};
ghost use Rattle.pit_serve.specs.Replies.{number_words, cause_words, fault_words};

use crate::fault::RequestFault;
use pit_num::NumError;
use pit_script::ScriptFault;

/// The words of a fault.
#[tactic(auto, unfolding(crate::specs::Replies::fault_words))]
pub(crate) fn fault_words(fault: RequestFault) -> &'static str
    ensures { result.now ≡ fault_words fault }
{
    match fault {
        RequestFault::Line(wrong) => cause_words(wrong),
        RequestFault::LineTooLong => "line too long",
        RequestFault::Journal => "journal",
        RequestFault::NoMemory => "no memory",
    }
}

#[tactic(auto, unfolding(crate::specs::Replies::cause_words))]
fn cause_words(wrong: ScriptFault) -> &'static str
    ensures { result.now ≡ cause_words wrong }
{
    match wrong {
        ScriptFault::NotAscii => "not ascii",
        ScriptFault::UnknownWord => "unknown word",
        ScriptFault::FieldCount => "field count",
        ScriptFault::BadNumber(error) => number_words(error),
        ScriptFault::BlockRange => "block out of range",
        ScriptFault::ResourceRange => "resource out of range",
        ScriptFault::PeriodRange => "period out of range",
        ScriptFault::Order => "job order",
        ScriptFault::NoBench => "no such bench",
        ScriptFault::JobCount => "too many jobs",
        ScriptFault::Unended => "job not ended",
    }
}

fn number_words(error: NumError) -> &'static str
    ensures { result.now ≡ number_words error }
{
    match error {
        NumError::Malformed => "bad number",
        NumError::TooLong => "number too long",
        NumError::TooLarge => "number too large",
    }
}

//! What an edit is answered.
ghost use Rattle.std.specs.Prelude.{◌≡◌};
ghost use Rattle.pit_edit.specs.Merging.{was_granted};

use pit_desk::EntryReply;

/// The number of the entry that an edit made, what it was answered, and the cause of a refusal. Nothing of all that where there was no call.
#[derive(Clone, Copy)]
pub(crate) struct Answer {
    pub(crate) entry: Option<u32>,
    pub(crate) reply: Option<EntryReply>,
    pub(crate) cause: Option<u32>,
}

/// Where there was no call.
pub(crate) fn no_answer() -> Answer
    ensures { result ≡ record { entry = None; reply = None; cause = None } }
{
    Answer {
        entry: None,
        reply: None,
        cause: None,
    }
}

/// Whether an edit was not refused.
pub(crate) fn was_granted(reply: Option<EntryReply>) -> bool
    ensures { result ≡ was_granted reply }
{
    match reply {
        None => true,
        Some(EntryReply::Committed { .. }) => true,
        Some(EntryReply::Refused(_)) => false,
        Some(EntryReply::Withdrawn) => true,
    }
}

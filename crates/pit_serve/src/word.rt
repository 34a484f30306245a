ghost use Rattle.std.specs.Prelude.{◌≡◌};
ghost use Rattle.pit_serve.specs.Words.{word_of, word_in};

use pit_script::{ScriptFault, Word};
use pit_text::{is_ascii, look_up};

/// The word that a request begins with.
#[derive(Clone, Copy)]
pub enum RequestWord {
    /// One that a line of a script may begin with.
    Line(Word),
    /// `abandon`: the transaction is given up.
    Abandon,
    /// `value`: the value of the locked schedule.
    Value,
}

/// The words with their texts.
const WORDS: &[(&str, RequestWord)] = &[
    ("begin", RequestWord::Line(Word::Begin)),
    ("read", RequestWord::Line(Word::Read)),
    ("put", RequestWord::Line(Word::Put)),
    ("clear", RequestWord::Line(Word::Clear)),
    ("commit", RequestWord::Line(Word::Commit)),
    ("abandon", RequestWord::Abandon),
    ("value", RequestWord::Value),
];

/// The word in a field.
pub(crate) fn word_in(field: &[u8]) -> Result<RequestWord, ScriptFault>
    ensures { result ≡ word_in field.now }
{
    if !is_ascii(field) {
        return Err(ScriptFault::NotAscii);
    }
    match word_of(field) {
        Some(word) => Ok(word),
        None => Err(ScriptFault::UnknownWord),
    }
}

/// The word that a request begins with whose first field this is. A byte above 127 stands in no word.
#[tactic(auto, unfolding(crate::specs::Words::word_of))]
fn word_of(field: &[u8]) -> Option<RequestWord>
    ensures { result ≡ word_of field.now }
{
    look_up(WORDS, field)
}

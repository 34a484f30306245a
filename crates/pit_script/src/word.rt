ghost use Rattle.std.specs.Prelude.{◌≡◌, if◌then◌else◌};
ghost use Rattle.pit_text.specs.Numbers.{is_ascii};
ghost use Rattle.pit_script.specs.Words.{word_of, word_in};
ghost use Rattle.pit_script.specs.declared.error.ScriptFault.TheVariants.{NotAscii, UnknownWord};

use super::error::ScriptFault;
use pit_text::{is_ascii, look_up};

/// The word that a line of a script begins with.
#[derive(Clone, Copy, Debug, PartialEq, Eq)]
pub enum Word {
    /// `begin`: a job begins.
    Begin,
    /// `read B`: a block is read.
    Read,
    /// `put B T`: a block gets a period.
    Put,
    /// `clear B`: a block loses its period.
    Clear,
    /// `shift B D`: a block goes so many periods later, or earlier where D is below 0.
    Shift,
    /// `bench Z T`: each block at a height gets a period.
    Bench,
    /// `expect B T`, `expect B -`: a block is read, and the job goes on only where it is in T, or, for `-`, in no period.
    Expect,
    /// `cone B T`: a block is put into a period, and what stands in its way.
    Cone,
    /// `push B T`: a block is put into a period, and what depends on it.
    Push,
    /// `revise R T V`: the upper limit of a resource in a period becomes V, or none where V is infinite.
    Revise,
    /// `commit`: the job ends, and commits.
    Commit,
    /// `abort`: the job ends, and aborts.
    Abort,
}

/// The words with their texts.
const WORDS: &[(&str, Word)] = &[
    ("begin", Word::Begin),
    ("read", Word::Read),
    ("put", Word::Put),
    ("clear", Word::Clear),
    ("shift", Word::Shift),
    ("bench", Word::Bench),
    ("expect", Word::Expect),
    ("cone", Word::Cone),
    ("push", Word::Push),
    ("revise", Word::Revise),
    ("commit", Word::Commit),
    ("abort", Word::Abort),
];

/// The word in a field.
#[tactic(auto, using(crate::proofs::Words::reads))]
pub(crate) fn word_in(field: &[u8]) -> Result<Word, ScriptFault>
    ensures { result ≡ word_in field.now }
{
    match word_of(field) {
        Some(word) => Ok(word),
        None => Err(unknown(field)),
    }
}

/// Why a field that is no word is refused.
fn unknown(field: &[u8]) -> ScriptFault
    ensures { result ≡ (if is_ascii field.now then UnknownWord else NotAscii) }
{
    if is_ascii(field) {
        ScriptFault::UnknownWord
    } else {
        ScriptFault::NotAscii
    }
}

/// The word that a line begins with whose first field this is. A byte above 127 stands in no word.
#[tactic(auto, unfolding(crate::specs::Words::word_of))]
pub fn word_of(field: &[u8]) -> Option<Word>
    ensures { result ≡ word_of field.now }
{
    look_up(WORDS, field)
}

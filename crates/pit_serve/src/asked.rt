ghost use Rattle.std.specs.Prelude.{◌≡◌, IfOk};
ghost use Rattle.pit_model.specs.Pit.{Pit};
ghost use Rattle.pit_text.specs.Left.{fields_left};
ghost use Rattle.pit_script.specs.Ranges.{IsFactIn};
ghost use Rattle.pit_serve.specs.Asked.{IsAskedIn, IsRequestIn, asked_of, asked_within, request_of, request_of_line, request_of_word, lone};

use crate::fault::RequestFault;
use crate::request::Request;
use crate::word::{RequestWord, word_in};
use pit_model::Instance;
use pit_script::{JobEnd, ScriptFact, ScriptFault, Step, line_of_word};
use pit_text::{Fields, is_last, is_read, without_return};
use std::alloc::Allocator;

/// The greatest number of bytes of a line before its end.
pub const LINE_MAX: usize = 65_536;

/// What a line of a session is.
#[derive(Clone, Copy)]
pub enum Asked {
    /// A blank line, or a comment.
    Nothing,
    /// The `EOF` line, with which the input ends.
    End,
    /// A request.
    Request(Request),
    /// A line with this fault, the first in the order in which a line is checked.
    Wrong(RequestFault),
}

/// What a line asks for, where a transaction is open or none is. It stands without its line feed. Takes no memory.
#[tactic(auto, unfolding(crate::specs::Asked::asked_of))]
pub fn asked_of<A: Allocator + Copy + Drop>(line: &[u8], is_open: bool, pit: &Instance<A>) -> Asked
    ensures value { result ≡ asked_of pit.now is_open line.now }
    ensures in_range { IsAskedIn pit.now result }
{
    if line.len() > LINE_MAX {
        return Asked::Wrong(RequestFault::LineTooLong);
    }
    asked_within(without_return(line), is_open, pit)
}

/// What a line asks for that stands without its end, and isn't too long.
#[tactic(auto, unfolding(crate::specs::Asked::asked_within))]
fn asked_within<A: Allocator + Copy + Drop>(line: &[u8], is_open: bool, pit: &Instance<A>) -> Asked
    ensures value { result ≡ asked_within pit.now is_open line.now }
    ensures in_range { IsAskedIn pit.now result }
{
    if is_last(line) {
        return Asked::End;
    }
    if !is_read(line) {
        return Asked::Nothing;
    }
    match request_of_line(Fields::new(line), is_open, pit) {
        Ok(request) => Asked::Request(request),
        Err(fault) => Asked::Wrong(RequestFault::Line(fault)),
    }
}

/// What a line of these fields asks for.
#[tactic(auto, unfolding(crate::specs::Asked::request_of_line))]
fn request_of_line<A: Allocator + Copy + Drop>(
    mut fields: Fields<'_>,
    is_open: bool,
    pit: &Instance<A>,
) -> Result<Request, ScriptFault>
    ensures value { result ≡ request_of_line pit.now is_open (fields_left fields.entry) }
    ensures in_range { IfOk result (IsRequestIn pit.now) }
{
    let Some(first) = fields.next() else {
        return Err(ScriptFault::UnknownWord);
    };
    let word = word_in(first)?;
    request_of_word(word, fields, is_open, pit)
}

/// What a line asks for that begins with a word, by its fields behind it.
fn request_of_word<A: Allocator + Copy + Drop>(
    word: RequestWord,
    fields: Fields<'_>,
    is_open: bool,
    pit: &Instance<A>,
) -> Result<Request, ScriptFault>
    ensures value { result ≡ request_of_word pit.now is_open word (fields_left fields.entry) }
    ensures in_range { IfOk result (IsRequestIn pit.now) }
{
    match word {
        RequestWord::Line(word) => request_of(line_of_word(word, fields, is_open, 0, pit)?),
        RequestWord::Abandon => lone(fields, is_open, Request::Abandon),
        RequestWord::Value => lone(fields, true, Request::Value),
    }
}

/// A request without a field behind its word, where it may stand.
fn lone(mut fields: Fields<'_>, may_stand: bool, request: Request) -> Result<Request, ScriptFault>
    ensures value { result ≡ lone may_stand request (fields_left fields.entry) }
    ensures same { IfOk result (λ asked. asked ≡ request) }
{
    let None = fields.next() else {
        return Err(ScriptFault::FieldCount);
    };
    if !may_stand {
        return Err(ScriptFault::Order);
    }
    Ok(request)
}

/// The request that a line of a script is.
fn request_of(fact: ScriptFact) -> Result<Request, ScriptFault>
    ensures value { result ≡ request_of fact }
    ensures in_range { (pit : Pit) → IsFactIn pit fact → IfOk result (IsRequestIn pit) }
{
    match fact {
        ScriptFact::Begin => Ok(Request::Begin),
        ScriptFact::Does(Step::Read { block }) => Ok(Request::Read { block }),
        ScriptFact::Does(Step::Put { block, period }) => Ok(Request::Put { block, period }),
        ScriptFact::Does(Step::Clear { block }) => Ok(Request::Clear { block }),
        ScriptFact::Ends(JobEnd::Commit) => Ok(Request::Commit),
        _ => Err(ScriptFault::UnknownWord),
    }
}

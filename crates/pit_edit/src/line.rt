//! The line of an edit.
ghost use Rattle.std.specs.Prelude.{◌≡◌, IfOk, OnOk};
ghost use Rattle.std.specs.Io.KnownBytes.{Appends};
ghost use Rattle.pit_edit.specs.EditText.{edit_line, answer_text, answer_words};

use crate::answer::Answer;
use pit_desk::EntryReply;
use pit_num::{NoMemory, Sink, WriteFault, write_text};
use pit_step::{empty_text, gathered, write_numbered, write_period, write_reply};
use std::alloc::Allocator;

/// The line of an edit, by its number, by how many blocks it changes and how many of them are left out.
pub(crate) fn line_of<A: Allocator + Copy + Drop>(
    alloc: A,
    number: u32,
    changes: u64,
    left: u64,
    answer: Answer,
) -> Result<Vec<u8, A>, NoMemory>
    ensures { IfOk result (λ line. line.items ≡ edit_line number answer.entry changes left answer.cause answer.reply) }
{
    let mut text = empty_text(alloc);
    let written = write_edit_line(&mut text, number, changes, left, answer);
    gathered(text, written)
}

/// `edit K entry E changes N left N cause C REPLY`.
#[tactic(auto, unfolding(crate::specs::EditText::edit_line))]
fn write_edit_line<W: Sink>(
    w: &mut W,
    number: u32,
    changes: u64,
    left: u64,
    answer: Answer,
) -> Result<(), WriteFault>
    ensures { OnOk result (Appends (W.contents w.old) (W.contents w.new) (edit_line number answer.entry changes left answer.cause answer.reply)) }
{
    write_numbered(w, b"edit ", u64::from(number))?;
    write_text(w, b" entry ")?;
    write_period(w, answer.entry, b"")?;
    write_numbered(w, b" changes ", changes)?;
    write_numbered(w, b" left ", left)?;
    write_answer(w, answer.cause, answer.reply)
}

/// The cause, what was answered, and a line feed.
#[tactic(auto, unfolding(crate::specs::EditText::answer_text))]
fn write_answer<W: Sink>(
    w: &mut W,
    cause: Option<u32>,
    reply: Option<EntryReply>,
) -> Result<(), WriteFault>
    ensures { OnOk result (Appends (W.contents w.old) (W.contents w.new) (answer_text cause reply)) }
{
    write_text(w, b" cause ")?;
    write_period(w, cause, b" ")?;
    write_words(w, reply)?;
    write_text(w, b"\n")
}

fn write_words<W: Sink>(w: &mut W, reply: Option<EntryReply>) -> Result<(), WriteFault>
    ensures { OnOk result (Appends (W.contents w.old) (W.contents w.new) (answer_words reply)) }
{
    match reply {
        Some(reply) => write_reply(w, reply),
        None => write_text(w, b"nothing"),
    }
}

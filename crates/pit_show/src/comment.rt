//! What is written of a history before its solution.
ghost use Rattle.std.specs.Prelude.{◌≡◌, ◌++◌, IfOk, OnOk, length};
ghost use Rattle.std.specs.Io.KnownBytes.{Appends};
ghost use Rattle.std.specs.String.{string_bytes};
ghost use Rattle.hex.specs.Hex.{encode_lower};
ghost use Rattle.pit_desk.specs.History.{commits_of};
ghost use Rattle.pit_show.specs.ShowText.{sum_of as sum_by, comment_text, history_comment};

use hex::encode;
use pit_desk::Entry;
use pit_lines::{Format, write_entry};
use pit_num::{NoMemory, Sink, WriteFault, write_text};
use pit_step::{empty_text, gathered, write_field};
use sha2::{Digest, Sha256};
use std::alloc::Allocator;

/// The comment on the entries up to the last commit that is shown, of which there are so many. Takes the memory of the longest line of an
/// entry, and of the comment.
pub(crate) fn comment_of<A: Allocator + Copy + Drop>(
    alloc: A,
    entries: &[Entry<A>],
    commits: u32,
) -> Result<Vec<u8, A>, NoMemory>
    requires { commits ≡ length (commits_of entries.now) }
    ensures { IfOk result (λ comment. comment.items ≡ history_comment entries.now) }
{
    let sum = sum_of(alloc, entries)?;
    let Ok(digits) = encode(alloc, sum) else {
        return Err(NoMemory);
    };
    let mut text = empty_text(alloc);
    let written = write_comment(&mut text, u64::from(commits), digits.as_bytes());
    gathered(text, written)
}

/// The SHA-256 of the lines of entries, each in format 2. Takes the memory of the longest.
pub fn sum_of<A: Allocator + Copy + Drop>(
    alloc: A,
    entries: &[Entry<A>],
) -> Result<[u8; 32], NoMemory>
    ensures { IfOk result (λ sum. sum ≡ sum_by entries.now) }
{
    let mut hasher = Sha256::new();
    let mut line = Vec::new(alloc);
    for entry in entries {
        line.clear();
        write_entry(&mut line, Format::Two, entry)?;
        hasher.update(line.as_slice());
    }
    drop(line);
    Ok(hasher.finalize())
}

/// `% commits N sum S`.
#[tactic(auto, unfolding(crate::specs::ShowText::comment_text))]
fn write_comment<W: Sink>(w: &mut W, commits: u64, digits: &[u8]) -> Result<(), WriteFault>
    ensures { OnOk result (Appends (W.contents w.old) (W.contents w.new) (comment_text commits digits.now)) }
{
    write_text(w, b"% commits ")?;
    write_field(w, commits, b" ")?;
    write_text(w, b"sum ")?;
    write_text(w, digits)?;
    write_text(w, b"\n")
}

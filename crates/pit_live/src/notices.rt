//! What standard error is told before planners sit down.
ghost use Rattle.std.specs.Prelude.{◌≡◌, ◌++◌, OnOk, IfOk, length};
ghost use Rattle.std.specs.Io.KnownBytes.{Appends};
ghost use Rattle.pit_desk.specs.History.{commits_of};
ghost use Rattle.pit_live.specs.Notices.{cut_line, live_line, notices_text};

use pit_desk::Desk;
use pit_num::{NoMemory, Sink, WriteFault, write_text};
use pit_output::write_new_line;
use pit_step::{empty_text, gathered, write_numbered};
use std::alloc::Allocator;

/// Whether a history is new, how many bytes of its text were left out, and how many planners carry on the history of a desk.
pub(crate) fn notices<A: Allocator + Copy + Drop>(
    alloc: A,
    is_new: bool,
    cut: u64,
    planners: u32,
    desk: &Desk<A>,
) -> Result<Vec<u8, A>, NoMemory>
    ensures { IfOk result (λ text. text.items ≡ notices_text is_new cut planners (length (commits_of desk.now.history)) (length desk.now.history)) }
{
    let commits = desk.plan().commits();
    let entries = desk.history().len();
    let mut text = empty_text(alloc);
    let written = write_notices(&mut text, is_new, cut, planners, commits, entries as u64);
    gathered(text, written)
}

fn write_notices<W: Sink>(
    w: &mut W,
    is_new: bool,
    cut: u64,
    planners: u32,
    commits: u32,
    entries: u64,
) -> Result<(), WriteFault>
    ensures { OnOk result (Appends (W.contents w.old) (W.contents w.new) (notices_text is_new cut planners commits entries)) }
{
    write_new_line(w, is_new)?;
    write_cut(w, cut)?;
    write_live(w, planners, commits, entries)
}

fn write_cut<W: Sink>(w: &mut W, cut: u64) -> Result<(), WriteFault>
    ensures { OnOk result (Appends (W.contents w.old) (W.contents w.new) (cut_line cut)) }
{
    if cut == 0 {
        return write_text(w, b"");
    }
    write_numbered(w, b"history cut ", cut)?;
    write_text(w, b"\n")
}

fn write_live<W: Sink>(
    w: &mut W,
    planners: u32,
    commits: u32,
    entries: u64,
) -> Result<(), WriteFault>
    ensures { OnOk result (Appends (W.contents w.old) (W.contents w.new) (live_line planners commits entries)) }
{
    write_numbered(w, b"live ", u64::from(planners))?;
    write_numbered(w, b" planners ", u64::from(commits))?;
    write_numbered(w, b" commits ", entries)?;
    write_text(w, b" entries\n")
}

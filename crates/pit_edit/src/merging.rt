//! Where a merge stands.
ghost use Rattle.std.specs.Prelude.{◌≡◌, ◌<◌, ◌≤◌, ◌==◌, ◌&&◌, ◌++◌, [], length, true, All, IfOk, OnOk};
ghost use Rattle.std.specs.List.Sorted.{IsStrictlyIncreasing};
ghost use Rattle.pit_desk.specs.History.{commits_of};
ghost use Rattle.pit_desk.specs.declared.entry.TheConstants.{ENTRIES_MAX};
ghost use Rattle.pit_log.specs.Makers.{AreMakers};
ghost use Rattle.pit_edit.specs.Changes.{IsEditOn};
ghost use Rattle.pit_edit.specs.EditText.{edit_line};
ghost use Rattle.pit_edit.specs.Merging.{IsMerged, was_granted};
ghost use Rattle.pit_edit.specs.Inside.Reviews.{IsReported};

use crate::answer::{Answer, was_granted};
use crate::answering::answer_to;
use crate::edit::Edit;
use crate::line::line_of;
use crate::review::{Review, review_of};
use pit_desk::{Desk, ENTRIES_MAX, Entry, EntryReply};
use pit_log::note_maker;
use pit_num::NoMemory;
use std::alloc::Allocator;
use std::marker::Model;

/// A desk on which edits are merged, the lines that report them, and whether each was merged whole. Its type keeps that each commit has the number
/// of the entry that made it.
#[derive(Drop)]
pub struct Merging<A: Allocator + Copy + Drop> {
    desk: Desk<A>,
    /// The number of the entry that made each commit.
    makers: Vec<u32, A>,
    lines: Vec<u8, A>,
    is_whole: bool,
}

impl<A: Allocator + Copy + Drop> Model for Merging<A> {
    ghost use Rattle.pit_log.specs.Makers.{AreMakers};
    ghost use Rattle.pit_edit.specs.Merging.{Merging as MergingState};

    ghost Value = { MergingState };

    ghost view = { λ m. record { desk = m.desk; lines = m.lines.items; is_whole = m.is_whole } };

    ghost invariant = { λ m. AreMakers m.desk.history m.makers.items };
}

impl<A: Allocator + Copy + Drop> Merging<A> {
    /// A merge on a desk, before the first edit. The desk is freed on a fault.
    pub fn begin(alloc: A, desk: Desk<A>) -> Result<Merging<A>, NoMemory>
        ensures desk { IfOk result (λ m. m.desk ≡ desk) }
        ensures lines { IfOk result (λ m. m.lines ≡ []) }
        ensures whole { IfOk result (λ m. m.is_whole ≡ true) }
    {
        match makers_of(alloc, desk.history()) {
            Ok(makers) => Ok(Merging {
                desk,
                makers,
                lines: Vec::new(alloc),
                is_whole: true,
            }),
            Err(no_memory) => {
                drop(desk);
                Err(no_memory)
            }
        }
    }

    /// The desk as the edits so far have left it.
    pub fn desk(&self) -> &Desk<A>
        ensures { result.now ≡ self.now.desk }
    {
        &self.desk
    }

    /// A line for each edit so far, and behind it one for each of its conflicts.
    pub fn lines(&self) -> &[u8]
        ensures { result.now ≡ self.now.lines }
    {
        &self.lines
    }

    /// Whether no edit was refused, and no part of one left out.
    pub fn is_whole(&self) -> bool
        ensures { result ≡ self.now.is_whole }
    {
        self.is_whole
    }

    /// Merges an edit: what it changes is committed as one transaction that began at its base. Where `is_partial`, the blocks that a commit behind
    /// the base has written are left out. A fault is that it is out of memory, or that the desk may have no further entry; after it the merge is of
    /// no more use.
    pub fn merge(&mut self, alloc: A, edit: &Edit<'_>, is_partial: bool) -> Result<(), NoMemory>
        requires { IsEditOn self.old.desk.plan.pit (commits_of self.old.desk.history) edit.now }
        ensures { OnOk result (IsMerged is_partial edit.now self.old self.new) }
    {
        let review = review_of(alloc, self.desk.plan(), &self.makers, edit, is_partial)?;
        self.enter(alloc, edit, &review)
    }

    /// Commits what is written of an edit, and tells of it.
    fn enter(&mut self, alloc: A, edit: &Edit<'_>, review: &Review<A>) -> Result<(), NoMemory>
        requires edit { IsEditOn self.old.desk.plan.pit (commits_of self.old.desk.history) edit.now }
        requires known { All (λ b. b < self.old.desk.plan.pit.blocks) review.now.kept.items }
        requires rising { IsStrictlyIncreasing review.now.kept.items }
        ensures { OnOk result (IsReported edit.now review.now.kept.items review.now.changes review.now.left review.now.conflicts.items self.old self.new) }
    {
        let answer = answer_to(alloc, &mut self.desk, &mut self.makers, edit, &review.kept)?;
        self.report(alloc, edit.number, review, answer)
    }

    /// Adds the lines of an edit with this answer.
    fn report(
        &mut self,
        alloc: A,
        number: u32,
        review: &Review<A>,
        answer: Answer,
    ) -> Result<(), NoMemory>
        ensures desk { self.new.desk ≡ self.old.desk }
        ensures lines { OnOk result (self.new.lines ≡ self.old.lines
            ++ (edit_line number answer.entry review.now.changes review.now.left answer.cause answer.reply ++ review.now.conflicts.items)) }
        ensures whole { OnOk result (self.new.is_whole ≡ (self.old.is_whole && (was_granted answer.reply && review.now.left == 0))) }
    {
        let line = line_of(alloc, number, review.changes, review.left, answer)?;
        add_text(&mut self.lines, &line, &review.conflicts)?;
        self.is_whole = is_whole_with(self.is_whole, answer.reply, review.left);
        Ok(())
    }
}

/// Adds two texts.
fn add_text<A: Allocator + Drop>(
    lines: &mut Vec<u8, A>,
    first: &[u8],
    second: &[u8],
) -> Result<(), NoMemory>
    ensures { OnOk result (lines.new.items ≡ lines.old.items ++ (first.now ++ second.now)) }
{
    lines.extend_from_slice(first)?;
    lines.extend_from_slice(second)?;
    Ok(())
}

/// Whether all was merged whole: whether it was so far, the answer to this edit is no refusal, and no change of it was left out.
fn is_whole_with(is_whole: bool, reply: Option<EntryReply>, left: u64) -> bool
    ensures { result ≡ (is_whole && (was_granted reply && left == 0)) }
{
    let is_granted = was_granted(reply);
    is_whole && (is_granted && left == 0)
}

/// The numbers of the entries that made the commits of a history.
fn makers_of<A: Allocator + Copy + Drop>(
    alloc: A,
    history: &[Entry<A>],
) -> Result<Vec<u32, A>, NoMemory>
    requires { length history.now ≤ ENTRIES_MAX }
    ensures { IfOk result (λ makers. AreMakers history.now makers.items) }
{
    let mut makers = Vec::new(alloc);
    let mut number: u32 = 0;
    for entry in history {
        number += 1;
        note_maker(&mut makers, entry, number)?;
    }
    Ok(makers)
}

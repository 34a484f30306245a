//! How an edit is committed.
ghost use Rattle.std.specs.Prelude.{◌≡◌, ◌<◌, ◌≤◌, ◌++◌, ◌∷◌, [], ℕ, List, length, vec_len, vec_capacity, All, IfSome, IfOk, OnOk};
ghost use Rattle.std.specs.List.Sorted.{IsStrictlyIncreasing};
ghost use Rattle.pit_plan.specs.Standing.{IsPlanOf, version_of};
ghost use Rattle.pit_desk.specs.Calls.{WorkFits, work_call, entry_reply};
ghost use Rattle.pit_desk.specs.History.{Answered, commits_of};
ghost use Rattle.pit_desk.specs.declared.entry.Act.TheVariants.{Commit as commit_act};
ghost use Rattle.pit_desk.specs.declared.reply.Refusal.{Refusal as Why};
ghost use Rattle.pit_desk.specs.declared.reply.EntryReply.TheVariants.{Refused as refused};
ghost use Rattle.pit_log.specs.Causes.{block_of, cause_of as cause_by};
ghost use Rattle.pit_log.specs.Makers.{AreMakers, makers_after};
ghost use Rattle.pit_edit.specs.Changes.{IsEditOn};
ghost use Rattle.pit_edit.specs.Inside.Answers.{IsLast, IsAnswerTo, IsAnswerOf, answer_by};

use crate::answer::{Answer, no_answer};
use crate::edit::Edit;
use crate::work::work_of;
use pit_desk::{Desk, Entry, EntryReply, Reply, entry_reply_of};
use pit_log::cause_of;
use pit_num::NoMemory;
use pit_plan::Plan;
use pit_tx::Work;
use std::alloc::Allocator;

/// Commits the blocks of an edit that are written, where there are any, and notes the maker of a commit.
pub(crate) fn answer_to<A: Allocator + Copy + Drop>(
    alloc: A,
    desk: &mut Desk<A>,
    makers: &mut Vec<u32, A>,
    edit: &Edit<'_>,
    kept: &[u32],
) -> Result<Answer, NoMemory>
    requires edit { IsEditOn desk.old.plan.pit (commits_of desk.old.history) edit.now }
    requires known { All (λ b. b < desk.old.plan.pit.blocks) kept.now }
    requires rising { IsStrictlyIncreasing kept.now }
    requires makers { AreMakers desk.old.history makers.old.items }
    ensures makers { AreMakers desk.new.history makers.new.items }
    ensures pit { OnOk result (desk.new.plan.pit ≡ desk.old.plan.pit) }
    ensures limit { OnOk result (desk.new.max_entries ≡ desk.old.max_entries) }
    ensures answer { IfOk result (IsAnswerOf desk.old.plan.pit desk.old.history edit.now kept.now desk.new.history) }
{
    if kept.is_empty() {
        return Ok(no_answer());
    }
    makers.reserve(1)?;
    let work = work_of(alloc, desk.plan(), edit, kept)?;
    commit(desk, makers, work)
}

/// Commits a work, where there is room for a maker.
fn commit<A: Allocator + Copy + Drop>(
    desk: &mut Desk<A>,
    makers: &mut Vec<u32, A>,
    work: Work<A>,
) -> Result<Answer, NoMemory>
    requires fits { WorkFits desk.old.plan.pit work }
    requires makers { AreMakers desk.old.history makers.old.items }
    requires room { vec_len makers.old < vec_capacity makers.old }
    ensures makers { AreMakers desk.new.history makers.new.items }
    ensures pit { OnOk result (desk.new.plan.pit ≡ desk.old.plan.pit) }
    ensures limit { OnOk result (desk.new.max_entries ≡ desk.old.max_entries) }
    ensures answer { IfOk result (IsAnswerTo desk.old.plan.pit desk.old.history (work_call work commit_act) desk.new.history) }
{
    let Ok(reply) = desk.commit(work) else {
        return Err(NoMemory);
    };
    Ok(answered(desk, makers, reply))
}

/// What the last entry of a desk says, whose commit got this reply. Where it made a commit, the entry is noted as its maker.
fn answered<A: Allocator + Copy + Drop>(
    desk: &Desk<A>,
    makers: &mut Vec<u32, A>,
    reply: Reply,
) -> Answer
    requires last { IsLast desk.now.history makers.old.items (entry_reply reply) }
    requires room { vec_len makers.old < vec_capacity makers.old }
    ensures makers { AreMakers desk.now.history makers.new.items }
    ensures answer { (before : List Answered) (e : Answered) → desk.now.history ≡ before ++ e ∷ [] → e.reply ≡ entry_reply reply → AreMakers before makers.old.items
        → result ≡ answer_by before e }
{
    let number = desk.history().len() as u32;
    let cause = last_cause(desk, makers);
    note(makers, reply, number);
    Answer {
        entry: Some(number),
        reply: Some(entry_reply_of(reply)),
        cause,
    }
}

/// The cause of the last entry of a desk, by the makers of the commits before it.
fn last_cause<A: Allocator + Copy + Drop>(desk: &Desk<A>, makers: &[u32]) -> Option<u32>
    requires { (before : List Answered) × (e : Answered) × (desk.now.history ≡ before ++ e ∷ []) × AreMakers before makers.now }
    ensures { (before : List Answered) (e : Answered) → desk.now.history ≡ before ++ e ∷ [] → AreMakers before makers.now → result ≡ cause_by before e }
{
    let history = desk.history();
    let entry = &history[history.len() - 1];
    cause_behind(desk.plan(), makers, entry)
}

/// The cause of an entry, by the plan behind it, which a refused one has left as it was, and by the makers of the commits before it.
fn cause_behind<A: Allocator + Copy + Drop>(
    plan: &Plan<A>,
    makers: &[u32],
    entry: &Entry<A>,
) -> Option<u32>
    requires known { IfSome (block_of entry.now) (λ b. b < plan.now.pit.blocks) }
    requires within { (why : Why) → entry.now.reply ≡ refused why → (b : ℕ) → b < plan.now.pit.blocks → version_of plan.now b ≤ length makers.now }
    ensures { (before : List Answered) → ((why : Why) → entry.now.reply ≡ refused why → IsPlanOf plan.now (commits_of before)) → AreMakers before makers.now
        → result ≡ cause_by before entry.now }
{
    match entry.reply {
        EntryReply::Refused(_) => cause_of(plan, makers, entry),
        EntryReply::Committed { .. } | EntryReply::Withdrawn => None,
    }
}

/// Notes the number of an entry with this reply, if it made a commit. There is room for it.
fn note<A: Allocator + Drop>(makers: &mut Vec<u32, A>, reply: Reply, number: u32)
    requires { vec_len makers.old < vec_capacity makers.old }
    ensures { makers.new.items ≡ makers_after makers.old.items number (entry_reply reply) }
{
    match reply {
        Reply::Committed { .. } => makers.push_reserved(number),
        Reply::Refused(_) => {}
    }
}

//! How many commits an edit was made from.
ghost use Rattle.std.specs.Prelude.{◌≡◌, ◌↔◌, ◌≤◌, length, IsTrue, IfOk, MatchResult};
ghost use Rattle.hex.specs.Hex.{encode_lower};
ghost use Rattle.pit_show.specs.ShowText.{sum_of as sum_by};
ghost use Rattle.pit_base.specs.Bases.{IsHistoryBase, IsRevising, IsPlainBase, IsPlainFault, IsMarkedBase, IsMarkedFault, IsSolutionBase, IsSolutionBaseFault};

use crate::common::{are_revising, commit_count, common_len};
use crate::error::BaseFault;
use crate::mark::mark_of;
use hex::encode;
use pit_desk::{ENTRIES_MAX, Entry};
use pit_num::NoMemory;
use pit_show::{front_to, sum_of};
use std::alloc::Allocator;

/// How many commits are among the entries that a history shares with the one that a merge begins with. A commit behind them may revise no limit.
pub fn history_base<A: Allocator + Drop>(
    ours: &[Entry<A>],
    theirs: &[Entry<A>],
) -> Result<u32, BaseFault>
    requires few { length ours.now ≤ ENTRIES_MAX }
    ensures { MatchResult result (IsHistoryBase ours.now theirs.now) (λ fault. (fault ≡ BaseFault.RevisedLimit) × IsRevising ours.now theirs.now) }
{
    let (shared, later) = theirs.split_at(common_len(ours, theirs));
    if are_revising(later) {
        return Err(BaseFault::RevisedLimit);
    }
    Ok(commit_count(shared))
}

/// How many commits, of those that a merge begins with, a solution was made from. As many as its first line says, where `show` wrote that line of their
/// entries. Else as many as are asked for; or all, where no history was resumed. Takes the memory of the longest line of an entry, where there is
/// such a line.
pub fn solution_base<A: Allocator + Copy + Drop>(
    alloc: A,
    ours: &[Entry<A>],
    is_resumed: bool,
    from: Option<u32>,
    text: &[u8],
) -> Result<u32, BaseFault>
    requires few { length ours.now ≤ ENTRIES_MAX }
    ensures { MatchResult result (IsSolutionBase ours.now is_resumed from text.now) (IsSolutionBaseFault ours.now is_resumed from text.now) }
{
    match mark_of(text) {
        Some((commits, digits)) => marked_base(alloc, ours, commits, digits),
        None => plain_base(ours, is_resumed, from),
    }
}

/// The same where nothing but the caller says it.
fn plain_base<A: Allocator + Drop>(
    ours: &[Entry<A>],
    is_resumed: bool,
    from: Option<u32>,
) -> Result<u32, BaseFault>
    requires few { length ours.now ≤ ENTRIES_MAX }
    ensures { MatchResult result (IsPlainBase ours.now is_resumed from) (IsPlainFault ours.now is_resumed from) }
{
    let commits = commit_count(ours);
    match from {
        Some(asked) if asked <= commits => Ok(asked),
        Some(_) => Err(BaseFault::FewCommits { commits }),
        None if is_resumed => Err(BaseFault::BaseMissing),
        None => Ok(commits),
    }
}

/// The same where a line says it, with the digits of a sum.
fn marked_base<A: Allocator + Copy + Drop>(
    alloc: A,
    ours: &[Entry<A>],
    commits: u32,
    digits: &[u8],
) -> Result<u32, BaseFault>
    requires few { length ours.now ≤ ENTRIES_MAX }
    ensures { MatchResult result (IsMarkedBase ours.now (commits, digits.now)) (IsMarkedFault ours.now (commits, digits.now)) }
{
    if commits > commit_count(ours) {
        return Err(BaseFault::AnotherHistory);
    }
    match has_sum(alloc, front_to(ours, commits), digits) {
        Ok(true) => Ok(commits),
        Ok(false) => Err(BaseFault::AnotherHistory),
        Err(_) => Err(BaseFault::NoMemory),
    }
}

/// Whether entries have the sum of these digits.
fn has_sum<A: Allocator + Copy + Drop>(
    alloc: A,
    entries: &[Entry<A>],
    digits: &[u8],
) -> Result<bool, NoMemory>
    ensures { IfOk result (λ has. IsTrue has ↔ (digits.now ≡ encode_lower (sum_by entries.now))) }
{
    let sum = sum_of(alloc, entries)?;
    let Ok(hex) = encode(alloc, sum) else {
        return Err(NoMemory);
    };
    Ok(are_same(digits, hex.as_bytes()))
}

fn are_same(digits: &[u8], others: &[u8]) -> bool
    ensures { IsTrue result ↔ (digits.now ≡ others.now) }
{
    digits == others
}

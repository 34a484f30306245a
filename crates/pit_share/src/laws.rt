//! Laws of workspaces.
ghost use Rattle.std.specs.Prelude.{◌≡◌, ℕ, ◌+◌, List, Some, slice_get, take};
ghost use Rattle.pit_model.specs.Pit.{Pit};
ghost use Rattle.pit_desk.specs.History.{Answered, Call, commit_of, commits_of};
ghost use Rattle.pit_desk.specs.declared.reply.EntryReply.{EntryReply};
ghost use Rattle.pit_desk.specs.declared.reply.EntryReply.TheVariants.{Committed as committed};
ghost use Rattle.pit_share.specs.Endings.{IsAnswered};
ghost use Rattle.pit_share.specs.GoingOn.{IsShared};
ghost use Rattle.pit_share.specs.declared.new_session.TheConstants.{PLANNERS_MAX};
ghost use Rattle.pit_desk.specs.Noted.{AreHeld};

use crate::workspace::Workspace;
use pit_board::Session;
use std::alloc::Allocator;
use std::sync::Wait;

/// A law of workspaces, for any session and any number of planners: whenever the lock is free, the history behind it goes on from the opening
/// one, and is one of one thread. So each reply is the one that is due after the entries before it, each committed entry read what the
/// schedule then held, every other entry changed nothing, and after each entry the schedule is good under the limits then in force. The result
/// is the value that the plan states, which is the sum of the discounted profits, in units of 10^-18. Waits for the lock.
pub fn one_shared_history<S: Session, R: Wait + Drop, A: Allocator + Copy + Drop, W: Wait>(
    rt: &W,
    workspace: &Workspace<S, R, A>,
) -> i128
    ensures { IsShared S.instance S.opening S.max_entries S.planners result }
{
    workspace.floor().lock(rt).value()
}

/// A law of answers: after an answer Committed with a number, that commit of those that the planner has seen is the call's, and each of its
/// reads is what the commits before it held.
pub fn committed_is_seen()
    ensures commit { (pit : Pit) (call : Call) (reply : EntryReply) (old seen : List Answered) (before : ℕ) → IsAnswered pit call reply old seen
        → reply ≡ committed (before + 1) → slice_get (commits_of seen) before ≡ Some (commit_of call) }
    ensures reads { (pit : Pit) (call : Call) (reply : EntryReply) (old seen : List Answered) (before : ℕ) → IsAnswered pit call reply old seen
        → reply ≡ committed (before + 1) → AreHeld (take before (commits_of seen)) call.reads }
{}

/// A law of workspaces, in numbers: at most 64 planners share one.
pub fn planner_limit()
    ensures { PLANNERS_MAX ≡ 64 }
{}

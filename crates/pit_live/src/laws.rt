//! Laws of the definitions, each as the contract of a function that does nothing.
ghost use Rattle.std.specs.Prelude.{ℕ};
ghost use Rattle.pit_step.specs.Devices.{Writing};
ghost use Rattle.pit_step.specs.declared.status.Status.{Status as StatusState};
ghost use Rattle.pit_live.specs.LiveStarts.{LiveStart};
ghost use Rattle.pit_live.specs.Live.{Filing, live_run};
ghost use Rattle.pit_live.specs.LiveHistory.{IsOfOneLive};

use pit_step::CliFault;

/// A law of live workspaces: where one ended with an answer, or because a session ended otherwise than by its input, what was told is that of one closed
/// history of one thread, whose text is in the file and synced. It goes on from what was carried on; each planner's entries in it are those of its
/// session; after each entry the schedule is good under the limits then in force; and the value is that of the last.
pub fn one_live_history()
    ensures answered { (start : LiveStart) (planners : ℕ) (file : Filing) (lines : Writing) (status : StatusState)
        → (live_run start planners file lines).Gives tt status → IsOfOneLive start planners file lines }
    ensures stopped { (start : LiveStart) (planners : ℕ) (file : Filing) (lines : Writing)
        → (live_run start planners file lines).Fails tt CliFault.Stopped → IsOfOneLive start planners file lines }
{}

ghost use Rattle.std.specs.Prelude.{◌≡◌, ◌≢◌, ◌⊎◌, Option, IsSome, Result, Ok, Err};
ghost use Rattle.pit_step.specs.Devices.{Writing};
ghost use Rattle.pit_step.specs.Statuses.{fault_status};
ghost use Rattle.pit_step.specs.Steps.{IsResultOf};
ghost use Rattle.pit_cli.specs.declared.plan_options.PlanOptions.{PlanOptions};
ghost use Rattle.pit_cli.specs.Texts.{Texts};
ghost use Rattle.pit_output.specs.Outputs.{Keeping, IsUnwritten, HasFailed};
ghost use Rattle.pit_cli.specs.Output.{plan_run};
ghost use Rattle.pit_opening.specs.Beginnings.{is_unbegun};
ghost use Rattle.pit_cli.specs.Outcomes.{MayRun, AreRefused, IsDecisive, IsWritten, IsOfOneHistory, AreTurnsWritten, AreWrittenAlike};

use pit_opening::{one_beginning, one_opening};
use pit_step::{CliFault, Status};

/// A law of plans. Texts may be run, or are refused for one fault: never both, never for two, and whatever threads do. Each call on them keeps to
/// that, out of memory aside. The answer says what was written. Where the report's device tells its bytes, they say how the planners ended and with
/// which status, or that they didn't run. Left to chance are the run itself, and whether memory runs out, a place can't be had, a device fails, or
/// the workspace isn't closed.
pub fn one_outcome()
    ensures some { (texts : Texts) → MayRun texts ⊎ ((fault : CliFault) × AreRefused texts fault) }
    ensures apart { (texts : Texts) (fault : CliFault) → MayRun texts → AreRefused texts fault → ⊥ }
    ensures same { (texts : Texts) (fault other : CliFault) → AreRefused texts fault → AreRefused texts other → fault ≡ other }
    ensures refused { (texts : Texts) (options : PlanOptions) (out lines : Writing) (kept : Option Keeping) (fault : CliFault) (result : Result Status CliFault)
        → AreRefused texts fault → IsResultOf (plan_run texts options out lines kept) tt result
        → IsUnwritten out lines kept × ((result ≡ Err fault) ⊎ (result ≡ Err (CliFault.NoMemory))) }
    ensures refuses { (texts : Texts) (options : PlanOptions) (out lines : Writing) (kept : Option Keeping) (fault : CliFault)
        → fault_status fault ≡ 2 → (plan_run texts options out lines kept).Fails tt fault → AreRefused texts fault }
    ensures wanting { (texts : Texts) (options : PlanOptions) (out lines : Writing) (kept : Option Keeping) (fault : CliFault)
        → MayRun texts → (plan_run texts options out lines kept).Fails tt fault → fault_status fault ≡ 3 }
    ensures written { (texts : Texts) (options : PlanOptions) (out lines : Writing) (kept : Option Keeping) (status : Status)
        → (plan_run texts options out lines kept).Gives tt status → IsWritten texts options out lines kept (Ok status) }
    ensures stopped { (texts : Texts) (options : PlanOptions) (out lines : Writing) (kept : Option Keeping)
        → (plan_run texts options out lines kept).Fails tt CliFault.Stopped → IsWritten texts options out lines kept (Err CliFault.Stopped) }
    ensures failed { (texts : Texts) (options : PlanOptions) (out lines : Writing) (kept : Option Keeping)
        → (plan_run texts options out lines kept).Fails tt CliFault.CannotWrite → MayRun texts × HasFailed out lines kept }
    ensures unwritten { (texts : Texts) (options : PlanOptions) (out lines : Writing) (kept : Option Keeping) (fault : CliFault)
        → fault ≢ CliFault.Stopped → fault ≢ CliFault.CannotWrite
        → (plan_run texts options out lines kept).Fails tt fault → IsUnwritten out lines kept }
    ensures seen { (texts : Texts) (options : PlanOptions) (out lines : Writing) (kept : Option Keeping) (result : Result Status CliFault)
        → IsSome lines.before → IsWritten texts options out lines kept result → IsUnwritten out lines kept → ⊥ }
    ensures once { (texts : Texts) (options : PlanOptions) (out lines : Writing) (kept : Option Keeping) (result other : Result Status CliFault)
        → IsSome lines.before → IsDecisive result → IsDecisive other
        → IsResultOf (plan_run texts options out lines kept) tt result → IsResultOf (plan_run texts options out lines kept) tt other → result ≡ other }
{
    one_beginning();
    one_opening();
}

/// A law of plans, for any number of planners: where a plan ended with an answer, or because a planner stopped, what it has written is that of one
/// closed history of one thread. Each committed entry behind what it began with is a job of a planner's script, done on the schedule that the entries
/// before it leave; after each entry the schedule is good under the limits then in force; and the value is that of the solution.
pub fn one_closed_history()
    ensures answered { (texts : Texts) (options : PlanOptions) (out lines : Writing) (kept : Option Keeping) (status : Status)
        → (plan_run texts options out lines kept).Gives tt status → IsOfOneHistory texts options out lines kept (Ok status) }
    ensures stopped { (texts : Texts) (options : PlanOptions) (out lines : Writing) (kept : Option Keeping)
        → (plan_run texts options out lines kept).Fails tt CliFault.Stopped → IsOfOneHistory texts options out lines kept (Err CliFault.Stopped) }
{}

/// A law of plans in turn: the same texts end alike. Of two that had what they asked for, with the same retries and as strict, the solution and the report
/// are the same, and so is how they end, whatever their keys.
pub fn same_in_turn()
    ensures { (texts : Texts) (options again : PlanOptions) (out lines other_out other_lines : Writing) (kept other_kept : Option Keeping) (result other : Result Status CliFault)
        → again.retries ≡ options.retries → again.is_strict ≡ options.is_strict
        → (one : AreTurnsWritten texts options out lines kept result) → (two : AreTurnsWritten texts again other_out other_lines other_kept other)
        → AreWrittenAlike (is_unbegun texts.beginning) one.written.ran two.written.ran result other }
{
    one_beginning();
    one_opening();
}

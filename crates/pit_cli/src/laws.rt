//! Laws of the definitions, each as the contract of a function that does nothing.
ghost use Rattle.std.specs.Prelude.{Option, IsSome, Result};
ghost use Rattle.pit_model.specs.Pit.{Pit};
ghost use Rattle.pit_step.specs.Devices.{Writing};
ghost use Rattle.pit_step.specs.Inputs.{IsModel};
ghost use Rattle.pit_opening.specs.Beginnings.{is_unbegun};
ghost use Rattle.pit_cli.specs.declared.plan_options.PlanOptions.{PlanOptions};
ghost use Rattle.pit_cli.specs.Texts.{Texts};
ghost use Rattle.pit_output.specs.Outputs.{Keeping};
ghost use Rattle.pit_cli.specs.Output.{outputs_of};
ghost use Rattle.pit_cli.specs.Outcomes.{IsOfOneHistory};
ghost use Rattle.pit_cli.specs.ShownRun.{IsShownRun};

use pit_show::{one_front, shown_history};
use pit_step::{CliFault, Status};

/// A law of what `plan` wrote, which `one_closed_history` says: of the history, where there was an output for it, `show` writes, over the same model,
/// the comment on its entries up to the last commit, and then the solution, byte for byte as `plan` wrote it.
pub fn one_solution()
    ensures { (texts : Texts) (options : PlanOptions) (out lines : Writing) (kept : Option Keeping) (result : Result Status CliFault) (pit : Pit)
        → (one : IsOfOneHistory texts options out lines kept result) → IsSome kept → IsModel texts.model pit
        → IsShownRun pit one.written.ran.0.history (outputs_of (is_unbegun texts.beginning) one.written.ran) }
{
    one_front();
    shown_history();
}

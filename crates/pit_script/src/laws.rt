//! Laws of the definitions, each as the contract of a function that does nothing.
ghost use Rattle.std.specs.Prelude.{◌≡◌, ◌≢◌, List};
ghost use Rattle.pit_model.specs.Pit.{Pit};
ghost use Rattle.pit_text.specs.Cutting.{Cut};
ghost use Rattle.pit_text.specs.Stands.{StandsWhole};
ghost use Rattle.pit_script.specs.Between.{lines_of_jobs};
ghost use Rattle.pit_script.specs.Causes.{script_cause_of};
ghost use Rattle.pit_script.specs.Jobs.{Job, jobs_of, script_line, script_end};
ghost use Rattle.pit_script.specs.declared.fact.ScriptFact.{ScriptFact};
ghost use Rattle.pit_script.specs.declared.step.TheConstants.{JOBS_MAX, SHIFT_MAX};

use crate::error::{ScriptCause, ScriptFault};

/// A law of causes: to be out of memory is no fault. So that answer is told apart from each fault.
pub fn no_fault_wants_memory()
    ensures { (fault : ScriptFault) → script_cause_of fault ≢ ScriptCause.NoMemory }
{}

/// A law of scripts: a job is what stands between its `begin` and its end. What the lines of a script say is its jobs, written out one after another;
/// and of jobs written out so, `jobs_of` gives these jobs.
pub fn jobs_stand_between()
    ensures between { (pit : Pit) (lines : List Cut) (facts : List ScriptFact) → StandsWhole (script_line pit) script_end lines facts → facts ≡ lines_of_jobs (jobs_of facts) }
    ensures written { (jobs : List Job) → jobs_of (lines_of_jobs jobs) ≡ jobs }
{}

/// A law of scripts, in numbers: a script has at most a million jobs, and a shift goes by at most a thousand periods.
pub fn script_limits()
    ensures jobs { JOBS_MAX ≡ 1000000 }
    ensures shifts { SHIFT_MAX ≡ 1000 }
{}

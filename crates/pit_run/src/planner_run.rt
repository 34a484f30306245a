ghost use Rattle.std.specs.Prelude.{◌≡◌};
ghost use Rattle.pit_run.specs.Inside.Reports.{run_of};
ghost use Rattle.pit_run.specs.Turns.{DidScript};

use crate::runner::Runner;
use pit_board::Session;
use pit_job::{Gate, Outcome, RunEnd, run_script};
use pit_script::Script;
use pit_share::{PlannerLog, Seat, Workspace};
use std::alloc::Allocator;
use std::marker::Model;
use std::sync::Wait;

/// How a planner's jobs ended.
#[derive(Drop)]
pub struct PlannerRun<A: Allocator + Drop> {
    planner: u32,
    jobs: Vec<Outcome, A>,
    ended: RunEnd,
}

impl<A: Allocator + Drop> Model for PlannerRun<A> {
    ghost use Rattle.pit_run.specs.Reports.{RunState};
    ghost use Rattle.pit_run.specs.Inside.Reports.{run_of};

    ghost Value = { RunState };

    ghost view = { λ r. run_of r.planner r.jobs.items r.ended };
}

impl<A: Allocator + Drop> PlannerRun<A> {
    pub(crate) fn new(planner: u32, jobs: Vec<Outcome, A>, ended: RunEnd) -> PlannerRun<A>
        ensures { result ≡ run_of planner jobs.items ended }
    {
        PlannerRun {
            planner,
            jobs,
            ended,
        }
    }

    /// The planner's number, counted from 1.
    pub fn planner(&self) -> u32
        ensures { result ≡ self.now.planner }
    {
        self.planner
    }

    /// The outcome of each job that has one, in order from the first.
    pub fn jobs(&self) -> &[Outcome]
        ensures { result.now ≡ self.now.jobs }
    {
        self.jobs.as_slice()
    }

    /// How the jobs ended: all done, or before which job.
    pub fn ended(&self) -> RunEnd
        ensures { result ≡ self.now.ended }
    {
        self.ended
    }
}

/// Does a planner's script.
pub(crate) fn run_planner<S: Session, O: Wait + Drop, A: Allocator + Copy + Drop, R: Wait, G: Gate>(
    runner: &Runner<'_, R, A, G>,
    workspace: &Workspace<S, O, A>,
    seat: Seat<S, A>,
    script: &Script<A>,
) -> (PlannerLog<S, A>, PlannerRun<A>)
    requires { script.now.pit ≡ S.instance }
    ensures { DidScript S.instance S.max_entries runner.now.retries S.opening script.now.jobs seat result.0 result.1 }
{
    let planner = seat.sit(workspace);
    let number = planner.number();
    let (planner, outcomes, ended) = run_script(
        runner.rt,
        runner.alloc,
        planner,
        script,
        runner.retries,
        runner.gate,
    );
    (planner.finish(), PlannerRun::new(number, outcomes, ended))
}

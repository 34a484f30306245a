ghost use Rattle.std.specs.Prelude.{◌≡◌, ◌≤◌, All, length, map, IfOk, IfErr};
ghost use Rattle.pit_share.specs.Opening.{AreSeats};
ghost use Rattle.pit_run.specs.Reports.{IsReport, IsRunError};
ghost use Rattle.pit_job.specs.declared.planner_run.TheConstants.{RETRIES_MAX};

use crate::report::{Report, RunError};
use crate::runner::Runner;
use crate::shared::Shared;
use crate::threads::run_scoped;
use pit_board::Session;
use pit_job::Gate;
use pit_script::Script;
use pit_share::{Seat, Workspace};
use std::alloc::Allocator;
use std::sync::Wait;
use std::thread::Threads;

/// Does each script in a thread of its own, the first as planner 1, the second as planner 2, and so on; then closes the workspace. The lists of logs
/// and of runs get their room before the first thread is started. Where a planner's thread can't be started, the planner is finished here.
pub fn run<
    S: Session + Send + Sync,
    R: Wait + Drop + Send + Sync,
    A: Allocator + Copy + Drop + Send + Sync,
    W: Threads + Wait + Sync,
    G: Gate,
>(
    rt: &W,
    alloc: A,
    workspace: Workspace<S, R, A>,
    seats: Vec<Seat<S, A>, A>,
    scripts: &[Script<A>],
    retries: u32,
    gate: &G,
) -> Result<Report<A>, RunError<S, R, A>>
    requires pit { All (λ script. script.pit ≡ S.instance) scripts.now }
    requires few { retries ≤ RETRIES_MAX }
    requires seats { AreSeats S.planners seats.items }
    requires each { length scripts.now ≡ S.planners }
    ensures ok { IfOk result (λ report.
        IsReport S.instance S.opening S.max_entries retries (map (λ script. script.jobs) scripts.now) report.closed report.runs.items) }
    ensures err { IfErr result (IsRunError S.instance S.opening S.max_entries retries (map (λ script. script.jobs) scripts.now) seats.items) }
{
    let Ok(logs) = Vec::with_capacity(alloc, seats.len()) else {
        return Err(RunError::NoMemory { workspace, seats });
    };
    let Ok(runs) = Vec::with_capacity(alloc, seats.len()) else {
        return Err(RunError::NoMemory { workspace, seats });
    };
    let runner = Runner {
        rt,
        alloc,
        scripts,
        retries,
        gate,
    };
    let shared = Shared::new(runner, &workspace);
    let (logs, runs) = run_scoped(&shared, seats, logs, runs);
    drop(shared);
    match workspace.close(logs) {
        Ok(closed) => Ok(Report { closed, runs }),
        Err((workspace, logs, cause)) => Err(RunError::NotClosed {
            workspace,
            logs,
            cause,
        }),
    }
}

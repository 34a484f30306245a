use crate::planner_run::PlannerRun;
use pit_board::Session;
use pit_share::{CloseError, Closed, PlannerLog, Seat, Workspace};
use std::alloc::Allocator;
use std::sync::Wait;

/// The closed desk, and how each planner's jobs ended, by rising planner.
#[derive(Drop)]
pub struct Report<A: Allocator + Copy + Drop> {
    /// The desk of the closed workspace.
    pub closed: Closed<A>,
    /// Each planner's run, the first planner's first.
    pub runs: Vec<PlannerRun<A>, A>,
}

/// Why there is no report.
#[derive(Drop)]
pub enum RunError<S: Session, R: Wait + Drop, A: Allocator + Copy + Drop> {
    /// No thread was started.
    NoMemory {
        workspace: Workspace<S, R, A>,
        seats: Vec<Seat<S, A>, A>,
    },
    /// Each planner has ended, and the workspace was not closed by the logs.
    NotClosed {
        workspace: Workspace<S, R, A>,
        logs: Vec<PlannerLog<S, A>, A>,
        cause: CloseError,
    },
}

/// Why planners who were to take turns left no report. The number of planners is looked at first.
#[derive(Clone, Copy, Debug, PartialEq, Eq)]
pub enum InTurnError {
    /// There are no scripts, or more than `PLANNERS_MAX`.
    PlannerCount,
    /// A planner got no place at the board.
    NoPlace,
    /// A growth was refused.
    NoMemory,
    /// The planner's turn has ended, and the workspace was not closed by the logs.
    NotClosed { planner: u32, cause: CloseError },
}

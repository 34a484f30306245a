ghost use Rattle.std.specs.Prelude.{◌≡◌, ◌<◌, [], All, length, map, slice_index_or};

use crate::runner::Runner;
use pit_board::Session;
use pit_script::Script;
use pit_share::Workspace;
use std::alloc::Allocator;
use std::marker::Model;
use std::sync::Wait;
use std::sync::atomic::AtomicU64;

/// What the threads of all planners share. The scripts are for the pit of the workspace.
#[derive(Drop)]
pub(crate) struct Shared<'s, S: Session, O: Wait + Drop, A: Allocator + Copy + Drop, R, G> {
    pub(crate) runner: Runner<'s, R, A, G>,
    pub(crate) workspace: &'s Workspace<S, O, A>,
    /// The number of the planner whose thread was refused last; 0 at first.
    pub(crate) refused: AtomicU64,
}

impl<'s, S: Session, O: Wait + Drop, A: Allocator + Copy + Drop, R, G> Model
    for Shared<'s, S, O, A, R, G> {
    ghost use Rattle.std.specs.Prelude.{◌≡◌, All, map};
    ghost use Rattle.pit_run.specs.Inside.Shared.{SharedState};

    ghost Value = { SharedState };

    ghost view = { λ s. record { retries = s.runner.retries; scripts = map (λ script. script.jobs) s.runner.scripts } };

    ghost invariant = { λ s. All (λ script. script.pit ≡ S.instance) s.runner.scripts };
}

impl<'s, S: Session, O: Wait + Drop, A: Allocator + Copy + Drop, R, G> Shared<'s, S, O, A, R, G> {
    pub(crate) fn new(
        runner: Runner<'s, R, A, G>,
        workspace: &'s Workspace<S, O, A>,
    ) -> Shared<'s, S, O, A, R, G>
        requires { All (λ script. script.pit ≡ S.instance) runner.scripts }
        ensures { result ≡ record { retries = runner.entry.retries; scripts = map (λ script. script.jobs) runner.entry.scripts } }
    {
        Shared {
            runner,
            workspace,
            refused: AtomicU64::new(0),
        }
    }

    /// The script of planner `k + 1`.
    pub(crate) fn script(&self, k: usize) -> &'s Script<A>
        requires { k < length self.now.scripts }
        ensures pit { result.now.pit ≡ S.instance }
        ensures jobs { result.now.jobs ≡ slice_index_or self.now.scripts k [] }
    {
        self.runner.script(k)
    }
}

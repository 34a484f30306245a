ghost use Rattle.std.specs.Prelude.{◌≡◌, ◌<◌, ◌≤◌, [], All, length, map, slice_index_or};
ghost use Rattle.pit_model.specs.Pit.{Pit};
ghost use Rattle.pit_share.specs.declared.new_session.TheConstants.{PLANNERS_MAX};

use pit_script::Script;
use std::alloc::Allocator;
use std::marker::Model;

/// The scripts of all planners, the first planner's first, and what planners do them with. `RETRIES_MAX` is kept.
#[derive(Drop)]
pub(crate) struct Runner<'s, R, A: Allocator + Copy + Drop, G> {
    pub(crate) rt: &'s R,
    pub(crate) alloc: A,
    pub(crate) scripts: &'s [Script<A>],
    pub(crate) retries: u32,
    pub(crate) gate: &'s G,
}

impl<'s, R, A: Allocator + Copy + Drop, G> Model for Runner<'s, R, A, G> {
    ghost use Rattle.std.specs.Prelude.{◌≤◌};
    ghost use Rattle.pit_job.specs.declared.planner_run.TheConstants.{RETRIES_MAX};
    ghost use Rattle.pit_run.specs.Inside.Runner.{RunnerState};

    ghost Value = { RunnerState };

    ghost view = { λ r. record { retries = r.retries; scripts = r.scripts.now } };

    ghost invariant = { λ r. r.retries ≤ RETRIES_MAX };
}

impl<'s, R, A: Allocator + Copy + Drop, G> Runner<'s, R, A, G> {
    /// How many planners there are.
    pub(crate) fn planners(&self) -> u32
        requires { length self.now.scripts ≤ PLANNERS_MAX }
        ensures { result ≡ length self.now.scripts }
    {
        self.scripts.len() as u32
    }

    /// The script of planner `k + 1`.
    pub(crate) fn script(&self, k: usize) -> &'s Script<A>
        requires { k < length self.now.scripts }
        ensures pit { (pit : Pit) → All (λ script. script.pit ≡ pit) self.now.scripts → result.now.pit ≡ pit }
        ensures jobs { result.now.jobs ≡ slice_index_or (map (λ script. script.jobs) self.now.scripts) k [] }
    {
        let scripts = self.scripts;
        &scripts[k]
    }
}

ghost use Rattle.std.specs.Prelude.{◌≡◌, OnOk, OnErr, is_some, length};
ghost use Rattle.pit_script.specs.Jobs.{no_job, with_fact};
ghost use Rattle.pit_script.specs.Ranges.{AreJobsIn};
ghost use Rattle.pit_script.specs.Lines.{MayStand};

use super::benches::Benches;
use super::fact::ScriptFact;
use super::script::Script;
use super::step::{JobEnd, Step};
use pit_num::NoMemory;
use std::alloc::Allocator;
use std::marker::Model;

/// The jobs of the lines that were read, and the one that is open, if one is.
#[derive(Drop)]
pub(crate) struct Draft<A: Allocator + Drop> {
    steps: Vec<Step, A>,
    /// Of each job where its steps end, and how it ends.
    ends: Vec<(usize, JobEnd), A>,
    is_open: bool,
}

impl<A: Allocator + Drop> Model for Draft<A> {
    ghost use Rattle.pit_script.specs.Jobs.{Progress};
    ghost use Rattle.pit_script.specs.Inside.Kept.{progress_in, IsKept};

    ghost Value = { Progress };

    ghost view = { λ d. progress_in d.steps.items d.ends.items d.is_open };

    ghost invariant = { λ d. IsKept d.steps.items d.ends.items d.is_open };
}

impl<A: Allocator + Copy + Drop> Draft<A> {
    /// No job has begun. Takes no memory.
    pub(crate) fn new(alloc: A) -> Draft<A>
        ensures { result ≡ no_job }
    {
        Draft {
            steps: Vec::new(alloc),
            ends: Vec::new(alloc),
            is_open: false,
        }
    }

    pub(crate) fn is_open(&self) -> bool
        ensures { result ≡ is_some self.now.current }
    {
        self.is_open
    }

    /// How many jobs have ended.
    #[tactic(auto, using(crate::proofs::Kept::counts))]
    pub(crate) fn jobs(&self) -> u32
        ensures { result ≡ length self.now.jobs }
    {
        self.ends.len() as u32
    }

    /// Adds what a line says.
    pub(crate) fn add(&mut self, fact: ScriptFact) -> Result<(), NoMemory>
        requires { MayStand (is_some self.old.current) (length self.old.jobs) fact }
        ensures ok { OnOk result (self.new ≡ with_fact self.old fact) }
        ensures err { OnErr result (self.new ≡ self.old) }
    {
        match fact {
            ScriptFact::Begin => {
                self.is_open = true;
                Ok(())
            }
            ScriptFact::Does(step) => {
                self.steps.push(step)?;
                Ok(())
            }
            ScriptFact::Ends(end) => {
                let count = self.steps.len();
                self.ends.push((count, end))?;
                self.is_open = false;
                Ok(())
            }
        }
    }

    /// The script of the jobs that have ended, over the benches of their pit.
    pub(crate) fn into_script(self, benches: Benches<A>) -> Script<A>
        requires { AreJobsIn benches self.jobs }
        ensures { result ≡ record { pit = benches; jobs = self.jobs } }
    {
        Script::of(benches, self.steps, self.ends)
    }
}

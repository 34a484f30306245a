ghost use Rattle.std.specs.Prelude.{◌≡◌, ◌≤◌, ◌<◌, List, All, length, IfOk, MatchResult, ◌⊎◌, Ok};
ghost use Rattle.pit_text.specs.Cutting.{cut_of, end_line};
ghost use Rattle.pit_text.specs.Left.{fields_left};
ghost use Rattle.pit_text.specs.Stands.{StandsFor, StopsAt, FailsFirst, FailsWhole, NamesFault};
ghost use Rattle.pit_text.specs.Inside.Stands.{IsCauseOf};
ghost use Rattle.pit_script.specs.Causes.{script_cause_of};
ghost use Rattle.pit_script.specs.Jobs.{job_at, no_job, progress_of, fact_in, with_fact, script_line, script_end};
ghost use Rattle.pit_script.specs.Inside.Kept.{jobs_in, AreJobEnds, start_from};
ghost use Rattle.pit_script.specs.Ranges.{IsFactIn, IsStepIn, AreJobsIn};
ghost use Rattle.pit_script.specs.Scripts.{StandsForJobs, WantsMemoryAt, IsScriptError};
ghost use Rattle.pit_script.specs.Inside.Ranges.{IsProgressIn};
ghost use Rattle.pit_script.specs.declared.fact.ScriptFact.{ScriptFact as Fact};
ghost use Rattle.pit_script.specs.declared.step.TheConstants.{JOBS_MAX as Most};

use super::benches::Benches;
use super::draft::Draft;
use super::error::{ScriptCause, ScriptError};
use super::line::{line_fact, ranged_fact};
use super::step::{JobEnd, Step};
use pit_model::Instance;
use pit_num::NoMemory;
use pit_text::{Fields, Lines};
use std::alloc::Allocator;
use std::marker::Model;

/// The jobs of one planner, in order, over the benches of the pit that they are for.
#[derive(Drop)]
pub struct Script<A: Allocator + Drop> {
    benches: Benches<A>,
    steps: Vec<Step, A>,
    /// Of each job where its steps end, and how it ends.
    ends: Vec<(usize, JobEnd), A>,
}

impl<A: Allocator + Drop> Model for Script<A> {
    ghost use Rattle.std.specs.Prelude.{length, ◌≤◌};
    ghost use Rattle.pit_script.specs.Inside.Kept.{jobs_in, AreJobEnds};
    ghost use Rattle.pit_script.specs.Ranges.{AreJobsIn};
    ghost use Rattle.pit_script.specs.Scripts.{ScriptState};
    ghost use Rattle.pit_script.specs.declared.step.TheConstants.{JOBS_MAX as Most};

    ghost Value = { ScriptState };

    ghost view = { λ s. record { pit = s.benches; jobs = jobs_in s.steps.items 0 s.ends.items } };

    ghost invariant = { λ s. AreJobEnds 0 (length s.steps.items) s.ends.items × (length s.ends.items ≤ Most)
        × AreJobsIn s.benches (jobs_in s.steps.items 0 s.ends.items) };
}

impl<A: Allocator + Copy + Drop> Script<A> {
    /// Reads a script over a pit, of which the script keeps a share, with benches of its own. Memory is taken for these, and for its steps and its
    /// jobs. That it is out of memory is answered only of a line that has no fault, where none before it has one; or of the end of a text that has no
    /// line.
    pub fn parse(alloc: A, text: &[u8], pit: &Instance<A>) -> Result<Script<A>, ScriptError>
        ensures pit { IfOk result (λ script. script.pit ≡ pit.now) }
        ensures result { MatchResult result (λ script. StandsForJobs pit.now text.now script.jobs) (IsScriptError pit.now text.now) }
    {
        read_with(alloc, text, pit, Benches::of(alloc, pit))
    }

    /// Reads a script over benches, of which the script keeps a share: so one pit's serve many scripts. Memory is taken for its steps and its jobs
    /// alone; that it is out of memory is answered as by `parse`.
    pub fn parse_on(alloc: A, text: &[u8], benches: &Benches<A>) -> Result<Script<A>, ScriptError>
        ensures pit { IfOk result (λ script. script.pit ≡ benches.now) }
        ensures result { MatchResult result (λ script. StandsForJobs benches.now text.now script.jobs) (IsScriptError benches.now text.now) }
    {
        read_with(alloc, text, benches.pit(), benches.share())
    }

    pub(crate) fn of(
        benches: Benches<A>,
        steps: Vec<Step, A>,
        ends: Vec<(usize, JobEnd), A>,
    ) -> Script<A>
        requires ends { AreJobEnds 0 (length steps.items) ends.items }
        requires few { length ends.items ≤ Most }
        requires in_range { AreJobsIn benches (jobs_in steps.items 0 ends.items) }
        ensures { result ≡ record { pit = benches; jobs = jobs_in steps.items 0 ends.items } }
    {
        Script {
            benches,
            steps,
            ends,
        }
    }

    /// The benches of its pit. Takes no memory.
    pub fn benches(&self) -> &Benches<A>
        ensures { result.now ≡ self.now.pit }
    {
        &self.benches
    }

    /// The number of jobs, at most `JOBS_MAX`.
    #[tactic(auto, using(crate::proofs::Kept::counts))]
    pub fn jobs(&self) -> u32
        ensures count { result ≡ length self.now.jobs }
        ensures few { result ≤ Most }
    {
        self.ends.len() as u32
    }

    /// The steps of a job, in order, and how it ends. Each block, period and resource of a step is one of the pit.
    #[tactic(auto, using(crate::proofs::Kept::counts))]
    pub fn job(&self, i: u32) -> (&[Step], JobEnd)
        requires { i < length self.now.jobs }
        ensures job { job_at self.now.jobs i ≡ record { steps = result.0.now; end = result.1 } }
        ensures in_range { All (IsStepIn self.now.pit) result.0.now }
    {
        part_at(self.steps.as_slice(), self.ends.as_slice(), i as usize)
    }
}

/// The steps of a job, and how it ends.
fn part_at<'a>(steps: &'a [Step], ends: &[(usize, JobEnd)], i: usize) -> (&'a [Step], JobEnd)
    requires ends { AreJobEnds 0 (length steps.now) ends.now }
    requires below { i < length ends.now }
    ensures { job_at (jobs_in steps.now 0 ends.now) i ≡ record { steps = result.0.now; end = result.1 } }
{
    let low = start_of(ends, i);
    let (up, end) = ends[i];
    (&steps[low..up], end)
}

/// Where the steps of a job begin.
fn start_of(ends: &[(usize, JobEnd)], i: usize) -> usize
    requires { i < length ends.now }
    ensures { result ≡ start_from 0 ends.now i }
{
    if i == 0 { 0 } else { ends[i - 1].0 }
}

/// Reads a script over benches, where they weren't refused.
fn read_with<A: Allocator + Copy + Drop>(
    alloc: A,
    text: &[u8],
    pit: &Instance<A>,
    benches: Result<Benches<A>, NoMemory>,
) -> Result<Script<A>, ScriptError>
    requires { IfOk benches (λ benches. benches ≡ pit.now) }
    ensures pit { IfOk result (λ script. script.pit ≡ pit.now) }
    ensures result { MatchResult result (λ script. StandsForJobs pit.now text.now script.jobs) (IsScriptError pit.now text.now) }
{
    match benches {
        Ok(benches) => read(alloc, text, benches),
        Err(_) => Err(first_fault(text, pit)),
    }
}

/// Reads a script over benches.
fn read<A: Allocator + Copy + Drop>(
    alloc: A,
    text: &[u8],
    benches: Benches<A>,
) -> Result<Script<A>, ScriptError>
    ensures pit { IfOk result (λ script. script.pit ≡ benches) }
    ensures result { MatchResult result (λ script. StandsForJobs benches text.now script.jobs) (IsScriptError benches text.now) }
{
    let (draft, end) = read_lines(alloc, text, &benches)?;
    if draft.is_open() {
        return Err(ScriptError {
            line: end,
            cause: ScriptCause::Unended,
        });
    }
    Ok(draft.into_script(benches))
}

/// What is answered where the benches are refused. No line asks for a bench before a job is open, so the first line is judged without them.
fn first_fault<A: Allocator + Copy + Drop>(text: &[u8], pit: &Instance<A>) -> ScriptError
    ensures { ((result.cause ≡ ScriptCause.NoMemory) × WantsMemoryAt pit.now text.now result.line)
        ⊎ NamesFault script_cause_of (FailsFirst (script_line pit.now) (cut_of text.now) result.line) result.cause }
{
    let mut lines = Lines::new(text);
    let Some(line) = lines.next() else {
        return ScriptError {
            line: lines.end_line(),
            cause: ScriptCause::NoMemory,
        };
    };
    ScriptError {
        line: line.number,
        cause: first_cause(line.fields, pit),
    }
}

/// What is answered of a first line: what is wrong with it, or else that it is out of memory.
fn first_cause<A: Allocator + Copy + Drop>(fields: Fields<'_>, pit: &Instance<A>) -> ScriptCause
    ensures { IsCauseOf ScriptCause.NoMemory script_cause_of (fact_in pit.now no_job (fields_left fields.entry)) result }
{
    match ranged_fact(fields, false, 0, pit) {
        Ok(_) => ScriptCause::NoMemory,
        Err(fault) => ScriptCause::from(fault),
    }
}

/// What the lines leave, and the number of the end line.
fn read_lines<A: Allocator + Copy + Drop>(
    alloc: A,
    text: &[u8],
    benches: &Benches<A>,
) -> Result<(Draft<A>, u64), ScriptError>
    ensures in_range { IfOk result (λ read. IsProgressIn benches.now read.0) }
    ensures result { let judge = script_line benches.now in MatchResult result
        (λ read. (facts : List Fact) × StandsFor judge (cut_of text.now) facts × (read.0 ≡ progress_of facts) × (read.1 ≡ end_line text.now))
        (λ fault. ((fault.cause ≡ ScriptCause.NoMemory) × StopsAt judge (cut_of text.now) fault.line) ⊎ NamesFault script_cause_of (FailsFirst judge (cut_of text.now) fault.line) fault.cause) }
{
    let mut draft = Draft::new(alloc);
    let mut lines = Lines::new(text);
    while let Some(line) = lines.next() {
        if let Err(cause) = add_line(&mut draft, line.fields, benches) {
            return Err(ScriptError {
                line: line.number,
                cause,
            });
        }
    }
    Ok((draft, lines.end_line()))
}

fn add_line<A: Allocator + Copy + Drop>(
    draft: &mut Draft<A>,
    fields: Fields<'_>,
    benches: &Benches<A>,
) -> Result<(), ScriptCause>
    ensures { MatchResult result
        (λ _. (fact : Fact) × IsFactIn benches.now fact × (fact_in benches.now draft.old (fields_left fields.entry) ≡ Ok fact) × (draft.new ≡ with_fact draft.old fact))
        (λ cause. IsCauseOf ScriptCause.NoMemory script_cause_of (fact_in benches.now draft.old (fields_left fields.entry)) cause) }
{
    let fact = line_fact(fields, draft.is_open(), draft.jobs(), benches)?;
    let Ok(()) = draft.add(fact) else {
        return Err(ScriptCause::NoMemory);
    };
    Ok(())
}

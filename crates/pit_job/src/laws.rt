//! Laws of effects and of runs, each as the contract of a function that does nothing.
ghost use Rattle.std.specs.Prelude.{◌≡◌, ◌≢◌, ℕ, ◌+◌, ◌<◌, ◌≤◌, ℤ, true, List, length, slice_get, Option, Some, All, Contains};
ghost use Rattle.pit_model.specs.Pit.{Pit, IsSound};
ghost use Rattle.pit_plan.specs.Schedule.{Commit};
ghost use Rattle.pit_plan.specs.Breaches.{IsOrdered};
ghost use Rattle.pit_script.specs.declared.step.Way.{Way};
ghost use Rattle.pit_script.specs.declared.step.Step.TheVariants.{Carry};
ghost use Rattle.pit_job.specs.Cones.{Reaches};
ghost use Rattle.pit_job.specs.Carried.{laid_over, members_over, AreMembers, IsPlaced, KeepsOrder};
ghost use Rattle.pit_desk.specs.History.{Answered, commit_of, commits_of};
ghost use Rattle.pit_desk.specs.OneThread.{IsOfOneThread, held_period_after};
ghost use Rattle.pit_desk.specs.declared.reply.EntryReply.TheVariants.{Committed as committed};
ghost use Rattle.pit_desk.specs.declared.reply.Refusal.TheVariants.{Moved};
ghost use Rattle.pit_script.specs.Jobs.{Job};
ghost use Rattle.pit_job.specs.declared.outcome.Outcome.{Outcome};
ghost use Rattle.pit_job.specs.declared.outcome.Outcome.TheVariants.{Refused};
ghost use Rattle.pit_job.specs.declared.outcome.RunEnd.{RunEnd};
ghost use Rattle.pit_job.specs.declared.outcome.RunEnd.TheVariants.{Full};
ghost use Rattle.pit_job.specs.declared.planner_run.TheConstants.{RETRIES_MAX};
ghost use Rattle.pit_job.specs.Effect.{Known, Agrees, Effect, effect, changes, unread, whole, with_bench, is_carried, leads_to, step_after, HasEffect};
ghost use Rattle.pit_job.specs.Runs.{RanFrom, Ran};
ghost use Rattle.pit_job.specs.JobByJob.{of_job, HasOwnEffect, EndsAfter, IsWriter};

/// A law of effects: where a job reads only blocks that a map knows, its effect is the same over each map that agrees with this one.
pub fn one_effect()
    ensures { (pit : Pit) (job : Job) (known more : Known)
        → Agrees known more → effect pit job known ≢ unread → effect pit job more ≡ effect pit job known }
{}

/// A law of histories of one thread: a committed entry that has its job's effect over its reads made the changes that the job makes to the
/// schedule after the entries before it.
pub fn one_by_one()
    ensures { (pit : Pit) (history : List Answered) (value : ℤ) → IsOfOneThread pit history value
        → (k number : ℕ) (e : Answered) (job : Job) → slice_get history k ≡ Some e → e.reply ≡ committed number
        → HasEffect pit job e.call
        → effect pit job (whole (held_period_after history k)) ≡ changes (commit_of e.call) }
{}

/// A law of lines that carry blocks along, over a schedule with the own writes laid over it: they put the members into the period; these are the least
/// set that has the block, where it is late, and each late predecessor of a member (or the same of what is early, and of successors). Where the schedule
/// is in order, they are all that is late (early) of the block and its predecessors (successors), direct and indirect. On any, the block is
/// afterwards in the period or before (of a push: in no period before it), no pair is out of order that wasn't before, and none whose block (of a push:
/// whose predecessor) was put.
pub fn carried_along()
    ensures puts { (pit : Pit) (schedule : ℕ → Option ℕ) (own : Commit) (how : Way) (b t : ℕ)
        → step_after pit (whole schedule) own (Carry how b t) ≡ changes (with_bench own (members_over pit how schedule own b t) t) }
    ensures least { (pit : Pit) → IsSound pit → (schedule : ℕ → Option ℕ) (own : Commit) (how : Way) (b t : ℕ) → b < pit.blocks
        → AreMembers pit how (laid_over schedule own) b t (members_over pit how schedule own b t) }
    ensures reached { (pit : Pit) → IsSound pit → (schedule : ℕ → Option ℕ) (own : Commit) (how : Way) (b t c : ℕ)
        → Contains (members_over pit how schedule own b t) c → Reaches (leads_to pit how) b c × (is_carried how t (Some (laid_over schedule own c)) ≡ true) }
    ensures in_order { (pit : Pit) → IsSound pit → (schedule : ℕ → Option ℕ) (own : Commit) (how : Way) (b t : ℕ) → b < pit.blocks
        → IsOrdered pit (laid_over schedule own) → (c : ℕ) → Reaches (leads_to pit how) b c → is_carried how t (Some (laid_over schedule own c)) ≡ true
        → Contains (members_over pit how schedule own b t) c }
    ensures placed { (pit : Pit) → IsSound pit → (schedule : ℕ → Option ℕ) (own : Commit) (how : Way) (b t : ℕ) → b < pit.blocks
        → IsPlaced how t (laid_over schedule (with_bench own (members_over pit how schedule own b t) t) b) }
    ensures order { (pit : Pit) → IsSound pit → (schedule : ℕ → Option ℕ) (own : Commit) (how : Way) (b t : ℕ) → b < pit.blocks
        → KeepsOrder pit how (laid_over schedule own) (laid_over schedule (with_bench own (members_over pit how schedule own b t) t)) (members_over pit how schedule own b t) }
{}

/// A law of runs: each job's entries are settled by its outcome, each entry has its own job's effect, and the end says how many jobs have
/// an outcome. An end since the history is full comes only where the planner has seen so many entries. An outcome Moved names a commit that was seen,
/// behind all that had been seen before the run, and that writes the block.
pub fn each_job()
    ensures jobs { (pit : Pit) (max_entries retries : ℕ) (old new : List Answered) (jobs : List Job) (es : List Answered) (os : List Outcome) (ended : RunEnd)
        → RanFrom pit max_entries retries old new 1 jobs es os ended
        → (j : ℕ) (task : Job) (o : Outcome) → slice_get jobs j ≡ Some task → slice_get os j ≡ Some o → Ran pit task retries (1 + j) old new (of_job (1 + j) es) o }
    ensures effects { (pit : Pit) (max_entries retries : ℕ) (old new : List Answered) (jobs : List Job) (es : List Answered) (os : List Outcome) (ended : RunEnd)
        → RanFrom pit max_entries retries old new 1 jobs es os ended → All (λ e. HasOwnEffect pit 1 jobs e) es }
    ensures ends { (pit : Pit) (max_entries retries : ℕ) (old new : List Answered) (jobs : List Job) (es : List Answered) (os : List Outcome) (ended : RunEnd)
        → RanFrom pit max_entries retries old new 1 jobs es os ended → EndsAfter 1 jobs os ended }
    ensures full { (pit : Pit) (max_entries retries : ℕ) (old new : List Answered) (jobs : List Job) (es : List Answered) (os : List Outcome) (ended : RunEnd)
        → RanFrom pit max_entries retries old new 1 jobs es os ended → (job : ℕ) → ended ≡ Full job → max_entries ≤ length new }
    ensures moved { (pit : Pit) (max_entries retries : ℕ) (old new : List Answered) (jobs : List Job) (es : List Answered) (os : List Outcome) (ended : RunEnd)
        → RanFrom pit max_entries retries old new 1 jobs es os ended
        → (j block version tries : ℕ) → slice_get os j ≡ Some (Refused (Moved block version) tries) → (length (commits_of old) < version) × IsWriter new version block }
{}

/// A law of runs, in numbers: a job is tried again at most a thousand times.
pub fn retry_limit()
    ensures { RETRIES_MAX ≡ 1000 }
{}

//! Laws of runs.
ghost use Rattle.std.specs.Prelude.{◌≡◌, ℕ, ◌+◌, ◌<◌, ◌≤◌, ℤ, List, slice_get, Some, length, drop, All};
ghost use Rattle.pit_model.specs.Pit.{Pit};
ghost use Rattle.pit_plan.specs.Schedule.{held_period, value_of};
ghost use Rattle.pit_desk.specs.History.{Answered, commits_of};
ghost use Rattle.pit_desk.specs.State.{State};
ghost use Rattle.pit_desk.specs.OneThread.{IsOfOneThread};
ghost use Rattle.pit_desk.specs.declared.reply.Refusal.TheVariants.{Moved};
ghost use Rattle.pit_script.specs.Jobs.{Job};
ghost use Rattle.pit_share.specs.Logs.{entries_of};
ghost use Rattle.pit_job.specs.JobByJob.{IsWriter};
ghost use Rattle.pit_job.specs.declared.outcome.Outcome.TheVariants.{Refused};
ghost use Rattle.pit_job.specs.declared.outcome.RunEnd.TheVariants.{Full};
ghost use Rattle.pit_run.specs.Reports.{RunState, IsReport, RanScript};
ghost use Rattle.pit_run.specs.Turns.{IsInTurn, HadTurns, after_turns};
ghost use Rattle.pit_run.specs.Laws.{IsOneByOne, IsOwnTurn, TookTurns, IsServed};

/// A law of reports: the run of each planner is that of its own script and of its own entries past the opening ones. An end since the history is full
/// comes only where it is. An outcome Moved names a commit of the history past the opening, which writes the block.
pub fn each_planner()
    ensures each { (pit : Pit) (opening : List Answered) (max_entries retries : ℕ) (scripts : List (List Job)) (desk : State) (runs : List RunState) → IsReport pit opening max_entries retries scripts desk runs
        → (p : ℕ) (script : List Job) → slice_get scripts p ≡ Some script → (run : RunState) × (slice_get runs p ≡ Some run)
        × RanScript pit max_entries retries opening desk.history script (1 + p) (entries_of (1 + p) (drop (length opening) desk.history)) run }
    ensures full { (pit : Pit) (opening : List Answered) (max_entries retries : ℕ) (scripts : List (List Job)) (desk : State) (runs : List RunState) → IsReport pit opening max_entries retries scripts desk runs
        → (p job : ℕ) (run : RunState) → slice_get runs p ≡ Some run → run.ended ≡ Full job → length desk.history ≡ max_entries }
    ensures moved { (pit : Pit) (opening : List Answered) (max_entries retries : ℕ) (scripts : List (List Job)) (desk : State) (runs : List RunState) → IsReport pit opening max_entries retries scripts desk runs
        → (p j block version tries : ℕ) (run : RunState) → slice_get runs p ≡ Some run → slice_get run.jobs j ≡ Some (Refused (Moved block version) tries)
        → (length (commits_of opening) < version) × IsWriter desk.history version block }
{}

/// A law of reports: the closed history is one of one thread, in which the committed jobs were done one after another, after the opening. Each
/// committed entry past the opening is of one of the planners, and made the changes that its own job makes to the schedule after the entries before
/// it. The stated value is that of the schedule that is left, in units of 10^-18.
pub fn one_after_another()
    ensures one_thread { (pit : Pit) (opening : List Answered) (max_entries retries : ℕ) (scripts : List (List Job)) (desk : State) (runs : List RunState) → IsReport pit opening max_entries retries scripts desk runs
        → IsOfOneThread pit desk.history (value_of pit (held_period (commits_of desk.history))) }
    ensures one_by_one { (pit : Pit) (opening : List Answered) (max_entries retries : ℕ) (scripts : List (List Job)) (desk : State) (runs : List RunState) → IsReport pit opening max_entries retries scripts desk runs
        → IsOneByOne pit (length opening) scripts desk.history }
{}

/// A law of turns: behind the opening history no entry is of an earlier planner than one before it.
pub fn in_turn()
    ensures { (planners : ℕ) (opening history : List Answered) → IsInTurn planners opening history
        → (i j : ℕ) (e f : Answered) → length opening ≤ i → i ≤ j → slice_get history i ≡ Some e → slice_get history j ≡ Some f
        → e.call.planner ≤ f.call.planner }
{}

/// A law of turns: no job meets a commit. Where planners took turns on a history of one thread, each entry began after just the commits before it. So
/// none was refused as Moved, nor was a job, and each job had one try.
pub fn own_turn()
    ensures { (pit : Pit) (value : ℤ) (opening history : List Answered) (max_entries retries : ℕ) (scripts : List (List Job)) (runs : List RunState)
        → IsOfOneThread pit history value → IsInTurn (length scripts) opening history → HadTurns pit max_entries retries opening history scripts runs
        → (p : ℕ) (run : RunState) → slice_get runs p ≡ Some run
        → IsOwnTurn (after_turns p opening history) (entries_of (1 + p) (drop (length opening) history)) run.jobs }
{}

/// A law of turns: the same scripts end alike. Two runs in turn behind the same history, in which no planner stopped for want of memory or of a place at
/// the board, have the same outcomes and ends, and the same commits.
pub fn same_ends()
    ensures { (pit : Pit) (opening : List Answered) (max_entries retries : ℕ) (scripts : List (List Job)) (history other : List Answered) (runs others : List RunState) (value worth : ℤ)
        → TookTurns pit opening max_entries retries scripts history runs value → TookTurns pit opening max_entries retries scripts other others worth
        → All (λ run. IsServed run.ended) runs → All (λ run. IsServed run.ended) others → (runs ≡ others) × (commits_of history ≡ commits_of other) }
{}

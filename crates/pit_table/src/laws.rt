//! Laws of the definitions, each as the contract of a function that does nothing.
ghost use Rattle.std.specs.Prelude.{◌≡◌, ℕ, ◌<◌, ◌++◌, ◌∷◌, [], ℤ, pos, List, Option, IfSome, IsSome, is_some, count_by};
ghost use Rattle.std.specs.List.{range_with_len};
ghost use Rattle.pit_model.specs.Pit.{Pit};
ghost use Rattle.pit_plan.specs.Sums.{total};
ghost use Rattle.pit_plan.specs.Schedule.{value_of};
ghost use Rattle.pit_step.specs.Devices.{Reading, Writing, HasToldOutcome};
ghost use Rattle.pit_table.specs.Rows.{Row, blocks_in, value_in, rows_of};
ghost use Rattle.pit_table.specs.Table.{table_run};

use pit_lines::laws::{one_history, one_result};

/// A law of rows, where each block that has a period has one of the pit's: the values of all periods add up to the value of the schedule, which is
/// the running total in the last row. The numbers of their blocks add up to the number of blocks that are mined.
pub fn rows_add_up()
    ensures values { (pit : Pit) (schedule : ℕ → Option ℕ) → ((b : ℕ) → b < pit.blocks → IfSome (schedule b) (λ t. t < pit.periods))
        → total (value_in pit schedule) pit.periods ≡ value_of pit schedule }
    ensures last { (pit : Pit) (schedule : ℕ → Option ℕ) (limit : ℕ → ℕ → Option ℤ) (rows : List Row) (row : Row)
        → ((b : ℕ) → b < pit.blocks → IfSome (schedule b) (λ t. t < pit.periods))
        → rows_of pit schedule limit ≡ rows ++ row ∷ [] → row.cumulative ≡ value_of pit schedule }
    ensures blocks { (pit : Pit) (schedule : ℕ → Option ℕ) → ((b : ℕ) → b < pit.blocks → IfSome (schedule b) (λ t. t < pit.periods))
        → total (λ t. pos (blocks_in pit schedule t)) pit.periods ≡ pos (count_by (λ b. is_some (schedule b)) (range_with_len 0 pit.blocks)) }
{}

/// A law of runs: where devices tell their bytes, these say how a run ended, with its status or with which fault.
pub fn one_outcome()
    ensures { (model schedule : Reading) (out : Writing) → HasToldOutcome (model ∷ schedule ∷ []) (IsSome out.before) (table_run model schedule out) }
{
    one_history();
    one_result();
}

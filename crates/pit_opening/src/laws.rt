//! Laws of beginnings.
ghost use Rattle.std.specs.Prelude.{◌≡◌, ◌≢◌, ◌⊎◌};
ghost use Rattle.pit_model.specs.Pit.{Pit};
ghost use Rattle.pit_step.specs.Statuses.{fault_status};
ghost use Rattle.pit_step.specs.declared.fault.CliFault.{CliFault};
ghost use Rattle.pit_step.specs.declared.fault.CliFault.TheVariants.{NoMemory as no_memory};
ghost use Rattle.pit_opening.specs.Beginnings.{Begun, IsOpeningOf, IsOpeningFault};
ghost use Rattle.pit_opening.specs.Openings.{Opened, IsGoodOpening, IsDeskFault};

use pit_desk::{one_desk_error, one_wrong_place};
use pit_lines::laws::{one_history, one_result};

/// A law of beginnings: the text stands for one opening, or is refused for one fault: never both, and never for two, out of memory aside.
pub fn one_beginning()
    ensures some { (pit : Pit) (begun : Begun)
        → ((opening : Opened) × IsOpeningOf pit begun opening) ⊎ ((fault : CliFault) × (fault_status fault ≡ 2) × IsOpeningFault pit begun fault) }
    ensures same { (pit : Pit) (begun : Begun) (opening other : Opened) → IsOpeningOf pit begun opening → IsOpeningOf pit begun other → opening ≡ other }
    ensures apart { (pit : Pit) (begun : Begun) (opening : Opened) (fault : CliFault) → fault ≢ no_memory
        → IsOpeningOf pit begun opening → IsOpeningFault pit begun fault → ⊥ }
    ensures faults { (pit : Pit) (begun : Begun) (fault other : CliFault) → fault ≢ no_memory → other ≢ no_memory
        → IsOpeningFault pit begun fault → IsOpeningFault pit begun other → fault ≡ other }
{
    one_history();
    one_result();
}

/// A law of openings: what a desk is opened with breaks no rule, or is refused for one fault: never both, and never for two, out of memory aside.
pub fn one_opening()
    ensures some { (pit : Pit) (opening : Opened) → IsGoodOpening pit opening ⊎ ((fault : CliFault) × (fault_status fault ≡ 2) × IsDeskFault pit opening fault) }
    ensures apart { (pit : Pit) (opening : Opened) (fault : CliFault) → fault_status fault ≡ 2 → IsGoodOpening pit opening → IsDeskFault pit opening fault → ⊥ }
    ensures same { (pit : Pit) (opening : Opened) (fault other : CliFault) → fault_status fault ≡ 2 → fault_status other ≡ 2
        → IsDeskFault pit opening fault → IsDeskFault pit opening other → fault ≡ other }
{
    one_desk_error();
    one_wrong_place();
}

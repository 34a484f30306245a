//! The bounds of the loads.
ghost use Rattle.std.specs.Prelude.{◌≡◌, ℕ, ℤ, ◌<◌, ◌≤◌, ◌+◌, ◌*◌, List, [], ◌∷◌, ◌++◌};
ghost use Rattle.pit_model.specs.Tightest.{LimitLine, with_line, AreTightest};
ghost use Rattle.std.specs.Int.{int_max, int_min};
ghost use Rattle.pit_num.specs.declared.limits.TheConstants.{PERIODS_MAX};
ghost use Rattle.pit_model.specs.declared.counts.TheConstants.{RESOURCES_MAX};
ghost use Rattle.pit_model.specs.Pit.{Pit, is_below_zero, tighter_bound, empty_pit, with_profit, with_coef, with_preds, with_place};
ghost use Rattle.pit_model.specs.Pit.{tighter_bounds as tighter_bounds_of};
ghost use Rattle.pit_model.specs.Refusals.{is_empty_interval as is_empty};

/// A lower and an upper bound, in millionths, each where one was given.
pub(crate) type Bounds = (Option<i64>, Option<i64>);

/// Where a resource in a period stands in a list by period, and in it by resource.
pub(crate) fn cell_of(resources: u32, r: u32, t: u32) -> usize
    requires resource { r < resources }
    requires resources { resources ≤ RESOURCES_MAX }
    requires period { t < PERIODS_MAX }
    ensures place { result ≡ t * resources + r }
    ensures inside { (periods : ℕ) → t < periods → result < periods * resources }
{
    (t * resources + r) as usize
}

/// Whether an upper bound is below zero, so that only a load below zero meets it.
pub(crate) fn is_below_zero(bound: Option<i64>) -> bool
    ensures { result ≡ is_below_zero bound }
{
    match bound {
        Some(bound) => bound < 0,
        None => false,
    }
}

/// Whether nothing is at least `lo` and at most `hi`.
pub(crate) fn is_empty_interval(lo: Option<i64>, hi: Option<i64>) -> bool
    ensures { result ≡ is_empty lo hi }
{
    match (lo, hi) {
        (Some(lo), Some(hi)) => hi < lo,
        _ => false,
    }
}

/// The bounds that meet both these and the given ones.
pub(crate) fn tighter_bounds(bounds: Bounds, lo: Option<i64>, hi: Option<i64>) -> Bounds
    ensures { result ≡ tighter_bounds_of bounds lo hi }
{
    (greater(bounds.0, lo), lesser(bounds.1, hi))
}

/// A law of bounds, in whatever order the facts of a pit are set: each resource in each period has the greatest lower and the least upper
/// bound that the lines of limits for it give, and none where none of them gives one. Other facts change no bound.
pub fn bounds_are_tightest()
    ensures none { (blocks periods resources rate : ℕ) → AreTightest (empty_pit blocks periods resources rate) [] }
    ensures line { (pit : Pit) (lines : List LimitLine) (line : LimitLine) → line.resource < pit.resources → line.period < pit.periods
        → AreTightest pit lines → AreTightest (with_line pit line) (lines ++ line ∷ []) }
    ensures profit { (pit : Pit) (lines : List LimitLine) (b : ℕ) (v : ℤ) → AreTightest pit lines → AreTightest (with_profit pit b v) lines }
    ensures coef { (pit : Pit) (lines : List LimitLine) (b r : ℕ) (v : ℤ) → AreTightest pit lines → AreTightest (with_coef pit b r v) lines }
    ensures preds { (pit : Pit) (lines : List LimitLine) (b : ℕ) (listed : List ℕ) → AreTightest pit lines → AreTightest (with_preds pit b listed) lines }
    ensures place { (pit : Pit) (lines : List LimitLine) (b : ℕ) (place : ℤ × ℤ × ℤ) → AreTightest pit lines → AreTightest (with_place pit b place) lines }
{}

/// The greater of two bounds, where none is no bound.
fn greater(bound: Option<i64>, other: Option<i64>) -> Option<i64>
    ensures { result ≡ tighter_bound int_max bound other }
{
    match (bound, other) {
        (Some(bound), Some(other)) => Some(bound.max(other)),
        (Some(bound), None) => Some(bound),
        (None, other) => other,
    }
}

/// The lesser of two bounds, where none is no bound.
fn lesser(bound: Option<i64>, other: Option<i64>) -> Option<i64>
    ensures { result ≡ tighter_bound int_min bound other }
{
    match (bound, other) {
        (Some(bound), Some(other)) => Some(bound.min(other)),
        (Some(bound), None) => Some(bound),
        (None, other) => other,
    }
}

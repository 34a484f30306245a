ghost use Rattle.std.specs.Prelude.{◌≡◌, ℕ, ◌+◌, ◌*◌, ◌<◌, ◌≤◌};
ghost use Rattle.pit_num.specs.Rounding.{nearest, IsGreatest};

/// A law of rounding: the whole number nearest to `p / q`, a half upwards, is the greatest `n` with
/// `2 n q <= 2 p + q`, and no other number is.
pub fn nearest_is_greatest()
    ensures greatest { (p q : ℕ) → 0 < q → IsGreatest (λ n. 2 * n * q ≤ 2 * p + q) (nearest p q) }
    ensures alone { (p q n : ℕ) → 0 < q → IsGreatest (λ k. 2 * k * q ≤ 2 * p + q) n → n ≡ nearest p q }
{}

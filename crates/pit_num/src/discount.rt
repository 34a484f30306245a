ghost use Rattle.std.specs.Prelude.{◌≡◌, ℕ, pos, ◌+◌, ◌*◌, ◌^◌, ◌<◌, ◌≤◌, ◌≤ℤ◌, length, IfOk};
ghost use Rattle.pit_num.specs.Factor.{factor};
ghost use Rattle.pit_num.specs.Inside.Factor.{AreFactors};
ghost use Rattle.pit_num.specs.Rounding.{nearest, IsGreatest};

use super::limits::{PERIODS_MAX, RATE_MAX};
use super::memory::NoMemory;
use std::alloc::Allocator;
use std::marker::Model;

/// The factors by which the profits of each period are discounted, in units of 10^-12, as in MineLib (2013).
#[derive(Drop)]
pub struct Discount<A: Allocator> {
    rate: u32,
    factors: Vec<i64, A>,
}

impl<A: Allocator> Model for Discount<A> {
    ghost use Rattle.std.specs.Prelude.{length};
    ghost use Rattle.pit_num.specs.Factor.{Discounting};
    ghost use Rattle.pit_num.specs.Inside.Factor.{AreFactors};

    ghost Value = { Discounting };

    ghost view = { λ discount. record { rate = discount.rate; periods = length discount.factors.items } };

    ghost invariant = { λ discount. AreFactors discount.rate discount.factors.items };
}

impl<A: Allocator> Discount<A> {
    /// The factors of a rate, in millionths, for the periods from 0. Takes the memory of one number a period.
    pub fn new(alloc: A, rate: u32, periods: u32) -> Result<Discount<A>, NoMemory>
        requires rate { rate ≤ RATE_MAX }
        requires periods { periods ≤ PERIODS_MAX }
        ensures { IfOk result (λ discount. (discount.rate ≡ rate) × (discount.periods ≡ periods)) }
    {
        let factors = table(alloc, rate, periods)?;
        Ok(Discount { rate, factors })
    }

    /// The rate, in millionths.
    pub fn rate(&self) -> u32
        ensures { result ≡ self.now.rate }
    {
        self.rate
    }

    /// The factor of a period, in units of 10^-12. The first period's is one.
    #[inline]
    pub fn factor(&self, t: u32) -> i64
        requires { t < self.now.periods }
        ensures value { result ≡ pos (factor self.now.rate t) }
        ensures low { pos 0 ≤ℤ result }
        ensures high { result ≤ℤ pos (10 ^ 12) }
    {
        self.factors[t as usize]
    }
}

fn table<A: Allocator>(alloc: A, rate: u32, periods: u32) -> Result<Vec<i64, A>, NoMemory>
    requires rate { rate ≤ RATE_MAX }
    requires periods { periods ≤ PERIODS_MAX }
    ensures { IfOk result (λ factors. (length factors.items ≡ periods) × AreFactors rate factors.items) }
{
    let mut factors = Vec::with_capacity(alloc, periods as usize)?;
    let mut factor = 1_000_000_000_000u64;
    for _ in 0..periods {
        factors.push(factor as i64)?;
        factor = next(rate, factor);
    }
    Ok(factors)
}

fn next(rate: u32, factor: u64) -> u64
    requires rate { rate ≤ RATE_MAX }
    requires factor { factor ≤ 10 ^ 12 }
    ensures value { result ≡ nearest (factor * 10 ^ 6) (10 ^ 6 + rate) }
    ensures bound { result ≤ 10 ^ 12 }
{
    let divisor = 1_000_000 + u64::from(rate);
    (2 * factor * 1_000_000 + divisor) / (2 * divisor)
}

/// A law of the factors: the first is 10^12, and the one after a factor `f` is the greatest `n` with `2 n (1 + rate) <= 2 f + (1 + rate)`. So it is
/// the quotient `f / (1 + rate)`, rounded half up.
pub fn factor_is_greatest()
    ensures first { (rate : ℕ) → factor rate 0 ≡ 10 ^ 12 }
    ensures next { (rate t : ℕ) → IsGreatest
        (λ n. 2 * n * (10 ^ 6 + rate) ≤ 2 * factor rate t * 10 ^ 6 + 10 ^ 6 + rate)
        (factor rate (t + 1)) }
{}

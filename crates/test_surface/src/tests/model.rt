//! `pit_model`: a pit that is put together fact by fact, and read.
use BuildError::{BlockRange, Interval, PeriodRange, Repeated, ResourceRange};
use pit_model::{BuildError, Builder, Instance};
use pit_num::NoMemory;
use std::alloc::Global;
use std::process::Abort;

#[test]
fn a_pit_is_what_was_told(rt: HostRuntime) {
    let pit = limited(&rt, rt.alloc());
    let is = is_limited(&pit);
    drop(pit);
    assert!(rt; is);
}

/// Two blocks, the second after the first, in two periods. In period 1 the limit is below zero, and can't be met where nothing is mined.
pub(super) fn limited(rt: &impl Abort, alloc: Global) -> Instance<Global> {
    let mut builder = match Builder::new(alloc, 2, 2, 1, 100_000) {
        Ok(builder) => builder,
        Err(NoMemory) => panic!(rt; "no memory"),
    };
    let answer = told(&mut builder);
    assert_told(rt, answer);
    assert_refused(rt, &mut builder);
    match builder.build() {
        Ok(pit) => pit,
        Err((_builder, NoMemory)) => panic!(rt; "no memory"),
    }
}

fn assert_told(rt: &impl Abort, answer: Result<(), BuildError>) {
    match answer {
        Ok(()) => {}
        Err(BuildError::NoMemory) => panic!(rt; "no memory"),
        Err(_) => panic!(rt; "refused"),
    }
}

fn told(builder: &mut Builder<Global>) -> Result<(), BuildError> {
    builder.set_profit(1, 20_500_000)?;
    builder.set_coef(1, 0, 3_000_000)?;
    builder.set_preds(1, &[1, 0, 0])?;
    builder.add_limit(0, 0, None, Some(9_000_000))?;
    builder.add_limit(0, 0, Some(1_000_000), Some(4_000_000))?;
    builder.add_limit(0, 1, None, Some(-1))?;
    builder.set_place(1, 1_000_000, 0, 2_000_000)
}

fn assert_refused(rt: &impl Abort, builder: &mut Builder<Global>) {
    assert!(rt; (builder.blocks(), builder.periods(), builder.resources()) == (2, 2, 1));
    assert!(rt; are_refused(builder));
}

fn are_refused(builder: &mut Builder<Global>) -> bool {
    builder.set_profit(2, 0) == Err(BlockRange)
        && builder.set_coef(0, 1, 0) == Err(ResourceRange)
        && builder.add_limit(0, 2, None, None) == Err(PeriodRange)
        && builder.set_profit(1, 20_500_000) == Err(Repeated)
        && builder.add_limit(0, 0, Some(5), Some(4)) == Err(Interval)
}

/// The factor is 10^18 / 1100000.
fn is_limited(pit: &Instance<Global>) -> bool {
    if pit.blocks() != 2 || pit.periods() != 2 || pit.resources() != 1 {
        return false;
    }
    (pit.profit(1), pit.factor(1)) == (20_500_000, 909_090_909_091)
        && (pit.place(0), pit.place(1)) == (None, Some((1_000_000, 0, 2_000_000)))
        && (pit.lower(0, 0), pit.lower(0, 1)) == (Some(1_000_000), None)
        && (pit.upper(0, 0), pit.unmeetable()) == (Some(4_000_000), Some((0, 1)))
        && pit.coefs(1) == [(0, 3_000_000)].as_slice()
        && (pit.preds(1), pit.succs(0)) == ([0].as_slice(), [1].as_slice())
}

//! `pit_plan`: a plan that grows by writes and revisions.
use super::tiny::tiny;
use pit_num::NoMemory;
use pit_plan::{Breach, Plan, Short};
use std::alloc::Global;
use std::process::Abort;

#[test]
fn a_plan_grows_by_writes_and_revisions(rt: HostRuntime) {
    let mut plan = match Plan::empty(rt.alloc(), tiny(&rt, rt.alloc())) {
        Ok(plan) => plan,
        Err((_pit, NoMemory)) => panic!(rt; "no memory"),
    };
    write(&rt, &mut plan);
    assert_judged(&rt, &plan);
    assert_short(&rt, &plan);
    assert_revised(&rt, &mut plan);
    let pit = plan.into_instance();
    let blocks = pit.blocks();
    drop(pit);
    assert!(rt; blocks == 4);
}

/// Blocks 0 and 1 are added in period 0.
fn write(rt: &impl Abort, plan: &mut Plan<Global>) {
    assert!(rt; plan.instance().blocks() == 4);
    assert!(rt; plan.instance().periods() == 2);
    assert!(rt; plan.commits() == 0);
    assert!(rt; plan.apply(&[(0, Some(0)), (1, Some(0))], &[]) == Ok(()));
}

/// Their value is -10 + 20.5, in units of 10^-18, and their load 2 + 2, in millionths.
fn is_written(plan: &Plan<Global>) -> bool {
    let pit = plan.instance();
    if pit.blocks() != 4 || pit.periods() != 2 || pit.resources() != 1 {
        return false;
    }
    (plan.period(1), plan.period(3)) == (Some(0), None)
        && (plan.commits(), plan.version(1), plan.version(3)) == (1, 1, 0)
        && (plan.load(0, 0), plan.value()) == (4_000_000, 10_500_000_000_000_000_000)
}

const OVER: Breach = Breach::Over {
    resource: 0,
    period: 0,
    load: 5_000_000,
    limit: 4_000_000,
};

pub(super) const BEHIND: Breach = Breach::Precedence {
    block: 1,
    before: 0,
};

const SHORT: Short = Short {
    resource: 0,
    period: 1,
    load: 0,
    limit: 1_000_000,
};

/// Block 3 may not be put into period 0, nor block 0 be taken away from before block 1.
fn assert_judged(rt: &impl Abort, plan: &Plan<Global>) {
    assert!(rt; is_written(plan));
    assert!(rt; plan.instance().blocks() == 4);
    assert!(rt; plan.instance().periods() == 2);
    let None = plan.check() else {
        panic!(rt; "a breach");
    };
    assert!(rt; plan.judge(&[(3, Some(0))], &[]) == Ok(Some(OVER)));
    assert!(rt; plan.judge(&[(0, None)], &[]) == Ok(Some(BEHIND)));
}

/// At least 1 is wanted in period 1.
fn assert_short(rt: &impl Abort, plan: &Plan<Global>) {
    let shorts = plan.shortfalls().expect(rt, "memory");
    let is_short = shorts.as_slice() == [SHORT].as_slice();
    drop(shorts);
    assert!(rt; is_short);
}

/// From the next commit on, 5 may be loaded in period 0.
fn assert_revised(rt: &impl Abort, plan: &mut Plan<Global>) {
    assert!(rt; first_limit(plan) == Some(4_000_000));
    assert!(rt; plan.instance().resources() == 1);
    assert!(rt; plan.instance().periods() == 2);
    assert!(rt; plan.commits() == 1);
    assert!(rt; plan.apply(&[], &[(0, 0, Some(5_000_000))]) == Ok(()));
    assert!(rt; first_limit(plan) == Some(5_000_000));
}

/// How much of the one resource may be loaded in period 0, in millionths.
pub(super) fn first_limit(plan: &Plan<Global>) -> Option<i64> {
    let pit = plan.instance();
    if pit.resources() != 1 || pit.periods() != 2 {
        return None;
    }
    plan.limit(0, 0)
}

//! `pit_tx`: what a transaction has read, written and revised.
use pit_num::NoMemory;
use pit_tx::{LimitMap, PeriodMap, Work, WorkError};
use std::alloc::Global;
use std::process::Abort;

/// A block, with its period or none.
pub(super) type Pair = (u32, Option<u32>);

#[test]
fn a_work_keeps_first_reads_and_last_writes(rt: HostRuntime) {
    let reads = [(3, Some(1)), (3, None)];
    let writes = [(2, Some(0)), (3, None), (2, Some(1))];
    let mut work = work_of(&rt, rt.alloc(), (7, &reads, 3, &writes));
    assert_filled(&rt, &mut work);
    drop(work);
}

/// A job, what it has read after so many commits, and what it writes.
pub(super) type Call<'a> = (u32, &'a [Pair], u32, &'a [Pair]);

/// What planner 1 does for a job, on four blocks, two periods and one resource.
pub(super) fn work_of(rt: &impl Abort, alloc: Global, call: Call<'_>) -> Work<Global> {
    let (job, reads, start, writes) = call;
    let mut work = match Work::new(alloc, 1, job, start, 4, 2, 1) {
        Ok(work) => work,
        Err(NoMemory) => panic!(rt; "no memory"),
    };
    let answer = filled(&mut work, reads, writes);
    assert_done(rt, answer);
    work
}

fn assert_done(rt: &impl Abort, answer: Result<(), WorkError>) {
    match answer {
        Ok(()) => {}
        Err(WorkError::NoMemory) => panic!(rt; "no memory"),
        Err(_) => panic!(rt; "refused"),
    }
}

fn filled(work: &mut Work<Global>, reads: &[Pair], writes: &[Pair]) -> Result<(), WorkError> {
    for (block, period) in reads {
        work.note(*block, *period)?;
    }
    for (block, period) in writes {
        put(work, *block, *period)?;
    }
    Ok(())
}

fn put(work: &mut Work<Global>, block: u32, period: Option<u32>) -> Result<(), WorkError> {
    match period {
        Some(t) => work.put(block, t),
        None => work.clear(block),
    }
}

/// Whether it knows what was read and written, and refuses what is out of range.
fn is_kept(work: &mut Work<Global>) -> bool {
    (work.known(0), work.known(3)) == (None, Some(None))
        && work.put(4, 0) == Err(WorkError::NoBlock)
        && work.put(3, 2) == Err(WorkError::NoPeriod)
}

fn assert_filled(rt: &impl Abort, work: &mut Work<Global>) {
    assert!(rt; (work.planner(), work.job(), work.start()) == (1, 7, 3));
    assert!(rt; (work.blocks(), work.periods(), work.resources()) == (4, 2, 1));
    assert!(rt; is_kept(work));
    assert!(rt; has_pairs(work.reads(), &[(3, Some(1))]));
    assert!(rt; has_pairs(work.writes(), &[(2, Some(1)), (3, None)]));
}

/// Whether a set has these pairs, in this order.
pub(super) fn has_pairs(set: &PeriodMap<Global>, pairs: &[Pair]) -> bool {
    for at in 0..pairs.len() {
        match set.get_index(at) {
            Some((block, period)) if (*block, *period) == pairs[at] => {}
            _ => return false,
        }
    }
    set.len() == pairs.len()
}

#[test]
fn a_work_keeps_the_last_revision(rt: HostRuntime) {
    let mut work = work_of(&rt, rt.alloc(), (7, &[], 3, &[]));
    assert_revised(&rt, &mut work);
    drop(work);
}

fn assert_revised(rt: &impl Abort, work: &mut Work<Global>) {
    assert!(rt; is_revised(work));
    assert!(rt; has_limit(work.revises(), (0, 1), None));
}

fn is_revised(work: &mut Work<Global>) -> bool {
    work.revise(1, 2, None) == Err(WorkError::NoResource)
        && work.revise(0, 2, None) == Err(WorkError::NoPeriod)
        && work.revise(0, 1, Some(5_000_000)) == Ok(())
        && work.revise(0, 1, None) == Ok(())
}

/// Whether a set has the limit of this resource in this period, and no other.
pub(super) fn has_limit(set: &LimitMap<Global>, place: (u32, u32), limit: Option<i64>) -> bool {
    match set.get_index(0) {
        Some((first, upper)) => set.len() == 1 && *first == place && *upper == limit,
        None => false,
    }
}

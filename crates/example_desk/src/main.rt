//! Two planners read that nobody mines block 0 yet, and each puts it into a period. The first to commit gets it; the other is refused, since what
//! it read has changed. Shows a pit put together by hand, a desk opened on it, and the desk's history, in the lines that `pit replay` reads.
#![tactic(auto)]

use pit_book::{Desk, Refusal, Reply, to_lines};
use pit_model::{BuildError, Builder, Instance};
use pit_tx::Work;
use std::alloc::Global;
use std::io::Write;

fn main(rt: HostRuntime) -> Result<(), &'static str> {
    shared(&rt, rt.alloc()).ok_or("no memory, or no output")
}

fn shared(rt: &HostRuntime, alloc: Global) -> Option<()> {
    let mut desk = Desk::open(alloc, small_pit(alloc)?, &[], 100).ok()?;
    let answer = share(rt, alloc, &mut desk);
    drop(desk);
    answer
}

/// Both planners read before one of them commits.
fn share(rt: &HostRuntime, alloc: Global, desk: &mut Desk<Global>) -> Option<()> {
    let first = work_of(alloc, desk, 1, 0)?;
    let second = work_of(alloc, desk, 2, 1)?;
    commit(rt, desk, first)?;
    commit(rt, desk, second)?;
    print_lines(rt, alloc, desk)
}

fn print_lines(rt: &HostRuntime, alloc: Global, desk: &Desk<Global>) -> Option<()> {
    let lines = to_lines(alloc, desk.history()).ok()?;
    rt.stdout().write_all(&lines).ok()
}

/// Block 1 lies under block 0. They are worth -1 and 8, and each loads the mill by 2, which takes 3 in the first of two periods; in millionths.
fn small_pit(alloc: Global) -> Option<Instance<Global>> {
    let mut pit = Builder::new(alloc, 2, 2, 1, 100_000).ok()?;
    tell(&mut pit).ok()?;
    pit.build().ok()
}

fn tell(pit: &mut Builder<Global>) -> Result<(), BuildError> {
    for (block, profit) in [(0, -1_000_000), (1, 8_000_000)] {
        pit.set_profit(block, profit)?;
        pit.set_coef(block, 0, 2_000_000)?;
    }
    pit.set_preds(1, &[0])?;
    pit.add_limit(0, 0, None, Some(3_000_000))
}

/// A planner's job 1, behind all commits so far: it notes the period of block 0, and puts the block into another.
fn work_of(alloc: Global, desk: &Desk<Global>, planner: u32, period: u32) -> Option<Work<Global>> {
    let plan = desk.plan();
    let (start, pit) = (plan.commits(), plan.instance());
    let (blocks, periods, resources) = (pit.blocks(), pit.periods(), pit.resources());
    let mut work = Work::new(alloc, planner, 1, start, blocks, periods, resources).ok()?;
    work.note(0, plan.period(0)).ok()?;
    work.put(0, period).ok()?;
    Some(work)
}

fn commit(rt: &impl Print, desk: &mut Desk<Global>, work: Work<Global>) -> Option<()> {
    let planner = work.planner();
    if !desk.fits(&work) {
        return None;
    }
    match desk.commit(work).ok()? {
        Reply::Committed { number } => println!(rt; "planner {planner}: commit {number}").ok(),
        Reply::Refused(Refusal::Moved { block, version }) => {
            println!(rt; "planner {planner}: block {block} was changed by commit {version}").ok()
        }
        Reply::Refused(why) => println!(rt; "planner {planner}: {why:?}").ok(),
    }
}

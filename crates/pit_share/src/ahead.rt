//! What a planner looks at before it takes the lock.
ghost use Rattle.std.specs.Prelude.{◌<◌, All};

use pit_model::Instance;
use std::alloc::Allocator;

/// The greatest number of writes that are looked at. A commit of more holds the lock for long in any case, and what the pit has of all its blocks
/// wouldn't stay in the caches.
const AHEAD_MAX: usize = 32;

/// The greatest number of predecessors, and of successors, of a block that are looked at. A block may have millions, which would empty the caches.
const NEIGHBOURS_MAX: usize = 64;

/// Reads what the pit has of the first written blocks. Under the lock these are read again, and by then they are in the processor's caches. So the
/// holder of the lock doesn't wait for main memory, and the other planners wait less. The answer depends on all that was read, so that the compiler
/// can't leave the look out.
pub(crate) fn look_ahead<A: Allocator + Copy + Drop>(
    pit: &Instance<A>,
    writes: &[(u32, Option<u32>)],
) -> u32
    requires { All (λ w. w.0 < pit.now.blocks) writes.now }
{
    let mut mark = 0;
    for k in 0..writes.len().min(AHEAD_MAX) {
        mark ^= mark_of(pit, writes[k].0);
    }
    mark
}

/// A number that depends on what the pit has of a block.
fn mark_of<A: Allocator + Copy + Drop>(pit: &Instance<A>, b: u32) -> u32
    requires { b < pit.now.blocks }
{
    let mut mark = u32::from(pit.profit(b) > 0);
    for other in pit.preds(b).iter().take(NEIGHBOURS_MAX) {
        mark ^= *other;
    }
    for other in pit.succs(b).iter().take(NEIGHBOURS_MAX) {
        mark ^= *other;
    }
    for (resource, _) in pit.coefs(b) {
        mark ^= *resource;
    }
    mark
}

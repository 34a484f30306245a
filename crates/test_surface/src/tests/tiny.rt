//! The small pit, as texts. In whole units its profits are -10, 20.5, 30 and 5, and its blocks load 2, 2, 3 and 1.
use pit_book::Desk;
use pit_model::{Builder, Instance};
use pit_num::Out;
use pit_text::{read_blocks, read_model, read_precedence};
use std::alloc::Global;
use std::process::Abort;

/// At most 4 may be loaded in a period, and at least 1 in period 1.
pub(super) const MODEL: &[u8] =
    b"TYPE: CPIT\nNBLOCKS: 4\nNPERIODS: 2\nNRESOURCE_SIDE_CONSTRAINTS: 1\nDISCOUNT_RATE: 0.1
OBJECTIVE_FUNCTION:\n0 -10\n1 20.5\n2 30\n3 5
RESOURCE_CONSTRAINT_COEFFICIENTS:\n0 0 2\n1 0 2\n2 0 3\n3 0 1
RESOURCE_CONSTRAINT_LIMITS:\n0 0 L 4\n0 1 I 1 4\nEOF\n";

/// Block 1 comes after block 0, and block 2 after both.
pub(super) const PRECEDENCE: &[u8] = b"0 0\n1 1 0\n2 2 0 1\n3 0\n";

/// Blocks 0 and 3 lie at height 2, block 1 below them, and block 2 at the bottom.
pub(super) const BLOCKS: &[u8] = b"0 0 0 2\n1 0 0 1\n2 0 0 0\n3 1 0 2\n";

/// A planner puts blocks 0 and 1 into period 0, then block 3, which is too much, and then block 3 into period 1.
pub(super) const SCRIPT: &[u8] =
    b"begin\nput 0 0\nput 1 0\ncommit\nbegin\nput 3 0\ncommit\nbegin\nput 3 1\ncommit\n";

/// What that leaves.
pub(super) const HISTORY: &[u8] = b"{\"format\":1}
{\"act\":\"commit\",\"job\":1,\"planner\":1,\"reads\":[],\"reply\":{\"committed\":1},\"start\":0,\"writes\":[[0,0],[1,0]]}
{\"act\":\"commit\",\"job\":2,\"planner\":1,\"reads\":[],\"reply\":{\"over\":[0,0,\"5000000\",\"4000000\"]},\"start\":1,\"writes\":[[3,0]]}
{\"act\":\"commit\",\"job\":3,\"planner\":1,\"reads\":[],\"reply\":{\"committed\":2},\"start\":1,\"writes\":[[3,1]]}
";

/// What blocks 0, 1 and 3 are then worth, in units of 10^-18: -10 + 20.5 + 5 * 0.909090909091.
pub(super) const WORTH: i128 = 15_045_454_545_455_000_000;

/// A history in which 5 may be loaded in period 0 from the second commit on. That this becomes 4 again is refused.
pub(super) const REVISED: &[u8] = b"{\"format\":2}
{\"act\":\"commit\",\"job\":1,\"planner\":1,\"reads\":[],\"reply\":{\"committed\":1},\"revises\":[],\"start\":0,\"writes\":[[0,0],[1,0]]}
{\"act\":\"commit\",\"job\":2,\"planner\":1,\"reads\":[],\"reply\":{\"committed\":2},\"revises\":[[0,0,\"5000000\"]],\"start\":1,\"writes\":[[3,0]]}
{\"act\":\"commit\",\"job\":3,\"planner\":1,\"reads\":[],\"reply\":{\"over\":[0,0,\"5000000\",\"4000000\"]},\"revises\":[[0,0,\"4000000\"]],\"start\":2,\"writes\":[]}
";

/// A history whose first commit has another number than 1.
pub(super) const CHANGED: &[u8] = b"{\"format\":1}
{\"act\":\"commit\",\"job\":1,\"planner\":1,\"reads\":[],\"reply\":{\"committed\":2},\"start\":0,\"writes\":[[0,0],[1,0]]}
";

/// Whether a device was given this text.
pub(super) fn is_written(out: Out<Vec<u8>>, text: &[u8]) -> bool {
    let written = out.into_inner();
    let is_text = written.as_slice() == text;
    drop(written);
    is_text
}

/// The facts of the small pit.
pub(super) fn tiny_builder(rt: &impl Abort, alloc: Global) -> Builder<Global> {
    let builder = read_model(alloc, MODEL).expect(rt, "a model");
    let builder = read_precedence(alloc, PRECEDENCE, builder).expect(rt, "precedences");
    read_blocks(BLOCKS, builder).expect(rt, "places")
}

pub(super) fn tiny(rt: &impl Abort, alloc: Global) -> Instance<Global> {
    let answer = tiny_builder(rt, alloc).build();
    answer.ok().expect(rt, "a pit")
}

/// A desk of the small pit, with no start, that may have so many entries.
pub(super) fn empty_desk(rt: &impl Abort, alloc: Global, max_entries: u32) -> Desk<Global> {
    let answer = Desk::open(alloc, tiny(rt, alloc), &[], max_entries);
    answer.ok().expect(rt, "a desk")
}

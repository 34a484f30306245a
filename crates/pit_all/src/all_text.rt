//! The lines of `check --all`.
ghost use Rattle.std.specs.Prelude.{◌≡◌, OnOk};
ghost use Rattle.std.specs.Io.KnownBytes.{Appends};
ghost use Rattle.pit_all.specs.AllText.{out_text, outs_text, more_text, overs_text, is_fine as fine_of, broken_text, end_text, listing_text, listing_status as status_by};

use crate::out_of_order::OutOfOrder;
use crate::outs::{Outs, PAIRS_SHOWN};
use pit_num::{Sink, WriteFault, write_text};
use pit_plan::{Breach, Short};
use pit_step::{Status, write_breach, write_field, write_line, write_period, write_shorts};
use std::alloc::Allocator;

/// The value, the pairs that are shown and how many more there are, the loads above their limits, the shortfalls, and `fine`, or how many there
/// are of each.
pub(crate) fn write_listing<W: Sink, A: Allocator + Copy + Drop>(
    w: &mut W,
    value: i128,
    outs: &Outs<A>,
    overs: &[Breach],
    shorts: &[Short],
) -> Result<(), WriteFault>
    ensures { OnOk result (Appends (W.contents w.old) (W.contents w.new) (listing_text value outs.now.first outs.now.count overs.now shorts.now)) }
{
    write_text(w, b"value ")?;
    write_line(w, value)?;
    write_outs(w, outs.first())?;
    write_more(w, outs.count())?;
    write_overs(w, overs)?;
    write_shorts(w, shorts)?;
    write_end(w, outs.count(), overs.len() as u64, shorts.len() as u64)
}

/// The status that goes with these lines, by how many there are of each.
pub(crate) fn listing_status(broken: u64, over: u64, short: u64) -> Status
    ensures { result ≡ status_by broken over short }
{
    if is_fine(broken, over, short) {
        Status::Fine
    } else {
        Status::Failed
    }
}

fn is_fine(broken: u64, over: u64, short: u64) -> bool
    ensures { result ≡ fine_of broken over short }
{
    broken == 0 && over == 0 && short == 0
}

/// A line for each pair.
fn write_outs<W: Sink>(w: &mut W, outs: &[OutOfOrder]) -> Result<(), WriteFault>
    ensures { OnOk result (Appends (W.contents w.old) (W.contents w.new) (outs_text outs.now)) }
{
    for pair in outs {
        write_out(w, *pair)?;
    }
    Ok(())
}

/// `precedence B A T S`, with the periods of both.
#[tactic(auto, unfolding(crate::specs::AllText::out_text))]
fn write_out<W: Sink>(w: &mut W, pair: OutOfOrder) -> Result<(), WriteFault>
    ensures { OnOk result (Appends (W.contents w.old) (W.contents w.new) (out_text pair)) }
{
    write_text(w, b"precedence ")?;
    write_field(w, u64::from(pair.block), b" ")?;
    write_field(w, u64::from(pair.before), b" ")?;
    write_period(w, pair.period, b" ")?;
    write_period(w, pair.earlier, b"\n")
}

/// How many pairs are not shown, where any are.
fn write_more<W: Sink>(w: &mut W, count: u64) -> Result<(), WriteFault>
    ensures { OnOk result (Appends (W.contents w.old) (W.contents w.new) (more_text count)) }
{
    if count <= PAIRS_SHOWN {
        return write_text(w, b"");
    }
    write_text(w, b"more ")?;
    write_field(w, count - PAIRS_SHOWN, b"\n")
}

/// A line for each load.
fn write_overs<W: Sink>(w: &mut W, overs: &[Breach]) -> Result<(), WriteFault>
    ensures { OnOk result (Appends (W.contents w.old) (W.contents w.new) (overs_text overs.now)) }
{
    for over in overs {
        write_breach(w, Some(*over))?;
    }
    Ok(())
}

/// `fine`, or how many there are of each.
fn write_end<W: Sink>(w: &mut W, broken: u64, over: u64, short: u64) -> Result<(), WriteFault>
    ensures { OnOk result (Appends (W.contents w.old) (W.contents w.new) (end_text broken over short)) }
{
    if is_fine(broken, over, short) {
        return write_text(w, b"fine\n");
    }
    write_broken(w, broken, over, short)
}

/// `broken N over N short N`.
#[tactic(auto, unfolding(crate::specs::AllText::broken_text))]
fn write_broken<W: Sink>(w: &mut W, broken: u64, over: u64, short: u64) -> Result<(), WriteFault>
    ensures { OnOk result (Appends (W.contents w.old) (W.contents w.new) (broken_text broken over short)) }
{
    write_text(w, b"broken ")?;
    write_field(w, broken, b" ")?;
    write_text(w, b"over ")?;
    write_field(w, over, b" ")?;
    write_text(w, b"short ")?;
    write_field(w, short, b"\n")
}

//! The lines of `info`.
ghost use Rattle.std.specs.Prelude.{◌++◌, OnOk};
ghost use Rattle.std.specs.Io.KnownBytes.{Appends};
ghost use Rattle.pit_info.specs.Figures.{unlimited_of};
ghost use Rattle.pit_info.specs.InfoText.{count_text, size_text, amounts_text, order_text, places_text, unless_text, unlimited_text, unmeetable_text};

use crate::blocks::{coefficients, highest, pairs, places, profits, roots};
use crate::limits::{is_limited, lowers, uppers};
use pit_model::Deposit;
use pit_num::{Sink, WriteFault, write_text};
use pit_step::{write_amount, write_field, write_period};
use std::alloc::Allocator;

/// The lines of a pit, of how many benches it has where that was asked for, of its first limit that can't be met, and those of the unknown keys.
pub(crate) fn write_info<W: Sink, A: Allocator + Copy + Drop>(
    w: &mut W,
    pit: &Deposit<A>,
    benches: Option<u64>,
    unmeetable: Option<(u32, u32)>,
    unknown: &[u8],
) -> Result<(), WriteFault>
    ensures { OnOk result (Appends (W.contents w.old) (W.contents w.new)
        (size_text pit.now ++ (amounts_text pit.now ++ (order_text pit.now ++ (places_text pit.now benches ++ (unlimited_text (unlimited_of pit.now) ++ (unmeetable_text unmeetable ++ unknown.now))))))) }
{
    write_size(w, pit)?;
    write_amounts(w, pit)?;
    write_order(w, pit)?;
    write_places(w, pit, benches)?;
    write_unlimited(w, pit)?;
    write_unmeetable(w, unmeetable)?;
    write_text(w, unknown)
}

/// How large it is, and its discount rate in units.
#[tactic(auto, unfolding(crate::specs::InfoText::size_text))]
fn write_size<W: Sink, A: Allocator + Copy + Drop>(
    w: &mut W,
    pit: &Deposit<A>,
) -> Result<(), WriteFault>
    ensures { OnOk result (Appends (W.contents w.old) (W.contents w.new) (size_text pit.now)) }
{
    write_count(w, b"blocks ", u64::from(pit.blocks()))?;
    write_count(w, b"periods ", u64::from(pit.periods()))?;
    write_count(w, b"resources ", u64::from(pit.resources()))?;
    write_text(w, b"rate ")?;
    write_amount(w, i128::from(pit.rate()), b"\n")
}

/// What isn't 0, and what is limited.
#[tactic(auto, unfolding(crate::specs::InfoText::amounts_text))]
fn write_amounts<W: Sink, A: Allocator + Copy + Drop>(
    w: &mut W,
    pit: &Deposit<A>,
) -> Result<(), WriteFault>
    ensures { OnOk result (Appends (W.contents w.old) (W.contents w.new) (amounts_text pit.now)) }
{
    write_count(w, b"profits ", profits(pit))?;
    write_count(w, b"coefficients ", coefficients(pit))?;
    write_count(w, b"lower ", lowers(pit))?;
    write_count(w, b"upper ", uppers(pit))
}

/// The pairs of a block and its predecessor.
#[tactic(auto, unfolding(crate::specs::InfoText::order_text))]
fn write_order<W: Sink, A: Allocator + Copy + Drop>(
    w: &mut W,
    pit: &Deposit<A>,
) -> Result<(), WriteFault>
    ensures { OnOk result (Appends (W.contents w.old) (W.contents w.new) (order_text pit.now)) }
{
    write_count(w, b"pairs ", pairs(pit))?;
    write_count(w, b"roots ", roots(pit))?;
    write_text(w, b"highest ")?;
    write_period(w, highest(pit), b"\n")
}

/// The places and the benches, where these were asked for.
fn write_places<W: Sink, A: Allocator + Copy + Drop>(
    w: &mut W,
    pit: &Deposit<A>,
    benches: Option<u64>,
) -> Result<(), WriteFault>
    ensures { OnOk result (Appends (W.contents w.old) (W.contents w.new) (places_text pit.now benches)) }
{
    let Some(benches) = benches else {
        return write_text(w, b"");
    };
    write_count(w, b"places ", places(pit))?;
    write_count(w, b"benches ", benches)
}

/// A line for each resource without an upper limit.
fn write_unlimited<W: Sink, A: Allocator + Copy + Drop>(
    w: &mut W,
    pit: &Deposit<A>,
) -> Result<(), WriteFault>
    ensures { OnOk result (Appends (W.contents w.old) (W.contents w.new) (unlimited_text (unlimited_of pit.now))) }
{
    for r in 0..pit.resources() {
        write_unless(w, r, is_limited(pit, r))?;
    }
    Ok(())
}

/// The line of a resource, unless it has an upper limit.
fn write_unless<W: Sink>(w: &mut W, r: u32, is_limited: bool) -> Result<(), WriteFault>
    ensures { OnOk result (Appends (W.contents w.old) (W.contents w.new) (unless_text is_limited r)) }
{
    if is_limited {
        return write_text(w, b"");
    }
    write_count(w, b"unlimited ", u64::from(r))
}

/// The first limit that can't be met, where there is one.
fn write_unmeetable<W: Sink>(w: &mut W, unmeetable: Option<(u32, u32)>) -> Result<(), WriteFault>
    ensures { OnOk result (Appends (W.contents w.old) (W.contents w.new) (unmeetable_text unmeetable)) }
{
    let Some(found) = unmeetable else {
        return write_text(w, b"");
    };
    write_text(w, b"unmeetable ")?;
    write_field(w, u64::from(found.0), b" ")?;
    write_field(w, u64::from(found.1), b"\n")
}

/// A word with a space behind it, and a number.
fn write_count<W: Sink>(w: &mut W, word: &[u8], n: u64) -> Result<(), WriteFault>
    ensures { OnOk result (Appends (W.contents w.old) (W.contents w.new) (count_text word.now n)) }
{
    write_text(w, word)?;
    write_field(w, n, b"\n")
}

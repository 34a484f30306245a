//! The lines of breaches and shortfalls.
ghost use Rattle.std.specs.Prelude.{◌≡◌, ◌++◌, ◌∷◌, [], OnOk, codes, decimal};
ghost use Rattle.std.specs.Io.KnownBytes.{Appends};
ghost use Rattle.pit_step.specs.LineTexts.{load_words, breach_words, breach_text, short_text, shorts_text, field_text};

use crate::fields::{write_amount, write_field};
use pit_num::{Sink, WriteFault, write_micro, write_text, write_whole};
use pit_plan::{Breach, Short};

/// The line of a breach, where there is one.
pub fn write_breach<W: Sink>(w: &mut W, breach: Option<Breach>) -> Result<(), WriteFault>
    ensures { OnOk result (Appends (W.contents w.old) (W.contents w.new) (breach_text breach)) }
{
    let Some(breach) = breach else {
        return write_text(w, b"");
    };
    write_breach_words(w, breach)?;
    write_text(w, b"\n")
}

/// `precedence B A`, or `over R T LOAD LIMIT` with load and limit in units.
pub fn write_breach_words<W: Sink>(w: &mut W, breach: Breach) -> Result<(), WriteFault>
    ensures { OnOk result (Appends (W.contents w.old) (W.contents w.new) (breach_words breach)) }
{
    match breach {
        Breach::Precedence { block, before } => write_precedence(w, block, before),
        Breach::Over {
            resource,
            period,
            load,
            limit,
        } => write_over(w, resource, period, load, limit),
    }
}

fn write_precedence<W: Sink>(w: &mut W, block: u32, before: u32) -> Result<(), WriteFault>
    ensures { OnOk result (Appends (W.contents w.old) (W.contents w.new) (codes "precedence " ++ (field_text block 32 ++ decimal before))) }
{
    write_text(w, b"precedence ")?;
    write_field(w, u64::from(block), b" ")?;
    write_whole(w, before)
}

fn write_over<W: Sink>(
    w: &mut W,
    resource: u32,
    period: u32,
    load: i128,
    limit: i64,
) -> Result<(), WriteFault>
    ensures { OnOk result (Appends (W.contents w.old) (W.contents w.new) (codes "over " ++ load_words resource period load limit)) }
{
    write_text(w, b"over ")?;
    write_load(w, resource, period, load, i128::from(limit))
}

/// A line for each shortfall.
pub fn write_shorts<W: Sink>(w: &mut W, shorts: &[Short]) -> Result<(), WriteFault>
    ensures { OnOk result (Appends (W.contents w.old) (W.contents w.new) (shorts_text shorts.now)) }
{
    for short in shorts {
        write_short(w, *short)?;
    }
    Ok(())
}

fn write_short<W: Sink>(w: &mut W, short: Short) -> Result<(), WriteFault>
    ensures { OnOk result (Appends (W.contents w.old) (W.contents w.new) (short_text short)) }
{
    write_text(w, b"short ")?;
    write_load(
        w,
        short.resource,
        short.period,
        short.load,
        i128::from(short.limit),
    )?;
    write_text(w, b"\n")
}

/// `R T LOAD LIMIT`, where load and limit are given in millionths, and printed in units.
#[tactic(auto, unfolding(crate::specs::LineTexts::load_words))]
fn write_load<W: Sink>(
    w: &mut W,
    resource: u32,
    period: u32,
    load: i128,
    limit: i128,
) -> Result<(), WriteFault>
    ensures { OnOk result (Appends (W.contents w.old) (W.contents w.new) (load_words resource period load limit)) }
{
    write_field(w, u64::from(resource), b" ")?;
    write_field(w, u64::from(period), b" ")?;
    write_amount(w, load, b" ")?;
    write_micro(w, limit)
}

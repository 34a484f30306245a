//! The fields of a line: a number, or `-` where there is none, and what stands behind it.
ghost use Rattle.std.specs.Prelude.{◌++◌, ◌∷◌, OnOk, decimal};
ghost use Rattle.std.specs.Io.KnownBytes.{Appends};
ghost use Rattle.pit_num.specs.Printed.{fixed_text};
ghost use Rattle.pit_step.specs.LineTexts.{period_text, limit_text};

use itoa::Buffer;
use pit_num::{Sink, WriteFault, write_micro, write_text, write_value};

/// A whole number.
pub fn write_field<W: Sink>(w: &mut W, n: u64, end: &[u8]) -> Result<(), WriteFault>
    ensures { OnOk result (Appends (W.contents w.old) (W.contents w.new) (decimal n ++ end.now)) }
{
    let mut buffer = Buffer::new();
    write_text(w, buffer.format(n).as_bytes())?;
    write_text(w, end)?;
    Ok(())
}

/// A period.
pub fn write_period<W: Sink>(w: &mut W, period: Option<u32>, end: &[u8]) -> Result<(), WriteFault>
    ensures { OnOk result (Appends (W.contents w.old) (W.contents w.new) (period_text period end.now)) }
{
    let Some(t) = period else {
        return write_none(w, end);
    };
    write_field(w, u64::from(t), end)
}

/// A number of millionths, printed in units.
pub fn write_amount<W: Sink>(w: &mut W, z: i128, end: &[u8]) -> Result<(), WriteFault>
    ensures { OnOk result (Appends (W.contents w.old) (W.contents w.new) (fixed_text 6 z ++ end.now)) }
{
    write_micro(w, z)?;
    write_text(w, end)?;
    Ok(())
}

/// A limit, in millionths, printed in units.
pub fn write_limit<W: Sink>(w: &mut W, limit: Option<i64>, end: &[u8]) -> Result<(), WriteFault>
    ensures { OnOk result (Appends (W.contents w.old) (W.contents w.new) (limit_text limit end.now)) }
{
    let Some(z) = limit else {
        return write_none(w, end);
    };
    write_amount(w, i128::from(z), end)
}

/// A value, in units of 10^-18.
pub fn write_worth<W: Sink>(w: &mut W, value: i128, end: &[u8]) -> Result<(), WriteFault>
    ensures { OnOk result (Appends (W.contents w.old) (W.contents w.new) (fixed_text 18 value ++ end.now)) }
{
    write_value(w, value)?;
    write_text(w, end)?;
    Ok(())
}

/// A `-`.
fn write_none<W: Sink>(w: &mut W, end: &[u8]) -> Result<(), WriteFault>
    ensures { OnOk result (Appends (W.contents w.old) (W.contents w.new) (45 ∷ end.now)) }
{
    write_text(w, b"-")?;
    write_text(w, end)?;
    Ok(())
}

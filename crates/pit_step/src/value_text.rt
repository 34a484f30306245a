//! The lines of values.
ghost use Rattle.std.specs.Prelude.{◌≡◌, ◌++◌, OnOk, codes};
ghost use Rattle.std.specs.Io.KnownBytes.{Appends};
ghost use Rattle.pit_step.specs.LineTexts.{value_text, shorts_text};

use super::lines::write_shorts;
use pit_num::{Sink, WriteFault, write_text, write_value};
use pit_plan::Short;

/// The line `value V`, and the lines of shortfalls.
pub fn write_value_lines<W: Sink>(
    w: &mut W,
    value: i128,
    shorts: &[Short],
) -> Result<(), WriteFault>
    ensures { OnOk result (Appends (W.contents w.old) (W.contents w.new) (codes "value " ++ (value_text value ++ shorts_text shorts.now))) }
{
    write_text(w, b"value ")?;
    write_line(w, value)?;
    write_shorts(w, shorts)
}

/// A value and a line feed.
pub fn write_line<W: Sink>(w: &mut W, value: i128) -> Result<(), WriteFault>
    ensures { OnOk result (Appends (W.contents w.old) (W.contents w.new) (value_text value)) }
{
    write_value(w, value)?;
    write_text(w, b"\n")
}

ghost use Rattle.std.specs.Prelude.{◌<◌, ◌≤◌, decimal};
ghost use Rattle.pit_num.specs.Printed.{unsigned_text, fixed_text, WritesText, WritesIfAny};

use super::sink::Sink;
use itoa::{Buffer, write_digits};

/// A device failed while it was written to. It then holds what it held before, and behind that a prefix of the text.
#[derive(Clone, Copy, Debug, PartialEq, Eq)]
pub struct WriteFault;

/// Writes a value, in units of 10^-18: a `-` where it is negative, the whole part without leading zeros, a point and
/// 18 digits. Takes no memory.
pub fn write_value<W: Sink>(w: &mut W, value: i128) -> Result<(), WriteFault>
    ensures { WritesText W.contents W.has_failed w.old w.new (fixed_text 18 value) result }
{
    write_fixed(w, value, 18)
}

/// Writes a load or a limit, in millionths: the same with 6 digits. Takes no memory.
pub fn write_micro<W: Sink>(w: &mut W, value: i128) -> Result<(), WriteFault>
    ensures { WritesText W.contents W.has_failed w.old w.new (fixed_text 6 value) result }
{
    write_fixed(w, value, 6)
}

/// Writes a whole number. Takes no memory.
pub fn write_whole<W: Sink>(w: &mut W, n: u32) -> Result<(), WriteFault>
    ensures { WritesText W.contents W.has_failed w.old w.new (decimal n) result }
{
    let mut buffer = Buffer::new();
    write_text(w, buffer.format(n).as_bytes())
}

/// Writes a number in units of 10^-`places`.
fn write_fixed<W: Sink>(w: &mut W, value: i128, places: u32) -> Result<(), WriteFault>
    requires { (0 < places) × (places ≤ 18) }
    ensures { WritesText W.contents W.has_failed w.old w.new (fixed_text places value) result }
{
    let magnitude = value.unsigned_abs();
    if value < 0 {
        write_text(w, b"-")?;
        return write_unsigned(w, magnitude, places);
    }
    write_unsigned(w, magnitude, places)
}

/// The same of a number that isn't negative.
fn write_unsigned<W: Sink>(w: &mut W, n: u128, places: u32) -> Result<(), WriteFault>
    requires { (0 < places) × (places ≤ 18) }
    ensures { WritesText W.contents W.has_failed w.old w.new (unsigned_text places n) result }
{
    let unit = 10u128.pow(places);
    let mut buffer = Buffer::new();
    write_text(w, buffer.format(n / unit).as_bytes())?;
    let mut digits = [b'0'; 19];
    digits[0] = b'.';
    let end = 1 + places as usize;
    let _ = write_digits((n % unit) as u64, &mut digits, end);
    write_text(w, &digits[..end])
}

/// Gives a device the whole text. Of an empty one it gives nothing, so that such a text is no fault of any device.
pub fn write_text<W: Sink>(w: &mut W, text: &[u8]) -> Result<(), WriteFault>
    ensures { WritesIfAny W.contents W.has_failed w.old w.new text.now result }
{
    let mut rest = text;
    while !rest.is_empty() {
        match w.give(rest) {
            Ok(n) => rest = &rest[n..],
            Err(_) => return Err(WriteFault),
        }
    }
    Ok(())
}

ghost use Rattle.std.specs.Prelude.{◌≡◌, ◌+◌, ◌<◌, ◌≤◌, ◌++◌, None, IsTrue, OnErr, IfOk, length, take, drop, slice_index_or};
ghost use Rattle.pit_num.specs.Printed.{AppendsFront, WritesIfAny};
ghost use Rattle.pit_text.specs.Solution.{schedule_of};
ghost use Rattle.pit_text.specs.SolutionText.{line_text, solution_text};
ghost use Rattle.pit_text.specs.Inside.SolutionText.{slot_text, Gathers};

use itoa::write_digits;
use pit_num::{Sink, WriteFault, write_text};

/// The bytes of the longest line: a number of twenty digits, a space, one of ten, and a line feed.
const LINE_MAX: usize = 32;

/// How many bytes are gathered before they are given to a device.
const CHUNK: usize = 8192;

/// Writes a schedule as a solution: for each block that has a period, by rising block, a line `b t`. Takes no memory.
pub fn write_solution<W: Sink>(w: &mut W, periods: &[Option<u32>]) -> Result<(), WriteFault>
    ensures { let text = solution_text (schedule_of (length periods.now) (λ b. slice_index_or periods.now b None)) in
        WritesIfAny W.contents W.has_failed w.old w.new text result }
{
    let mut chunk = [0; CHUNK];
    write_lines(w, &mut chunk, periods)
}

/// The same by way of a chunk that holds a line at least.
fn write_lines<W: Sink>(
    w: &mut W,
    chunk: &mut [u8],
    periods: &[Option<u32>],
) -> Result<(), WriteFault>
    requires { LINE_MAX ≤ length chunk.old }
    ensures { let text = solution_text (schedule_of (length periods.now) (λ b. slice_index_or periods.now b None)) in
        WritesIfAny W.contents W.has_failed w.old w.new text result }
{
    let mut held = 0;
    for (block, slot) in periods.iter().enumerate() {
        held = gather_slot(w, chunk, held, block, *slot)?;
    }
    write_text(w, &chunk[..held])
}

/// Gathers the line of a block, where it has a period, and answers how many bytes are held.
fn gather_slot<W: Sink>(
    w: &mut W,
    chunk: &mut [u8],
    len: usize,
    block: usize,
    slot: Option<u32>,
) -> Result<usize, WriteFault>
    requires held { len ≤ length chunk.old }
    requires room { LINE_MAX ≤ length chunk.old }
    ensures ok { IfOk result (λ end. Gathers (W.contents w.old) (W.contents w.new) (take len chunk.old) (slot_text block slot) (take end chunk.new)) }
    ensures within { IfOk result (λ end. end ≤ length chunk.old) }
    ensures held { IfOk result (λ end. 0 < length (slot_text block slot) → 0 < end) }
    ensures none { slot ≡ None → (result ≡ Ok len) × (w.new ≡ w.old) × (chunk.new ≡ chunk.old) }
    ensures err { OnErr result (AppendsFront (W.contents w.old) (W.contents w.new) (take len chunk.old)) }
    ensures some { OnErr result (0 < length (slot_text block slot)) }
    ensures fault { OnErr result (IsTrue (W.has_failed w.new)) }
{
    match slot {
        None => Ok(len),
        Some(period) => {
            let mut buffer = [0; LINE_MAX];
            let start = write_line(block, period, &mut buffer);
            gather(w, chunk, len, &buffer[start..])
        }
    }
}

/// Writes a line so that it ends where the buffer does, and answers where it starts.
fn write_line(block: usize, period: u32, buffer: &mut [u8; LINE_MAX]) -> usize
    ensures start { result < LINE_MAX }
    ensures written { drop result buffer.new ≡ line_text (block, period) }
{
    let end = LINE_MAX - 1;
    buffer[end] = b'\n';
    let space = write_digits(period as u64, buffer, end) - 1;
    buffer[space] = b' ';
    write_digits(block as u64, buffer, space)
}

/// Puts a line behind what is held, and answers how many bytes are held then. Where it has no room the device is given what
/// was held before.
fn gather<W: Sink>(
    w: &mut W,
    chunk: &mut [u8],
    len: usize,
    line: &[u8],
) -> Result<usize, WriteFault>
    requires held { len ≤ length chunk.old }
    requires room { length line.now ≤ length chunk.old }
    ensures ok { IfOk result (λ end. Gathers (W.contents w.old) (W.contents w.new) (take len chunk.old) line.now (take end chunk.new)) }
    ensures within { IfOk result (λ end. (length line.now ≤ end) × (end ≤ length chunk.old)) }
    ensures err { OnErr result (AppendsFront (W.contents w.old) (W.contents w.new) (take len chunk.old)) }
    ensures fault { OnErr result (IsTrue (W.has_failed w.new)) }
{
    if line.len() <= chunk.len() - len {
        return Ok(put(chunk, len, line));
    }
    write_text(w, &chunk[..len])?;
    Ok(put(chunk, 0, line))
}

/// Puts a line behind what is held.
fn put(chunk: &mut [u8], len: usize, line: &[u8]) -> usize
    requires { len + length line.now ≤ length chunk.old }
    ensures end { result ≡ len + length line.now }
    ensures written { take result chunk.new ≡ take len chunk.old ++ line.now }
{
    let end = len + line.len();
    chunk[len..end].copy_from_slice(line);
    end
}

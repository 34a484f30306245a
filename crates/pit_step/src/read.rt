ghost use Rattle.std.specs.Prelude.{◌≡◌, ℕ, ◌<◌, ◌≤◌, ◌↔◌, List, IsTrue, IfOk, IfErr, IsErrOf, length};
ghost use Rattle.std.specs.Io.KnownBytes.{Consumes, IsAtEnd};

use pit_num::Source;
use std::alloc::Allocator;

/// Why an input isn't read.
#[derive(Clone, Copy, Debug, PartialEq, Eq)]
pub enum ReadError {
    /// The device failed.
    Read,
    /// More than `INPUT_BYTES_MAX` bytes came.
    TooLong,
    /// Memory ran out.
    NoMemory,
}

/// The greatest number of bytes of one input.
pub const INPUT_BYTES_MAX: usize = 4_294_967_296;

/// A law of inputs, in numbers: at most 4 GiB.
pub fn input_limit()
    ensures { INPUT_BYTES_MAX ≡ 4294967296 }
{}

/// How many bytes are asked of a device at once.
const CHUNK: usize = 65_536;

/// All bytes that a source has left, in order. Takes the memory of the bytes, so none where there are none. What a source gave before an
/// error is gone.
pub fn read_all<A: Allocator, R: Source>(alloc: A, source: &mut R) -> Result<Vec<u8, A>, ReadError>
    ensures bytes { IfOk result (λ text. Consumes (R.remaining source.old) (R.remaining source.new) text.items) }
    ensures end { IfOk result (λ text. IsAtEnd (R.remaining source.new)) }
    ensures short { IfOk result (λ text. length text.items ≤ INPUT_BYTES_MAX) }
    ensures read { IsErrOf result ReadError.Read ↔ IsTrue (R.has_failed source.new) }
    ensures long { IsErrOf result ReadError.TooLong → (text : List ℕ) × (INPUT_BYTES_MAX < length text) × Consumes (R.remaining source.old) (R.remaining source.new) text }
    ensures memory { IsErrOf result ReadError.NoMemory → (text : List ℕ) × (0 < length text) × Consumes (R.remaining source.old) (R.remaining source.new) text }
    ensures err { IfErr result (λ error. (text : List ℕ) × Consumes (R.remaining source.old) (R.remaining source.new) text) }
{
    let mut text = Vec::new(alloc);
    let mut chunk = [0u8; CHUNK];
    while text.len() <= INPUT_BYTES_MAX {
        match source.take(&mut chunk) {
            Ok(0) => return Ok(text),
            Ok(n) => {
                if text.extend_from_slice(&chunk[..n]).is_err() {
                    return Err(ReadError::NoMemory);
                }
            }
            Err(_) => return Err(ReadError::Read),
        }
    }
    Err(ReadError::TooLong)
}

//! A text that is gathered in memory, and given to a device at once.
ghost use Rattle.std.specs.Prelude.{◌≡◌, [], IsOk, IfOk};

use pit_num::{NoMemory, Out, WriteFault};
use std::alloc::Allocator;

/// A text to which lines are written. This fails only where it is out of memory.
pub type Text<A> = Out<Vec<u8, A>>;

/// A text in which nothing is yet. Takes no memory.
pub fn empty_text<A: Allocator>(alloc: A) -> Text<A>
    ensures { result.writer.items ≡ [] }
{
    Out::new(Vec::new(alloc))
}

/// The bytes of a text, where all that was to be written to it was.
pub fn gathered<A: Allocator + Drop>(
    text: Text<A>,
    written: Result<(), WriteFault>,
) -> Result<Vec<u8, A>, NoMemory>
    ensures { IfOk result (λ bytes. IsOk written × (bytes.items ≡ text.writer.items)) }
{
    match written {
        Ok(()) => Ok(text.into_inner()),
        Err(_) => Err(NoMemory),
    }
}

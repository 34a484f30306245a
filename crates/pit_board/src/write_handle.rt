//! A ruled writer with the handle by which it waits.
ghost use Rattle.std.specs.Prelude.{◌≡◌};

use crossbeam_utils::rule::Protocol;
use left_right::Absorb;
use left_right::writer::Writer;
use std::alloc::Allocator;
use std::sync::Wait;

/// A ruled writer, which waits for readers when it is dropped, and the handle for that. The destructor stands on a generic type, since one of `BoardWriter`
/// would put its bound on whatever drops that.
pub(crate) struct RuledWriteHandle<
    T: Absorb<O> + Drop,
    O: Drop,
    V,
    P: Protocol<T, V>,
    R: Wait + Drop,
    A: Allocator,
> {
    pub(crate) writer: Writer<T, O, V, P, A>,
    pub(crate) rt: R,
}

impl<T: Absorb<O> + Drop, O: Drop, V, P: Protocol<T, V>, R: Wait + Drop, A: Allocator> Drop
    for RuledWriteHandle<T, O, V, P, R, A> {
    fn drop(self) {
        let Self { writer, rt } = self;
        drop(writer.take(&rt));
    }
}

impl<
    T: Absorb<O> + Drop,
    O: Drop,
    V,
    P: Protocol<T, V>,
    R: Wait + Drop,
    A: Allocator,
> RuledWriteHandle<T, O, V, P, R, A> {
    /// Both apart, for a call that takes the writer by value.
    pub(crate) fn into_parts(self) -> (Writer<T, O, V, P, A>, R)
        ensures { result.0 ≡ self.writer }
    {
        let Self { writer, rt } = self;
        (writer, rt)
    }
}

use pit_step::Input;
use std::io;
use std::io::ErrorKind;

/// What the words of the command line name, to be looked at again.
pub trait Given {
    /// The path of an input, as it was given; none where the words name no such input.
    fn path(&self, input: Input) -> Option<&str>;

    /// The path of the history that is written, new or carried on.
    fn history(&self) -> Option<&str>;

    /// Why that history can't be written, where the system tells without a try.
    fn history_refusal(&self) -> Option<ErrorKind>;

    /// The number of the process that has that history open to write it, where the system tells.
    fn holder(&self) -> Option<u32>;

    /// The bytes of an input, or why it can't be read.
    fn read(&self, input: Input) -> io::Result<Vec<u8>>;
}

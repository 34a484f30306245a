/// Why a history's file can't be prepared.
#[derive(Clone, Copy, Debug, PartialEq, Eq)]
pub enum FileFault {
    /// Another program writes it.
    InUse,
    /// A step failed, or what stands at a name can't be written.
    CannotWrite,
    /// There is no memory for a name.
    NoMemory,
}

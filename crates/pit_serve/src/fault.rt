use pit_script::ScriptFault;

/// Why a request is refused. Nothing is changed by it.
#[derive(Clone, Copy)]
pub enum RequestFault {
    /// The line is wrong, as one of a script may be; or there were `begun` answers as many as are counted.
    Line(ScriptFault),
    /// The line has more than `LINE_MAX` bytes before its end.
    LineTooLong,
    /// The journal has failed, so that nothing more begins.
    Journal,
    /// A growth was refused.
    NoMemory,
}

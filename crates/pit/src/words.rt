//! The words of the command line.
use crate::fault::Fault;
use clap::error::ErrorKind;
use pit_command::refusal;
use std::alloc::AllocError;
use std::io;

/// The words, the program's name first.
pub fn words(rt: &HostRuntime) -> Result<Vec<String>, Fault> {
    let words = match std::env::args(rt) {
        Ok(words) => words,
        Err(error) if error.kind() == io::ErrorKind::OutOfMemory => {
            return Err(Fault::from(AllocError));
        }
        Err(_) => return Err(Fault::from(refusal(rt.alloc(), ErrorKind::InvalidValue))),
    };
    Ok(words.collect(rt.alloc())?)
}

//! The streams of a planner, over the system's files.
ghost use Rattle.std.specs.Prelude.{◌≡◌, ◌∷◌};
ghost use Rattle.pit_file.specs.Inputs.{is_input};

use super::host_paths::{identity_behind, identity_of};
use super::identity::{FileIdentity, is_among};
use super::streams::StreamFault;
use pit_num::Failed;
use std::fs::{File, OpenOptions};
use std::io::{self, BufReader, Read, Stdin, Stdout, Write};

/// Where the files lead to that the standard streams are.
const STANDARD_INPUT: &str = "/dev/fd/0";

const STANDARD_OUTPUT: &str = "/dev/fd/1";

/// Where requests come from.
#[derive(Drop)]
pub enum HostInput {
    /// From standard input.
    Standard(Stdin),
    /// From a file or a pipe.
    File(File),
}

impl Read for HostInput {
    fn read(&mut self, buf: &mut [u8]) -> io::Result<usize> {
        match self {
            HostInput::Standard(stdin) => stdin.read(buf),
            HostInput::File(file) => file.read(buf),
        }
    }
}

/// Where replies go.
#[derive(Drop)]
pub enum HostOutput {
    /// To standard output.
    Standard(Stdout),
    /// To the end of a file, or to a pipe.
    File(File),
}

impl Write for HostOutput {
    fn write(&mut self, buf: &[u8]) -> io::Result<usize> {
        match self {
            HostOutput::Standard(stdout) => stdout.write(buf),
            HostOutput::File(file) => file.write(buf),
        }
    }

    fn flush(&mut self) -> io::Result<()> {
        match self {
            HostOutput::Standard(stdout) => stdout.flush(),
            HostOutput::File(file) => file.flush(),
        }
    }
}

/// Opens the streams of a planner: the input, to be read, and then the output, to be written behind what it holds, which is made where it isn't there.
/// Without paths they are the standard streams. The output may be none of the files of these identities, and not the input.
pub fn open_streams(
    rt: &HostRuntime,
    paths: Option<(&str, &str)>,
    others: &[Option<FileIdentity>],
) -> Result<(BufReader<HostInput>, HostOutput), StreamFault> {
    let Ok((input, read)) = opened_input(rt, paths) else {
        return Err(StreamFault::NoStream);
    };
    let Ok((output, written)) = opened_output(rt, paths) else {
        return Err(StreamFault::NoStream);
    };
    if is_taken(written, read, others) {
        return Err(StreamFault::NoStream);
    }
    match BufReader::new(rt.alloc(), input) {
        Ok(input) => Ok((input, output)),
        Err(_) => Err(StreamFault::NoMemory),
    }
}

/// Whether the file of an output is that of its input, or one of the others.
fn is_taken(
    output: Option<FileIdentity>,
    input: Option<FileIdentity>,
    others: &[Option<FileIdentity>],
) -> bool
    ensures { result ≡ is_input output (input ∷ others.now) }
{
    is_among(output, &[input]) || is_among(output, others)
}

fn opened_input(
    rt: &HostRuntime,
    paths: Option<(&str, &str)>,
) -> Result<(HostInput, Option<FileIdentity>), Failed> {
    let Some((path, _)) = paths else {
        let identity = identity_behind(rt, STANDARD_INPUT)?;
        return Ok((HostInput::Standard(rt.stdin()), identity));
    };
    let Ok(file) = File::open(rt, path) else {
        return Err(Failed);
    };
    let identity = identity_of(&file)?;
    Ok((HostInput::File(file), identity))
}

fn opened_output(
    rt: &HostRuntime,
    paths: Option<(&str, &str)>,
) -> Result<(HostOutput, Option<FileIdentity>), Failed> {
    let Some((_, path)) = paths else {
        let identity = identity_behind(rt, STANDARD_OUTPUT)?;
        return Ok((HostOutput::Standard(rt.stdout()), identity));
    };
    let Ok(file) = OpenOptions::new().append(true).create(true).open(rt, path) else {
        return Err(Failed);
    };
    let identity = identity_of(&file)?;
    Ok((HostOutput::File(file), identity))
}
